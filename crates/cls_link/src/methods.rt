//! The instance methods that classes select.

ghost use Rattle.std.specs.Prelude.{◌≡◌, ◌<◌, ◌∷◌, [], IfSome, length};
ghost use Rattle.cls_link.specs.Selections as selections;
ghost use Rattle.cls_search.specs.Searches.{Finds, superclass_of};
ghost use Rattle.cls_set.specs.Sets.{IsClassSet};

use super::{Linked, MethodId};
use cls_set::{ClassId, Flags};

fn instance_method(
    linked: &Linked,
    class: ClassId,
    name: &[u8],
    descriptor: &[u8],
) -> Option<MethodId>
    requires in_set { class.0 < length linked.now.classes }
    ensures found { result ≡ selections.instance_method linked.now.classes name.now descriptor.now class }
    ensures within { IfSome result (λ id. id.0 < length linked.now.methods) }
{
    let method = linked.declared_method(class, name, descriptor)?;
    if linked.declaration(method).flags.has(Flags::STATIC) {
        return None;
    }
    Some(method)
}

// The instance method that a class, or the first superclass that has one, declares with this name and
// descriptor.
pub(crate) fn selected(
    linked: &Linked,
    class: ClassId,
    name: &[u8],
    descriptor: &[u8],
) -> Option<MethodId>
    requires set { IsClassSet linked.now.classes }
    requires in_set { class.0 < length linked.now.classes }
    ensures found { Finds (superclass_of linked.now.classes) (selections.instance_method linked.now.classes name.now descriptor.now) (class ∷ []) result }
    ensures within { IfSome result (λ id. id.0 < length linked.now.methods) }
{
    if let Some(method) = instance_method(linked, class, name, descriptor) {
        return Some(method);
    }
    match linked.set().class(class).superclass {
        Some(superclass) => selected(linked, superclass, name, descriptor),
        None => None,
    }
}
