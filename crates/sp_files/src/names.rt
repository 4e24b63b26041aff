//! The methods that texts name in the classes of a program.

ghost use Rattle.std.specs.Prelude.{◌≡◌, ◌≤◌, ◌<◌, length, IfOk, IsSome};
ghost use Rattle.cls_link.specs.Numbers.{number_in};
ghost use Rattle.cls_search.specs.MethodSearches.{method_in};
ghost use Rattle.cls_set.specs.Sets.{IsClassSet};
ghost use Rattle.sp_files.specs.Names.{NamesMethod, NamesSplit};

use cls_link::{Linked, MethodId};
use cls_resolve::MemberIndex;
use cls_search::{MethodIndex, find_method};
use cls_set::{ClassId, ClassSet};
use std::alloc::{AllocError, Global};
use vm_step::Program;

/// Returns the method that a text names, as `f(I)I`, in the class of this name, or in a class or interface above
/// it, if there is one (JVMS 5.4.3.3). The text is a name and a descriptor, joined. A name may have parentheses too
/// (JVMS 4.2.2): of several ways to split the text, the one with the shortest name that finds a method counts.
pub fn find_named(
    alloc: Global,
    program: &Program,
    class: &[u8],
    text: &[u8],
) -> Result<Option<MethodId>, AllocError>
    ensures { IfOk result (NamesMethod program.now class.now text.now) }
{
    let linked = program.linked();
    let Some(class) = linked.set().number(class) else {
        return Ok(None);
    };
    let mut marks = vec![in alloc; false; linked.set().len()]?;
    for (index, byte) in text.iter().enumerate() {
        if *byte == b'(' {
            let found = find_split(linked, class, text, index, &mut marks);
            if found.is_some() {
                return Ok(found);
            }
        }
    }
    Ok(None)
}

// The method whose name ends before an index of the text, and whose descriptor begins there.
fn find_split(
    linked: &Linked,
    class: ClassId,
    text: &[u8],
    index: usize,
    marks: &mut [bool],
) -> Option<MethodId>
    requires set { IsClassSet linked.now.classes }
    requires in_set { class.0 < length linked.now.classes }
    requires in_text { index ≤ length text.now }
    ensures { NamesSplit linked.now.classes class text.now index result }
{
    let (name, descriptor) = text.split_at(index);
    match find_method(linked.set(), class, name, descriptor, marks) {
        Some(found) => Some(number(linked, found)),
        None => None,
    }
}

// The number of a method.
fn number(linked: &Linked, method: MethodIndex) -> MethodId
    requires { IsSome (method_in linked.now.classes method) }
    ensures { result ≡ number_in linked.now.classes method }
{
    linked.method_id(MemberIndex {
        class: method.class,
        index: index_in_class(linked.set(), method),
    })
}

// The index of a method among those of its class, which are few enough.
fn index_in_class(set: &ClassSet, method: MethodIndex) -> u16
    requires { IsSome (method_in set.now method) }
    ensures { result ≡ method.index }
{
    let methods = set.class(method.class).file.methods.as_slice();
    let _ = &methods[method.index];
    method.index as u16
}
