//! The methods at which tasks start.
ghost use Rattle.std.specs.Prelude.{◌≡◌, option_map, bytes_eq, codes};
ghost use Rattle.cls_link.specs.Links.{AreLinks};
ghost use Rattle.vm_step.specs.Start.{startable};
ghost use Rattle.vm_step.specs.Subjects.{declared_at, shown};

use cls_link::{ClassId, Code, Linked, LinkedInsn, Method, MethodId};

/// A method with the class that declares it, and its code, as read and as linked.
#[derive(Clone, Copy)]
pub struct Found<'a> {
    pub class: ClassId,
    pub method: &'a Method,
    pub code: &'a Code,
    pub insns: &'a [LinkedInsn],
}

/// The method at which a task may start: one with code, and no `<init>`.
pub fn find(linked: &Linked, id: MethodId) -> Option<Found<'_>>
    ensures found { option_map shown result ≡ startable linked.now id }
    ensures links { AreLinks linked.now }
{
    let found = look_up(linked, id)?;
    if is_initializer(found.method) || found.insns.is_empty() {
        return None;
    }
    Some(found)
}

fn is_initializer(method: &Method) -> bool
    ensures { result ≡ bytes_eq method.now.name (codes "<init>") }
{
    method.name.as_bytes() == b"<init>".as_slice()
}

#[tactic(auto, unfolding(crate::specs::Subjects::declared_at, vm_laws::specs::Worlds::subject_at, ver_check::specs::Acceptance::subject_of))]
fn look_up(linked: &Linked, id: MethodId) -> Option<Found<'_>>
    ensures found { option_map shown result ≡ declared_at linked.now id }
    ensures links { AreLinks linked.now }
{
    if id.0 as usize >= linked.len() {
        return None;
    }
    let entry = linked.linked_method(id);
    if entry.class.0 as usize >= linked.set().len() {
        return None;
    }
    let class = linked.set().class(entry.class);
    let method = class.file.methods.as_slice().get(entry.index as usize)?;
    let code = method.code.as_ref()?;
    let insns = entry.code.as_ref()?.insns.as_slice();
    Some(Found {
        class: entry.class,
        method,
        code,
        insns,
    })
}
