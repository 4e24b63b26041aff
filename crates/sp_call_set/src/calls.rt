//! Which methods may be called on objects of which classes.

ghost use Rattle.std.specs.Prelude.{◌≡◌, ◌++◌, [], ◌∷◌, Some, true, codes, filter, length, IfOk, OnOk};
ghost use Rattle.std.specs.List.{list_any};
ghost use Rattle.cls_search.specs.MethodSearches.{is_interface};
ghost use Rattle.cls_set.specs.Classes.{number_of};
ghost use Rattle.sp_behaviours.specs.Remote.{may_call};
ghost use Rattle.vm_code.specs.Classes.{is_remote_interface};
ghost use Rattle.sp_call_set.specs.Calls.{is_given, is_inherited, is_of_objects, leads_to, remote_interfaces};

use cf_text::INITIALIZER;
use cls_link::{ClassSet, Flags, Method, MethodId};
use space_ids::ClassId;
use std::alloc::{AllocError, Global};
use vm_code::is_subtype;
use vm_step::Program;

/// Whether the method of this number may be called on objects of a class. The interfaces are the remote
/// ones of the set.
pub(crate) fn may_call(
    program: &Program,
    remote: ClassId,
    interfaces: &[ClassId],
    class: ClassId,
    method: u32,
) -> bool
    requires remote { number_of program.now.classes (codes "java/rmi/Remote") ≡ Some remote }
    requires interfaces { interfaces.now ≡ remote_interfaces program.now.classes }
    ensures { result ≡ may_call program.now.classes class method }
{
    let linked = program.linked();
    if method as usize >= linked.len() {
        return false;
    }
    let declared = linked.declaration(MethodId(method));
    let declaring = linked.linked_method(MethodId(method)).class;
    if !is_inherited(declared) {
        return false;
    }
    if !is_interface(linked.set(), declaring) {
        return false;
    }
    is_given(linked.set(), remote, interfaces, class, declaring)
}

// Whether interfaces inherit the method: it is public, and one of objects.
fn is_inherited(method: &Method) -> bool
    ensures { result ≡ is_inherited method.now }
{
    method.flags.has(Flags::PUBLIC) && is_of_objects(method)
}

// Whether the method is neither static nor an `<init>`, which no interface has.
fn is_of_objects(method: &Method) -> bool
    ensures { result ≡ is_of_objects method.now }
{
    !method.flags.has(Flags::STATIC) && method.name.as_bytes() != INITIALIZER
}

// Whether a remote interface that a class implements is another interface, or extends it. Each remote
// interface is looked at only if that one is none.
fn is_given(
    set: &ClassSet,
    remote: ClassId,
    interfaces: &[ClassId],
    class: ClassId,
    declaring: ClassId,
) -> bool
    requires remote { number_of set.now (codes "java/rmi/Remote") ≡ Some remote }
    requires interfaces { interfaces.now ≡ remote_interfaces set.now }
    requires declaring { is_interface set.now declaring ≡ true }
    ensures { result ≡ is_given set.now class declaring }
{
    let _classes = set.len();
    if !is_subtype(set, class, declaring) {
        return false;
    }
    if is_subtype(set, declaring, remote) {
        return true;
    }
    is_one_between(set, interfaces, class, declaring)
}

// Whether one of these is a supertype of a class, and a subtype of another interface.
fn is_one_between(
    set: &ClassSet,
    interfaces: &[ClassId],
    class: ClassId,
    declaring: ClassId,
) -> bool
    ensures { result ≡ list_any (leads_to set.now class declaring) interfaces.now }
{
    interfaces
        .iter()
        .any(|interface| leads_to(set, class, declaring, *interface))
}

fn leads_to(set: &ClassSet, class: ClassId, declaring: ClassId, interface: ClassId) -> bool
    ensures { result ≡ leads_to set.now class declaring interface }
{
    is_subtype(set, class, interface) && is_subtype(set, interface, declaring)
}

fn is_interface(set: &ClassSet, class: ClassId) -> bool
    ensures { result ≡ is_interface set.now class }
{
    if usize::from(class.0) >= set.len() {
        return false;
    }
    set.class(class).file.flags.has(Flags::INTERFACE)
}

/// The remote interfaces of a set, by their numbers.
pub(crate) fn list_remote_interfaces(
    alloc: Global,
    set: &ClassSet,
    remote: ClassId,
) -> Result<Vec<ClassId>, AllocError>
    requires { number_of set.now (codes "java/rmi/Remote") ≡ Some remote }
    ensures { IfOk result (λ interfaces. interfaces.items ≡ remote_interfaces set.now) }
{
    let mut interfaces = Vec::new(alloc);
    for number in 0..set.len() {
        add_one(set, remote, ClassId(number as u16), &mut interfaces)?;
    }
    Ok(interfaces)
}

// Adds a class that is a remote interface.
#[tactic(auto, using(crate::proofs::Lists::one_kept, crate::proofs::Lists::one_left))]
fn add_one(
    set: &ClassSet,
    remote: ClassId,
    class: ClassId,
    interfaces: &mut Vec<ClassId>,
) -> Result<(), AllocError>
    requires { number_of set.now (codes "java/rmi/Remote") ≡ Some remote }
    ensures { OnOk result (interfaces.new.items ≡ interfaces.old.items ++ filter (is_remote_interface set.now) (class ∷ [])) }
{
    if !is_remote_interface(set, remote, class) {
        return Ok(());
    }
    interfaces.push(class)?;
    Ok(())
}

fn is_remote_interface(set: &ClassSet, remote: ClassId, class: ClassId) -> bool
    requires { number_of set.now (codes "java/rmi/Remote") ≡ Some remote }
    ensures { result ≡ is_remote_interface set.now class }
{
    is_interface(set, class) && is_subtype(set, class, remote)
}
