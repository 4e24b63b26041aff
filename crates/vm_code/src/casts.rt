//! What objects are instances of (JVMS 6.5: checkcast, instanceof, athrow).
ghost use Rattle.std.specs.Prelude.{◌≡◌, ◌+◌, ◌<◌, ◌^◌};
ghost use Rattle.vm_act.specs.Next.{NotStuck, Does};
ghost use Rattle.vm_code.specs.Act.{check_cast, instance_of, throw_top};
ghost use Rattle.vm_code.specs.Classes.{is_subtype, is_below_remote, is_remote_interface, implements_remotely, is_object, is_instance, passes};

use crate::methods::is_interface;
use cls_link::{CastType, ClassId, ClassSet};
use vm_act::{Flow, Machine, Referent};

/// Returns whether a class of the set is a subtype of another.
#[inline(always)]
#[tactic(auto, using(crate::proofs::Subtypes::no_subtype))]
pub fn is_subtype(set: &ClassSet, class: ClassId, asked: ClassId) -> bool
    ensures { result ≡ is_subtype set.now class asked }
{
    if class.0 as usize >= set.len() {
        return false;
    }
    set.implements(class, asked)
}

/// Returns whether a class is java/rmi/Remote, or that is among its supertypes.
pub fn is_below_remote(set: &ClassSet, class: ClassId) -> bool
    ensures { result ≡ is_below_remote set.now class }
{
    match set.remote() {
        Some(remote) => is_subtype(set, class, remote),
        None => false,
    }
}

/// Returns whether a class is a remote interface.
pub fn is_remote_interface(set: &ClassSet, class: ClassId) -> bool
    ensures { result ≡ is_remote_interface set.now class }
{
    is_interface(set, class) && is_below_remote(set, class)
}

/// Returns whether an interface is a remote one that a class implements.
pub fn implements_remotely(set: &ClassSet, class: ClassId, interface: ClassId) -> bool
    ensures { result ≡ implements_remotely set.now class interface }
{
    is_remote_interface(set, interface) && is_subtype(set, class, interface)
}

// Whether a class is java/lang/Object.
fn is_object(set: &ClassSet, class: ClassId) -> bool
    ensures { result ≡ is_object set.now class }
{
    if class.0 as usize >= set.len() {
        return false;
    }
    set.name(class).as_bytes() == b"java/lang/Object".as_slice()
}

/// Returns whether what a reference stands for is an instance of a type. Null is an instance of
/// none.
#[inline(always)]
pub fn is_instance(set: &ClassSet, asked: CastType, referent: Referent) -> bool
    ensures { result ≡ is_instance set.now asked referent }
{
    match (asked, referent) {
        (_, Referent::Null) => false,
        (CastType::Class(asked), Referent::Object(class)) => is_subtype(set, class, asked),
        (CastType::Class(asked), Referent::Ints) => is_object(set, asked),
        (CastType::Class(asked), Referent::Stub(reference)) => {
            is_object(set, asked) || implements_remotely(set, reference.class, asked)
        }
        (CastType::IntArray, Referent::Object(_) | Referent::Stub(_)) => false,
        (CastType::IntArray, Referent::Ints) => true,
    }
}

/// Returns whether what a reference stands for may be cast to a type. Null may be cast to each.
#[inline(always)]
pub fn passes(set: &ClassSet, asked: CastType, referent: Referent) -> bool
    ensures { result ≡ passes set.now asked referent }
{
    match referent {
        Referent::Null => true,
        _ => is_instance(set, asked, referent),
    }
}

/// Executes checkcast.
#[inline(always)]
pub fn check_cast(machine: &mut Machine, set: &ClassSet, asked: CastType) -> Flow
    requires index { machine.old.stack.frame.index + 1 < 2 ^ 64 }
    requires fits { NotStuck (check_cast set.now asked machine.old) }
    ensures does { Does (check_cast set.now asked machine.old) result machine.new }
    ensures method { machine.new.stack.frame.method ≡ machine.old.stack.frame.method }
{
    let referent = machine.referent(0);
    let passes = passes(set, asked, referent);
    machine.cast(passes)
}

/// Executes instanceof.
#[inline(always)]
pub fn instance_of(machine: &mut Machine, set: &ClassSet, asked: CastType) -> Flow
    requires index { machine.old.stack.frame.index + 1 < 2 ^ 64 }
    requires fits { NotStuck (instance_of set.now asked machine.old) }
    ensures does { Does (instance_of set.now asked machine.old) result machine.new }
    ensures method { machine.new.stack.frame.method ≡ machine.old.stack.frame.method }
{
    let referent = machine.referent(0);
    let is = is_instance(set, asked, referent);
    machine.answer(is)
}

/// Executes athrow.
#[inline(always)]
pub fn throw_top(machine: &mut Machine) -> Flow
    requires fits { NotStuck (throw_top machine.old) }
    ensures does { Does (throw_top machine.old) result machine.new }
    ensures method { machine.new.stack.frame.method ≡ machine.old.stack.frame.method }
{
    let referent = machine.referent(0);
    machine.throw(referent)
}
