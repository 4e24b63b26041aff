//! Replies to what machines ask.

ghost use Rattle.std.specs.Prelude.{◌≡◌, ◌<◌, IsTrue, length, unwrap_or, codes};
ghost use Rattle.cls_set.specs.Classes.{number_of};
ghost use Rattle.ver_frames.specs.Assignable.{IsObjectAssignable};
ghost use Rattle.vm_code.specs.Classes.{is_remote};
ghost use Rattle.vm_laws.specs.Worlds.{gives_at};
ghost use Rattle.vm_replies.specs.Replies.{Fits, IsGiven, IsHeld, IsOfField, IsOfResult, Refers};

use crate::fields::field_type;
use cls_link::{ClassId, ClassSet, Linked, MethodId};
use space_ids::{Ref, Uuid, Value};
use ver_frames::{VType, assignable, field_vtype};
use vm_act::{Asked, FieldValue, Reply};
use vm_code::{is_below_remote, is_interface};

/// Returns whether a reply fits what a task of the space `own` asks: an own object of the class; a value of
/// the field's type; what a method of this result gives, or that the fuel was spent; or an exception of a
/// class of the set.
pub fn fits(linked: &Linked, own: Uuid, asked: &Asked, reply: &Reply) -> bool
    ensures { IsTrue result → Fits linked.now.classes own asked.now reply.now }
{
    match (asked, reply) {
        (_, Reply::Throws(class)) => is_known(linked.set(), *class),
        (Asked::Create(class), Reply::Made(reference)) => {
            reference.space == own && reference.class == *class
        }
        (Asked::Get { object, slot }, Reply::Holds(value)) => {
            is_held(linked.set(), own, object.class, *slot as usize, value)
        }
        (Asked::Put { .. }, Reply::Written) => true,
        (Asked::Call { method, .. }, Reply::Returned { value, .. }) => {
            is_given(linked, own, *method, value)
        }
        (Asked::Call { .. }, Reply::RunsOut) => true,
        _ => false,
    }
}

// Whether a class is one of the set.
fn is_known(set: &ClassSet, class: ClassId) -> bool
    ensures { IsTrue result → class.0 < length set.now }
{
    usize::from(class.0) < set.len()
}

// Whether the field in a slot of an object of a class may hold this.
fn is_held(set: &ClassSet, own: Uuid, class: ClassId, slot: usize, value: &FieldValue) -> bool
    ensures { IsTrue result → IsHeld set.now own class slot value.now }
{
    match field_type(set, class, slot) {
        Some(kind) => is_of_field(set, own, kind, value),
        None => false,
    }
}

// Whether a field of a type may hold this.
fn is_of_field(set: &ClassSet, own: Uuid, kind: VType, value: &FieldValue) -> bool
    ensures { IsTrue result → IsOfField set.now own kind value.now }
{
    match (kind, value) {
        (VType::Int, FieldValue::Int(_)) => true,
        (VType::Object(class), FieldValue::Reference(reference)) => {
            refers(set, own, class, reference)
        }
        (VType::Object(_) | VType::IntArray, FieldValue::Null) => true,
        _ => false,
    }
}

// Whether the method of a number may give this.
fn is_given(linked: &Linked, own: Uuid, method: u32, value: &Option<Value>) -> bool
    ensures { IsTrue result → IsGiven linked.now.classes own (gives_at linked.now.classes method) value.now }
{
    match (result_type(linked, method), value) {
        (None, None) => true,
        (Some(kind), Some(value)) => is_of_result(linked.set(), own, kind, value),
        _ => false,
    }
}

// The type of what the method of a number gives: `None` if it gives nothing, or there is no such method.
pub(crate) fn result_type(linked: &Linked, method: u32) -> Option<VType>
    ensures { result ≡ gives_at linked.now.classes method }
{
    if method as usize >= linked.len() {
        return None;
    }
    match &linked.declaration(MethodId(method)).types.result {
        Some(kind) => Some(field_vtype(linked.set(), kind)),
        None => None,
    }
}

// Whether a method with a result of a type may give this.
fn is_of_result(set: &ClassSet, own: Uuid, kind: VType, value: &Value) -> bool
    ensures { IsTrue result → IsOfResult set.now own kind value.now }
{
    match (kind, value) {
        (VType::Int, Value::Int(_)) => true,
        (VType::Object(class), Value::Ref(reference)) => refers(set, own, class, reference),
        (VType::Object(_) | VType::IntArray, Value::Null) => true,
        (VType::IntArray, Value::Ints(_)) => true,
        _ => false,
    }
}

// Whether a reference to a remote object, or to a stub, may stand for an object of a class.
fn refers(set: &ClassSet, own: Uuid, class: ClassId, reference: &Ref) -> bool
    ensures { IsTrue result → Refers set.now own class reference.now }
{
    if !is_remote(set, reference.class) {
        return false;
    }
    if reference.space == own {
        stands_for(set, reference.class, class)
    } else {
        is_known(set, reference.class) && stands_for(set, object(set), class)
    }
}

fn is_remote(set: &ClassSet, class: ClassId) -> bool
    ensures { result ≡ is_remote set.now class }
{
    !is_interface(set, class) && is_below_remote(set, class)
}

// Whether an object of a class of the set may stand for one of another class.
fn stands_for(set: &ClassSet, given: ClassId, class: ClassId) -> bool
    ensures known { IsTrue result → given.0 < length set.now }
    ensures stands { IsTrue result → IsObjectAssignable set.now given class }
{
    is_known(set, given) && assignable(set, VType::Object(given), VType::Object(class))
}

// The number of java/lang/Object.
fn object(set: &ClassSet) -> ClassId
    ensures { result ≡ unwrap_or (number_of set.now (codes "java/lang/Object")) (record { 0 = 0 }) }
{
    match set.number(b"java/lang/Object") {
        Some(class) => class,
        None => ClassId(0),
    }
}
