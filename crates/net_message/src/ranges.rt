//! The ranges of a frame's fields that a type does not keep by itself.

ghost use Rattle.std.specs.Prelude.{◌≡◌, ◌↔◌, IsTrue, IfSome, length};
ghost use Rattle.std.specs.List.{list_all, AllByRecursion};
ghost use Rattle.registry_names.specs.Names as names;
ghost use Rattle.net_message.specs.Wire.{AreInts, AreArguments, AreObjects, IsId, IsReference, IsValue, IsName, IsVersion};

use crate::fault::WireFault;
use space_ids::{ObjId, Ref, Uuid, Value};

/// Returns whether a registry may have the name: 1 to 255 ASCII letters, digits, `_` and `.`.
pub fn is_name(name: &[u8]) -> bool
    ensures read { result ≡ names.is_name name.now }
    ensures range { IsTrue result ↔ IsName name.now }
{
    registry_names::is_name(name)
}

// A contract knows the range of a number once it is read, so each is read.
fn are_ints(ints: &[i32]) -> bool
    ensures { IsTrue result ↔ AreInts ints.now }
{
    for int in ints {
        let _int = *int;
    }
    ints.len() <= 8000
}

pub(crate) fn is_version(version: u8) -> bool
    ensures { IsTrue result ↔ IsVersion version }
{
    1 <= version && version <= 2
}

fn is_sixteen_bytes(bytes: &[u8; 16]) -> bool
    ensures result { IsTrue result }
    ensures length { length bytes.now ≡ 16 }
{
    bytes.len() == 16
}

pub(crate) fn is_space(space: &Uuid) -> bool
    ensures { IsTrue result ↔ (length space.now ≡ 16) }
{
    is_sixteen_bytes(space.as_bytes())
}

fn is_reference(reference: &Ref) -> bool
    ensures { IsTrue result ↔ IsReference reference.now }
{
    let _id = reference.id.0;
    let _class = reference.class.0;
    is_space(&reference.space)
}

#[tactic(auto, unfolding(crate::specs::Wire::IsValue))]
fn is_value(value: &Value) -> bool
    ensures { IsTrue result ↔ IsValue value.now }
{
    match value {
        Value::Null => true,
        Value::Int(int) => {
            let _int = *int;
            true
        }
        Value::Ints(ints) => are_ints(ints.as_slice()),
        Value::Ref(reference) => is_reference(reference),
    }
}

pub(crate) fn is_result(outcome: &Option<Value>) -> bool
    ensures { IsTrue result ↔ IfSome outcome.now IsValue }
{
    match outcome {
        None => true,
        Some(value) => is_value(value),
    }
}

fn are_values(values: &[Value]) -> bool
    ensures { IsTrue result ↔ AllByRecursion IsValue values.now }
{
    for value in values {
        if !is_value(value) {
            return false;
        }
    }
    true
}

pub(crate) fn are_arguments(values: &[Value]) -> bool
    ensures { IsTrue result ↔ AreArguments values.now }
{
    values.len() <= 255 && are_values(values)
}

fn is_id(id: &ObjId) -> bool
    ensures { IsTrue result ↔ IsId id.now }
{
    let _number = id.0;
    true
}

fn are_ids(ids: &[ObjId]) -> bool
    ensures { IsTrue result ↔ AllByRecursion IsId ids.now }
{
    for id in ids {
        if !is_id(id) {
            return false;
        }
    }
    true
}

pub(crate) fn are_objects(objects: &[ObjId]) -> bool
    ensures { IsTrue result ↔ AreObjects objects.now }
{
    !objects.is_empty() && objects.len() <= 4096 && are_ids(objects)
}
