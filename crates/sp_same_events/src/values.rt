//! Values, and rows of plain items.

ghost use Rattle.std.specs.Prelude.{◌≡◌, true};

use net_message::Digest;
use space_ids::{ObjId, Ref, Uuid, Value};

/// Whether two values are the same.
pub fn same_value(value: &Value, other: &Value) -> bool
    ensures { result ≡ true → value.now ≡ other.now }
{
    match value {
        Value::Null => matches!(other, Value::Null),
        Value::Int(number) => match other {
            Value::Int(another) => number == another,
            _ => false,
        },
        Value::Ints(elements) => match other {
            Value::Ints(others) => same_ints(elements.as_slice(), others.as_slice()),
            _ => false,
        },
        Value::Ref(reference) => match other {
            Value::Ref(another) => same_reference(reference, another),
            _ => false,
        },
    }
}

/// Whether two rows of values are the same, one by one.
#[tactic(auto, using(crate::proofs::RowLemmas::same_next))]
pub fn same_values(values: &[Value], others: &[Value]) -> bool
    ensures { result ≡ true → values.now ≡ others.now }
{
    if values.len() != others.len() {
        return false;
    }
    for index in 0..values.len() {
        if !same_value(&values[index], &others[index]) {
            return false;
        }
    }
    true
}

// Whether there are two values that are the same, or none.
pub(crate) fn same_result(value: &Option<Value>, other: &Option<Value>) -> bool
    ensures { result ≡ true → value.now ≡ other.now }
{
    match value {
        None => other.is_none(),
        Some(value) => match other {
            Some(another) => same_value(value, another),
            None => false,
        },
    }
}

pub(crate) fn same_reference(reference: &Ref, other: &Ref) -> bool
    ensures { result ≡ true → reference.now ≡ other.now }
{
    same_id(&reference.space, &other.space)
        && reference.id == other.id
        && reference.class == other.class
}

pub(crate) fn same_id(id: &Uuid, other: &Uuid) -> bool
    ensures { result ≡ true → id.now ≡ other.now }
{
    id == other
}

pub(crate) fn same_digest(digest: &Digest, other: &Digest) -> bool
    ensures { result ≡ true → digest.now ≡ other.now }
{
    digest == other
}

pub(crate) fn same_bytes(bytes: &[u8], others: &[u8]) -> bool
    ensures { result ≡ true → bytes.now ≡ others.now }
{
    bytes == others
}

fn same_ints(ints: &[i32], others: &[i32]) -> bool
    ensures { result ≡ true → ints.now ≡ others.now }
{
    ints == others
}

#[tactic(auto, using(crate::proofs::RowLemmas::same_next))]
pub(crate) fn same_objects(objects: &[ObjId], others: &[ObjId]) -> bool
    ensures { result ≡ true → objects.now ≡ others.now }
{
    if objects.len() != others.len() {
        return false;
    }
    for index in 0..objects.len() {
        if !same_object(&objects[index], &others[index]) {
            return false;
        }
    }
    true
}

fn same_object(object: &ObjId, other: &ObjId) -> bool
    ensures { result ≡ true → object.now ≡ other.now }
{
    object == other
}
