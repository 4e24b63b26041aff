//! Copies of values that cross between tasks and spaces.

ghost use Rattle.std.specs.Prelude.{◌≡◌, IfOk};

use crate::CopyIn;
use space_ids::{Row, Value};
use std::alloc::{AllocError, Global};

impl CopyIn for Value {
    ghost is_copy = { λ value copy. copy ≡ value };

    fn copy_in(&self, alloc: Global) -> Result<Value, AllocError> {
        copy_value(alloc, self)
    }
}

impl CopyIn for Option<Value> {
    ghost is_copy = { λ value copy. copy ≡ value };

    fn copy_in(&self, alloc: Global) -> Result<Option<Value>, AllocError> {
        copy_result(alloc, self)
    }
}

/// Returns a copy of a value.
pub fn copy_value(alloc: Global, value: &Value) -> Result<Value, AllocError>
    ensures { IfOk result (λ copy. copy ≡ value.now) }
{
    match value {
        Value::Null => Ok(Value::Null),
        Value::Int(number) => Ok(Value::Int(*number)),
        Value::Ints(elements) => {
            let copy = Vec::from_slice(alloc, elements.as_slice())?;
            Ok(Value::Ints(Row::new(copy)))
        }
        Value::Ref(reference) => Ok(Value::Ref(*reference)),
    }
}

/// Returns copies of values, in their order.
pub fn copy_values(alloc: Global, values: &[Value]) -> Result<Vec<Value>, AllocError>
    ensures { IfOk result (λ copies. copies.items ≡ values.now) }
{
    let mut copies = Vec::with_capacity(alloc, values.len())?;
    for value in values {
        copies.push(copy_value(alloc, value)?)?;
    }
    Ok(copies)
}

/// Returns a copy of a value that may be there.
pub fn copy_result(alloc: Global, value: &Option<Value>) -> Result<Option<Value>, AllocError>
    ensures { IfOk result (λ copy. copy ≡ value.now) }
{
    match value {
        Some(value) => Ok(Some(copy_value(alloc, value)?)),
        None => Ok(None),
    }
}
