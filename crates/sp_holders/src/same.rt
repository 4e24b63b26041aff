//! References, and the values that are one.

ghost use Rattle.std.specs.Prelude.{◌≡◌};
ghost use Rattle.sp_rules.specs.References.{is_reference_in, reference_of, references_in, references_of};

use space_ids::{Ref, Value, is_among};

// Whether one of the values is the reference.
pub(crate) fn is_in(values: &[Value], reference: &Ref) -> bool
    ensures { result ≡ is_reference_in (references_of values.now) reference.now }
{
    for value in values {
        if is_value(value, reference) {
            return true;
        }
    }
    false
}

// Whether a value is the reference.
pub(crate) fn is_value(value: &Value, reference: &Ref) -> bool
    ensures { result ≡ is_reference_in (reference_of value.now) reference.now }
{
    match value {
        Value::Ref(other) => is_among(&[*other], reference),
        _ => false,
    }
}

// Whether a result is the reference.
pub(crate) fn is_result(value: &Option<Value>, reference: &Ref) -> bool
    ensures { result ≡ is_reference_in (references_in value.now) reference.now }
{
    match value {
        Some(value) => is_value(value, reference),
        None => false,
    }
}
