//! The arguments of a remote call (Java RMI specification, 2.6).
ghost use Rattle.std.specs.Prelude.{◌≡◌, Some, IsSome, IfOk, option_map};
ghost use Rattle.vm_act.specs.Crossing.{AllCross, crosses};
ghost use Rattle.vm_code.specs.Parameters.{arguments_for, is_array_element, is_array_type, parameter_of};

use crate::fields::kind_of;
use cf_text::{ElementType, FieldType, Parameters};
use std::alloc::{AllocError, Global};
use vm_act::{CALL_BYTES, MOST_BYTES, Machine, Parameter, Value, WordKind};

/// Returns whether a call crosses with the operands on top as its arguments: each of them does, and
/// together they fit in a frame.
pub fn crosses(machine: &Machine, types: &Parameters) -> bool
    requires { IsSome (arguments_for types.now machine.now) }
    ensures { option_map crosses (arguments_for types.now machine.now) ≡ Some result }
{
    let mut left = MOST_BYTES - CALL_BYTES;
    for index in 0..types.len() {
        let depth = types.len() - 1 - index;
        match machine.argument_bytes(parameter(&types[index]), depth) {
            Some(bytes) if bytes <= left => left -= bytes,
            _ => return false,
        }
    }
    true
}

/// Returns the operands on top as they cross as the arguments of a call, the last one uppermost. The
/// caller owes that they cross.
pub fn arguments(
    alloc: Global,
    machine: &Machine,
    types: &Parameters,
) -> Result<Vec<Value>, AllocError>
    requires { AllCross (arguments_for types.now machine.now) }
    ensures { IfOk result (λ values. arguments_for types.now machine.now ≡ Some (Some values.items)) }
{
    let mut values = Vec::with_capacity(alloc, types.len())?;
    for index in 0..types.len() {
        let depth = types.len() - 1 - index;
        values.push(machine.argument(alloc, parameter(&types[index]), depth)?)?;
    }
    Ok(values)
}

// What a parameter of a type takes.
fn parameter(kind: &FieldType) -> Parameter
    ensures { result ≡ parameter_of kind.now }
{
    match kind_of(kind) {
        WordKind::Int => Parameter::Int,
        WordKind::Reference => {
            if is_array(kind) {
                Parameter::Ints
            } else {
                Parameter::Reference
            }
        }
    }
}

/// Returns whether a type is int[].
pub fn is_array(kind: &FieldType) -> bool
    ensures { result ≡ is_array_type kind.now }
{
    kind.dimensions == 1 && is_array_element(&kind.element)
}

fn is_array_element(element: &ElementType) -> bool
    ensures { result ≡ is_array_element element.now }
{
    match element {
        ElementType::Int => true,
        _ => false,
    }
}
