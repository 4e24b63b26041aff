//! What methods take and give.

ghost use Rattle.std.specs.Prelude.{◌≡◌, map, option_map};
ghost use Rattle.cls_link.specs.Links.{method_at};
ghost use Rattle.vm_code.specs.Parameters.{is_array_type};
ghost use Rattle.vm_step.specs.Start.{is_int_type};
ghost use Rattle.sp_behaviours.specs.Kinds.{kind_of_type, parameters_of, result_of};
ghost use Rattle.sp_behaviours.specs.Kinds as kinds;
ghost use Rattle.sp_requests.specs.Asking.{kind_of};
ghost use Rattle.sp_rules.specs.Classes.{fit_kinds, fits_kind};

use cls_link::{ElementType, FieldType, Method, Parameters, Shared};
use sp_requests::ResultKind;
use space_ids::Value;
use vm_step::{MethodId, Program};

/// Whether the values are one for each parameter of the method of this number, of its kind.
pub(crate) fn takes(program: &Program, method: u32, arguments: &[Value]) -> bool
    ensures { result ≡ fit_kinds (parameters_of program.now.classes method) arguments.now }
{
    match method_at(program, method) {
        Some(declared) => are_taken(&declared.types.parameters, arguments),
        None => arguments.len() == 0,
    }
}

/// What the method of this number gives.
pub(crate) fn result_kind(program: &Program, method: u32) -> ResultKind
    ensures { kind_of result ≡ result_of program.now.classes method }
{
    match method_at(program, method) {
        Some(declared) => kind_of_result(&declared.types.result),
        None => ResultKind::Nothing,
    }
}

// The method of this number, as declared.
fn method_at(program: &Program, method: u32) -> Option<&Method>
    ensures { option_map (λ m. m.now) result ≡ method_at program.now.classes (record { 0 = method }) }
{
    let linked = program.linked();
    if method as usize >= linked.len() {
        return None;
    }
    Some(linked.declaration(MethodId(method)))
}

fn kind_of_result(given: &Option<Shared<FieldType>>) -> ResultKind
    ensures { kind_of result ≡ kinds.result_kind given.now }
{
    match given {
        Some(kind) => kind_of_type(kind),
        None => ResultKind::Nothing,
    }
}

fn kind_of_type(kind: &FieldType) -> ResultKind
    ensures { kind_of result ≡ kind_of_type kind.now }
{
    if is_int(kind) {
        ResultKind::Int
    } else if is_array(kind) {
        ResultKind::IntArray
    } else {
        ResultKind::Reference
    }
}

fn is_int(kind: &FieldType) -> bool
    ensures { result ≡ is_int_type kind.now }
{
    let is_element = match kind.element {
        ElementType::Int | ElementType::Boolean => true,
        _ => false,
    };
    kind.dimensions == 0 && is_element
}

fn is_array(kind: &FieldType) -> bool
    ensures { result ≡ is_array_type kind.now }
{
    let is_element = match kind.element {
        ElementType::Int => true,
        _ => false,
    };
    kind.dimensions == 1 && is_element
}

// Whether the values are one for each of these parameters, of its kind.
fn are_taken(kinds: &Parameters, arguments: &[Value]) -> bool
    ensures { result ≡ fit_kinds (map kind_of_type kinds.now) arguments.now }
{
    if kinds.len() != arguments.len() {
        return false;
    }
    for index in 0..arguments.len() {
        if !fits_type(&kinds[index], &arguments[index]) {
            return false;
        }
    }
    true
}

fn fits_type(kind: &FieldType, value: &Value) -> bool
    ensures { result ≡ fits_kind (kind_of_type kind.now) value.now }
{
    fits(kind_of_type(kind), value)
}

// Whether a value is of a kind.
fn fits(kind: ResultKind, value: &Value) -> bool
    ensures { result ≡ fits_kind (kind_of kind) value.now }
{
    match (kind, value) {
        (ResultKind::Int, Value::Int(_)) => true,
        (ResultKind::IntArray, Value::Null | Value::Ints(_)) => true,
        (ResultKind::Reference, Value::Null | Value::Ref(_)) => true,
        _ => false,
    }
}
