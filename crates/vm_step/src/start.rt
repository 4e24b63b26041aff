//! Starting a task: whether its method and its arguments fit.
ghost use Rattle.std.specs.Prelude.{◌≡◌, drop, length, option_map, true};
ghost use Rattle.std.specs.Option.{option_map_or};
ghost use Rattle.std.specs.List.{list_all};
ghost use Rattle.ver_frames.specs.Method.{is_static};
ghost use Rattle.vm_code.specs.Classes.{is_remote};
ghost use Rattle.vm_step.specs.Start.{is_int_element, is_remote_element, is_int_type, is_remote_type, crosses, takes_crossing, is_of_type, fill, refusal, start_fault};

use crate::fault::StartFault;
use crate::found::find;
use cls_link::{
    ClassId, ClassSet, ElementType, FieldType, Flags, Linked, Method, MethodDescriptor, MethodId,
    Parameters, Shared,
};
use vm_code::{is_array, is_below_remote, is_interface, is_remote_interface};
use vm_heap::Value;

/// Why no task starts at the method of this number with these arguments: the lowest fault that fits.
#[tactic(auto, using(crate::proofs::Refused::fault_found, crate::proofs::Refused::fault_absent))]
pub fn refuses_start(linked: &Linked, id: MethodId, arguments: &[Value]) -> Option<StartFault>
    ensures { result ≡ start_fault linked.now id arguments.now }
{
    match find(linked, id) {
        Some(found) => refuses(linked.set(), found.method, arguments),
        None => Some(StartFault::AbsentMethod),
    }
}

/// Why the method is not started with these arguments: the lowest fault that fits.
pub fn refuses(set: &ClassSet, method: &Method, arguments: &[Value]) -> Option<StartFault>
    ensures { result ≡ refusal set.now method.now arguments.now }
{
    if !may_take(set, &method.types) {
        return Some(StartFault::BadSignature);
    }
    if is_class_method(method) && are_filled(set, &method.types.parameters, arguments) {
        None
    } else {
        Some(StartFault::BadArgument)
    }
}

pub(crate) fn is_class_method(method: &Method) -> bool
    ensures { result ≡ is_static method.now }
{
    method.flags.has(Flags::STATIC)
}

pub(crate) fn may_take(set: &ClassSet, types: &MethodDescriptor) -> bool
    ensures { result ≡ takes_crossing set.now types.now }
{
    all_cross(set, &types.parameters) && result_crosses(set, &types.result)
}

fn all_cross(set: &ClassSet, kinds: &Parameters) -> bool
    ensures { result ≡ list_all (crosses set.now) kinds.now }
{
    for index in 0..kinds.len() {
        if !crosses(set, &kinds[index]) {
            return false;
        }
    }
    true
}

fn result_crosses(set: &ClassSet, result_type: &Option<Shared<FieldType>>) -> bool
    ensures { result ≡ option_map_or (crosses set.now) result_type.now true }
{
    match result_type {
        Some(kind) => crosses(set, kind),
        None => true,
    }
}

fn crosses(set: &ClassSet, kind: &FieldType) -> bool
    ensures { result ≡ crosses set.now kind.now }
{
    is_int(kind) || (is_array(kind) || is_remote(set, kind))
}

fn is_int(kind: &FieldType) -> bool
    ensures { result ≡ is_int_type kind.now }
{
    let is_element = match kind.element {
        ElementType::Int | ElementType::Boolean => true,
        _ => false,
    };
    kind.dimensions == 0 && is_element
}

fn is_remote(set: &ClassSet, kind: &FieldType) -> bool
    ensures { result ≡ is_remote_type set.now kind.now }
{
    kind.dimensions == 0 && is_remote_element(set, &kind.element)
}

fn is_remote_element(set: &ClassSet, element: &ElementType) -> bool
    ensures { result ≡ is_remote_element set.now element.now }
{
    match element {
        ElementType::Class(name) => match set.number(name.as_bytes()) {
            Some(class) => is_remote_interface(set, class),
            None => false,
        },
        _ => false,
    }
}

pub(crate) fn are_filled(set: &ClassSet, kinds: &Parameters, arguments: &[Value]) -> bool
    ensures { result ≡ fill set.now kinds.now arguments.now }
{
    if kinds.len() != arguments.len() {
        return false;
    }
    for index in 0..arguments.len() {
        if !is_of_type(set, &kinds[index], &arguments[index]) {
            return false;
        }
    }
    true
}

fn is_of_type(set: &ClassSet, kind: &FieldType, value: &Value) -> bool
    ensures { result ≡ is_of_type set.now kind.now value.now }
{
    match value {
        Value::Null => !is_int(kind),
        Value::Int(_) => is_int(kind),
        Value::Ints(_) => is_array(kind),
        Value::Ref(reference) => is_remote(set, kind) && is_remote_class(set, reference.class),
    }
}

pub(crate) fn is_remote_class(set: &ClassSet, class: ClassId) -> bool
    ensures { result ≡ is_remote set.now class }
{
    !is_interface(set, class) && is_below_remote(set, class)
}
