//! Beginning a task of a space: whether its method and its values fit, also if the first of them is the
//! receiver.
ghost use Rattle.std.specs.Prelude.{◌≡◌};
ghost use Rattle.vm_step.specs.Begin.{begin_refusal, is_receiver, receive};
ghost use Rattle.vm_step.specs.Subjects.{shown};

use crate::fault::StartFault;
use crate::found::Found;
use crate::start::{are_filled, is_class_method, is_remote_class, may_take};
use cls_link::{ClassId, ClassSet};
use vm_code::is_subtype;
use vm_heap::{Ref, Uuid, Value};

/// Why no task of the space `own` begins at the method with these values: the lowest fault that fits.
pub fn refuses_begin(
    set: &ClassSet,
    own: Uuid,
    found: Found<'_>,
    values: &[Value],
) -> Option<StartFault>
    ensures { result ≡ begin_refusal set.now own (shown found.entry) values.now }
{
    if !may_take(set, &found.method.types) {
        return Some(StartFault::BadSignature);
    }
    let fit = if is_class_method(found.method) {
        are_filled(set, &found.method.types.parameters, values)
    } else {
        are_received(set, own, found, values)
    };
    if fit {
        None
    } else {
        Some(StartFault::BadArgument)
    }
}

// Whether values are a receiver of the method, and an argument for each of its parameters.
fn are_received(set: &ClassSet, own: Uuid, found: Found<'_>, values: &[Value]) -> bool
    ensures { result ≡ receive set.now own (shown found.entry) values.now }
{
    match values {
        [receiver, arguments @ ..] => {
            is_receiver(set, own, found.class, receiver)
                && are_filled(set, &found.method.types.parameters, arguments)
        }
        [] => false,
    }
}

fn is_receiver(set: &ClassSet, own: Uuid, class: ClassId, value: &Value) -> bool
    ensures { result ≡ is_receiver set.now own class value.now }
{
    match value {
        Value::Ref(reference) => is_own_below(set, own, class, reference),
        _ => false,
    }
}

// Whether an object is of the space `own`, and of a remote class that is a class or a subtype of it.
fn is_own_below(set: &ClassSet, own: Uuid, class: ClassId, reference: &Ref) -> bool
    ensures { result ≡ is_receiver set.now own class (Value.Ref reference.now) }
{
    reference.space == own
        && (is_remote_class(set, reference.class) && is_subtype(set, reference.class, class))
}
