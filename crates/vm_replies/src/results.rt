//! What methods give to who started their tasks.

ghost use Rattle.std.specs.Prelude.{◌≡◌};
ghost use Rattle.vm_replies.specs.Results.{end_for_caller, gives_ints};

use crate::replies::result_type;
use cls_link::Linked;
use ver_frames::VType;
use vm_act::{Ending, Thrown};

/// Returns how an instruction of the method of a number ends its task that ends it so for the machine. A
/// reference into the task's own heap is that to the array of a method that gives `int[]`. In place of a
/// remote object it cannot cross, and a MarshalException is thrown (Java RMI specification, appendix A).
pub fn end_for_caller(linked: &Linked, method: u32, ending: Ending) -> Ending
    ensures { result ≡ end_for_caller (gives_ints linked.now.classes method) ending }
{
    match ending {
        Ending::ReturnedReference(Some(_)) => match result_type(linked, method) {
            Some(VType::IntArray) => ending,
            _ => Ending::Threw(Thrown::MarshalException),
        },
        other => other,
    }
}
