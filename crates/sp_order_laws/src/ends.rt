//! The laws of what calls of other spaces end with.

ghost use Rattle.sp_order_laws.specs.CallAnswers.{CallsEndAsAnswered, RefusedCallsStartNone};

use crate::laws::numbers_rise;
use crate::worlds::{calls_end_by_callees, what_comes_was_sent};
use sp_laws::calls::frames_go_their_way;
use sp_laws::laws::waiting_tasks_have_one_call;

/// In every run of every world, whatever is lost or fails: a call or lookup to which a space answers an
/// exception, and not the outcome of a task, started no task in it, before or later.
pub fn refused_calls_start_none()
    ensures { RefusedCallsStartNone }
{
    frames_go_their_way();
    what_comes_was_sent();
    numbers_rise();
}

/// In every run of every world, whatever is lost or fails, of each space at each event: the task of a call
/// that waits lives on, and waits on, or was given one reply. That is the outcome of the task that the call
/// started at its callee; or NoSuchObjectException, UnmarshalException or ServerError of the callee, and
/// then the call started no task there, at any moment; or the exception of a failure. What a look-up finds,
/// and NotBoundException, end look-ups alone.
pub fn calls_end_as_answered()
    ensures { CallsEndAsAnswered }
{
    frames_go_their_way();
    waiting_tasks_have_one_call();
    what_comes_was_sent();
    calls_end_by_callees();
    refused_calls_start_none();
}
