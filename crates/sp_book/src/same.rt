//! Whether two calls are the same.

ghost use Rattle.std.specs.Prelude.{◌≡◌, true};
ghost use Rattle.sp_history.specs.Entries.{entry_of, event_of_input};

use sp_history::{Call, Input};
use sp_same_events::{same_event, same_op, same_reply, same_values};

// Whether two calls are the same entry.
pub(crate) fn same_call(call: &Call, other: &Call) -> bool
    ensures { result ≡ true → entry_of call.now ≡ entry_of other.now }
{
    match call {
        Call::On(input) => match other {
            Call::On(another) => same_input(input, another),
            _ => false,
        },
        Call::Commit {
            task,
            steps,
            op,
            reply,
        } => match other {
            Call::Commit {
                task: t,
                steps: s,
                op: o,
                reply: r,
            } => task == t && steps == s && same_op(op, o) && same_reply(reply, r),
            _ => false,
        },
        Call::Park { task, steps, op } => match other {
            Call::Park {
                task: t,
                steps: s,
                op: o,
            } => task == t && steps == s && same_op(op, o),
            _ => false,
        },
        Call::GiveBack { task, steps } => match other {
            Call::GiveBack { task: t, steps: s } => task == t && steps == s,
            _ => false,
        },
        Call::Finish { task, steps } => match other {
            Call::Finish { task: t, steps: s } => task == t && steps == s,
            _ => false,
        },
    }
}

fn same_input(input: &Input, other: &Input) -> bool
    ensures { result ≡ true → event_of_input input.now ≡ event_of_input other.now }
{
    match input {
        Input::Event(event) => match other {
            Input::Event(another) => same_event(event, another),
            _ => false,
        },
        Input::Root {
            method,
            arguments,
            fuel,
        } => match other {
            Input::Root {
                method: m,
                arguments: a,
                fuel: f,
            } => method == m && fuel == f && same_values(arguments.as_slice(), a.as_slice()),
            _ => false,
        },
    }
}
