//! Copies of what a task and its space tell one another.

ghost use Rattle.std.specs.Prelude.{◌≡◌, IfOk};

use crate::{Outcome, Reply};
use std::alloc::{AllocError, Global};
use table_copies::copy_result;

/// A copy of an outcome.
pub fn copy_outcome(alloc: Global, outcome: &Outcome) -> Result<Outcome, AllocError>
    ensures { IfOk result (λ copy. copy ≡ outcome.now) }
{
    match outcome {
        Outcome::Returned(value) => Ok(Outcome::Returned(copy_result(alloc, value)?)),
        Outcome::Threw(class) => Ok(Outcome::Threw(*class)),
        Outcome::Spent => Ok(Outcome::Spent),
    }
}

/// A copy of a reply.
pub fn copy_reply(alloc: Global, reply: &Reply) -> Result<Reply, AllocError>
    ensures { IfOk result (λ copy. copy ≡ reply.now) }
{
    match reply {
        Reply::Gives(value) => Ok(Reply::Gives(copy_result(alloc, value)?)),
        Reply::GivesBack { value, fuel } => Ok(Reply::GivesBack {
            value: copy_result(alloc, value)?,
            fuel: *fuel,
        }),
        Reply::Throws(class) => Ok(Reply::Throws(*class)),
        Reply::RunsOut => Ok(Reply::RunsOut),
    }
}
