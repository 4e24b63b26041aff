//! What callers see of tasks: limits, pauses and outcomes.

use vm_code::Asked;
use vm_heap::{ClassId, Value};

/// What a run of a task came to.
#[derive(Clone, Copy, Debug, PartialEq, Eq)]
pub enum Pause {
    /// As many instructions were made as was asked for, and the task has not ended.
    Turn,
    /// It asks this of its space, and waits for the reply.
    Ask(Asked),
    /// The task has ended.
    Ended,
}

/// How a task ended.
#[derive(Debug, Drop)]
pub enum Outcome {
    /// The method returned: a value, or nothing from one of the type void.
    Returned(Option<Value>),
    /// An object of this class was thrown.
    Threw(ClassId),
    /// The fuel was used up, and an instruction came next.
    Spent,
}
