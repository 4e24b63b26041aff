//! The machines of living tasks: each takes the replies of its task's record, and makes the task's own
//! instructions; and what machines and a core tell one another.
//!
//! A contract says that a machine plays a living task of the rules: where it stands beside the task's record.
#![tactic(auto)]

pub use task_machine::{Next, TaskMachine};
pub use telling::refusal;

mod boxed_task;
mod task_machine;
mod telling;
