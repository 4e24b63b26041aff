//! The living tasks of a space, beside their machines: what each holds, its record, and whether it is
//! lent; and what a task and its space tell one another.
//!
//! A contract sees the tasks as a list, in the order in which they started.
#![tactic(auto)]

pub use behaviour::{Op, Outcome, Reply, Stand};
pub use copies::{copy_outcome, copy_reply};
pub use lent_task::LentTask;
pub use new_task::NewTask;
pub use origin::Origin;
pub use record::Record;
pub use table_copies::copy_value;
pub use tasks::Tasks;

mod behaviour;
mod copies;
mod holding;
mod lent_task;
mod living;
mod new_task;
mod origin;
mod record;
mod same;
mod tasks;
