//! A space that lends its tasks with their machines: a machine is made, and makes its task's instructions,
//! without its space.
//!
//! A space and its tasks are of the setting of one name. A contract names the states of the rules that the
//! space may be in, and the point of its record at which a task stands.
#![tactic(auto)]

pub use rest::Rest;
pub use space::LendingSpace;
pub use task::Task;
pub use working::Worked;

mod asking;
mod happening;
mod home;
mod keeping;
mod lender;
mod lending;
mod parts;
mod point;
mod rest;
mod rows;
mod running;
mod space;
mod task;
mod task_parts;
mod working;
