//! Workers of a book: each takes notices and runs their tasks, slice by slice, without the lock.
#![tactic(auto)]

pub use gate::Gate;
pub use worker::work;

mod gate;
mod worker;
