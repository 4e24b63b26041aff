//! The queue of notices of ready tasks: one thread, which holds a lock, puts them in, and any number of
//! threads take them out without a lock.
//!
//! Contracts name what a seat at the queue knows, since what the queue holds changes at any moment.
#![tactic(auto)]

pub use queue::{Queue, Seat, account, another_seat, open, put, return_seat, take};
pub use rule::{InOrder, Known};

mod queue;
mod rule;
