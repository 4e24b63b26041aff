//! What lies behind the lock of a served space: the space, its connections, and what is to be done.
//!
//! A [`Board`] takes the events of its space, and hands on at once what each answers: frames to their connections,
//! and dials, tasks that may go on and lines to the rows from which threads take them.
#![tactic(auto)]

pub use board::{Advance, Board, Due, Fault};
pub use served::{Progress, Served};

mod board;
mod served;
