//! A space with its history: under a lock, what threads make of it is what the entries replay to.
//!
//! It knows no thread: who calls is a number. A contract sees a history as its entries, those that checkpoints
//! cut among them, the outputs that wait, and how many tasks are in hand.
#![tactic(auto)]

pub use entry::{Call, Entry, Input};
pub use fault::{BookFault, Unlent};
pub use gathered::Gathered;
pub use history::History;
pub use naming::Setup;
pub use past::{EntryList, OutputList};
pub use segment::Segment;
pub use twice::{Left, Twice};

mod cutting;
mod entering;
mod entry;
mod fault;
mod frames;
mod gathered;
mod history;
pub mod laws;
mod lending;
mod naming;
mod notices;
mod past;
mod segment;
mod twice;
