//! What a space keeps for others: its remote objects, the names that are bound to them, and what clients
//! told of them (Java RMI specification, chapters 3, 6 and 9).
//!
//! A contract names the states that the rules of spaces give. A call that takes memory may be out of
//! memory in the middle; then nothing is said of the value, which its owner drops.
#![tactic(auto)]

pub use owner::Owner;

mod fields;
mod listing;
mod names;
mod owner;
mod sweeping;
