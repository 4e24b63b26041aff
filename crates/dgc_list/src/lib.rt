//! The reference lists of a space: for each of its objects, which clients have a lease for it (Java
//! RMI specification, chapter on garbage collection).
//!
//! A contract speaks of the history of a list's calls, newest first. What is remembered of a client
//! and an object is a function of that history. Only the calls of that client on that object count
//! in it, the moments, and the object's withdrawal.
#![tactic(auto)]

pub use list::{LONGEST_LEASE, RefList};
pub use remembered::Remembered;

mod calls;
mod clients;
mod expiries;
mod few;
pub mod laws;
mod list;
mod many;
mod objects;
mod remembered;
