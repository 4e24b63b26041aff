//! Frames that wait for leases: calls that came and do not start yet, and results that do not go on yet.
//!
//! A contract speaks of the list of the frames with their tickets, in the order in which they came.
#![tactic(auto)]

pub use frame::{Frame, ParkedCall, ParkedFrame};
pub use parked::Parked;

mod by_connection;
mod by_reference;
mod frame;
mod parked;
