//! From the bytes of a connection to the events of a space: each frame is one event, and so is the end.
//!
//! A contract speaks of the bytes of the stream and of all that was told of them.
#![tactic(auto)]

pub use arrivals::{Arrival, Arrivals};
pub use net_engine::{Inbound, Inflow};

mod arrivals;
pub mod laws;
