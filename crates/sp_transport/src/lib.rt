//! A space's side of the transport: its connections, what it asks of its peers, the leases of their
//! objects, and what the event under way answers.
//!
//! A contract names the states of the rules of spaces that the value may stand for. What a call makes of
//! the state is a function of the rules, so that an event of a space is a row of calls.
#![tactic(auto)]

pub use transport::{Fresh, Transport};

mod answering;
mod concluding;
mod ending;
mod going;
mod holders;
mod making;
mod opening;
mod reserving;
mod saying;
mod settling;
mod transport;
