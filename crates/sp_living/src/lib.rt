//! What lives in a space: its tasks, the results that it holds, the frames that wait for leases, and its
//! side of the transport.
//!
//! A contract names the states of the rules of spaces that the value may stand for. What a call makes of
//! the state is a function of the rules, so that an event of a space is a row of calls.
#![tactic(auto)]

pub use living::Living;

mod asking;
mod concluding;
mod ends;
mod failing;
mod frames;
mod holding;
mod lending;
mod living;
mod lookups;
mod opening;
mod replying;
mod results;
mod saying;
mod tasks;
mod telling;
