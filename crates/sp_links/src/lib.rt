//! The connections of a served space: what waits to go out on each, and all of them by their numbers.
//!
//! A [`Link`] takes frames from whoever has the space and writes them from a thread of its own, so nobody waits for
//! a peer that reads slowly. It counts the frames that went out whole: the others are what the space is told of
//! as unsent when the connection ends.
#![tactic(auto)]

pub use frames::frame_of;
pub use host::Host;
pub use link::Link;
pub use links::{Links, MOST, MOST_ACCEPTED};

mod frames;
mod host;
mod link;
mod links;
mod numbers;
