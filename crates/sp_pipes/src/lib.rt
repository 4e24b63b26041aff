//! The connections of a world of spaces, with a queue of frames each way, and the dials that wait.
//!
//! A contract speaks of the connections and the dials of a world by the rules of spaces, for which a value
//! may stand.
#![tactic(auto)]

pub use dials::{Dial, Dials};
pub use pipe::End;
pub use pipes::Pipes;

mod dials;
mod pipe;
mod pipes;
