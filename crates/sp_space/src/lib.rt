//! A space of a world of many spaces: its core, which takes calls, and the machines of its living tasks.
//!
//! A contract names the history of the rules of spaces at whose end the space stands.
#![tactic(auto)]

pub use space::Space;

mod asking;
mod ending;
mod machines;
mod parts;
mod space;
mod stepping;
mod world_space;
