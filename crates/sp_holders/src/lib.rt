//! Whether a reference has a holder in a space: a living task, a field of a standing object, a result that is
//! held, or a frame that waits. A space asks so of the foreign references among a root's arguments.
//!
//! A space remembers where it saw a reference held, and looks there first. If it is not held there any more, it
//! looks at all holders, as the rules of spaces say it.
#![tactic(auto)]

pub use holder::CallKey;
pub use holders::has_holder;
pub use sightings::Sightings;

mod fields;
mod finding;
mod frames;
mod holder;
mod holders;
mod same;
mod sightings;
mod tables;
