//! Worlds of any number of spaces: what spaces answer goes into the queues between them, and what happens
//! in a world happens to one of its spaces.
//!
//! A world takes any type of spaces that keeps the rules of spaces ([WorldSpace]). A contract names the
//! world of the rules of spaces for which a value stands.
#![tactic(auto)]

pub use event::WorldEvent;
pub use laws::pieces_make_a_run;
pub use runs::{Unfinished, run};
pub use sp_events::{CoreFault, Event, StartFault};
pub use sp_outputs::Output;
pub use sp_pipes::{Dial, End};
pub use world::World;
pub use world_space::WorldSpace;

mod event;
mod happening;
mod laws;
mod resident;
mod runs;
mod wiring;
mod world;
mod world_space;
