//! Runs of worlds, with what is promised of every run in one contract.
#![tactic(auto)]

pub use running::run;
pub use sp_world::{
    CoreFault, Dial, End, Event, Output, StartFault, Unfinished, World, WorldEvent, WorldSpace,
};
pub use told::{EventList, SpaceList};
pub use world_run::{Interrupted, WorldRun};

mod running;
mod told;
mod world_run;
