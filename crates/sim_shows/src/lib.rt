//! A world as a script plays it, with what is shown of its objects: each line tells of one that stands, by the rules of
//! spaces, in the world that the events before it have made.
#![tactic(auto)]

pub use fault::{PlayFault, ScriptFault};
pub use lines::put_object;
pub use script_space::{Named, Origin, ScriptSpace, Shown, Start};
pub use shown_run::ShownRun;
pub use steps::StepList;

mod fault;
mod lines;
mod script_space;
mod shown_run;
mod steps;
