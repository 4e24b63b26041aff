//! Plays scripts over worlds of any number of spaces, and gives the lines that they show.
//!
//! A script begins with a line for each space, which names it; the id of the first is 1, that of the next
//! 2, and so on. A root or a look-up names a variable, which stands for its task and, once that has
//! returned, for its result. Each `show` gives a line an object, and at the end each variable gives one. A
//! line that cannot be played is bad, and ends the script; any other event that does not fit changes
//! nothing.
#![tactic(auto)]

pub use script::{play_recorded, play_script};
pub use sim_happenings::ScriptRecord;
pub use sim_shows::{Named, Origin, PlayFault, ScriptFault, ScriptSpace, Shown, Start, put_object};
pub use texts::{SpaceNames, put_outcome};
pub use variables::{TaskKey, Variable, Variables, started};

mod commands;
mod endings;
mod names;
mod script;
mod script_run;
mod settling;
mod texts;
mod variables;
