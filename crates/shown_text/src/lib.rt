//! Names and paths as they are shown to people: nothing of them acts on a terminal.
#![tactic(auto)]

pub use shown::Shown;

mod shown;
