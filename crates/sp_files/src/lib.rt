//! Class files as devices give them: the program that they make, why they make none, and the methods of it
//! that texts name.
#![tactic(auto)]

pub use files::{ClassBytes, Content};
pub use names::find_named;
pub use outcome::RunOutcome;
pub use programs::{check_classes, program_of};
pub use refusal::Refusal;

mod files;
mod names;
mod outcome;
mod programs;
mod refusal;
