//! The spaces of a program, as scripts over worlds play them.
#![tactic(auto)]

pub use names::{class_name_of, method_of, shown_as};
pub use program_space::ProgramSpace;
pub use program_spaces::ProgramSpaces;

mod names;
mod program_space;
mod program_spaces;
