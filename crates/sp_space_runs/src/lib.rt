//! From the bytes of class files to how a method ends: one that runs alone, or as the only root of a space.
#![tactic(auto)]

pub use in_space::run_in_space;
pub use running::run_classes;

mod in_space;
mod running;
