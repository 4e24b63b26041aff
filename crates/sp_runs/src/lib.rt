//! Methods of class files that run: what that means, of one that runs alone and of one that runs in a space;
//! and one that runs alone.
#![tactic(auto)]

pub use remote::has_remote;
pub use running::{method_named, named, run_method};

mod remote;
mod running;
