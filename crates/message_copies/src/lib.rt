//! Copies of frames: one that waits, that a space wrote, or that an event brought is copied where it is needed
//! twice.
#![tactic(auto)]

pub use copies::{copy_message, copy_name};

mod copies;
