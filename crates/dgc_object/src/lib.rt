//! One object and its clients: nothing that is held is lost.
//!
//! Definitions and laws alone: the machine of one client and one object, the machine of all clients of
//! the object with the frames that carry its reference, and what both keep. It stands on no other crate.
#![tactic(auto)]

pub mod laws;
