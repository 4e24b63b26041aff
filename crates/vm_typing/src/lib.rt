//! When a machine fits the type frames of its methods, and that it is then never stuck: definitions
//! and laws, each the contract of a function. There is no other code here.
#![tactic(auto)]

pub use cls_set::Class;
pub use ver_frames::VType;
pub use vm_act::Machine;

pub mod laws;
