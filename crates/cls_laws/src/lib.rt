//! What class files make is one: laws of class sets, each the contract of a function. There is no other code
//! here.
#![tactic(auto)]

pub mod laws;
