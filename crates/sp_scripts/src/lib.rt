//! Scripts of spaces as theorems: the rules of `sp_rules`, played over small remote classes.
#![tactic(auto)]

pub mod laws;
