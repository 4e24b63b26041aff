//! The rules of spaces and worlds, as definitions that compute: the state of a space, its events, what
//! it answers and refuses, the entries of a book, and any number of spaces with the queues between
//! them. There is no other code here: each function is a law, and its contract is what it says.
#![tactic(auto)]

pub mod laws;
