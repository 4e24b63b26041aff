//! What each living task of a space of a linked and checked class set is: the tagged machine of its method, played
//! over the replies that it was given. Laws, each the contract of a function. There is no other code here.
#![tactic(auto)]

pub mod laws;
