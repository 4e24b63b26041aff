//! A map from numbers that rise: what comes has a number above all that are there.
#![tactic(auto)]

pub use map::RisingMap;

mod map;
