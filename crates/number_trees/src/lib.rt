//! Maps from numbers to numbers, of which one is made from another by a change and has in common with it all
//! that the change leaves as it is.
#![tactic(auto)]

pub use trees::{Node, find, levels_for, with};

mod trees;
