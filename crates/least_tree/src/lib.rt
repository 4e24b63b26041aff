//! Numbers by index, with the least of them at hand.
#![tactic(auto)]

pub use tree::{LeastTree, NOTHING};

mod tree;
