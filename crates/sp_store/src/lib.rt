//! The remote objects of a space: instances of its remote classes, under ids from 1 that never come
//! again, with what their fields hold, and which of them nothing needs.
//!
//! A contract speaks of the history of what was done to the objects, newest first, in the words of the
//! rules of spaces: a field holds what was last put into it, and an object stands until it is
//! withdrawn.
#![tactic(auto)]

pub use id_set::IdSet;
pub use store::{MOST_OBJECTS, Store};

mod id_set;
mod instance;
mod store;
