//! The spaces that the program serves: their tasks run methods of its class set, and compute apart where they take
//! long.
#![tactic(auto)]

pub use served_space::ServedSpace;

mod served_space;
