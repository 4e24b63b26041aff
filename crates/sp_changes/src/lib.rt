//! What a core does to each of its two states: an event, or an operation, a call or an end of a lent task, as a
//! whole.
//!
//! The second state is handed on by reference: it is let go where it finds no memory. The first is handed on by
//! value, and comes back changed or not at all.
#![tactic(auto)]

pub use boxed_state::BoxedState;
pub use calls::{Call, park_in, park_too};
pub use commits::{commit_in, commit_too};
pub use ends::{finish_in, finish_too};
pub use events::{follow, follow_root, let_go};

mod boxed_state;
mod calls;
mod commits;
mod ends;
mod events;
