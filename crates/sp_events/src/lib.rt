//! What happens to a space from outside, and why a space refuses it, as values. An event that happens to two equal states
//! is copied for the second.
//!
//! `specs/` names the event of the rules of spaces that a value is, and the refusal that a fault is.
#![tactic(auto)]

pub use copies::copy_event;
pub use event::{Event, Root};
pub use fault::{CoreFault, StartFault};

mod copies;
mod event;
mod fault;
