//! What a book asks of its space: that it takes events, and that it lends tasks, each with its machine.
//!
//! A crate above this one stands on no machine and on no core.
#![tactic(auto)]

pub use in_hand::{InHand, Pause};
pub use lender::Lender;

mod in_hand;
mod lender;
