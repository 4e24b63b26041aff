//! A book: a space and its history under one lock, worked on by many threads.
//!
//! What threads hold of it are passes. A contract sees a pass as its number, the entries of its calls, the
//! tasks that it was lent, and the notices that it took.
#![tactic(auto)]

pub use book::Book;
pub use crossbeam_utils::sync::Key;
pub use gather::Stray;
pub use lent::Lent;
pub use naming::Naming;
pub use opened::Opened;
pub use pass::Pass;
pub use sp_history::{BookFault, Call, Entry, Gathered, Input, Setup, Twice, Unlent};
pub use sp_lender::{InHand, Lender, Pause};

mod book;
mod gather;
mod lent;
mod locked;
mod naming;
mod opened;
mod pass;
mod past;
mod returning;
mod same;
