//! What holds of every run of every space and every world, with every loss, failure and order: laws of the rules, each
//! the contract of a function. There is no other code here.
//!
//! | Module | Laws of |
//! |---|---|
//! | `laws` | spaces and worlds that need more than one event |
//! | `frames` | connections that are open, and the frames that are sent there |
//! | `calls` | how calls start and end, and in which directions frames go |
//! | `records` | what one event of a space makes of its living tasks |
//! | `books` | how tasks end, and what the entries of a book leave of them |
//! | `leases` | a client's leases, and the dirty and clean calls among its requests |
//! | `parked` | frames that wait for leases |
//! | `trees` | each tree of calls, and its fuel |
#![tactic(auto)]

pub mod books;
pub mod calls;
pub mod frames;
pub mod laws;
pub mod leases;
pub mod parked;
pub mod records;
pub mod trees;
