//! What the rules of spaces ask of a linked class set: its remote classes (Java RMI specification, 2.3, 2.4 and 4.1),
//! their fields and methods, and what tasks of it do. The core of a space asks a program for it by [`SpaceClasses`].
//! All other modules that are public are laws, each the contract of a function.
//!
//! | Module | Laws of |
//! |---|---|
//! | `behaviours` | tasks that follow machines |
//! | `starts`, `receiving` | tasks that begin, and what calls on objects begin |
//! | `replies`, `calls` | the replies of a space, which fit what the machines of its tasks ask |
//! | `stores` | what stands in a space |
//! | `sets` | what is told of class sets |
#![tactic(auto)]

pub use classes::SpaceClasses;

pub mod behaviours;
pub mod calls;
mod classes;
mod fields;
pub mod receiving;
mod remote;
pub mod replies;
pub mod sets;
pub mod starts;
pub mod stores;
