//! A class set that is linked and checked is never stuck: definitions and laws, each the contract of a function. Nothing
//! here is called when a program runs.
//!
//! | Module | Laws of |
//! |---|---|
//! | `worlds` | what such a set is to the laws of typed machines: its world of types, and what is owed of it |
//! | `rows` | each instruction of a checked method, as the interpreter makes it: those laws let it through |
//! | `soundness` | the set as a whole |
#![tactic(auto)]

pub use cls_link::Linked;
pub use ver_check::Accepted;
pub use vm_typing::Machine;

pub mod rows;
pub mod soundness;
pub mod worlds;
