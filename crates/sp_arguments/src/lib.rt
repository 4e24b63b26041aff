//! Arguments of methods, as command lines and scripts spell them.
#![tactic(auto)]

pub use argument::argument_of;

mod argument;
