//! The commands that run a space over TCP, `serve` and `call`: the files that they read, and the space.
#![tactic(auto)]

pub use command::space_command;
pub use explaining::{explain_ended, explain_space};

mod command;
mod explaining;
mod exports;
mod serving;
