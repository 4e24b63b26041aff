//! Scripts that play spaces and what happens between them, line by line. A line is read into a command;
//! which spaces and variables there are is asked by who plays it.
//!
//! | A line | What it says |
//! |---|---|
//! | an empty one | nothing |
//! | `space S`, `space S 1` | there is a space of this name, which speaks version 2 of the protocol at most, or 1 |
//! | `root S VAR FUEL CLASS METHOD ARG ..` | a root starts, and VAR names what it returns; FUEL is a number, or `-` for the most |
//! | `ack S VAR` | the result of VAR is let go |
//! | `bind S NAME VAR`, `rebind S NAME VAR`, `unbind S NAME` | a name is bound in the registry of a space |
//! | `lookup S T NAME VAR` | S asks T what it has bound to a name |
//! | `open S T`, `refuse S T` | the connection for which S asked is opened or refused |
//! | `deliver S T`, `reply S T` | the next frame of the connection that S dialled reaches T, or S |
//! | `readfail S T`, `writefail S T N` | S fails to read or write on it; the last N frames did not go out |
//! | `moment S MS` | this many milliseconds have passed |
//! | `sweep S`, `step S`, `show S` | a sweep; an instruction of the lowest ready task; a line for each object |
//! | `settle` | what can happen happens, at most 100,000 events |
//!
//! Single spaces part the words of a line.
#![tactic(auto)]

pub use command::{Between, Command, RootFuel};
pub use fault::LineFault;
pub use line::read_line;

mod command;
mod fault;
mod line;
