//! The command `sim` with a record of what happens: the words that ask for it, the script that is played, and the files that it writes.
#![tactic(auto)]

pub use command::sim_command;
pub use words::{RecordRequest, SimAim, TraceFile, TraceForm, asks_record, read_sim_words};

mod command;
mod words;
