//! Why a line of a script is bad, in lines for people: the form of its command, and which of its words does not fit. Every
//! call is safe, and no more is promised.
#![tactic(auto)]

pub use explaining::explain_bad_line;

mod explaining;
mod forms;
mod known;
