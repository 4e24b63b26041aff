//! Why a method is not type safe, or does not start, in lines for people: what an instruction finds and what it asks,
//! and which methods could be meant. Every call is safe, and no more is promised.
#![tactic(auto)]

pub use checking::explain_check;
pub use starting::explain_start;

mod checking;
mod starting;
