//! What a core that takes calls asks of the class set of a program: `CallSet` answers it from tables that
//! are made once.
#![tactic(auto)]

pub use call_set::CallSet;

mod call_set;
mod calls;
mod kinds;
mod named;
mod selecting;
