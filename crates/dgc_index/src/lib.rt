//! Which references of a client's table are looked at, by their indexes: those to which something
//! happened ([`Touched`]), and those whose lease reaches a deadline ([`Deadlines`]). So a question
//! of all references costs no walk over them.
#![tactic(auto)]

pub use deadlines::{Deadline, Deadlines, over_at};
pub use plans::{Plans, Term};
pub use touched::{Touched, sorted, up_to};

mod deadlines;
mod plans;
mod touched;
