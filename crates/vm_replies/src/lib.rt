//! Whether a reply is one that fits what the machine of a task asks of its space, of the kind and the type
//! that is asked; and what crosses of what a method gives to who started its task. It takes no memory.
#![tactic(auto)]

pub use replies::fits;
pub use results::end_for_caller;

mod fields;
mod replies;
mod results;
