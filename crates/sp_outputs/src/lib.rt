//! What one event of a space answers: its outputs, noted as they come and told in their order.
//!
//! A contract speaks of the list of notes that the rules of spaces keep while an event is under way.
#![tactic(auto)]

pub use output::{Output, Turn};
pub use outputs::Outputs;
pub use sp_registry::RegistryFault;
pub use sp_tasks::Outcome;

mod note;
mod output;
mod outputs;
