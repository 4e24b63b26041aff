//! What a player of scripts keeps beside its world: who dialled whom, what can happen next, and a record of what happened.
#![tactic(auto)]

pub use agenda::Agenda;
pub use occurrence::{Occurrence, OccurrenceKind, occurrence_of};
pub use recording::{keep_event, keep_output, keep_standing};
pub use routes::Routes;

mod agenda;
mod occurrence;
mod recording;
mod routes;
