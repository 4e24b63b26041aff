//! The client's side of distributed garbage collection (Java RMI specification, chapter on garbage
//! collection): what a space holds of a foreign reference, its lease, and the due call.
//!
//! [`ClientLease`] is the machine of one reference. Its history is the list of what happened to it,
//! newest first, with the moments. [`Clients`] is the table of these machines, in the order in which
//! the references were first held; it answers the calls that are due in [`Group`]s.
#![tactic(auto)]

pub use dgc_index::Term;
pub use due_calls::DueCalls;
pub use groups::{DueCall, Group};
pub use lease::{ClientLease, Due, LONGEST_LEASE, Made, Owed};
pub use space_ids::ForeignId;
pub use table::Clients;

mod due_calls;
mod due_now;
mod groups;
mod lease;
mod leases;
mod picked;
mod planning;
mod table;
