//! What a history was.

use crate::entry::Entry;
use crate::past::{EntryList, OutputList};
use ghost_value::Ghost;
use sp_lender::Lender;
use sp_outputs::Output;

/// What a history was: its space, the entries since the last checkpoint, oldest first, a copy of the state from which
/// they replay, and the outputs that wait. There is no copy where no entry was cut.
#[derive(Drop)]
pub struct Gathered<S: Lender + Drop> {
    pub base: Option<S::Base>,
    pub space: S,
    pub entries: Vec<Entry>,
    pub waiting: Vec<Vec<Output>>,
    /// Of the entries that were cut clauses speak alone.
    pub cut: Ghost<EntryList>,
    /// So they do of the outputs that waited at the last checkpoint.
    pub before: Ghost<OutputList>,
}
