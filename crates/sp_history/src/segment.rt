//! What a checkpoint cuts off.

use crate::entry::Entry;
use sp_lender::Lender;

/// The entries between two checkpoints, oldest first, and a copy of the state from which they replay. There is none
/// where that is the state of a space to which nothing has happened.
#[derive(Drop)]
pub struct Segment<S: Lender + Drop> {
    pub base: Option<S::Base>,
    pub entries: Vec<Entry>,
}
