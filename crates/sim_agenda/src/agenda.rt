//! What can happen next in a world, as `settle` looks for it.

use std::alloc::{AllocError, Global};
use std::collections::BTreeSet;

/// The spaces with a task that may go on, and the connections on which something can be delivered. A space or a connection is looked
/// at when something happens to it, and at no other time, so what comes next is at hand however many there are.
#[derive(Drop)]
pub struct Agenda {
    ready: BTreeSet<usize>,
    queued: BTreeSet<u64>,
}

impl Agenda {
    /// Nothing can happen.
    pub fn new(alloc: Global) -> Agenda {
        Agenda {
            ready: BTreeSet::new(alloc),
            queued: BTreeSet::new(alloc),
        }
    }

    /// Notes whether a space has a task that may go on.
    pub fn note_space(&mut self, space: usize, is_ready: bool) -> Result<(), AllocError> {
        if is_ready {
            self.ready.insert(space)?;
        } else {
            let _ = self.ready.remove(&space);
        }
        Ok(())
    }

    /// Notes whether something can be delivered on a connection.
    pub fn note_connection(&mut self, conn: u64, is_queued: bool) -> Result<(), AllocError> {
        if is_queued {
            self.queued.insert(conn)?;
        } else {
            let _ = self.queued.remove(&conn);
        }
        Ok(())
    }

    /// The lowest space with a task that may go on.
    pub fn first_ready(&self) -> Option<usize> {
        self.ready.first().copied()
    }

    /// The lowest connection on which something can be delivered.
    pub fn first_queued(&self) -> Option<u64> {
        self.queued.first().copied()
    }
}
