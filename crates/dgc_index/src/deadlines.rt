//! Deadlines in the order of their moments.

ghost use Rattle.std.specs.Prelude.{◌≡◌, ◌≤◌, ◌<◌, IfOk, Contains, false, []};
ghost use Rattle.dgc_index.specs.declared.deadlines.Deadline.{Deadline};
ghost use Rattle.dgc_index.specs.Deadlines.{over_at, IsPlanned, indexes_up_to};

use crate::up_to;
use std::alloc::{AllocError, Global};
use std::collections::BTreeSet;

/// A moment at which something becomes of the lease of the reference at an index.
#[derive(Clone, Copy, PartialEq, Eq, PartialOrd, Ord)]
pub struct Deadline {
    pub moment: u64,
    pub index: usize,
}

/// Deadlines in the order of their moments. A deadline for which there was no memory is not lost: from
/// then on there may be one at any moment, until all are [cleared](Deadlines::clear).
#[derive(Clone, Drop)]
pub struct Deadlines {
    /// The deadlines that are known.
    pub row: BTreeSet<Deadline>,
    /// Whether there may be a deadline at any moment, since an allocation failed.
    pub all: bool,
}

/// Returns the moment by which this part of a period is over, if its dirty call was sent at `sent`:
/// the last moment if none comes so late. A part of 0 is over at any moment.
pub fn over_at(sent: u64, part: u64) -> u64
    ensures { result ≡ over_at sent part }
{
    if part == 0 {
        0
    } else if part > u64::MAX - sent {
        u64::MAX
    } else {
        sent + part
    }
}

impl Deadlines {
    /// Returns a set without deadlines.
    pub fn new(alloc: Global) -> Deadlines
        ensures all { result.all ≡ false }
        ensures row { result.row.keys ≡ [] }
    {
        Deadlines {
            row: BTreeSet::new(alloc),
            all: false,
        }
    }

    /// Takes all deadlines out.
    pub fn clear(&mut self)
        ensures all { self.new.all ≡ false }
        ensures row { self.new.row.keys ≡ [] }
    {
        self.row.clear();
        self.all = false;
    }

    /// Adds a deadline, and all others stay. It cannot fail: if it is out of memory, there may be a
    /// deadline at any moment from then on.
    pub fn add(&mut self, deadline: Deadline)
        ensures here { IsPlanned self.new deadline }
        ensures kept { (other : Deadline) → IsPlanned self.old other → IsPlanned self.new other }
    {
        match self.row.insert(deadline) {
            Ok(_) => {}
            Err(_) => self.all = true,
        }
    }

    /// Takes a deadline out, and all others stay.
    pub fn remove(&mut self, deadline: Deadline)
        ensures { (other : Deadline) → (other ≡ deadline → ⊥) → IsPlanned self.old other
            → IsPlanned self.new other }
    {
        let _ = self.row.remove(&deadline);
    }

    /// Returns the indexes, below this count, of the deadlines up to a moment. There may be others
    /// among them.
    pub fn up_to(&self, alloc: Global, moment: u64, count: usize) -> Result<Vec<usize>, AllocError>
        ensures { IfOk result (λ indexes. (other : Deadline) → other.moment ≤ moment
            → other.index < count → IsPlanned self.now other → Contains indexes.items other.index) }
    {
        if self.all {
            return up_to(alloc, count);
        }
        self.indexes_up_to(alloc, moment)
    }

    // The indexes of the deadlines that are known, up to a moment.
    fn indexes_up_to(&self, alloc: Global, moment: u64) -> Result<Vec<usize>, AllocError>
        ensures { IfOk result (λ indexes. indexes.items ≡ indexes_up_to moment self.now.row) }
    {
        let last = Deadline {
            moment,
            index: usize::MAX,
        };
        self.row
            .range(..=last)
            .map(|deadline| deadline.index)
            .collect(alloc)
    }
}
