//! Results whose connection has ended.

ghost use Rattle.std.specs.Prelude.{◌≡◌, ℕ, ◌+◌, ◌≤◌, ◌++◌, [], ◌∷◌, map, IfOk, MatchOption, OnOk, length, nat_eq};
ghost use Rattle.std.specs.List.{IsDistinct};
ghost use Rattle.std.specs.Map.{keys_of};
ghost use Rattle.sp_results.specs.declared.orphans.Orphan.{Orphan as Ended};

use crate::unacknowledged::Numbers;
use std::alloc::{AllocError, Global};
use std::collections::VecDeque;

/// A result that is held until a moment, by its ticket.
#[derive(Clone, Copy)]
pub(crate) struct Orphan {
    pub(crate) until: u64,
    pub(crate) ticket: u64,
}

/// The results whose connection has ended, in the order in which the connections ended. As moments do not
/// fall, those whose moment comes first stand first, so a moment looks at those alone that go.
///
/// A contract names the list of them.
#[derive(Clone, Drop)]
pub(crate) struct Orphans {
    queue: VecDeque<Orphan>,
}

impl Orphans {
    ghost use Rattle.sp_results.specs.Ended.{ended_at, over, room};

    // None.
    pub(crate) fn new(alloc: Global) -> Orphans
        ensures { result.queue.items ≡ [] }
    {
        Orphans {
            queue: VecDeque::new(alloc),
        }
    }

    // Makes room for this many more. Nothing else changes, at out of memory too.
    pub(crate) fn reserve(&mut self, results: usize) -> Result<(), AllocError>
        ensures ok { OnOk result (results ≤ room self.new) }
        ensures same { self.new.queue.items ≡ self.old.queue.items }
    {
        self.queue.reserve(results)
    }

    // Puts all results of a connection after all others, to be held until this moment. It takes no memory.
    pub(crate) fn push_all_reserved(&mut self, numbers: &Numbers, until: u64)
        requires { length numbers.now.tickets.entries ≤ room self.old }
        ensures pushed { self.new.queue.items ≡ self.old.queue.items ++ ended_at until numbers.now.tickets.entries }
        ensures once { IsDistinct nat_eq (keys_of numbers.now.tickets.entries) }
    {
        for (_, ticket) in numbers.tickets.iter() {
            self.queue.push_back_reserved(Orphan {
                until,
                ticket: *ticket,
            });
        }
    }

    // The tickets of those whose moment has come.
    pub(crate) fn tickets_over(&self, alloc: Global, moment: u64) -> Result<Vec<u64>, AllocError>
        ensures { IfOk result (λ tickets. tickets.items ≡ map (λ (o : Ended). o.ticket) (over moment self.now.queue.items)) }
    {
        let mut tickets = Vec::new(alloc);
        for orphan in self.queue.iter() {
            if orphan.until > moment {
                break;
            }
            tickets.push(orphan.ticket)?;
        }
        Ok(tickets)
    }

    // Takes the first away, if its moment has come, and returns its ticket.
    pub(crate) fn pop_over(&mut self, moment: u64) -> Option<u64>
        ensures { MatchOption result ((over moment self.old.queue.items ≡ []) × (self.new.queue.items ≡ self.old.queue.items)) (λ ticket. (until : ℕ) × (until ≤ moment) × (self.old.queue.items ≡ record { until = until; ticket = ticket } ∷ self.new.queue.items)) }
    {
        if self.queue.front()?.until > moment {
            return None;
        }
        Some(self.queue.pop_front()?.ticket)
    }
}
