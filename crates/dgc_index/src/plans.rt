//! When leases are half over and when they end.

ghost use Rattle.std.specs.Prelude.{◌≡◌, ◌||◌, ℕ, Some, true, false};
ghost use Rattle.dgc_index.specs.declared.deadlines.Deadline.{Deadline};
ghost use Rattle.dgc_index.specs.declared.plans.Term.{Term};
ghost use Rattle.dgc_index.specs.Deadlines.{IsPlanned};
ghost use Rattle.dgc_index.specs.Plans.{half_at, end_at, is_half_over_at, stands_at, IsPlannedTerm};

use crate::{Deadline, Deadlines, over_at};
use std::alloc::Global;

/// A lease: when its dirty call was sent, and the granted period, in milliseconds.
#[derive(Clone, Copy, PartialEq, Eq)]
pub struct Term {
    pub sent: u64,
    pub period: u64,
}

/// When each lease is half over, and when it ends.
#[derive(Clone, Drop)]
pub struct Plans {
    pub halves: Deadlines,
    pub ends: Deadlines,
}

impl Term {
    /// Returns whether the lease stands at a moment.
    pub fn stands_at(&self, moment: u64) -> bool
        ensures { result ≡ stands_at self.now moment }
    {
        moment.saturating_sub(self.sent) < self.period
    }

    /// Returns whether not more than half of the period is left at a moment.
    pub fn is_half_over_at(&self, moment: u64) -> bool
        ensures { result ≡ is_half_over_at self.now moment }
    {
        let over = moment.saturating_sub(self.sent);
        self.period.saturating_sub(over) <= over
    }
}

impl Plans {
    /// Returns plans without deadlines.
    pub fn new(alloc: Global) -> Plans
        ensures halves { result.halves.all ≡ false }
        ensures ends { result.ends.all ≡ false }
    {
        Plans {
            halves: Deadlines::new(alloc),
            ends: Deadlines::new(alloc),
        }
    }

    /// Returns whether there was no memory for some deadlines.
    pub fn lacks_deadlines(&self) -> bool
        ensures { result ≡ (self.now.halves.all || self.now.ends.all) }
    {
        self.halves.all || self.ends.all
    }

    /// Takes all deadlines out.
    pub fn clear(&mut self)
        ensures halves { self.new.halves.all ≡ false }
        ensures ends { self.new.ends.all ≡ false }
    {
        self.halves.clear();
        self.ends.clear();
    }

    /// Moves the deadlines to the lease that stands at an index now. There may be deadlines for the
    /// lease `kept`, and there are those for `before`.
    pub fn change(
        &mut self,
        index: usize,
        kept: Option<Term>,
        before: Option<Term>,
        after: Option<Term>,
    )
        ensures here { (term : Term) → after ≡ Some term
            → (before ≡ Some term → IsPlannedTerm self.old term index)
            → IsPlannedTerm self.new term index }
        ensures others { (term : Term) (other : ℕ) → (other ≡ index → ⊥)
            → IsPlannedTerm self.old term other → IsPlannedTerm self.new term other }
        ensures halves { (other : Deadline) → (other.index ≡ index → ⊥)
            → IsPlanned self.old.halves other → IsPlanned self.new.halves other }
    {
        if is_same_term(kept, after) && is_same_term(before, after) {
            return;
        }
        self.remove(index, kept);
        self.add(index, after);
    }

    /// Adds the deadlines of a lease.
    pub fn add(&mut self, index: usize, term: Option<Term>)
        ensures here { (this : Term) → term ≡ Some this → IsPlannedTerm self.new this index }
        ensures kept { (this : Term) (other : ℕ) → IsPlannedTerm self.old this other
            → IsPlannedTerm self.new this other }
        ensures halves { (other : Deadline) → IsPlanned self.old.halves other
            → IsPlanned self.new.halves other }
    {
        if let Some(term) = term {
            self.halves.add(half_of(term, index));
            self.ends.add(end_of(term, index));
        }
    }

    // Takes out the deadlines of a lease.
    fn remove(&mut self, index: usize, term: Option<Term>)
        ensures others { (this : Term) (other : ℕ) → (other ≡ index → ⊥)
            → IsPlannedTerm self.old this other → IsPlannedTerm self.new this other }
        ensures halves { (other : Deadline) → (other.index ≡ index → ⊥)
            → IsPlanned self.old.halves other → IsPlanned self.new.halves other }
    {
        if let Some(term) = term {
            self.halves.remove(half_of(term, index));
            self.ends.remove(end_of(term, index));
        }
    }
}

// When a lease is half over.
fn half_of(term: Term, index: usize) -> Deadline
    ensures { result ≡ record { moment = half_at term; index = index } }
{
    let part = term.period - term.period / 2;
    Deadline {
        moment: over_at(term.sent, part),
        index,
    }
}

// When a lease ends.
fn end_of(term: Term, index: usize) -> Deadline
    ensures { result ≡ record { moment = end_at term; index = index } }
{
    Deadline {
        moment: over_at(term.sent, term.period),
        index,
    }
}

// Whether two leases are one.
fn is_same_term(one: Option<Term>, other: Option<Term>) -> bool
    ensures { result ≡ true → one ≡ other }
{
    match (one, other) {
        (None, None) => true,
        (Some(one), Some(other)) => one.sent == other.sent && one.period == other.period,
        _ => false,
    }
}
