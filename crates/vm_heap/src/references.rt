//! The references to remote objects that a task has come by.
ghost use Rattle.std.specs.Prelude.{◌≡◌, ◌<◌, [], length, IfOk, Some, option_map, slice_get};
ghost use Rattle.std.specs.List.{position};
ghost use Rattle.vm_heap.specs.Tagged.{Remote};
ghost use Rattle.vm_heap.specs.References.{is_own, row_of, row_for, with_reference};

use crate::word::Word;
use space_ids::{Ref, Uuid};
use std::alloc::{AllocError, Global};
use std::marker::Model;

/// The references that a task has come by, each once, in the order in which they came. Words name
/// them by their rows. Room for as many as there may be is reserved when it is made.
#[derive(Drop)]
pub struct References {
    own: Uuid,
    rows: Vec<Ref>,
    // Whether the reference of a row is to an object of the task's own space. It is not compared while the
    // task runs: a loop that passes an address in its machine on keeps none of it in registers.
    are_own: Vec<bool>,
    limit: u16,
}

impl Model for References {
    ghost use Rattle.std.specs.Prelude.{vec_capacity};
    ghost use Rattle.vm_heap.specs.References.{Table, AreMarked, IsTable};

    ghost Value = { Table };

    ghost view = { λ r. record { own = r.own; rows = r.rows.items; limit = r.limit } };

    ghost invariant = { λ r. IsTable r.rows.items r.limit (vec_capacity r.rows) × AreMarked r.own r.rows.items r.limit r.are_own.items (vec_capacity r.are_own) };
}

impl References {
    /// Returns a list without references, for a task of the space of this id, with room for `limit`
    /// of them.
    pub fn with_limit(alloc: Global, own: Uuid, limit: u16) -> Result<References, AllocError>
        ensures { IfOk result (λ references. references ≡ record { own = own; rows = []; limit = limit }) }
    {
        Ok(References {
            own,
            rows: Vec::with_capacity(alloc, limit as usize)?,
            are_own: Vec::with_capacity(alloc, limit as usize)?,
            limit,
        })
    }

    /// Returns the id of the space whose task came by the references.
    pub fn own(&self) -> Uuid
        ensures { result ≡ self.now.own }
    {
        self.own
    }

    /// Returns how many references there are.
    #[inline(always)]
    pub fn len(&self) -> usize
        ensures { result ≡ length self.now.rows }
    {
        self.rows.len()
    }

    /// Returns the reference of a row. The caller owes that there is one.
    #[inline(always)]
    pub fn get(&self, row: usize) -> Ref
        requires { row < length self.now.rows }
        ensures { slice_get self.now.rows row ≡ Some result }
    {
        self.rows[row]
    }

    /// Returns whether the reference of a row is to an object of the task's own space. The caller
    /// owes that there is one.
    #[inline(always)]
    pub fn is_own(&self, row: usize) -> bool
        requires { row < length self.now.rows }
        ensures { option_map (is_own self.now) (slice_get self.now.rows row) ≡ Some result }
    {
        self.are_own[row]
    }

    /// Returns the word of a reference. One that the task has not come by yet gets a row of its own.
    /// `None` if that is over the limit, and then nothing changes. It takes no memory.
    pub fn hold(&mut self, reference: Ref) -> Option<Word>
        ensures word { result ≡ option_map Remote (row_for reference self.old) }
        ensures held { self.new ≡ with_reference reference self.old }
    {
        if let Some(row) = row_of(&self.rows, &reference) {
            return Some(Word::remote(row as u16));
        }
        let row = self.rows.len();
        if row >= self.limit as usize {
            return None;
        }
        self.are_own.push_reserved(reference.space == self.own);
        self.rows.push_reserved(reference);
        Some(Word::remote(row as u16))
    }
}

// The row of a reference: `None` if it has none.
#[tactic(auto, unfolding(crate::specs::References::row_of))]
fn row_of(rows: &[Ref], reference: &Ref) -> Option<usize>
    ensures { result ≡ row_of rows.now reference.now }
{
    rows.iter().position(|row| reference.is_same(row))
}
