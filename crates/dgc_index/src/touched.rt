//! The references to which something happened.

ghost use Rattle.std.specs.Prelude.{ℕ, true, false, [], ◌≡◌, ◌<◌, ◌≤◌, IfOk, Contains, length, slice_index};
ghost use Rattle.dgc_index.specs.Touched.{IsTouched, Rises};

use std::alloc::{AllocError, Global};

/// The indexes of the references to which something happened since they were last looked at, and of
/// those to be looked at again. A reference that is not among them has no call due, so no walk over
/// all references is needed.
#[derive(Clone, Drop)]
pub struct Touched {
    /// The known indexes, in the order in which they were added.
    pub indexes: Vec<usize>,
    /// Whether it may be any reference, since there were more indexes than references or an allocation
    /// failed.
    pub all: bool,
}

impl Touched {
    /// Returns a set without references.
    pub fn new(alloc: Global) -> Touched
        ensures all { result.all ≡ false }
        ensures indexes { result.indexes.items ≡ [] }
    {
        Touched {
            indexes: Vec::new(alloc),
            all: false,
        }
    }

    /// Adds the reference at an index, of this count of references: something happened to it. It
    /// cannot fail: if it is out of memory, it may be any of them.
    pub fn add(&mut self, at: usize, count: usize)
        ensures here { IsTouched self.new at }
        ensures kept { (other : ℕ) → IsTouched self.old other → IsTouched self.new other }
    {
        let is_there = self.indexes.len() < count && self.indexes.push(at).is_ok();
        if !is_there {
            self.add_all();
        }
    }

    /// Adds the reference if a condition holds; else nothing changes.
    pub fn add_if(&mut self, condition: bool, at: usize, count: usize)
        ensures here { condition ≡ true → IsTouched self.new at }
        ensures kept { (other : ℕ) → IsTouched self.old other → IsTouched self.new other }
    {
        if condition {
            self.add(at, count);
        }
    }

    /// Adds all references: something happened to each of them.
    pub fn add_all(&mut self)
        ensures { (at : ℕ) → IsTouched self.new at }
    {
        self.all = true;
    }

    /// Sets the references to these alone.
    pub fn only(&mut self, indexes: Vec<usize>)
        ensures all { self.new.all ≡ false }
        ensures indexes { self.new.indexes.items ≡ indexes.items }
    {
        self.indexes = indexes;
        self.all = false;
    }

    /// Adds the references of another set, of this count of references. It cannot fail: if it is
    /// out of memory, it may be any of them.
    pub fn join(&mut self, other: &mut Touched, count: usize)
        ensures kept { (at : ℕ) → IsTouched self.old at → IsTouched self.new at }
        ensures joined { (at : ℕ) → IsTouched other.old at → IsTouched self.new at }
    {
        if other.all || self.indexes.len() >= count {
            self.add_all();
            return;
        }
        match self.indexes.append(&mut other.indexes) {
            Ok(()) => {}
            Err(_) => self.add_all(),
        }
    }

    /// Takes all references out.
    pub fn clear(&mut self)
        ensures all { self.new.all ≡ false }
        ensures indexes { self.new.indexes.items ≡ [] }
    {
        self.indexes.clear();
        self.all = false;
    }

    /// Returns the touched indexes and those of `more`, rising. If any reference may be touched,
    /// these are all indexes below `count`.
    pub fn rising(
        &self,
        alloc: Global,
        count: usize,
        more: Vec<usize>,
    ) -> Result<Vec<usize>, AllocError>
        ensures rising { IfOk result (λ indexes. Rises indexes.items) }
        ensures there { IfOk result (λ indexes. (at : ℕ) → at < count → IsTouched self.now at
            → Contains indexes.items at) }
        ensures more { IfOk result (λ indexes. (at : ℕ) → at < count → Contains more.items at
            → Contains indexes.items at) }
    {
        if self.all {
            return up_to(alloc, count);
        }
        let mut more = more;
        let mut indexes = self.indexes.as_slice().to_vec(alloc)?;
        indexes.append(&mut more)?;
        Ok(sorted(indexes))
    }
}

/// Returns these indexes, rising.
pub fn sorted(indexes: Vec<usize>) -> Vec<usize>
    ensures rising { Rises result.items }
    ensures there { (at : ℕ) → Contains indexes.items at → Contains result.items at }
{
    let mut indexes = indexes;
    indexes.sort_unstable();
    indexes
}

/// Returns all indexes below a count, rising.
pub fn up_to(alloc: Global, count: usize) -> Result<Vec<usize>, AllocError>
    ensures rising { IfOk result (λ indexes. Rises indexes.items) }
    ensures there { IfOk result (λ indexes. (at : ℕ) → at < count → Contains indexes.items at) }
{
    let mut indexes = Vec::new(alloc);
    for at in 0..count {
        indexes.push(at)?;
    }
    Ok(indexes)
}
