//! A map from numbers that rise.

ghost use Rattle.std.specs.Prelude.{◌≡◌, ℕ, ◌≤◌, ◌<◌, ◌+◌, ◌++◌, List, [], ◌∷◌, IfOk, OnOk, is_none, is_some, length, nat_eq, option_copied, vec_len};
ghost use Rattle.std.specs.Vec.{vec_capacity};
ghost use Rattle.std.specs.List.{IsDistinct};
ghost use Rattle.std.specs.Map.{keys_of, lookup, remove_entry, set_value, values_of};

use indexmap::IndexMap;
use std::alloc::{AllocError, Global};
use std::mem;
use table_copies::{CopyIn, NumberHashes, copy_map};

/// Rows by numbers. A row that comes has a number above all that are there, so the rows have the order
/// in which they came. A row is found, changed and taken away at a cost that does not depend on how many
/// there are.
///
/// A contract names the lists of rows, in their order, that the value may stand for.
#[derive(Debug, Drop)]
pub struct RisingMap<T> {
    rows: IndexMap<u64, T, NumberHashes>,
}

impl<T: Drop> RisingMap<T> {
    ghost use Rattle.rising_map.specs.Rows.{AreBelow, AreRows, first_row, room};

    /// No row.
    pub fn new(alloc: Global) -> RisingMap<T>
        ensures { AreRows [] result }
    {
        RisingMap {
            rows: IndexMap::with_hasher(alloc, NumberHashes::new()),
        }
    }

    /// Whether there is no row.
    pub fn is_empty(&self) -> bool
        ensures { (rows : List (ℕ × T)) → AreRows rows self.now → result ≡ is_none (first_row rows) }
    {
        self.rows.is_empty()
    }

    /// The row of a number, if it is there.
    pub fn get(&self, number: u64) -> Option<&T>
        ensures { (rows : List (ℕ × T)) → AreRows rows self.now → option_copied result ≡ lookup (nat_eq number) rows }
    {
        self.rows.get(&number)
    }

    /// Whether there is a row of this number.
    pub fn contains(&self, number: u64) -> bool
        ensures { (rows : List (ℕ × T)) → AreRows rows self.now → result ≡ is_some (lookup (nat_eq number) rows) }
    {
        self.rows.contains_key(&number)
    }

    /// Makes room for this many more rows. Nothing else changes, at out of memory too.
    pub fn reserve(&mut self, rows: usize) -> Result<(), AllocError>
        ensures ok { OnOk result (rows ≤ room self.new) }
        ensures same { (rows : List (ℕ × T)) → AreRows rows self.old → AreRows rows self.new }
        ensures room { room self.old ≤ room self.new }
    {
        self.rows.reserve(rows)
    }

    /// Puts a row after all others, under a number above theirs. It takes no memory: the caller owes
    /// [room](RisingMap::reserve) for it.
    pub fn push_reserved(&mut self, number: u64, row: T)
        requires { 0 < room self.old }
        ensures pushed { (rows : List (ℕ × T)) → AreRows rows self.old → AreBelow number (keys_of rows) → AreRows (rows ++ (number, row) ∷ []) self.new }
        ensures room { room self.old ≤ room self.new + 1 }
    {
        let Ok(_) = self.rows.insert(number, row) else {
            unreachable!();
        };
    }

    /// Puts another row in the place of that of a number, which it returns. Nothing happens if there is
    /// none. It takes no memory.
    pub fn replace(&mut self, number: u64, row: T) -> Option<T>
        ensures row { (rows : List (ℕ × T)) → AreRows rows self.old → result ≡ lookup (nat_eq number) rows }
        ensures replaced { (rows : List (ℕ × T)) → AreRows rows self.old → AreRows (set_value (nat_eq number) rows row) self.new }
        ensures room { room self.new ≡ room self.old }
    {
        let index = self.rows.get_index_of(&number)?;
        Some(mem::replace(&mut self.rows[index], row))
    }

    /// Takes the row of a number away, if it is there. The order of the others stays. It takes no memory.
    pub fn take(&mut self, number: u64) -> Option<T>
        ensures row { (rows : List (ℕ × T)) → AreRows rows self.old → result ≡ lookup (nat_eq number) rows }
        ensures taken { (rows : List (ℕ × T)) → AreRows rows self.old → AreRows (remove_entry (nat_eq number) rows) self.new }
        ensures room { room self.old ≤ room self.new }
    {
        self.rows.swap_remove(&number)
    }

    /// Takes all rows away and puts them, in their order, after what `taken` has: `numbers` are those of all
    /// rows. It takes no memory: the caller owes room in `taken`.
    pub fn take_all_reserved(&mut self, numbers: &[u64], taken: &mut Vec<T>)
        requires { vec_len taken.old + length numbers.now ≤ vec_capacity taken.old }
        ensures rows { (rows : List (ℕ × T)) → AreRows rows self.old → numbers.now ≡ keys_of rows → taken.new.items ≡ taken.old.items ++ values_of rows }
        ensures taken { (rows : List (ℕ × T)) → AreRows rows self.old → numbers.now ≡ keys_of rows → AreRows [] self.new }
        ensures len { vec_len taken.new ≤ vec_len taken.old + length numbers.now }
        ensures capacity { vec_capacity taken.new ≡ vec_capacity taken.old }
    {
        for number in numbers {
            match self.take(*number) {
                Some(row) => taken.push_reserved(row),
                None => {}
            }
        }
    }

    /// The numbers of all rows, in their order.
    pub fn numbers(&self, alloc: Global) -> Result<Vec<u64>, AllocError>
        ensures { IfOk result (λ numbers. (rows : List (ℕ × T)) → AreRows rows self.now → numbers.items ≡ keys_of rows) }
    {
        let mut numbers = self.keys(alloc)?;
        numbers.sort_unstable();
        Ok(numbers)
    }

    // The numbers of all rows, in some order.
    fn keys(&self, alloc: Global) -> Result<Vec<u64>, AllocError>
        ensures keys { IfOk result (λ numbers. numbers.items ≡ keys_of self.now.rows.entries) }
        ensures distinct { IsDistinct nat_eq (keys_of self.now.rows.entries) }
    {
        self.rows.keys().copied().collect(alloc)
    }
}

impl<T: CopyIn> RisingMap<T> {
    ghost use Rattle.rising_map.specs.Rows.{HasRowsOf};

    /// Returns a map of copies of the rows, each under the number of its row. It may have no room for
    /// more. It costs a step a row.
    pub fn copy(&self) -> Result<RisingMap<T>, AllocError>
        ensures copied { IfOk result (λ copy. HasRowsOf T.is_copy self.now copy) }
    {
        Ok(RisingMap {
            rows: copy_map(&self.rows)?,
        })
    }
}

impl<T: CopyIn> CopyIn for RisingMap<T> {
    ghost use Rattle.rising_map.specs.Rows.{HasRowsOf};

    ghost is_copy = { HasRowsOf T.is_copy };

    fn copy_in(&self, _alloc: Global) -> Result<RisingMap<T>, AllocError> {
        self.copy()
    }
}
