//! Numbers by index, with the least of them at hand.

ghost use Rattle.std.specs.Prelude.{◌≡◌, ◌≢◌, ℕ, ◌+◌, ◌-◌, ◌*◌, ◌<◌, ◌≤◌, ◌++◌, [], ◌∷◌, IfOk, OnOk, length, min, slice_set, swap_remove, take};
ghost use Rattle.least_tree.specs.Least.{IsLow, least, least_below, number_at};

use std::alloc::{AllocError, Global};
use std::marker::Model;

/// The number that stands for none.
pub const NOTHING: u64 = u64::MAX;

/// Numbers by index, of which the least is at hand. A tree over the indices has at each the least number at
/// it and below it, so a number changes at a cost that grows with the logarithm of how many there are.
///
/// A contract sees the list of the numbers, and for how many more there is room.
#[derive(Drop)]
pub struct LeastTree {
    numbers: Vec<u64>,
    lows: Vec<u64>,
}

impl Model for LeastTree {
    ghost use Rattle.std.specs.Prelude.{◌-◌, min, vec_len};
    ghost use Rattle.std.specs.Vec.{vec_capacity};
    ghost use Rattle.least_tree.specs.Least.{IsTree, Least};

    ghost Value = { Least };

    ghost view = { λ tree. record { numbers = tree.numbers.items; room = min (vec_capacity tree.numbers - vec_len tree.numbers) (vec_capacity tree.lows - vec_len tree.lows) } };

    ghost invariant = { λ tree. IsTree tree.numbers.items tree.lows.items };
}

impl LeastTree {
    /// No number.
    pub fn new(alloc: Global) -> LeastTree
        ensures { result.numbers ≡ [] }
    {
        LeastTree {
            numbers: Vec::new(alloc),
            lows: Vec::new(alloc),
        }
    }

    /// The same numbers, with no room for more.
    pub fn copy(&self, alloc: Global) -> Result<LeastTree, AllocError>
        ensures { IfOk result (λ copy. copy.numbers ≡ self.now.numbers) }
    {
        Ok(LeastTree {
            numbers: self.numbers.as_slice().to_vec(alloc)?,
            lows: self.lows.as_slice().to_vec(alloc)?,
        })
    }

    /// The least number, or that which stands for none.
    pub fn least(&self) -> u64
        ensures { result ≡ least self.now.numbers }
    {
        at_index(&self.lows, 0)
    }

    /// Makes room for this many more numbers. The numbers stay, at out of memory too.
    pub fn reserve(&mut self, indices: usize) -> Result<(), AllocError>
        ensures ok { OnOk result (indices ≤ self.new.room) }
        ensures numbers { self.new.numbers ≡ self.old.numbers }
        ensures room { self.old.room ≤ self.new.room }
    {
        self.numbers.reserve(indices)?;
        self.lows.reserve(indices)
    }

    /// Adds a number at the next index. It takes no memory.
    pub fn push_reserved(&mut self, number: u64)
        requires { 0 < self.old.room }
        ensures numbers { self.new.numbers ≡ self.old.numbers ++ number ∷ [] }
        ensures room { self.old.room ≤ self.new.room + 1 }
    {
        let index = self.numbers.len();
        self.numbers.push_reserved(number);
        self.lows.push_reserved(NOTHING);
        rise(&self.numbers, &mut self.lows, index);
    }

    /// Puts another number at an index.
    pub fn put(&mut self, index: usize, number: u64)
        requires { index < length self.old.numbers }
        ensures numbers { self.new.numbers ≡ slice_set self.old.numbers index number }
        ensures room { self.new.room ≡ self.old.room }
    {
        self.numbers[index] = number;
        rise(&self.numbers, &mut self.lows, index);
    }

    /// Takes the number of an index away. The last number takes that index.
    pub fn swap_remove(&mut self, index: usize)
        requires { index < length self.old.numbers }
        ensures numbers { (other : ℕ) → self.new.numbers ≡ swap_remove self.old.numbers index other }
        ensures room { self.old.room ≤ self.new.room }
    {
        let last = self.numbers.len() - 1;
        let number = self.numbers[last];
        self.put(index, number);
        self.pop();
    }

    // Takes the last number away.
    fn pop(&mut self)
        requires { 0 < length self.old.numbers }
        ensures numbers { self.new.numbers ≡ take (length self.old.numbers - 1) self.old.numbers }
        ensures room { self.old.room ≤ self.new.room }
    {
        let _ = self.numbers.pop();
        let _ = self.lows.pop();
        let last = self.numbers.len();
        if last > 0 {
            rise(&self.numbers, &mut self.lows, (last - 1) / 2);
        }
    }
}

// What stands at an index, or nothing.
fn at_index(numbers: &[u64], index: usize) -> u64
    ensures { result ≡ number_at numbers.now index }
{
    match numbers.get(index) {
        Some(number) => *number,
        None => NOTHING,
    }
}

// The least below an index.
fn below(lows: &[u64], index: usize) -> u64
    requires { index < length lows.now }
    ensures { result ≡ least_below lows.now index }
{
    if index < lows.len() / 2 {
        at_index(lows, 2 * index + 1).min(at_index(lows, 2 * index + 2))
    } else {
        NOTHING
    }
}

// Writes the least at an index and below it.
fn settle(numbers: &[u64], lows: &mut [u64], index: usize)
    requires index { index < length lows.old }
    ensures { lows.new ≡ slice_set lows.old index (min (number_at numbers.now index) (least_below lows.old index)) }
{
    lows[index] = at_index(numbers, index).min(below(lows, index));
}

// Mends the tree from an index up to the first, if all other indices are right.
fn rise(numbers: &[u64], lows: &mut [u64], index: usize)
    requires index { index < length lows.old }
    requires others { (other : ℕ) → other ≢ index → IsLow numbers.now lows.old other }
    ensures { (other : ℕ) → IsLow numbers.now lows.new other }
{
    let mut at = index;
    settle(numbers, lows, at);
    while at > 0 {
        at = (at - 1) / 2;
        settle(numbers, lows, at);
    }
}
