//! Marks of the classes of a set, a bit each: a table of all supertypes of 4,096 classes takes 2 MB.

ghost use Rattle.std.specs.Prelude.{◌≡◌, ℕ, bit_or, length, slice_index_or};

use std::alloc::{AllocError, Global};
use std::marker::Model;

// How many marks a word holds.
const BITS: usize = 64;

/// Which classes of a set are marked. A contract sees it as the list of the marks, by number.
#[derive(Drop)]
pub struct ClassMarks {
    words: Vec<u64>,
    count: usize,
}

impl Model for ClassMarks {
    ghost use Rattle.std.specs.Prelude.{◌≡◌, Bool, List, length};
    ghost use Rattle.cls_order.specs.Bits.{marks_of, words_for};

    ghost Value = { List Bool };

    ghost view = { λ marks. marks_of marks.words.items marks.count };

    ghost invariant = { λ marks. length marks.words.items ≡ words_for marks.count };
}

impl ClassMarks {
    ghost use Rattle.std.specs.Prelude.{◌≡◌, ◌<◌, ◌↔◌, ◌⊎◌, ℕ, false, true, IfOk, length, replicate, slice_index_or, slice_set};
    ghost use Rattle.cls_order.specs.Bits.{words_for};
    ghost use Rattle.cls_order.specs.Marks.{IsMarked};

    /// Returns a mark for each of this many classes: none is set.
    pub fn none(alloc: Global, count: usize) -> Result<ClassMarks, AllocError>
        ensures { IfOk result (λ marks. marks ≡ replicate count false) }
    {
        let words = vec![in alloc; 0; count / BITS + 1]?;
        Ok(ClassMarks { words, count })
    }

    /// Returns whether the class of this number is marked.
    pub fn has(&self, index: usize) -> bool
        ensures { result ≡ slice_index_or self.now index false }
    {
        index < self.count && self.words[index / BITS] >> (index % BITS) & 1 == 1
    }

    /// Marks the class of this number.
    pub fn set(&mut self, index: usize)
        requires { index < length self.old }
        ensures { self.new ≡ slice_set self.old index true }
    {
        self.words[index / BITS] |= 1 << (index % BITS);
    }

    /// Marks each class that others mark.
    pub fn join(&mut self, others: &ClassMarks)
        requires { length self.old ≡ length others.now }
        ensures long { length self.new ≡ length self.old }
        ensures marked { (k : ℕ) → IsMarked self.new k ↔ (IsMarked self.old k ⊎ IsMarked others.now k) }
    {
        join_words(&mut self.words, &others.words);
    }
}

// Joins the bits of words with those of others, one by one.
fn join_words(words: &mut Vec<u64>, others: &[u64])
    requires { length words.old.items ≡ length others.now }
    ensures long { length words.new.items ≡ length words.old.items }
    ensures joined { (k : ℕ) → slice_index_or words.new.items k 0 ≡ bit_or (slice_index_or words.old.items k 0) (slice_index_or others.now k 0) }
{
    for index in 0..others.len() {
        words[index] |= others[index];
    }
}
