//! Rows of words: what a task's stack and heap are made of.
ghost use Rattle.std.specs.Prelude.{◌≡◌, ◌+◌, ◌-◌, ◌<◌, ◌≤◌, ◌++◌, ◌∷◌, [], List, ℤ, pos, length, map, take, drop, replicate, Some, IfOk, slice_get, slice_set, vec_len, vec_capacity};
ghost use Rattle.std.specs.Int.{w32, cast_signed};
ghost use Rattle.vm_heap.specs.Tagged.{Tagged, Int, Unset, as_this};
ghost use Rattle.vm_heap.specs.Words.{AreWords, after_init_from, forgotten};

use crate::word::{Tag, Word};
use ghost_value::{Ghost, Says};
use std::alloc::{AllocError, Global};
use std::marker::Model;
use std::mem;

/// Words in a row, with room for more. One token says what all of them stand for, so that this can
/// change although no word does.
#[derive(Drop)]
pub struct Words {
    bits: Vec<u32>,
    tags: Ghost<Tags>,
}

impl Model for Words {
    ghost use Rattle.std.specs.Prelude.{vec_capacity};
    ghost use Rattle.vm_heap.specs.Words.{Row, AreWords};

    ghost Value = { Row };

    ghost view = { λ w. record { values = w.tags.value; room = vec_capacity w.bits } };

    ghost invariant = { λ w. AreWords w.tags.value w.bits.items };
}

// No value of it is ever made: it names the type of definitions that a row's token carries.
struct Tags {}

impl Model for Tags {
    ghost use Rattle.std.specs.Prelude.{List, []};
    ghost use Rattle.vm_heap.specs.Tagged.{Tagged};

    ghost Value = { List Tagged };

    ghost view = { λ _. [] };
}

impl Words {
    /// Returns a row without words, and room for `room` of them, which is reserved and not written.
    pub fn with_room(alloc: Global, room: usize) -> Result<Words, AllocError>
        ensures { IfOk result (λ words. words ≡ record { values = []; room = room }) }
    {
        Ok(Words {
            bits: Vec::with_capacity(alloc, room)?,
            tags: Ghost::of::<(), OfNone>(&()),
        })
    }

    /// Returns how many words there are.
    #[inline(always)]
    pub fn len(&self) -> usize
        ensures { result ≡ length self.now.values }
    {
        self.bits.len()
    }

    /// Returns for how many words there is room.
    #[inline(always)]
    pub fn room(&self) -> usize
        ensures { result ≡ self.now.room }
    {
        self.bits.capacity()
    }

    /// Returns the word at an index. The caller owes that there is one; nothing tests it.
    #[inline(always)]
    pub fn get(&self, index: usize) -> Word
        requires { index < length self.now.values }
        ensures { slice_get self.now.values index ≡ Some result }
    {
        Word {
            bits: self.bits[index],
            tag: Ghost::of::<Read, Got>(&Read {
                tags: self.tags.copy(),
                index,
            }),
        }
    }

    /// Writes the word at an index. The caller owes that there is one; nothing tests it.
    #[inline(always)]
    pub fn set(&mut self, index: usize, word: Word)
        requires { index < length self.old.values }
        ensures { self.new ≡ record self.old { values = slice_set self.old.values index word } }
    {
        self.bits[index] = word.bits;
        self.tags = Ghost::of::<Written<'_>, Set>(&Written {
            tags: self.tags.copy(),
            index,
            word: &word,
        });
    }

    /// Adds a word. The caller owes room for it.
    #[inline(always)]
    pub fn push_reserved(&mut self, word: Word)
        requires { length self.old.values < self.old.room }
        ensures { self.new ≡ record self.old { values = self.old.values ++ word ∷ [] } }
    {
        self.bits.push_reserved(word.bits);
        self.tags = Ghost::of::<Added<'_>, Grown>(&Added {
            tags: self.tags.copy(),
            word: &word,
        });
    }

    /// Adds the words of ints. The caller owes room for them.
    pub(crate) fn add_ints(&mut self, ints: &[i32])
        requires { length self.old.values + length ints.now ≤ self.old.room }
        ensures { self.new
            ≡ record self.old {
              values = self.old.values ++ map Int ints.now;
            } }
    {
        add_bits(&mut self.bits, ints);
        self.tags = Ghost::of::<AddedInts<'_>, GrownByInts>(&AddedInts {
            tags: self.tags.copy(),
            ints,
        });
    }

    /// Adds so many words of the int 0. The caller owes room for them.
    pub(crate) fn add_zeros(&mut self, count: usize)
        requires { length self.old.values + count ≤ self.old.room }
        ensures { self.new
            ≡ record self.old {
              values = self.old.values ++ map Int (replicate count (pos 0));
            } }
    {
        add_zero_bits(&mut self.bits, count);
        self.tags = Ghost::of::<AddedZeros, GrownByZeros>(&AddedZeros {
            tags: self.tags.copy(),
            count,
        });
    }

    /// Returns a copy of so many ints from an index on. The caller owes that there are so many
    /// words, and that they stand for ints; nothing tests it.
    pub(crate) fn ints(
        &self,
        alloc: Global,
        start: usize,
        count: usize,
    ) -> Result<Vec<i32>, AllocError>
        requires { start + count ≤ length self.now.values }
        ensures { IfOk result (λ copy. (ints : List ℤ) → take count (drop start self.now.values) ≡ map Int ints → copy.items ≡ ints) }
    {
        let (_, rest) = self.bits.as_slice().split_at(start);
        let (bits, _) = rest.split_at(count);
        ints_of(alloc, bits)
    }

    /// Adds words that stand for nothing, up to `count` words in all. The caller owes room for
    /// them.
    pub fn grow_to(&mut self, count: usize)
        requires { count ≤ self.old.room }
        ensures { self.new
            ≡ record self.old {
              values =
                  self.old.values ++ replicate (count - length self.old.values) Unset;
            } }
    {
        let written = self.len();
        if written < count {
            add_unset(self, count - written);
        }
    }

    /// Makes the words from an index up to another stand for nothing. It does nothing when it runs.
    #[inline(always)]
    pub fn forget(&mut self, start: usize, end: usize)
        requires order { start ≤ end }
        requires within { end ≤ length self.old.values }
        ensures { self.new ≡ record self.old { values = forgotten start end self.old.values } }
    {
        self.tags = Ghost::of::<Part, Forgotten>(&Part {
            tags: self.tags.copy(),
            start,
            end,
        });
    }

    /// Makes each copy of a value, from an index on, stand for the initialised object, once its
    /// `<init>` is called. It does nothing when it runs.
    #[inline(always)]
    pub fn initialise(&mut self, start: usize, word: &Word)
        ensures { self.new
            ≡ record self.old {
              values = after_init_from start word.now self.old.values;
            } }
    {
        self.tags = Ghost::of::<Rest<'_>, Initialised>(&Rest {
            tags: self.tags.copy(),
            start,
            word,
        });
    }

    /// Makes the value at an index the receiver of its `<init>`. It does nothing when it runs.
    #[inline(always)]
    pub fn begin_init(&mut self, index: usize, word: &Word)
        requires { slice_get self.old.values index ≡ Some word.now }
        ensures { self.new ≡ record self.old { values = slice_set self.old.values index (as_this word.now) } }
    {
        self.tags = Ghost::of::<Rest<'_>, Begun>(&Rest {
            tags: self.tags.copy(),
            start: index,
            word,
        });
    }
}

fn add_unset(words: &mut Words, count: usize)
    requires { length words.old.values + count ≤ words.old.room }
    ensures { words.new
        ≡ record words.old {
          values = words.old.values ++ replicate count Unset;
        } }
{
    for _ in 0..count {
        words.push_reserved(Word::unset());
    }
}

// Adds the bits of ints. Their row is taken out meanwhile, so that each step of the loop writes one
// element and no length.
fn add_bits(bits: &mut Vec<u32>, ints: &[i32])
    requires { vec_len bits.old + length ints.now ≤ vec_capacity bits.old }
    ensures words { (values : List Tagged) → AreWords values bits.old.items → AreWords (values ++ map Int ints.now) bits.new.items }
    ensures room { vec_capacity bits.new ≡ vec_capacity bits.old }
{
    let alloc = *bits.allocator();
    let mut row = mem::replace(bits, Vec::new(alloc));
    for int in ints {
        row.push_reserved(int.cast_unsigned());
    }
    *bits = row;
}

// Adds so many zeros, as `add_bits` does.
fn add_zero_bits(bits: &mut Vec<u32>, count: usize)
    requires { vec_len bits.old + count ≤ vec_capacity bits.old }
    ensures words { (values : List Tagged) → AreWords values bits.old.items → AreWords (values ++ map Int (replicate count (pos 0))) bits.new.items }
    ensures room { vec_capacity bits.new ≡ vec_capacity bits.old }
{
    let alloc = *bits.allocator();
    let mut row = mem::replace(bits, Vec::new(alloc));
    for _ in 0..count {
        row.push_reserved(0);
    }
    *bits = row;
}

// The ints of these bits.
fn ints_of(alloc: Global, bits: &[u32]) -> Result<Vec<i32>, AllocError>
    ensures { IfOk result (λ ints. ints.items ≡ map (λ bits. cast_signed w32 bits) bits.now) }
{
    let mut ints = Vec::with_capacity(alloc, bits.len())?;
    for word in bits {
        ints.push_reserved(word.cast_signed());
    }
    Ok(ints)
}

struct OfNone;

impl Says<(), Tags> for OfNone {
    ghost use Rattle.std.specs.Prelude.{[]};

    ghost says = { λ _. [] };
}

// What stood at an index.
#[derive(Drop)]
struct Read {
    tags: Ghost<Tags>,
    index: usize,
}

struct Got;

impl Says<Read, Tag> for Got {
    ghost use Rattle.std.specs.Prelude.{get_or};
    ghost use Rattle.vm_heap.specs.Tagged.{Unset};

    ghost says = { λ r. get_or r.tags.value r.index Unset };
}

// A word that comes to an index.
#[derive(Drop)]
struct Written<'a> {
    tags: Ghost<Tags>,
    index: usize,
    word: &'a Word,
}

struct Set;

impl<'a> Says<Written<'a>, Tags> for Set {
    ghost use Rattle.std.specs.Prelude.{slice_set};

    ghost says = { λ w. slice_set w.tags.value w.index w.word.now };
}

// A word that comes to the end.
#[derive(Drop)]
struct Added<'a> {
    tags: Ghost<Tags>,
    word: &'a Word,
}

struct Grown;

impl<'a> Says<Added<'a>, Tags> for Grown {
    ghost use Rattle.std.specs.Prelude.{◌++◌, ◌∷◌, []};

    ghost says = { λ a. a.tags.value ++ a.word.now ∷ [] };
}

// Ints whose words come to the end.
#[derive(Drop)]
struct AddedInts<'a> {
    tags: Ghost<Tags>,
    ints: &'a [i32],
}

struct GrownByInts;

impl<'a> Says<AddedInts<'a>, Tags> for GrownByInts {
    ghost use Rattle.std.specs.Prelude.{◌++◌, map};
    ghost use Rattle.vm_heap.specs.Tagged.{Int};

    ghost says = { λ a. a.tags.value ++ map Int a.ints.now };
}

// Words of 0 that come to the end.
#[derive(Drop)]
struct AddedZeros {
    tags: Ghost<Tags>,
    count: usize,
}

struct GrownByZeros;

impl Says<AddedZeros, Tags> for GrownByZeros {
    ghost use Rattle.std.specs.Prelude.{◌++◌, map, replicate, pos};
    ghost use Rattle.vm_heap.specs.Tagged.{Int};

    ghost says = { λ a. a.tags.value ++ map Int (replicate a.count (pos 0)) };
}

// A part of a row.
#[derive(Drop)]
struct Part {
    tags: Ghost<Tags>,
    start: usize,
    end: usize,
}

struct Forgotten;

impl Says<Part, Tags> for Forgotten {
    ghost use Rattle.vm_heap.specs.Words.{forgotten};

    ghost says = { λ p. forgotten p.start p.end p.tags.value };
}

// The rest of a row, and a word.
#[derive(Drop)]
struct Rest<'a> {
    tags: Ghost<Tags>,
    start: usize,
    word: &'a Word,
}

struct Initialised;

impl<'a> Says<Rest<'a>, Tags> for Initialised {
    ghost use Rattle.vm_heap.specs.Words.{after_init_from};

    ghost says = { λ r. after_init_from r.start r.word.now r.tags.value };
}

struct Begun;

impl<'a> Says<Rest<'a>, Tags> for Begun {
    ghost use Rattle.std.specs.Prelude.{slice_set};
    ghost use Rattle.vm_heap.specs.Tagged.{as_this};

    ghost says = { λ r. slice_set r.tags.value r.start (as_this r.word.now) };
}
