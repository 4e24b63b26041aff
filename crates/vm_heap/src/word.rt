//! Words: what a task's heap and stack are made of.
ghost use Rattle.std.specs.Prelude.{◌≡◌, ◌+◌, ◌<◌, ◌^◌, ◌↔◌, IsTrue, Some, IsSome};
ghost use Rattle.vm_heap.specs.Tagged.{Tagged, IsInt, IsPointer, IsFirstHead, IsLengthHead, Int, Null, Local, Remote, Unset, Head, OfClass, OfInts, Length, address_of, pointer_of, most_rows, as_fresh, class_of_head};

use ghost_value::{Ghost, Says};
use space_ids::ClassId;
use std::marker::Model;

/// Four bytes that stand for a value. They do not say its kind: a contract sees the tagged value,
/// which proofs alone carry along.
#[derive(Drop)]
pub struct Word {
    pub(crate) bits: u32,
    pub(crate) tag: Ghost<Tag>,
}

impl Model for Word {
    ghost use Rattle.vm_heap.specs.Tagged.{Tagged, IsWord};

    ghost Value = { Tagged };

    ghost view = { λ word. word.tag.value };

    ghost invariant = { λ word. IsWord word.tag.value word.bits };
}

// No value of it is ever made: it names the type of definitions that a word's token carries.
pub struct Tag {}

impl Model for Tag {
    ghost Value = { Tagged };

    ghost view = { λ _. Unset };
}

/// What a reference stands for.
#[derive(Clone, Copy, Debug, PartialEq, Eq)]
pub enum Pointer {
    Null,
    /// An object or an array of the heap, by its address.
    Address(usize),
    /// A remote object, by its row in the task's list of references.
    Row(usize),
}

// The lowest of the words that stand for remote objects.
pub(crate) const FIRST_ROW: u32 = 0xFFFF_0000;

// The word that the heap keeps of an array first: the one after the highest class number.
const INTS: u32 = 65_536;

impl Word {
    /// Returns the word of an int: its 32 bits.
    #[inline(always)]
    pub fn int(n: i32) -> Word
        ensures { result ≡ Int n }
    {
        Word {
            bits: n.cast_unsigned(),
            tag: Ghost::of::<i32, OfInt>(&n),
        }
    }

    /// Returns the word of null.
    #[inline(always)]
    pub fn null() -> Word
        ensures { result ≡ Null }
    {
        Word {
            bits: 0,
            tag: Ghost::of::<(), OfNull>(&()),
        }
    }

    /// Returns a word of no value: what a local variable holds before it is written.
    #[inline(always)]
    pub fn unset() -> Word
        ensures { result ≡ Unset }
    {
        Word {
            bits: 0,
            tag: Ghost::of::<(), OfNothing>(&()),
        }
    }

    /// Returns the word of an initialised object, or an array, at an address of the heap.
    #[inline(always)]
    pub fn local(address: usize) -> Word
        requires { address + 1 + most_rows < 2 ^ 32 }
        ensures { result ≡ Local address }
    {
        Word {
            bits: address as u32 + 1,
            tag: Ghost::of::<usize, OfAddress>(&address),
        }
    }

    /// Returns the word of an initialised remote object, by its row in the task's list of
    /// references.
    #[inline(always)]
    pub fn remote(row: u16) -> Word
        ensures { result ≡ Remote row }
    {
        Word {
            bits: u32::MAX - row as u32,
            tag: Ghost::of::<u16, OfRow>(&row),
        }
    }

    /// Returns the int that the word stands for. The caller owes that it stands for one; nothing
    /// tests it.
    #[inline(always)]
    pub fn as_int(&self) -> i32
        requires { IsInt self.now }
        ensures { self.now ≡ Int result }
    {
        self.bits.cast_signed()
    }

    /// Returns the heap's address of the object or array that the word stands for, or `None` for
    /// null. The caller owes that it stands for one of them; nothing tests it.
    #[inline(always)]
    pub fn as_address(&self) -> Option<usize>
        requires { IsPointer self.now }
        ensures { address_of self.now ≡ result }
    {
        if self.bits == 0 {
            None
        } else {
            Some(self.bits as usize - 1)
        }
    }

    /// Returns what the reference stands for: null, an object or an array of the heap, or a remote
    /// object. The caller owes that it is a reference; nothing tests it.
    #[inline(always)]
    pub fn as_pointer(&self) -> Pointer
        requires { IsSome (pointer_of self.now) }
        ensures { pointer_of self.now ≡ Some result }
    {
        if self.bits == 0 {
            Pointer::Null
        } else if self.bits < FIRST_ROW {
            Pointer::Address(self.bits as usize - 1)
        } else {
            Pointer::Row((u32::MAX - self.bits) as usize)
        }
    }

    /// Returns the word of a new object as one that the `new` instruction of this index made. No
    /// `<init>` was called on it yet. It does nothing when it runs.
    #[inline(always)]
    pub fn fresh(self, index: usize) -> Word
        ensures { result ≡ as_fresh index self }
    {
        let tag = Ghost::of::<Made<'_>, OfNew>(&Made { word: &self, index });
        Word {
            bits: self.bits,
            tag,
        }
    }

    /// Returns a second word of the same value.
    #[inline(always)]
    pub fn copy(&self) -> Word
        ensures { result ≡ self.now }
    {
        Word {
            bits: self.bits,
            tag: self.tag.copy(),
        }
    }

    /// The word in which the heap keeps an object's class.
    #[inline(always)]
    pub(crate) fn of_class(class: ClassId) -> Word
        ensures { result ≡ Head (OfClass class) }
    {
        Word {
            bits: class.0 as u32,
            tag: Ghost::of::<ClassId, OfItsClass>(&class),
        }
    }

    /// The word that the heap keeps of an int array first.
    #[inline(always)]
    pub(crate) fn of_ints() -> Word
        ensures { result ≡ Head OfInts }
    {
        Word {
            bits: INTS,
            tag: Ghost::of::<(), OfAnArray>(&()),
        }
    }

    /// The word in which the heap keeps an array's length.
    #[inline(always)]
    pub(crate) fn length(n: u32) -> Word
        requires { n < 2 ^ 31 }
        ensures { result ≡ Head (Length n) }
    {
        Word {
            bits: n,
            tag: Ghost::of::<u32, OfLength>(&n),
        }
    }

    /// The class that the heap keeps in it: `None` for an array.
    #[inline(always)]
    pub(crate) fn class(&self) -> Option<ClassId>
        requires { IsFirstHead self.now }
        ensures { result ≡ class_of_head self.now }
    {
        if self.bits < INTS {
            Some(ClassId(self.bits as u16))
        } else {
            None
        }
    }

    /// The length that the heap keeps in it.
    #[inline(always)]
    pub(crate) fn as_length(&self) -> u32
        requires { IsLengthHead self.now }
        ensures value { self.now ≡ Head (Length result) }
        ensures small { result < 2 ^ 31 }
    {
        self.bits
    }
}

// The tagged value of an int.
struct OfInt;

impl Says<i32, Tag> for OfInt {
    ghost says = { Int };
}

// The tagged value of nothing.
struct OfNothing;

impl Says<(), Tag> for OfNothing {
    ghost says = { λ _. Unset };
}

struct OfNull;

impl Says<(), Tag> for OfNull {
    ghost says = { λ _. Null };
}

struct OfAddress;

impl Says<usize, Tag> for OfAddress {
    ghost says = { Local };
}

struct OfRow;

impl Says<u16, Tag> for OfRow {
    ghost says = { Remote };
}

// A new object, and the index of its `new` instruction.
#[derive(Drop)]
struct Made<'a> {
    word: &'a Word,
    index: usize,
}

struct OfNew;

impl<'a> Says<Made<'a>, Tag> for OfNew {
    ghost says = { λ made. as_fresh made.index made.word.now };
}

struct OfItsClass;

impl Says<ClassId, Tag> for OfItsClass {
    ghost says = { λ class. Head (OfClass class) };
}

struct OfAnArray;

impl Says<(), Tag> for OfAnArray {
    ghost says = { λ _. Head OfInts };
}

struct OfLength;

impl Says<u32, Tag> for OfLength {
    ghost says = { λ n. Head (Length n) };
}
