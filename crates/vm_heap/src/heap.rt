//! The heap of a task.
ghost use Rattle.std.specs.Prelude.{◌≡◌, ◌+◌, ◌<◌, ◌≤◌, ◌^◌, [], ◌++◌, length, map, pos, IfOk, IfSome, IsSome, Some, None, option_map, replicate};
ghost use Rattle.vm_heap.specs.Tagged.{Int, Local, IsInt, int_of, most_rows};
ghost use Rattle.vm_heap.specs.Heap.{Ints, cell_at, all_cost, cost, class_of, default, new_cell, with_new};

use crate::word::{FIRST_ROW, Word};
use crate::words::Words;
use ghost_value::{Ghost, Says};
use space_ids::ClassId;
use std::alloc::{AllocError, Global};
use std::marker::Model;

/// What the word of a field or a local variable stands for.
#[derive(Clone, Copy, Debug, PartialEq, Eq)]
pub enum WordKind {
    /// An int or a boolean: 0 at first in a field.
    Int,
    /// An object, an array or null: null at first in a field.
    Reference,
}

/// The objects and arrays of a task, on one row of words that is reserved when it is made. A word is
/// written first when an object or an array comes to it.
#[derive(Drop)]
pub struct Heap {
    words: Words,
    cells: Ghost<Cells>,
}

impl Model for Heap {
    ghost use Rattle.std.specs.Prelude.{◌-◌, length};
    ghost use Rattle.vm_heap.specs.Heap.{Store, IsHeap};

    ghost Value = { Store };

    ghost view = { λ h. record { cells = h.cells.value; free = h.words.room - length h.words.values } };

    ghost invariant = { λ h. IsHeap h.cells.value h.words.values h.words.room };
}

// No value of it is ever made: it names the type of definitions that a heap's token carries.
struct Cells {}

impl Model for Cells {
    ghost use Rattle.std.specs.Prelude.{List, []};
    ghost use Rattle.vm_heap.specs.Heap.{Cell};

    ghost Value = { List Cell };

    ghost view = { λ _. [] };
}

impl Heap {
    ghost use Rattle.vm_heap.specs.Heap.{field_at, element_at, length_at, with_field, with_element};

    /// Returns a heap with a budget of `words` words, all of them reserved, and nothing in it. The
    /// highest 65,536 words stand for remote objects: a heap that would come to them is out of memory.
    pub fn with_words(alloc: Global, words: u32) -> Result<Heap, AllocError>
        ensures empty { IfOk result (λ heap. heap ≡ record { cells = []; free = words }) }
        ensures below { IfOk result (λ _. words + most_rows < 2 ^ 32) }
    {
        if words >= FIRST_ROW {
            return Err(AllocError);
        }
        Ok(Heap {
            words: Words::with_room(alloc, words as usize)?,
            cells: Ghost::of::<(), NoCells>(&()),
        })
    }

    /// Returns a new object of a class with fields of these kinds, each with its default value, at
    /// the next address. `None` if it does not fit, and then nothing changes. It takes no memory.
    #[inline(always)]
    pub fn new_object(&mut self, class: ClassId, fields: &[WordKind]) -> Option<Word>
        ensures made { IfSome
            result
            (λ word.
            (cost (new_cell class fields.now) ≤ self.old.free)
            × (word ≡ Local (all_cost self.old.cells))
            × (self.new ≡ with_new (new_cell class fields.now) self.old)) }
        ensures full { result ≡ None → self.old.free < cost (new_cell class fields.now) }
        ensures unchanged { result ≡ None → self.new ≡ self.old }
    {
        if self.words.room() - self.words.len() <= fields.len() {
            return None;
        }
        let address = self.words.len();
        self.words.push_reserved(Word::of_class(class));
        add_defaults(&mut self.words, fields);
        self.cells = Ghost::of::<NewObject<'_>, WithObject>(&NewObject {
            cells: self.cells.copy(),
            class,
            fields,
        });
        Some(Word::local(address))
    }

    /// Returns a new array of `count` zeros, at the next address. `None` if it does not fit, and
    /// then nothing changes. It takes no memory.
    #[inline(always)]
    pub fn new_ints(&mut self, count: u32) -> Option<Word>
        requires { count < 2 ^ 31 }
        ensures made { IfSome
            result
            (λ word.
            (cost (Ints (replicate count (pos 0))) ≤ self.old.free)
            × (word ≡ Local (all_cost self.old.cells))
            × (self.new ≡ with_new (Ints (replicate count (pos 0))) self.old)) }
        ensures full { result ≡ None → self.old.free < cost (Ints (replicate count (pos 0))) }
        ensures unchanged { result ≡ None → self.new ≡ self.old }
    {
        if self.words.room() - self.words.len() < count as usize + 2 {
            return None;
        }
        let address = self.words.len();
        self.words.push_reserved(Word::of_ints());
        self.words.push_reserved(Word::length(count));
        self.words.add_zeros(count as usize);
        self.cells = Ghost::of::<NewInts, WithInts>(&NewInts {
            cells: self.cells.copy(),
            count,
        });
        Some(Word::local(address))
    }

    /// Returns a new array with a copy of these elements, at the next address. `None` if it does not
    /// fit, and then nothing changes. It takes no memory.
    pub fn copy_ints(&mut self, elements: &[i32]) -> Option<Word>
        requires { length elements.now < 2 ^ 31 }
        ensures made { IfSome
            result
            (λ word.
            (cost (Ints elements.now) ≤ self.old.free)
            × (word ≡ Local (all_cost self.old.cells))
            × (self.new ≡ with_new (Ints elements.now) self.old)) }
        ensures full { result ≡ None → self.old.free < cost (Ints elements.now) }
        ensures unchanged { result ≡ None → self.new ≡ self.old }
    {
        let count = elements.len();
        if self.words.room() - self.words.len() < count + 2 {
            return None;
        }
        let address = self.words.len();
        self.words.push_reserved(Word::of_ints());
        self.words.push_reserved(Word::length(count as u32));
        self.words.add_ints(elements);
        self.cells = Ghost::of::<Copied<'_>, WithCopy>(&Copied {
            cells: self.cells.copy(),
            elements,
        });
        Some(Word::local(address))
    }

    /// Returns the class of an object: `None` for an array. The caller owes that one of them stands
    /// there; nothing tests it.
    #[inline(always)]
    pub fn class_of(&self, address: usize) -> Option<ClassId>
        requires { IsSome (cell_at self.now.cells address) }
        ensures { option_map class_of (cell_at self.now.cells address) ≡ Some result }
    {
        self.words.get(address).class()
    }

    /// Returns the value of a field. The caller owes that there is such a field; nothing tests it.
    #[inline(always)]
    pub fn get(&self, address: usize, slot: usize) -> Word
        requires { IsSome (field_at address slot self.now.cells) }
        ensures { field_at address slot self.now.cells ≡ Some result }
    {
        self.words.get(address + 1 + slot)
    }

    /// Writes a field. The caller owes that there is such a field; nothing tests it.
    #[inline(always)]
    pub fn put(&mut self, address: usize, slot: usize, word: Word)
        requires { IsSome (field_at address slot self.old.cells) }
        ensures { self.new
            ≡ record self.old {
              cells = with_field address slot word self.old.cells;
            } }
    {
        self.cells = Ghost::of::<Put<'_>, WithField>(&Put {
            cells: self.cells.copy(),
            address,
            index: slot,
            word: &word,
        });
        self.words.set(address + 1 + slot, word);
    }

    /// Returns how many elements an array has. The caller owes that it is an array; nothing tests
    /// it.
    #[inline(always)]
    pub fn length(&self, address: usize) -> u32
        requires { IsSome (length_at address self.now.cells) }
        ensures value { length_at address self.now.cells ≡ Some result }
        ensures small { result < 2 ^ 31 }
    {
        self.words.get(address + 1).as_length()
    }

    /// Returns an element of an array. The caller owes that there is such an element; nothing tests
    /// it.
    #[inline(always)]
    pub fn element(&self, address: usize, index: usize) -> Word
        requires { IsSome (element_at address index self.now.cells) }
        ensures { option_map Int (element_at address index self.now.cells) ≡ Some result }
    {
        self.words.get(address + 2 + index)
    }

    /// Returns a copy of the elements of an array. The caller owes that it is an array; nothing tests
    /// it.
    pub fn elements(&self, alloc: Global, address: usize) -> Result<Vec<i32>, AllocError>
        requires { IsSome (length_at address self.now.cells) }
        ensures { IfOk result (λ elements. cell_at self.now.cells address ≡ Some (Ints elements.items)) }
    {
        let count = self.length(address) as usize;
        self.words.ints(alloc, address + 2, count)
    }

    /// Writes an element of an array. The caller owes that there is such an element; nothing tests
    /// it.
    #[inline(always)]
    pub fn put_element(&mut self, address: usize, index: usize, word: Word)
        requires element { IsSome (element_at address index self.old.cells) }
        requires int { IsInt word }
        ensures { self.new
            ≡ record self.old {
              cells = with_element address index (int_of word) self.old.cells;
            } }
    {
        self.cells = Ghost::of::<Put<'_>, WithElement>(&Put {
            cells: self.cells.copy(),
            address,
            index,
            word: &word,
        });
        self.words.set(address + 2 + index, word);
    }
}

fn add_defaults(words: &mut Words, fields: &[WordKind])
    requires { length words.old.values + length fields.now ≤ words.old.room }
    ensures { words.new
        ≡ record words.old {
          values = words.old.values ++ map default fields.now;
        } }
{
    for kind in fields {
        words.push_reserved(match kind {
            WordKind::Int => Word::int(0),
            WordKind::Reference => Word::null(),
        });
    }
}

struct NoCells;

impl Says<(), Cells> for NoCells {
    ghost use Rattle.std.specs.Prelude.{[]};

    ghost says = { λ _. [] };
}

// A field, or an element, that is written.
#[derive(Drop)]
struct Put<'a> {
    cells: Ghost<Cells>,
    address: usize,
    index: usize,
    word: &'a Word,
}

struct WithField;

impl<'a> Says<Put<'a>, Cells> for WithField {
    ghost use Rattle.vm_heap.specs.Heap.{with_field};

    ghost says = { λ p. with_field p.address p.index p.word.now p.cells.value };
}

struct WithElement;

impl<'a> Says<Put<'a>, Cells> for WithElement {
    ghost use Rattle.vm_heap.specs.Heap.{with_element};
    ghost use Rattle.vm_heap.specs.Tagged.{int_of};

    ghost says = { λ p. with_element p.address p.index (int_of p.word.now) p.cells.value };
}

// An object that is made.
#[derive(Drop)]
struct NewObject<'a> {
    cells: Ghost<Cells>,
    class: ClassId,
    fields: &'a [WordKind],
}

struct WithObject;

impl<'a> Says<NewObject<'a>, Cells> for WithObject {
    ghost use Rattle.std.specs.Prelude.{◌++◌, ◌∷◌, []};
    ghost use Rattle.vm_heap.specs.Heap.{new_cell};

    ghost says = { λ n. n.cells.value ++ new_cell n.class n.fields.now ∷ [] };
}

// An array that is made.
#[derive(Drop)]
struct NewInts {
    cells: Ghost<Cells>,
    count: u32,
}

struct WithInts;

impl Says<NewInts, Cells> for WithInts {
    ghost use Rattle.std.specs.Prelude.{◌++◌, ◌∷◌, [], replicate, pos};
    ghost use Rattle.vm_heap.specs.Heap.{Ints};

    ghost says = { λ n. n.cells.value ++ Ints (replicate n.count (pos 0)) ∷ [] };
}

// An array that is copied.
#[derive(Drop)]
struct Copied<'a> {
    cells: Ghost<Cells>,
    elements: &'a [i32],
}

struct WithCopy;

impl<'a> Says<Copied<'a>, Cells> for WithCopy {
    ghost use Rattle.std.specs.Prelude.{◌++◌, ◌∷◌, []};
    ghost use Rattle.vm_heap.specs.Heap.{Ints};

    ghost says = { λ n. n.cells.value ++ Ints n.elements.now ∷ [] };
}
