//! Words, a heap and a list of references, as tasks have them.

use super::spelling::{MOST_HEAP_WORDS, count, int, reference, short_number};
use ghost_value::Ghost;
use std::alloc::Global;
use std::mem::size_of;
use test_rows::{RowFault, class, put, replace};
use vm_heap::{ClassId, Heap, Pointer, Ref, References, Uuid, Word, WordKind};

/// A heap and a list of references, once a row has begun them.
#[derive(Drop)]
pub struct Memory {
    alloc: Global,
    heap: Option<Heap>,
    references: Option<References>,
}

impl Memory {
    /// Returns a memory of which no row has begun a part.
    pub fn new(alloc: Global) -> Memory {
        Memory {
            alloc,
            heap: None,
            references: None,
        }
    }

    /// Plays a row on words, heaps or references.
    pub fn play(&mut self, said: &mut Vec<u8>, kind: &str, words: &[&str]) -> Result<(), RowFault> {
        if kind == "object" {
            return self.put_object(said, words);
        }
        let [word] = words else {
            return put_plain(said, kind, words);
        };
        match kind {
            "word" => put(said, "int", &int_of_copy(int(word)?)),
            "references" => self.begin_references(word),
            "hold" => self.hold(said, reference(self.alloc, word)?),
            "heap" => self.begin_heap(word),
            "ints" => put(said, "at", &ints(self.heap()?, short_number(word)?)?),
            _ => Err(RowFault::Bad),
        }
    }

    fn begin_references(&mut self, limit: &str) -> Result<(), RowFault> {
        let references = list(self.alloc, count(limit)?)?;
        replace(&mut self.references, Some(references));
        Ok(())
    }

    fn begin_heap(&mut self, words: &str) -> Result<(), RowFault> {
        let heap = heap(self.alloc, short_number(words)?)?;
        replace(&mut self.heap, Some(heap));
        Ok(())
    }

    fn put_object(&mut self, said: &mut Vec<u8>, words: &[&str]) -> Result<(), RowFault> {
        let [of, kinds] = words else {
            return Err(RowFault::Bad);
        };
        let kinds = kinds_of(self.alloc, kinds)?;
        put(said, "at", &object(self.heap()?, class(of)?, &kinds))
    }

    fn heap(&mut self) -> Result<&mut Heap, RowFault> {
        self.heap.as_mut().ok_or(RowFault::Bad)
    }

    fn hold(&mut self, said: &mut Vec<u8>, reference: Ref) -> Result<(), RowFault> {
        let references = self.references.as_mut().ok_or(RowFault::Bad)?;
        put(said, "holds", &hold(references, reference))?;
        put(said, "count", &references.len())
    }
}

// A row of one word alone.
fn put_plain(said: &mut Vec<u8>, kind: &str, words: &[&str]) -> Result<(), RowFault> {
    if kind == "sizes" && words.is_empty() {
        put_sizes(said)
    } else {
        Err(RowFault::Bad)
    }
}

fn put_sizes(said: &mut Vec<u8>) -> Result<(), RowFault> {
    put(said, "word", &size_of::<Word>())?;
    put(said, "token", &size_of::<Ghost<u32>>())
}

fn kinds_of(alloc: Global, word: &str) -> Result<Vec<WordKind>, RowFault> {
    let mut kinds = Vec::new(alloc);
    for kind in word.split(',') {
        kinds.push(kind_of(kind)?)?;
    }
    Ok(kinds)
}

fn kind_of(word: &str) -> Result<WordKind, RowFault> {
    match word {
        "int" => Ok(WordKind::Int),
        "reference" => Ok(WordKind::Reference),
        _ => Err(RowFault::Bad),
    }
}

// What the calls answer. These functions promise nothing, so that a row is proved at once.
fn int_of_copy(int: i32) -> i32 {
    Word::int(int).copy().as_int()
}

fn heap(alloc: Global, words: u32) -> Result<Heap, RowFault> {
    if words > MOST_HEAP_WORDS {
        return Err(RowFault::Bad);
    }
    Ok(Heap::with_words(alloc, words)?)
}

fn object(heap: &mut Heap, class: ClassId, kinds: &[WordKind]) -> Option<usize> {
    match heap.new_object(class, kinds) {
        Some(word) => word.as_address(),
        None => None,
    }
}

fn ints(heap: &mut Heap, count: u32) -> Result<Option<usize>, RowFault> {
    if count > i32::MAX as u32 {
        return Err(RowFault::Bad);
    }
    match heap.new_ints(count) {
        Some(word) => Ok(word.as_address()),
        None => Ok(None),
    }
}

fn list(alloc: Global, limit: u16) -> Result<References, RowFault> {
    Ok(References::with_limit(alloc, Uuid::nil(), limit)?)
}

fn hold(references: &mut References, reference: Ref) -> Option<Pointer> {
    match references.hold(reference) {
        Some(word) => Some(word.as_pointer()),
        None => None,
    }
}
