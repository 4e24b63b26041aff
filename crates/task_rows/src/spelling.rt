//! How rows spell numbers and values.

use sp_arguments::argument_of;
use space_ids::{Ref, Value};
use std::alloc::Global;
use test_rows::RowFault;

/// The most words of a heap.
pub const MOST_HEAP_WORDS: u32 = u32::MAX - 65_536;

/// Returns the number of 32 bits that a word spells.
pub fn short_number(word: &str) -> Result<u32, RowFault> {
    word.parse::<u32>().map_err(|_| RowFault::Bad)
}

/// Returns the number of 16 bits that a word spells.
pub fn count(word: &str) -> Result<u16, RowFault> {
    word.parse::<u16>().map_err(|_| RowFault::Bad)
}

/// Returns the int that a word spells.
pub fn int(word: &str) -> Result<i32, RowFault> {
    word.parse::<i32>().map_err(|_| RowFault::Bad)
}

/// Returns the value that a text spells as an argument. This promises nothing, so that a row is proved at once.
pub fn argument(alloc: Global, text: &str) -> Result<Option<Value>, RowFault> {
    Ok(argument_of(alloc, text)?)
}

/// Returns the reference that a word spells.
pub fn reference(alloc: Global, word: &str) -> Result<Ref, RowFault> {
    let value = test_rows::value(alloc, word)?;
    match &value {
        Value::Ref(reference) => Ok(*reference),
        _ => Err(RowFault::Bad),
    }
}

/// Returns the values of words: arguments as on the command line, or references.
pub fn values(alloc: Global, words: &[&str]) -> Result<Vec<Value>, RowFault> {
    let mut values = Vec::new(alloc);
    for word in words {
        values.push(value(alloc, word)?)?;
    }
    Ok(values)
}

fn value(alloc: Global, word: &str) -> Result<Value, RowFault> {
    match argument(alloc, word)? {
        Some(value) => Ok(value),
        None => Ok(Value::Ref(reference(alloc, word)?)),
    }
}
