//! Numbers, names and values of rows.

use space_ids::{Ref, Row, Value};
use std::alloc::Global;
use test_rows::{RowFault, value};

/// Returns a method's number.
pub fn method(word: &str) -> Result<u32, RowFault> {
    word.parse::<u32>().map_err(|_| RowFault::Bad)
}

/// Returns the bytes of a name.
pub fn name(alloc: Global, word: &str) -> Result<Row<u8>, RowFault> {
    Ok(Row::new(word.as_bytes().to_vec(alloc)?))
}

/// Returns the values of words.
pub fn values(alloc: Global, words: &[&str]) -> Result<Row<Value>, RowFault> {
    Ok(Row::new(test_rows::values(alloc, words)?))
}

/// Returns the reference of a word.
pub fn reference(alloc: Global, word: &str) -> Result<Ref, RowFault> {
    let found = value(alloc, word)?;
    match &found {
        Value::Ref(reference) => Ok(*reference),
        _ => Err(RowFault::Bad),
    }
}
