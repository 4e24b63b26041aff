//! Numbers and values of rows.

use space_ids::{Row, Value};
use std::alloc::Global;
use test_rows::RowFault;

/// Returns a method's number.
pub fn method(word: &str) -> Result<u32, RowFault> {
    word.parse::<u32>().map_err(|_| RowFault::Bad)
}

/// Returns the bytes of a name: none for `-`.
pub fn name(alloc: Global, word: &str) -> Result<Row<u8>, RowFault> {
    let bytes = if word == "-" { "" } else { word };
    Ok(Row::new(bytes.as_bytes().to_vec(alloc)?))
}

/// Returns the values of words.
pub fn values(alloc: Global, words: &[&str]) -> Result<Row<Value>, RowFault> {
    Ok(Row::new(test_rows::values(alloc, words)?))
}
