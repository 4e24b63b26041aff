//! How rows spell flags and lists, and how texts are printed.

use cf_text::Text;
use std::alloc::Global;
use std::str;
use test_rows::RowFault;

/// Returns the number of four hex digits.
pub fn flags_of(word: &str) -> Result<u16, RowFault> {
    let mut bytes = [0u8; 2];
    hex::decode_to_slice(word, &mut bytes).map_err(|_| RowFault::Bad)?;
    Ok(u16::from_be_bytes(bytes))
}

/// Returns the items that commas part: none for `-`.
pub fn items_of<'a>(alloc: Global, word: &'a str) -> Result<Vec<&'a str>, RowFault> {
    if word == "-" {
        return Ok(Vec::new(alloc));
    }
    Ok(word.split(',').collect(alloc)?)
}

/// Returns a text: `?` for one that is no UTF-8.
pub fn plain(text: &Text) -> &str {
    match str::from_utf8(text.as_bytes()) {
        Ok(text) => text,
        Err(_) => "?",
    }
}
