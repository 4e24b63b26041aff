//! How rows spell bytes, and how texts are printed.

use cf_text::Text;
use class_builder::SUM;
use std::alloc::Global;
use std::str;
use test_rows::{RowFault, index};

/// Returns the bytes of words, one after another. The word `kept` stands for the bytes that are kept.
pub fn bytes_of(alloc: Global, kept: &[u8], words: &[&str]) -> Result<Vec<u8>, RowFault> {
    let mut bytes = Vec::new(alloc);
    for word in words {
        bytes.extend_from_slice(&word_bytes(alloc, kept, word)?)?;
    }
    Ok(bytes)
}

// The bytes of a word: all, the first of them, or some times.
fn word_bytes(alloc: Global, kept: &[u8], word: &str) -> Result<Vec<u8>, RowFault> {
    if let Some((word, length)) = word.split_once('/') {
        let mut bytes = plain_bytes(alloc, kept, word)?;
        bytes.truncate(index(length)?);
        return Ok(bytes);
    }
    match word.split_once('*') {
        Some((times, word)) => { repeated(alloc, index(times)?, &plain_bytes(alloc, kept, word)?) }
        None => plain_bytes(alloc, kept, word),
    }
}

fn repeated(alloc: Global, times: usize, part: &[u8]) -> Result<Vec<u8>, RowFault> {
    match part {
        [byte] => Ok(vec![in alloc; *byte; times]?),
        _ => Err(RowFault::Bad),
    }
}

fn plain_bytes(alloc: Global, kept: &[u8], word: &str) -> Result<Vec<u8>, RowFault> {
    match word {
        "-" => Ok(Vec::new(alloc)),
        "sum" => Ok(Vec::from_slice(alloc, SUM)?),
        "kept" => Ok(Vec::from_slice(alloc, kept)?),
        digits => hex::decode(alloc, digits).map_err(|_| RowFault::Bad),
    }
}

/// Returns a text: `?` for one that is no UTF-8.
pub fn plain(text: &Text) -> &str {
    match str::from_utf8(text.as_bytes()) {
        Ok(text) => text,
        Err(_) => "?",
    }
}
