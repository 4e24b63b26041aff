//! The bytes of connections, and the devices that give them.

use std::alloc::Global;
use test_rows::{RowFault, index};

/// How the bytes of a connection are read: at most `step` a read, and the read `fail` fails, if that is not 0.
#[derive(Clone, Copy)]
pub struct Device {
    pub step: usize,
    pub fail: u64,
}

/// What comes after the bytes of a row.
#[derive(Clone, Copy, PartialEq, Eq)]
pub enum After {
    /// More bytes may come.
    More,
    /// The connection ends.
    End,
}

/// A connection: the bytes that came on it, and how much of what they say was told.
#[derive(Drop)]
pub struct Line {
    pub conn: u64,
    pub bytes: Vec<u8>,
    pub told: usize,
}

/// Returns the bytes of the words, one after another.
pub fn bytes_of(alloc: Global, words: &[&str]) -> Result<Vec<u8>, RowFault> {
    let mut bytes = Vec::new(alloc);
    for word in words {
        add_word(alloc, &mut bytes, word)?;
    }
    Ok(bytes)
}

// Adds the bytes of a word, as often as it says.
fn add_word(alloc: Global, bytes: &mut Vec<u8>, word: &str) -> Result<(), RowFault> {
    let (times, digits) = word.split_once('*').unwrap_or(("1", word));
    let part = hex::decode(alloc, digits).map_err(|_| RowFault::Bad)?;
    for _ in 0..index(times)? {
        bytes.extend_from_slice(&part)?;
    }
    Ok(())
}
