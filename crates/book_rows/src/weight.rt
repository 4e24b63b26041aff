//! What entries take in memory.

use crate::plays::moment;
use crate::told::failed;
use sp_book::{Book, Lender, Naming, Pass};
use std::alloc::Global;
use std::io::{Read, Write};
use std::rt::Files;
use std::sync::Wait;
use std::{fs, io};

// The bytes of a page of memory.
const PAGE: u64 = 4_096;

// After how many entries what the book answered is taken.
const BATCH: u64 = 1_024;

/// Enters so many moments, and prints the bytes that the process takes more than before.
pub fn weigh<N: Naming, S: Lender + Drop, R: Wait + Files, W: Write>(
    rt: &R,
    alloc: Global,
    book: &Book<N, S>,
    entries: u64,
    out: &mut W,
) -> io::Result<()> {
    let Some(mut pass) = book.pass(rt, alloc) else {
        return Err(failed());
    };
    let before = resident(rt)?;
    enter_moments(rt, alloc, book, &mut pass, entries)?;
    let bytes = resident(rt)?.saturating_sub(before).saturating_mul(PAGE);
    writeln!(out, "{} entries take {bytes} bytes", pass.calls())
}

fn enter_moments<N: Naming, S: Lender + Drop, R: Wait>(
    rt: &R,
    alloc: Global,
    book: &Book<N, S>,
    pass: &mut Pass<N>,
    entries: u64,
) -> io::Result<()> {
    for at in 0..entries {
        if book.on(rt, alloc, pass, moment(at)).is_err() {
            return Err(failed());
        }
        if at % BATCH == 0 {
            drop(book.outputs(rt, alloc)?);
        }
    }
    Ok(())
}

// How many pages of memory the process has.
fn resident<R: Files>(rt: &R) -> io::Result<u64> {
    let mut file = fs::open(rt, "/proc/self/statm")?;
    let mut buffer = [0; 128];
    let count = file.read(&mut buffer)?;
    let Some(bytes) = buffer.get(..count) else {
        return Err(failed());
    };
    let Ok(text) = str::from_utf8(bytes) else {
        return Err(failed());
    };
    match text.split(' ').nth(1) {
        Some(word) => word.parse::<u64>().or(Err(failed())),
        None => Err(failed()),
    }
}
