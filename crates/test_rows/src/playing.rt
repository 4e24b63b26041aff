//! The loop of a program of rows.

use crate::RowFault;
use std::alloc::Global;
use std::fmt::Debug;
use std::io;
use std::io::{BufRead, ErrorKind, Write};

/// What the rows of a program are played on.
pub trait Stage {
    /// Plays a row of this first word and of this text after the space that follows it, and prints what it comes
    /// to. `RowFault::Bad` if it is no row of the program.
    fn play(&mut self, said: &mut Vec<u8>, kind: &str, text: &str) -> Result<(), RowFault>;
}

/// Plays each line of an input as a row, and prints it, and below it what it came to; a bad row after `bad row: `.
/// An empty line, and one that begins with `#`, come to nothing. An error if the input or the output fails, or if
/// memory ran out as a row was played.
///
/// It takes its arguments by value: what a program of many parts is made of is let go here, at one place, and not
/// on each way out of `main`, each of which is proved.
pub fn play_rows<S: Stage + Drop, R: BufRead + Drop, W: Write + Drop>(
    alloc: Global,
    mut stage: S,
    input: R,
    mut out: W,
) -> io::Result<()> {
    for text in input.lines(alloc) {
        put_row(alloc, &mut stage, &text?, &mut out)?;
    }
    out.flush()
}

fn put_row<S: Stage, W: Write>(
    alloc: Global,
    stage: &mut S,
    text: &str,
    out: &mut W,
) -> io::Result<()> {
    let mut said = Vec::new(alloc);
    match play_row(stage, &mut said, text) {
        Ok(()) => {
            writeln!(out, "{text}")?;
            out.write_all(&said)
        }
        Err(RowFault::Bad) => writeln!(out, "bad row: {text}"),
        Err(RowFault::Memory) => Err(io::Error::from(ErrorKind::OutOfMemory)),
    }
}

fn play_row<S: Stage>(stage: &mut S, said: &mut Vec<u8>, text: &str) -> Result<(), RowFault> {
    if text.is_empty() || text.starts_with('#') {
        return Ok(());
    }
    let (kind, rest) = text.split_once(' ').unwrap_or((text, ""));
    stage.play(said, kind, rest)
}

/// Prints a word and an answer on a line.
pub fn put<T: Debug>(said: &mut Vec<u8>, word: &str, answer: &T) -> Result<(), RowFault> {
    writeln!(said, "{word} {answer:?}")?;
    Ok(())
}

/// Puts a value in place of another, which is let go. An assignment does the same, but letting go a value of
/// many parts is proved anew at each.
pub fn replace<T: Drop>(old: &mut T, new: T) {
    *old = new;
}
