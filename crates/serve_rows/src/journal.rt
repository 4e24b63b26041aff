//! What served spaces print, and who types what they read.

use std::alloc::Global;
use std::io;
use std::io::{ErrorKind, Read, Write};
use std::sync::{Mutex, Wait};
use std::thread::sleep;
use std::time::{Clock, Duration};

// How often, each 2 ms, is looked for a line before who waits for it gives up.
const LOOKS: u64 = 10_000;

/// What the spaces of a play have printed.
#[derive(Drop)]
pub struct Journal {
    text: Mutex<Vec<u8>>,
}

impl Journal {
    /// Nothing was printed.
    pub fn new(alloc: Global) -> Journal {
        Journal {
            text: Mutex::new(Vec::new(alloc)),
        }
    }

    /// Whether this was printed.
    pub fn has<R: Wait>(&self, rt: &R, wanted: &str) -> bool {
        let guard = self.text.lock(rt);
        let wanted = wanted.as_bytes();
        guard
            .as_slice()
            .windows(wanted.len().max(1))
            .any(|part| part == wanted)
    }

    /// Waits until this was printed. Returns whether it was, in twenty seconds.
    pub fn wait_for<R: Wait + Clock>(&self, rt: &R, wanted: &str) -> bool {
        for _ in 0..LOOKS {
            if self.has(rt, wanted) {
                return true;
            }
            sleep(rt, Duration::from_millis(2));
        }
        false
    }
}

/// Prints which of these lines were printed.
pub fn tell_all<R: Wait, W: Write>(
    rt: &R,
    journal: &Journal,
    lines: &[&str],
    out: &mut W,
) -> io::Result<()> {
    for line in lines {
        let is_told = if journal.has(rt, line) {
            "told"
        } else {
            "not told"
        };
        writeln!(out, "{is_told}: {line}")?;
    }
    Ok(())
}

/// Where a space prints.
#[derive(Drop)]
pub struct Pen<'a, R> {
    pub rt: &'a R,
    pub journal: &'a Journal,
}

impl<'a, R: Wait> Write for Pen<'a, R> {
    fn write(&mut self, bytes: &[u8]) -> io::Result<usize> {
        let mut text = self.journal.text.lock(self.rt);
        match text.extend_from_slice(bytes) {
            Ok(()) => Ok(bytes.len()),
            Err(_) => Err(io::Error::from(ErrorKind::OutOfMemory)),
        }
    }

    fn flush(&mut self) -> io::Result<()> {
        Ok(())
    }
}

/// What is typed, and what has to be printed before.
#[derive(Clone, Copy)]
pub struct Line<'a> {
    pub after: &'a str,
    pub text: &'a str,
}

/// Types lines into a space, each once what it waits for was printed. The input ends after the last, or where
/// nothing comes of what it waits for.
#[derive(Drop)]
pub struct Typist<'a, R> {
    pub rt: &'a R,
    pub journal: &'a Journal,
    pub lines: &'a [Line<'a>],
    pub next: usize,
}

impl<'a, R: Wait + Clock> Read for Typist<'a, R> {
    fn read(&mut self, buffer: &mut [u8]) -> io::Result<usize> {
        let Some(line) = self.lines.get(self.next) else {
            return Ok(0);
        };
        if !self.journal.wait_for(self.rt, line.after) {
            return Ok(0);
        }
        self.next = self.next.saturating_add(1);
        let bytes = line.text.as_bytes();
        match buffer.get_mut(..bytes.len()) {
            Some(room) => {
                room.copy_from_slice(bytes);
                Ok(bytes.len())
            }
            None => Err(io::Error::from(ErrorKind::InvalidInput)),
        }
    }
}
