//! Readers and writers that fail.

use std::io;
use std::io::{ErrorKind, Read, Write};

/// A reader and writer that is interrupted, gives or takes two bytes, then has an error, and after it gives
/// or takes a byte a call.
#[derive(Drop)]
pub struct Faulty {
    calls: u8,
}

impl Faulty {
    /// Returns one that was not called yet.
    pub fn new() -> Faulty {
        Faulty { calls: 0 }
    }

    fn answer(&mut self) -> io::Result<usize> {
        self.calls = self.calls.saturating_add(1);
        match self.calls {
            1 => Err(io::Error::from(ErrorKind::Interrupted)),
            2 => Ok(2),
            3 => Err(io::Error::from(ErrorKind::TimedOut)),
            _ => Ok(1),
        }
    }
}

impl Read for Faulty {
    fn read(&mut self, buffer: &mut [u8]) -> io::Result<usize> {
        let count = self.answer()?;
        Ok(count.min(buffer.len()))
    }
}

impl Write for Faulty {
    fn write(&mut self, bytes: &[u8]) -> io::Result<usize> {
        let count = self.answer()?;
        Ok(count.min(bytes.len()))
    }

    fn flush(&mut self) -> io::Result<()> {
        Ok(())
    }
}

/// A writer that takes nothing.
#[derive(Drop)]
pub struct Stuck;

impl Write for Stuck {
    fn write(&mut self, _bytes: &[u8]) -> io::Result<usize> {
        Ok(0)
    }

    fn flush(&mut self) -> io::Result<()> {
        Ok(())
    }
}
