//! A source over one of the standard library's readers: a file, a socket, standard input.

ghost use Rattle.std.specs.Prelude.{◌≡◌, false};

use super::{Failed, Source};
use std::io::{ErrorKind, Read};

/// A source over a reader. A read that a signal interrupted is made again; any other error of the
/// reader makes the source fail for good.
#[derive(Drop)]
pub struct StdSource<R: Read> {
    reader: R,
    failed: bool,
}

impl<R: Read> StdSource<R> {
    /// Returns the source that reads from the reader.
    pub fn new(reader: R) -> StdSource<R>
        ensures remaining { ⟦<StdSource<R> as Source>⟧.remaining result ≡ R.remaining reader }
        ensures works { ⟦<StdSource<R> as Source>⟧.has_failed result ≡ false }
    {
        StdSource {
            reader,
            failed: false,
        }
    }
}

impl<R: Read> Source for StdSource<R> {
    ghost remaining = { λ source. R.remaining source.reader };

    ghost has_failed = { λ source. source.failed };

    fn read(&mut self, buffer: &mut [u8]) -> Result<usize, Failed> {
        if self.failed {
            return Err(Failed);
        }
        for _ in 0..u64::MAX {
            match self.reader.read(buffer) {
                Ok(count) => return Ok(count),
                Err(error) if error.kind() == ErrorKind::Interrupted => {}
                Err(_) => break,
            }
        }
        self.failed = true;
        Err(Failed)
    }

    fn failed(&self) -> bool {
        self.failed
    }
}
