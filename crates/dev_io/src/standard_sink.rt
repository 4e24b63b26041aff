//! A sink over one of the standard library's writers: a file, a socket, standard output.

ghost use Rattle.std.specs.Prelude.{◌≡◌, ◌<◌, ◌≤◌, length, false, IfOk};
ghost use Rattle.std.specs.Io.KnownBytes.{WriteAppends};

use super::{Failed, Sink};
use std::io::{ErrorKind, Write};

/// Writes a front part of the bytes to a writer, and returns how many: at least one if there is
/// one. A write that a signal interrupted is made again. `Failed` is any other error of the writer,
/// or a write that takes none of some bytes; then the writer has taken none.
pub fn write_part<W: Write>(writer: &mut W, bytes: &[u8]) -> Result<usize, Failed>
    ensures within { IfOk result (λ count. count ≤ length bytes.now) }
    ensures some { IfOk result (λ count. 0 < length bytes.now → 0 < count) }
    ensures bytes { WriteAppends (W.contents writer.old) (W.contents writer.new) result bytes.now }
{
    for _ in 0..u64::MAX {
        match writer.write(bytes) {
            Ok(count) if count > 0 || bytes.is_empty() => return Ok(count),
            Err(error) if error.kind() == ErrorKind::Interrupted => {}
            _ => return Err(Failed),
        }
    }
    Err(Failed)
}

/// A sink over a writer. A write that a signal interrupted is made again; any other error of the
/// writer makes the sink fail for good, and so does a write that takes none of some bytes.
#[derive(Drop)]
pub struct StdSink<W: Write> {
    writer: W,
    failed: bool,
}

impl<W: Write> StdSink<W> {
    /// Returns the sink that writes to the writer.
    pub fn new(writer: W) -> StdSink<W>
        ensures contents { ⟦<StdSink<W> as Sink>⟧.contents result ≡ W.contents writer }
        ensures works { ⟦<StdSink<W> as Sink>⟧.has_failed result ≡ false }
    {
        StdSink {
            writer,
            failed: false,
        }
    }
}

impl<W: Write> Sink for StdSink<W> {
    ghost contents = { λ sink. W.contents sink.writer };

    ghost has_failed = { λ sink. sink.failed };

    fn write(&mut self, bytes: &[u8]) -> Result<usize, Failed> {
        if self.failed {
            return Err(Failed);
        }
        match write_part(&mut self.writer, bytes) {
            Ok(count) => Ok(count),
            Err(Failed) => {
                self.failed = true;
                Err(Failed)
            }
        }
    }

    fn failed(&self) -> bool {
        self.failed
    }
}
