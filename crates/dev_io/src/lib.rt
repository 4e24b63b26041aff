//! Sources, from which the layers above read class files and frames, and sinks, to which they write
//! frames.
//!
//! A contract names what a device has left or holds, if that is known, and whether a call of it has
//! failed. Of a real device no bytes are known, of one over memory all.
#![tactic(auto)]

ghost use Rattle.std.specs.Prelude.{◌≡◌, ◌<◌, ◌≤◌, ℕ, Bool, Option, List, length, IsTrue, IsErr, IfOk, ◌↔◌};
ghost use Rattle.std.specs.Io.KnownBytes.{ReadConsumes, WriteAppends};

pub use calls::Calls;
pub use memory_sink::MemSink;
pub use memory_source::MemSource;
pub use reading::{ReadError, read_bytes};
pub use standard_sink::{StdSink, write_part};
pub use standard_source::StdSource;
use thiserror::Error;
pub use writing::{Cut, write_all};

mod calls;
mod memory_sink;
mod memory_source;
mod reading;
mod standard_sink;
mod standard_source;
mod writing;

/// A call of a device failed. From then on each call of that device fails.
#[derive(Clone, Copy, Debug, PartialEq, Eq, Error)]
#[error("the device failed")]
pub struct Failed;

/// Bytes that come one after the other, as from a file or a connection.
pub trait Source {
    // The bytes that reads will give from here on, if they are known.
    ghost remaining: { Self → Option (List ℕ) };

    // Whether a call has failed.
    ghost has_failed: { Self → Bool };

    /// Reads into the front of the buffer, and returns how many bytes it read. 0 is the end, or an
    /// empty buffer. A read that fails takes no byte off the source.
    fn read(&mut self, buffer: &mut [u8]) -> Result<usize, Failed>
        ensures within { IfOk result (λ count. count ≤ length buffer.new) }
        ensures bytes { ReadConsumes (remaining self.old) (remaining self.new) result buffer.new }
        ensures failed { IsErr result ↔ IsTrue (has_failed self.new) }
        ensures for_good { IsTrue (has_failed self.old) → IsErr result };

    /// Whether a read has failed: from then on each one fails.
    fn failed(&self) -> bool
        ensures { result ≡ has_failed self.now };
}

/// Takes bytes one after the other, as a file or a connection does.
pub trait Sink {
    // The bytes that the sink has taken, if they are known.
    ghost contents: { Self → Option (List ℕ) };

    // Whether a call has failed.
    ghost has_failed: { Self → Bool };

    /// Writes a front part of the bytes, and returns how many: at least one if there is one. A
    /// write that fails takes none.
    fn write(&mut self, bytes: &[u8]) -> Result<usize, Failed>
        ensures within { IfOk result (λ count. count ≤ length bytes.now) }
        ensures some { IfOk result (λ count. 0 < length bytes.now → 0 < count) }
        ensures bytes { WriteAppends (contents self.old) (contents self.new) result bytes.now }
        ensures failed { IsErr result ↔ IsTrue (has_failed self.new) }
        ensures for_good { IsTrue (has_failed self.old) → IsErr result };

    /// Whether a write has failed: from then on each one fails.
    fn failed(&self) -> bool
        ensures { result ≡ has_failed self.now };
}
