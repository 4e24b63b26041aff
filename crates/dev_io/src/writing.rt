//! Whole strings of bytes into a sink.

ghost use Rattle.std.specs.Prelude.{◌≡◌, ◌<◌, length, take, IfErr, OnOk, IsTrue};
ghost use Rattle.std.specs.Io.KnownBytes.{Appends};

use super::{Failed, Sink};
use thiserror::Error;

/// A sink failed in the middle of some bytes: it took the first `taken` of them, and not all.
#[derive(Clone, Copy, Debug, PartialEq, Eq, Error)]
#[error("the device failed after {taken} bytes")]
pub struct Cut {
    pub taken: usize,
}

/// Writes all of the bytes, in as many writes as the sink asks for. `Cut` says that the sink has
/// failed, and how many bytes it took before.
pub fn write_all<K: Sink>(sink: &mut K, bytes: &[u8]) -> Result<(), Cut>
    ensures all { OnOk result (Appends (K.contents sink.old) (K.contents sink.new) bytes.now) }
    ensures cut { IfErr result (λ cut. cut.taken < length bytes.now) }
    ensures part { IfErr result (λ cut. Appends (K.contents sink.old) (K.contents sink.new)
        (take cut.taken bytes.now)) }
    ensures failed { IfErr result (λ _. IsTrue (K.has_failed sink.new)) }
{
    let mut taken = 0;
    while taken < bytes.len() {
        let (_, rest) = bytes.split_at(taken);
        match sink.write(rest) {
            Ok(count) => taken += count,
            Err(Failed) => return Err(Cut { taken }),
        }
    }
    Ok(())
}
