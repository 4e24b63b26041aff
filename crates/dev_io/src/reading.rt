//! Reading the bytes of a source, up to a number of them.

ghost use Rattle.std.specs.Prelude.{◌≡◌, ◌<◌, ◌≤◌, ◌↔◌, length, take, IfOk, IfSome, IsErrOf, IsTrue};
ghost use Rattle.std.specs.Io.KnownBytes.{Consumes};
ghost use Rattle.dev_io.specs.Reading.{GivesPiece};

use super::Source;
use std::alloc::Global;
use thiserror::Error;

/// Why the bytes of a source were not read.
#[derive(Clone, Copy, Debug, PartialEq, Eq, Error)]
pub enum ReadError {
    /// The source failed.
    #[error("the device failed")]
    Device,
    /// Memory ran out.
    #[error("out of memory")]
    Memory,
}

// Reads a piece into the buffer, and appends it to the bytes. `false` is the source's end.
fn read_piece<S: Source>(
    source: &mut S,
    bytes: &mut Vec<u8>,
    piece: &mut [u8],
) -> Result<bool, ReadError>
    requires { 0 < length piece.old }
    ensures given { IfOk result (λ more. GivesPiece (S.remaining source.old)
        (S.remaining source.new) (length piece.old) bytes.old.items bytes.new.items more) }
    ensures device { IsErrOf result ReadError.Device ↔ IsTrue (S.has_failed source.new) }
{
    let Ok(count) = source.read(piece) else {
        return Err(ReadError::Device);
    };
    match bytes.extend_from_slice(&piece[..count]) {
        Ok(()) => Ok(count > 0),
        Err(_) => Err(ReadError::Memory),
    }
}

// How many bytes are asked of a source at once.
const PIECE: usize = 4096;

/// Returns the bytes of a source to its end, or its first `most` bytes. The error is Device exactly
/// if the source has failed, else Memory. It asks for at most 4,096 bytes at once, and reads no
/// byte after the first `most`. After an error the source has given some of its bytes: to read
/// again, take a new source.
pub fn read_bytes<S: Source>(
    alloc: Global,
    source: &mut S,
    most: usize,
) -> Result<Vec<u8>, ReadError>
    requires { 0 < most }
    // The source gave these bytes and no others.
    ensures passed { IfOk result (λ bytes. Consumes (S.remaining source.old)
        (S.remaining source.new) bytes.items) }
    // It gave all that it had, or its first `most` bytes.
    ensures all { IfOk result (λ bytes. IfSome (S.remaining source.old)
        (λ all. bytes.items ≡ take most all)) }
    ensures within { IfOk result (λ bytes. length bytes.items ≤ most) }
    ensures device { IsErrOf result ReadError.Device ↔ IsTrue (S.has_failed source.new) }
{
    let mut bytes = Vec::new(alloc);
    let mut buffer = [0; PIECE];
    'pieces: loop {
        let asked = PIECE.min(most - bytes.len());
        let more = read_piece(source, &mut bytes, &mut buffer[..asked])?;
        if !more || bytes.len() >= most {
            return Ok(bytes);
        }
    }
}
