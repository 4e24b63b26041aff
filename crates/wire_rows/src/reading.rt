//! Bytes as a reader of frames takes them.

ghost use Rattle.std.specs.Prelude.{◌<◌};

use super::fault::{no_frame, of_wire};
use super::making::{remade, show};
use net_frames::{Frame, FrameReader, Numbered, WireError, WireFault, encode};
use std::alloc::Global;
use std::io::Write;
use test_rows::RowFault;

/// Prints the frames that come of the bytes and the fault after them, and says so if other pieces give others.
pub fn put_read(alloc: Global, said: &mut Vec<u8>, bytes: &[u8]) -> Result<(), RowFault> {
    said.extend_from_slice(&fed(alloc, bytes, 1_000_000)?)?;
    for piece in [1, 7, 1000] {
        if fed(alloc, bytes, piece)?.as_slice() != said.as_slice() {
            writeln!(said, "something else in pieces of {piece}")?;
        }
    }
    Ok(())
}

// What comes of the bytes in pieces of this length.
fn fed(alloc: Global, bytes: &[u8], length: usize) -> Result<Vec<u8>, RowFault>
    requires { 0 < length }
{
    let mut reader = FrameReader::new(alloc);
    let mut said = Vec::new(alloc);
    let fault = fault_of(alloc, &mut reader, &mut said, bytes, length)?;
    if let Some(fault) = fault {
        put_fault(alloc, &mut reader, &mut said, fault)?;
    }
    Ok(said)
}

// Prints the frames of pieces of this length, and returns the fault after them.
fn fault_of(
    alloc: Global,
    reader: &mut FrameReader,
    said: &mut Vec<u8>,
    bytes: &[u8],
    length: usize,
) -> Result<Option<WireFault>, RowFault>
    requires { 0 < length }
{
    for piece in bytes.chunks(length) {
        if let Some(fault) = feed(alloc, reader, piece, said)? {
            return Ok(Some(fault));
        }
    }
    // A fault after frames is told as the next piece comes.
    feed(alloc, reader, &[], said)
}

// Prints a fault, and says so if it is not for good.
fn put_fault(
    alloc: Global,
    reader: &mut FrameReader,
    said: &mut Vec<u8>,
    fault: WireFault,
) -> Result<(), RowFault> {
    writeln!(said, "{} {fault}", fault.number())?;
    let more = b"\0\0\0\x09\x06\0\0\0\0\0\0\0\x05";
    if feed(alloc, reader, more, said)? != Some(fault) {
        writeln!(said, "and not for good")?;
    }
    Ok(())
}

// It promises nothing, so that what follows it is proved without what the reader promises.
fn frames_of(reader: &mut FrameReader, piece: &[u8]) -> Result<Vec<Frame>, WireError> {
    reader.feed(piece)
}

// Feeds a piece, prints its frames, and returns its fault.
fn feed(
    alloc: Global,
    reader: &mut FrameReader,
    piece: &[u8],
    said: &mut Vec<u8>,
) -> Result<Option<WireFault>, RowFault> {
    match frames_of(reader, piece) {
        Ok(frames) => {
            for frame in frames {
                put_frame(alloc, said, frame)?;
            }
            Ok(None)
        }
        Err(WireError::Fault(fault)) => Ok(Some(fault)),
        Err(WireError::Memory) => Err(RowFault::Memory),
    }
}

// Prints a frame, and says so if its parts make one of other bytes.
fn put_frame(alloc: Global, said: &mut Vec<u8>, frame: Frame) -> Result<(), RowFault> {
    show(said, &frame)?;
    let bytes = encode(alloc, &frame).map_err(of_wire)?;
    let again = remade(frame).map_err(no_frame)?;
    let spelled = encode(alloc, &again).map_err(of_wire)?;
    if spelled.as_slice() != bytes.as_slice() {
        writeln!(said, "and other bytes from its parts")?;
    }
    Ok(())
}
