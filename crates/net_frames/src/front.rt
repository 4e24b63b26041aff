//! The frame at the front of some bytes.

ghost use Rattle.std.specs.Prelude.{◌≡◌, ◌+◌, ◌≤◌, length, take, drop};
ghost use Rattle.net_frames.specs.Stream as stream;
ghost use Rattle.net_frames.specs.Stream.{ReadsBody, ReadsFront};

use crate::bodies::whole_of;
use byteorder::{BigEndian, ByteOrder};
use net_message::{Frame, MAX_BODY, WireError, WireFault};
use std::alloc::Global;

/// What bytes that begin with no fault hold of their first frame.
#[derive(Drop)]
pub enum Front {
    /// A frame, and how many bytes it takes. Bytes may follow it.
    Whole { frame: Frame, length: usize },
    /// A frame may have begun. It has at least `count` more bytes, and is not known to have more.
    Missing { count: usize },
}

// The frame that a whole body says.
fn frame_of(alloc: Global, body: &[u8]) -> Result<Frame, WireError>
    ensures { ReadsBody body.now result }
{
    let message = whole_of(alloc, body)?;
    Ok(Frame::new(message))
}

// The length of the first body.
#[tactic(auto, unfolding(crate::specs::Stream::told_length))]
fn told_length(bytes: &[u8]) -> usize
    requires { 4 ≤ length bytes.now }
    ensures { result ≡ stream.told_length bytes.now }
{
    BigEndian::read_u32(bytes) as usize
}

// The first body, of `body_length` bytes.
fn first_body(bytes: &[u8], body_length: usize) -> &[u8]
    requires { 4 + body_length ≤ length bytes.now }
    ensures { result.now ≡ take body_length (drop 4 bytes.now) }
{
    let (_, rest) = bytes.split_at(4);
    let (body, _) = rest.split_at(body_length);
    body
}

/// Returns the frame at the front of the bytes, or what is missing of it. A fault of the length is
/// known with its fourth byte, any other when the body is there: the kind, then the fields in
/// order, then bytes left.
pub fn read_front(alloc: Global, bytes: &[u8]) -> Result<Front, WireError>
    ensures { ReadsFront bytes.now result }
{
    if bytes.len() < 4 {
        return Ok(Front::Missing {
            count: 4 - bytes.len(),
        });
    }
    let body_length = told_length(bytes);
    if body_length < 1 || body_length > MAX_BODY {
        return Err(WireError::Fault(WireFault::Length));
    }
    let length = 4 + body_length;
    if bytes.len() < length {
        return Ok(Front::Missing {
            count: length - bytes.len(),
        });
    }
    let frame = frame_of(alloc, first_body(bytes, body_length))?;
    Ok(Front::Whole { frame, length })
}
