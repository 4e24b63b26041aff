//! What bench/frames measures: a call's frame encoded over and over, and a stream of such frames fed
//! to a reader in pieces. The functions are for C, and a slice is a pointer and a length there.
#![tactic(auto)]

ghost use Rattle.std.specs.Prelude.{◌<◌, ◌≤◌, length};

use net_frames::{Frame, FrameReader, ObjId, Row, Value, encode};
use std::alloc::Global;

// A call with one array of `ints` ints, or without arguments if that is 0.
fn call(alloc: Global, ints: usize) -> Option<Frame> {
    let mut arguments = Vec::new(alloc);
    if ints > 0 {
        let array = vec![in alloc; 7; ints].ok()?;
        arguments.push(Value::Ints(Row::new(array))).ok()?;
    }
    Frame::call(1, ObjId(2), 7, 99, Row::new(arguments)).ok()
}

/// Writes the frame of such a call to the front of the bytes, and returns how many bytes it has: 0
/// if it does not fit, or memory ran out.
#[unsafe(no_mangle)]
pub extern "C" fn bench_frames_write(alloc: Global, ints: usize, out: &mut [u8]) -> usize
    ensures { result ≤ length out.old }
{
    let Some(frame) = call(alloc, ints) else {
        return 0;
    };
    match encode(alloc, &frame) {
        Ok(bytes) if bytes.len() <= out.len() => {
            out[..bytes.len()].copy_from_slice(&bytes);
            bytes.len()
        }
        _ => 0,
    }
}

/// Encodes the frame of such a call `times` times, and returns how many bytes came of it: 0 if
/// memory ran out.
#[unsafe(no_mangle)]
pub extern "C" fn bench_frames_encode(alloc: Global, ints: usize, times: u64) -> u64 {
    let Some(frame) = call(alloc, ints) else {
        return 0;
    };
    let mut total: u64 = 0;
    for _ in 0..times {
        match encode(alloc, &frame) {
            Ok(bytes) => total = total.wrapping_add(bytes.len() as u64),
            Err(_) => return 0,
        }
    }
    total
}

/// Feeds the bytes to a new reader in pieces of `piece` bytes, and returns how many frames came of
/// them: 0 if they are no frames, or memory ran out.
#[unsafe(no_mangle)]
pub extern "C" fn bench_frames_feed(alloc: Global, bytes: &[u8], piece: usize) -> u64
    requires { 0 < piece }
{
    let mut reader = FrameReader::new(alloc);
    let mut total: u64 = 0;
    for piece in bytes.chunks(piece) {
        match reader.feed(piece) {
            Ok(frames) => total = total.wrapping_add(frames.len() as u64),
            Err(_) => return 0,
        }
    }
    total
}
