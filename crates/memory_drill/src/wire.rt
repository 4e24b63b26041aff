//! Frames: encoded, fed in pieces, and received from a source.

ghost use Rattle.std.specs.Prelude.{◌<◌};

use super::Tally;
use dev_io::MemSource;
use net_engine::{Inbound, Inflow};
use net_frames::{ClassId, Frame, FrameReader, ObjId, Ref, Row, Uuid, Value, WireError, encode};
use std::alloc::{AllocError, Global};

// A call of object 2, method 7, with fuel 99 and the arguments null, [1,-1] and a reference.
const CALL: &[u8] =
    b"\0\0\0\x47\x02\0\0\0\0\0\0\0\x01\0\0\0\0\0\0\0\x02\0\0\0\x07\0\0\0\0\0\0\0\x63\x03\
    \0\x02\0\0\0\x02\0\0\0\x01\xff\xff\xff\xff\
    \x03\0\0\0\0\0\0\0\0\0\0\0\0\0\0\0\0\0\0\0\0\0\0\x01\x02\x03\x04";

// Ack 5.
const ACK: &[u8] = b"\0\0\0\x09\x06\0\0\0\0\0\0\0\x05";

fn call(alloc: Global) -> Result<Frame, AllocError> {
    let mut values = Vec::new(alloc);
    values.push(Value::Null)?;
    values.push(Value::Ints(Row::new([1, -1].to_vec(alloc)?)))?;
    values.push(Value::Ref(Ref {
        space: Uuid::nil(),
        id: ObjId(0x0102),
        class: ClassId(0x0304),
    }))?;
    Frame::call(1, ObjId(2), 7, 99, Row::new(values)).map_err(|_| AllocError)
}

fn is_encoded(alloc: Global, frame: &Frame, bytes: &[u8], tally: &mut Tally) -> bool {
    let mut answer = encode(alloc, frame);
    if let Err(WireError::Memory) = answer {
        tally.replace(&mut answer, encode(alloc, frame));
    }
    match answer {
        Ok(encoded) => encoded.as_slice() == bytes,
        Err(_) => false,
    }
}

// Feeds the bytes in pieces of `piece` bytes, and compares the frames that come with their bytes.
fn feed(alloc: Global, piece: usize, tally: &mut Tally)
    requires { 0 < piece }
{
    let mut reader = FrameReader::new(alloc);
    let mut owed = [CALL, ACK].into_iter();
    for bytes in [CALL, ACK] {
        for piece in bytes.chunks(piece) {
            let Ok(frames) = fed(&mut reader, piece, tally) else {
                tally.answer(false);
                return;
            };
            for frame in &frames {
                let is_right = match owed.next() {
                    Some(bytes) => is_encoded(alloc, frame, bytes, tally),
                    None => false,
                };
                tally.answer(is_right);
            }
        }
    }
    tally.answer(owed.next().is_none());
}

// Feeds a piece, once more if memory ran out.
fn fed(reader: &mut FrameReader, piece: &[u8], tally: &mut Tally) -> Result<Vec<Frame>, WireError> {
    let mut answer = reader.feed(piece);
    if let Err(WireError::Memory) = answer {
        tally.replace(&mut answer, reader.feed(piece));
    }
    answer
}

// Receives the two frames and then the end from a source that gives `step` bytes at a time.
fn receive(alloc: Global, step: usize, tally: &mut Tally) -> Result<(), AllocError>
    requires { 0 < step }
{
    let mut bytes = CALL.to_vec(alloc)?;
    bytes.extend_from_slice(ACK)?;
    let mut inbound = Inbound::new(alloc, MemSource::new(bytes, step))?;
    for owed in [CALL, ACK] {
        let mut answer = inbound.next();
        if answer.is_err() {
            tally.replace(&mut answer, inbound.next());
        }
        let is_right = match answer {
            Ok(Inflow::Frame(frame)) => is_encoded(alloc, &frame, owed, tally),
            _ => false,
        };
        tally.answer(is_right);
    }
    let is_right = matches!(inbound.next(), Ok(Inflow::Closed { inside: false }));
    tally.answer(is_right);
    Ok(())
}

/// Encodes, feeds and receives a call and its acknowledgement.
pub fn play(alloc: Global, tally: &mut Tally) -> Result<(), AllocError> {
    let frame = call(alloc)?;
    let is_right = is_encoded(alloc, &frame, CALL, tally);
    tally.answer(is_right);
    for piece in [7, 64] {
        feed(alloc, piece, tally);
    }
    receive(alloc, 20, tally)
}
