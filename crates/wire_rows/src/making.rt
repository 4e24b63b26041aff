//! Frames as they are made and shown.

use net_frames::{Frame, Message, Numbered, ObjId, Row, Value, WireError, WireFault, encode};
use std::alloc::Global;
use std::io::Write;
use test_rows::RowFault;

/// Prints what a frame says, or how long its body is if that is over 200 bytes.
pub fn show(said: &mut Vec<u8>, frame: &Frame) -> Result<(), RowFault> {
    let length = frame.body_len();
    if length > 200 {
        writeln!(said, "a body of {length} bytes")?;
    } else {
        writeln!(said, "{:?}", frame.message())?;
    }
    Ok(())
}

/// Returns the frame that the constructor of its kind makes of what a frame says.
pub fn remade(frame: Frame) -> Result<Frame, WireFault> {
    match frame.into_message() {
        Message::Hello {
            version,
            space,
            digest,
        } => Frame::hello(version, space, digest),
        Message::Call {
            number,
            object,
            method,
            fuel,
            arguments,
        } => Frame::call(number, object, method, fuel, arguments),
        Message::Returned {
            number,
            fuel,
            value,
        } => Frame::returned(number, fuel, value),
        Message::Threw { number, class } => Ok(Frame::threw(number, class)),
        Message::Spent { number } => Ok(Frame::spent(number)),
        Message::Ack { number } => Ok(Frame::ack(number)),
        Message::Dirty {
            sequence,
            period,
            objects,
        } => Frame::dirty(sequence, period, objects),
        Message::Lease { sequence, period } => Ok(Frame::lease(sequence, period)),
        Message::Clean {
            sequence,
            strong,
            objects,
        } => Frame::clean(sequence, strong, objects),
        Message::Cleaned { sequence } => Ok(Frame::cleaned(sequence)),
        Message::Lookup { number, name } => Frame::lookup(number, name),
    }
}

/// A frame that a row asks for by its parts.
#[derive(Drop)]
pub enum Parts {
    /// A Hello of this version.
    Hello(u8),
    /// A Call with these arguments.
    Call(Vec<Value>),
    /// A Returned with an array of this many ints.
    Returned(usize),
    /// A Dirty that names this many objects.
    Dirty(usize),
    /// A Clean that names this many objects.
    Clean(usize),
    /// A Lookup of a name of this many bytes.
    Lookup(usize),
}

/// Makes a frame of its parts, and prints how long its body is, and whether it has bytes.
pub fn put_made(alloc: Global, said: &mut Vec<u8>, parts: Parts) -> Result<(), RowFault> {
    match frame_of(alloc, parts)? {
        Ok(frame) => put_bytes(alloc, said, &frame),
        Err(fault) => put_fault(said, fault),
    }
}

fn put_bytes(alloc: Global, said: &mut Vec<u8>, frame: &Frame) -> Result<(), RowFault> {
    writeln!(said, "a body of {} bytes", frame.body_len())?;
    match encode(alloc, frame) {
        Ok(bytes) => writeln!(said, "{} bytes", bytes.len())?,
        Err(WireError::Fault(fault)) => put_fault(said, fault)?,
        Err(WireError::Memory) => return Err(RowFault::Memory),
    }
    Ok(())
}

fn put_fault(said: &mut Vec<u8>, fault: WireFault) -> Result<(), RowFault> {
    writeln!(said, "{} {fault}", fault.number())?;
    Ok(())
}

// The frame that the constructor of its kind makes of the parts.
fn frame_of(alloc: Global, parts: Parts) -> Result<Result<Frame, WireFault>, RowFault> {
    Ok(match parts {
        Parts::Hello(version) => Frame::hello(version, net_frames::Uuid::nil(), [0; 32]),
        Parts::Call(arguments) => Frame::call(1, ObjId(2), 7, 99, Row::new(arguments)),
        Parts::Returned(length) => Frame::returned(1, 1, Some(ints(alloc, length)?)),
        Parts::Dirty(count) => Frame::dirty(1, 1, Row::new(vec![in alloc; ObjId(1); count]?)),
        Parts::Clean(count) => Frame::clean(1, false, Row::new(vec![in alloc; ObjId(1); count]?)),
        Parts::Lookup(length) => Frame::lookup(1, Row::new(vec![in alloc; b'a'; length]?)),
    })
}

/// Returns an array of this many ints.
pub fn ints(alloc: Global, length: usize) -> Result<Value, RowFault> {
    Ok(Value::Ints(Row::new(vec![in alloc; 7; length]?)))
}
