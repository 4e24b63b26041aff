//! Frames over devices in memory.

ghost use Rattle.std.specs.Prelude.{◌<◌};

use super::making::show;
use super::row::Device;
use dev_io::{MemSink, MemSource};
use net_engine::{Inbound, Inflow, Outbound, WriteFailed};
use net_frames::{Frame, Numbered};
use std::alloc::Global;
use std::io::Write;
use test_rows::RowFault;

// The most calls that a row makes.
const CALLS: usize = 100;

fn source(alloc: Global, device: Device, bytes: &[u8]) -> Result<Inbound<MemSource>, RowFault> {
    if device.step == 0 {
        return Err(RowFault::Bad);
    }
    let mut source = MemSource::new(bytes.to_vec(alloc)?, device.step);
    if device.fail > 0 {
        source = source.failing_at(device.fail);
    }
    Ok(Inbound::new(alloc, source)?)
}

fn sink(alloc: Global, room: usize, device: Device) -> Result<Outbound<MemSink>, RowFault> {
    if device.step == 0 {
        return Err(RowFault::Bad);
    }
    let mut sink = MemSink::new(alloc, room, device.step)?;
    if device.fail > 0 {
        sink = sink.failing_at(device.fail);
    }
    Ok(Outbound::new(alloc, sink)?)
}

/// Prints what comes of a source, up to the end that is told twice.
pub fn put_received(
    alloc: Global,
    said: &mut Vec<u8>,
    device: Device,
    bytes: &[u8],
) -> Result<(), RowFault> {
    let mut inbound = source(alloc, device, bytes)?;
    put_inflows(said, &mut inbound)
}

fn put_inflows(said: &mut Vec<u8>, inbound: &mut Inbound<MemSource>) -> Result<(), RowFault> {
    let mut ends = 0;
    for _ in 0..CALLS {
        if ends < 2 && !put_inflow(said, &next(inbound)?)? {
            ends += 1;
        }
    }
    Ok(())
}

// Prints what came, and returns whether it is a frame.
fn put_inflow(said: &mut Vec<u8>, inflow: &Inflow) -> Result<bool, RowFault> {
    match inflow {
        Inflow::Frame(frame) => {
            show(said, frame)?;
            return Ok(true);
        }
        Inflow::Closed { inside: false } => writeln!(said, "closed")?,
        Inflow::Closed { inside: true } => writeln!(said, "closed inside a frame")?,
        Inflow::ReadFailed => writeln!(said, "read failed")?,
        Inflow::Bad(fault) => writeln!(said, "{} {fault}", fault.number())?,
    }
    Ok(false)
}

// These two promise nothing, so that what follows them is proved without what the engine promises.
fn next(inbound: &mut Inbound<MemSource>) -> Result<Inflow, RowFault> {
    Ok(inbound.next()?)
}

fn send(
    outbound: &mut Outbound<MemSink>,
    frame: &Frame,
) -> Result<Result<(), WriteFailed>, RowFault> {
    if frame.body_len() > 65_536 {
        return Err(RowFault::Bad);
    }
    Ok(outbound.send(frame))
}

// The first frame of the bytes, whose body is not over the limit.
fn first_frame(alloc: Global, bytes: &[u8]) -> Result<Frame, RowFault> {
    let mut inbound = source(
        alloc,
        Device {
            step: 1000,
            fail: 0,
        },
        bytes,
    )?;
    match next(&mut inbound)? {
        Inflow::Frame(frame) => Ok(frame),
        _ => Err(RowFault::Bad),
    }
}

/// Prints what a sink of that room takes of the frame of the bytes.
pub fn put_sent(
    alloc: Global,
    said: &mut Vec<u8>,
    room: usize,
    device: Device,
    bytes: &[u8],
) -> Result<(), RowFault> {
    let frame = first_frame(alloc, bytes)?;
    put_taken(alloc, said, &frame, sink(alloc, room, device)?)
}

fn put_taken(
    alloc: Global,
    said: &mut Vec<u8>,
    frame: &Frame,
    outbound: Outbound<MemSink>,
) -> Result<(), RowFault> {
    let mut outbound = outbound;
    match send(&mut outbound, frame)? {
        Ok(()) => writeln!(said, "sent")?,
        Err(failed) => writeln!(said, "{failed}")?,
    }
    writeln!(said, "{}", hex::encode(alloc, outbound.sink().bytes())?)?;
    Ok(())
}

/// Prints how many beginnings of the bytes, none of which has a frame, end inside one.
pub fn put_cut(alloc: Global, said: &mut Vec<u8>, bytes: &[u8]) -> Result<(), RowFault> {
    let mut inside: usize = 0;
    for length in 0..bytes.len() {
        match end_of(alloc, &bytes[..length])? {
            Some(true) => inside = inside.saturating_add(1),
            Some(false) => {}
            None => writeln!(said, "not the end after {length} bytes")?,
        }
    }
    writeln!(
        said,
        "{inside} of {} beginnings end inside a frame",
        bytes.len()
    )?;
    Ok(())
}

// Whether the bytes end inside a frame, if their end comes first.
fn end_of(alloc: Global, bytes: &[u8]) -> Result<Option<bool>, RowFault> {
    let mut inbound = source(alloc, Device { step: 7, fail: 0 }, bytes)?;
    match next(&mut inbound)? {
        Inflow::Closed { inside } => Ok(Some(inside)),
        _ => Ok(None),
    }
}

/// Prints how many of the first calls of a source that gives a byte a call, and of a sink that takes one, lose
/// the frame of the bytes if they fail. What a device gave or took before is told right.
pub fn put_failed(alloc: Global, said: &mut Vec<u8>, bytes: &[u8]) -> Result<(), RowFault> {
    let frame = first_frame(alloc, bytes)?;
    put_losses(alloc, said, &frame, bytes)
}

fn put_losses(
    alloc: Global,
    said: &mut Vec<u8>,
    frame: &Frame,
    bytes: &[u8],
) -> Result<(), RowFault> {
    let mut reads: usize = 0;
    let mut writes: usize = 0;
    for calls in 0..bytes.len() as u64 {
        if is_lost(alloc, failing_after(calls), bytes)? {
            reads = reads.saturating_add(1);
        }
        if is_cut(alloc, failing_after(calls), frame, bytes)? {
            writes = writes.saturating_add(1);
        }
    }
    let last = failing_after(bytes.len() as u64);
    if is_lost(alloc, last, bytes)? || is_cut(alloc, last, frame, bytes)? {
        writeln!(said, "and one call more")?;
    }
    writeln!(said, "{reads} reads and {writes} writes")?;
    Ok(())
}

// A device of a byte a call, whose next call after these fails.
fn failing_after(calls: u64) -> Device {
    Device {
        step: 1,
        fail: calls.saturating_add(1),
    }
}

// Whether the frame does not come of a source that fails so. Its failure is told for good.
fn is_lost(alloc: Global, device: Device, bytes: &[u8]) -> Result<bool, RowFault> {
    let mut inbound = source(alloc, device, bytes)?;
    let is_lost = !matches!(next(&mut inbound)?, Inflow::Frame(_));
    match next(&mut inbound)? {
        Inflow::ReadFailed => Ok(is_lost),
        _ => Err(RowFault::Bad),
    }
}

// Whether the frame does not go out to a sink that fails so. It has the bytes that are told, all but
// the one of the call that failed.
fn is_cut(alloc: Global, device: Device, frame: &Frame, bytes: &[u8]) -> Result<bool, RowFault> {
    let mut outbound = sink(alloc, bytes.len(), device)?;
    let sent = match send(&mut outbound, frame)? {
        Ok(()) => bytes.len(),
        Err(failed) => failed.sent,
    };
    let calls = device.fail.saturating_sub(1);
    if calls != sent as u64 || outbound.sink().bytes() != bytes.get(..sent).unwrap_or(&[]) {
        return Err(RowFault::Bad);
    }
    Ok(sent < bytes.len())
}
