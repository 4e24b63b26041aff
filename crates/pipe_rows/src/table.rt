//! What plays come to, one for each call that fails.

use crate::device::{Devices, Failing, Side, Way};
use crate::pair::Pair;
use crate::play::play;
use sim_worlds::{Origin, ScriptSpace};
use std::alloc::Global;
use std::io::Write;
use test_rows::RowFault;

// More calls than a device gets.
const MOST_CALLS: u64 = 10_000;

/// What a row asks for.
#[derive(Clone, Copy)]
pub enum Plan {
    /// No device fails.
    Whole,
    /// The device of a space fails, at each of its calls in turn.
    Failing(Side, Way),
}

// Plays whose failing calls follow each other, and that came to one line.
#[derive(Drop)]
struct Stretch {
    from: u64,
    to: u64,
    line: Vec<u8>,
}

/// Prints what the plays of a plan come to.
pub fn put_plan<S: ScriptSpace + Drop, O: Origin<S>>(
    alloc: Global,
    origin: &O,
    said: &mut Vec<u8>,
    plan: Plan,
    step: usize,
) -> Result<(), RowFault> {
    match plan {
        Plan::Whole => put_whole(alloc, origin, said, step),
        Plan::Failing(side, way) => put_table(alloc, origin, said, side, way, step),
    }
}

fn put_whole<S: ScriptSpace + Drop, O: Origin<S>>(
    alloc: Global,
    origin: &O,
    said: &mut Vec<u8>,
    step: usize,
) -> Result<(), RowFault> {
    let devices = Devices {
        step,
        failing: None,
    };
    let mut pair = Pair::new(alloc, origin, devices)?;
    put_line(said, &play(&mut pair)?)?;
    for (name, side) in [("A", Side::A), ("B", Side::B)] {
        writeln!(said, "{name} sent {:?} bytes", pair.sent(side)?)?;
    }
    Ok(())
}

fn put_table<S: ScriptSpace + Drop, O: Origin<S>>(
    alloc: Global,
    origin: &O,
    said: &mut Vec<u8>,
    side: Side,
    way: Way,
    step: usize,
) -> Result<(), RowFault> {
    let mut stretches = Vec::new(alloc);
    for call in 1..MOST_CALLS {
        let failing = Failing { side, way, call };
        let devices = Devices {
            step,
            failing: Some(failing),
        };
        match played(alloc, origin, devices)? {
            Some(line) => add(&mut stretches, call, line)?,
            None => return put_stretches(said, &stretches),
        }
    }
    Err(RowFault::Bad)
}

// What a play comes to, if a device fails in it.
fn played<S: ScriptSpace + Drop, O: Origin<S>>(
    alloc: Global,
    origin: &O,
    devices: Devices,
) -> Result<Option<Vec<u8>>, RowFault> {
    let mut pair = Pair::new(alloc, origin, devices)?;
    let line = play(&mut pair)?;
    if !pair.has_failed {
        return Ok(None);
    }
    Ok(Some(line))
}

// Adds a play to the last stretch, or begins one.
fn add(stretches: &mut Vec<Stretch>, call: u64, line: Vec<u8>) -> Result<(), RowFault> {
    let is_same = match stretches.last() {
        Some(last) => last.line.as_slice() == line.as_slice(),
        None => false,
    };
    if is_same {
        extend(stretches, call);
        return Ok(());
    }
    stretches.push(Stretch {
        from: call,
        to: call,
        line,
    })?;
    Ok(())
}

// The last stretch goes on.
fn extend(stretches: &mut Vec<Stretch>, call: u64) {
    if let Some(last) = stretches.last_mut() {
        last.to = call;
    }
}

fn put_stretches(said: &mut Vec<u8>, stretches: &[Stretch]) -> Result<(), RowFault> {
    for stretch in stretches {
        write!(said, "from {} to {}: ", stretch.from, stretch.to)?;
        put_line(said, &stretch.line)?;
    }
    Ok(())
}

fn put_line(said: &mut Vec<u8>, line: &[u8]) -> Result<(), RowFault> {
    said.extend_from_slice(line)?;
    said.push(b'\n')?;
    Ok(())
}
