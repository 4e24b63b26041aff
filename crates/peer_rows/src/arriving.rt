//! Bytes that come on connections, and the events that they are.

use crate::calls;
use crate::classes::RowClasses;
use crate::device::{After, Device, Line};
use crate::showing::{put_answer, put_arrival, put_word};
use dev_io::MemSource;
use sp_core::{Event, SpaceCore};
use sp_inflow::{Arrival, Arrivals};
use std::alloc::Global;
use test_rows::RowFault;

// More frames than a connection of rows has.
const MOST_FRAMES: usize = 10_000;

/// Tells a core what the bytes of a connection say that it was not told yet, and prints what it answers.
pub fn tell(
    alloc: Global,
    core: &mut SpaceCore,
    classes: &RowClasses,
    said: &mut Vec<u8>,
    line: &mut Line,
    device: Device,
    after: After,
) -> Result<(), RowFault> {
    let mut arrivals = calls::arrivals(alloc, device, &line.bytes)?;
    skip(&mut arrivals, line.told)?;
    let told = tell_rest(core, classes, said, line.conn, &mut arrivals, after)?;
    if told == 0 {
        put_word(said, "nothing came")?;
    }
    line.told = line.told.saturating_add(told);
    Ok(())
}

// Passes over what was told.
fn skip(arrivals: &mut Arrivals<MemSource>, told: usize) -> Result<(), RowFault> {
    for _ in 0..told {
        drop(calls::next(arrivals)?);
    }
    Ok(())
}

// Tells the rest, and returns how much it was.
fn tell_rest(
    core: &mut SpaceCore,
    classes: &RowClasses,
    said: &mut Vec<u8>,
    conn: u64,
    arrivals: &mut Arrivals<MemSource>,
    after: After,
) -> Result<usize, RowFault> {
    for told in 0..MOST_FRAMES {
        match calls::next(arrivals)? {
            Some(arrival) if is_told(&arrival, after) => {
                put_arrival(said, &arrival)?;
                let answer = calls::event(core, classes, &event_of(conn, arrival));
                put_answer(said, &answer)?;
            }
            _ => return Ok(told),
        }
    }
    Err(RowFault::Bad)
}

// The end of the bytes is the end of the connection only if a row says so.
fn is_told(arrival: &Arrival, after: After) -> bool {
    match arrival {
        Arrival::Closed => after == After::End,
        Arrival::Received(_) | Arrival::ReadFailed | Arrival::Bad => true,
    }
}

fn event_of(conn: u64, arrival: Arrival) -> Event {
    match arrival {
        Arrival::Received(message) => Event::Received { conn, message },
        Arrival::Closed => Event::Closed { conn },
        Arrival::ReadFailed => Event::ReadFailed { conn },
        Arrival::Bad => Event::Bad { conn },
    }
}
