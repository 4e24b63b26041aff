//! What happens by itself.

use crate::calls;
use crate::device::Side;
use crate::pair::Pair;
use sim_worlds::ScriptSpace;
use test_rows::RowFault;

// More than happens by itself at a time.
const MOST: usize = 10_000;

/// Lets happen all that can by itself: first what waits, then connections that are asked for, instructions of tasks,
/// and what comes at A and at B.
pub fn settle<S: ScriptSpace + Drop>(pair: &mut Pair<S>) -> Result<(), RowFault> {
    for _ in 0..MOST {
        if !happen(pair)? {
            return Ok(());
        }
    }
    Err(RowFault::Bad)
}

// Lets the next thing happen, and returns whether there was one.
fn happen<S: ScriptSpace + Drop>(pair: &mut Pair<S>) -> Result<bool, RowFault> {
    if let Some((side, event)) = pair.take_waiting() {
        pair.tell(side, &event)?;
        return Ok(true);
    }
    if pair.open()? {
        return Ok(true);
    }
    Ok(
        step(pair, Side::A)?
            || step(pair, Side::B)?
            || arrive(pair, Side::A)?
            || arrive(pair, Side::B)?,
    )
}

// Lets the lowest task of a space that may go on make an instruction.
fn step<S: ScriptSpace + Drop>(pair: &mut Pair<S>, side: Side) -> Result<bool, RowFault> {
    let ready = match side {
        Side::A => calls::ready(&pair.a),
        Side::B => calls::ready(&pair.b),
    };
    let Some(task) = ready else {
        return Ok(false);
    };
    let outputs = match side {
        Side::A => calls::step(&mut pair.a, task)?,
        Side::B => calls::step(&mut pair.b, task)?,
    };
    pair.answer(side, outputs)?;
    Ok(true)
}

// Tells a space what comes next.
fn arrive<S: ScriptSpace + Drop>(pair: &mut Pair<S>, side: Side) -> Result<bool, RowFault> {
    let Some(event) = pair.take_arrival(side)? else {
        return Ok(false);
    };
    pair.tell(side, &event)?;
    Ok(true)
}
