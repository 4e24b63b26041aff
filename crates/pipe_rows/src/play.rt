//! The play of two spaces, and the line that it comes to.

use crate::calls;
use crate::device::Side;
use crate::line::{put_clean, put_object, put_outcome};
use crate::pair::{Pair, id_of};
use crate::settling::settle;
use sim_worlds::ScriptSpace;
use sp_events::Event;
use sp_tasks::Outcome;
use space_ids::{Ref, Row, Value};
use std::alloc::Global;
use std::io::Write;
use test_rows::RowFault;

// The tasks of the play: A's root; B's look-up and root.
const MADE: u64 = 1;

const LOOKED_UP: u64 = 1;

const CALLED: u64 = 2;

// The moment of B after what failed, and the last one at which an entry of A stands.
const NEXT: u64 = 1_000;

const LAST: u64 = 599_999;

/// Plays two spaces, and returns what it came to.
pub fn play<S: ScriptSpace + Drop>(pair: &mut Pair<S>) -> Result<Vec<u8>, RowFault> {
    let mut line = Vec::new(pair.alloc);
    bind(pair)?;
    look_up(pair, &mut line)?;
    call(pair, &mut line)?;
    unbind(pair, &mut line)?;
    let_go(pair, &mut line)?;
    pass(pair, &mut line)?;
    Ok(line)
}

fn name(alloc: Global) -> Result<Row<u8>, RowFault> {
    Ok(Row::new(b"counter".to_vec(alloc)?))
}

// A makes an object, binds it, and lets the result of the root go.
fn bind<S: ScriptSpace + Drop>(pair: &mut Pair<S>) -> Result<(), RowFault> {
    let method = calls::method(&pair.a, "make()LInc;")?;
    let outputs = calls::root(&mut pair.a, method, &[], 8)?;
    pair.answer(Side::A, outputs)?;
    settle(pair)?;
    let Some((id, class, _)) = calls::object(&pair.a) else {
        return Err(RowFault::Bad);
    };
    let value = Value::Ref(Ref {
        space: id_of(Side::A),
        id,
        class,
    });
    let name = name(pair.alloc)?;
    pair.tell(Side::A, &Event::Bind { name, value })?;
    pair.tell(Side::A, &Event::RootAck(MADE))
}

// B looks the object up.
fn look_up<S: ScriptSpace + Drop>(pair: &mut Pair<S>, line: &mut Vec<u8>) -> Result<(), RowFault> {
    let event = Event::Lookup {
        peer: id_of(Side::A),
        name: name(pair.alloc)?,
    };
    pair.tell(Side::B, &event)?;
    settle(pair)?;
    write!(line, "look-up ")?;
    put_outcome(line, &pair.b, pair.outcome(Side::B, LOOKED_UP))
}

// The reference that B looked up, if it did.
fn looked_up<S: ScriptSpace + Drop>(pair: &Pair<S>) -> Option<Ref> {
    match pair.outcome(Side::B, LOOKED_UP) {
        Some(Outcome::Returned(Some(Value::Ref(reference)))) => Some(*reference),
        _ => None,
    }
}

// A root of B calls the object, if B has it.
fn call<S: ScriptSpace + Drop>(pair: &mut Pair<S>, line: &mut Vec<u8>) -> Result<(), RowFault> {
    let Some(reference) = looked_up(pair) else {
        return Ok(());
    };
    let method = calls::method(&pair.b, "bump(LInc;)I")?;
    let outputs = calls::root(&mut pair.b, method, &[Value::Ref(reference)], 11)?;
    pair.answer(Side::B, outputs)?;
    settle(pair)?;
    write!(line, ", root ")?;
    put_outcome(line, &pair.b, pair.outcome(Side::B, CALLED))
}

// Sweeps A, and tells what became of the object.
fn sweep<S: ScriptSpace + Drop>(
    pair: &mut Pair<S>,
    line: &mut Vec<u8>,
    when: &str,
) -> Result<(), RowFault> {
    pair.tell(Side::A, &Event::Sweep)?;
    settle(pair)?;
    write!(line, "; {when}: ")?;
    put_object(line, calls::object(&pair.a))
}

// A takes the name away.
fn unbind<S: ScriptSpace + Drop>(pair: &mut Pair<S>, line: &mut Vec<u8>) -> Result<(), RowFault> {
    let name = name(pair.alloc)?;
    pair.tell(Side::A, &Event::Unbind { name })?;
    sweep(pair, line, "unbound")
}

// B lets go what it has.
fn let_go<S: ScriptSpace + Drop>(pair: &mut Pair<S>, line: &mut Vec<u8>) -> Result<(), RowFault> {
    for task in [LOOKED_UP, CALLED] {
        if let Some(Outcome::Returned(_)) = pair.outcome(Side::B, task) {
            pair.tell(Side::B, &Event::RootAck(task))?;
        }
    }
    settle(pair)?;
    put_cleans(pair, line)?;
    sweep(pair, line, "let go")
}

// The next moment of B comes, and then those of A around the end of an entry.
fn pass<S: ScriptSpace + Drop>(pair: &mut Pair<S>, line: &mut Vec<u8>) -> Result<(), RowFault> {
    pair.tell(Side::B, &Event::Moment(NEXT))?;
    settle(pair)?;
    put_cleans(pair, line)?;
    sweep(pair, line, "next moment")?;
    pair.tell(Side::A, &Event::Moment(LAST))?;
    sweep(pair, line, "599,999")?;
    pair.tell(Side::A, &Event::Moment(LAST + 1))?;
    sweep(pair, line, "600,000")
}

// Tells the clean calls that B sent.
fn put_cleans<S: ScriptSpace + Drop>(
    pair: &mut Pair<S>,
    line: &mut Vec<u8>,
) -> Result<(), RowFault> {
    for clean in pair.take_cleans() {
        put_clean(line, clean)?;
    }
    Ok(())
}
