//! The rows of the input.

use crate::device::{After, Device, bytes_of};
use crate::parts::{method, name, reference, values};
use sp_core::{Event, Op, Outcome, Root, Stand};
use space_ids::{ObjId, Uuid};
use std::alloc::Global;
use test_rows::{RowFault, class, index, number, one_number, space, value};

/// What a task in hand is given to its core for.
#[derive(Clone, Copy, PartialEq, Eq)]
pub enum Hand {
    /// It waits for a call.
    Park,
    /// It has ended.
    Finish,
}

/// What a core shows.
#[derive(Clone, Copy)]
pub enum Look {
    Object(usize),
    Ready,
}

/// A row of the input.
#[derive(Drop)]
pub enum Row {
    Core(Uuid, u64, u8),
    /// A connection is open: a peer made it, or one that was dialled took it.
    Open(u64, Option<Uuid>),
    /// Bytes of a connection, how they are read, and what comes after them.
    Bytes(u64, Device, Vec<u8>, After),
    Event(Event),
    Root(Root),
    Lend(u64),
    /// An operation of the task in hand, which stands there.
    Commit(u64, Stand, Op),
    /// A task in hand that stands there, with the fuel that it has.
    Hand(u64, Hand, Stand, u64),
    Look(Look),
}

/// Returns what a row of this first word asks for.
pub fn row_of(alloc: Global, kind: &str, parts: &[&str]) -> Result<Row, RowFault> {
    match kind {
        "core" => core_of(parts),
        "open" => open_of(parts),
        "hand" | "end" | "fail" => came_of(alloc, kind, parts),
        "root" => root_of(alloc, parts),
        "lend" => Ok(Row::Lend(one_number(parts)?)),
        "create" | "put" => asked_of(alloc, kind, parts),
        "call" => call_of(alloc, parts),
        "return" | "throw" | "spend" => ended_of(alloc, kind, parts),
        "object" | "ready" => look_of(kind, parts),
        "bind" | "unbind" | "lookup" => Ok(Row::Event(named_of(alloc, kind, parts)?)),
        _ => Ok(Row::Event(event_of(kind, parts)?)),
    }
}

fn core_of(parts: &[&str]) -> Result<Row, RowFault> {
    match parts {
        [id, fuel] => Ok(Row::Core(space(id)?, number(fuel)?, 1)),
        [id, fuel, "2"] => Ok(Row::Core(space(id)?, number(fuel)?, 2)),
        _ => Err(RowFault::Bad),
    }
}

fn open_of(parts: &[&str]) -> Result<Row, RowFault> {
    match parts {
        [conn] => Ok(Row::Open(number(conn)?, None)),
        [conn, peer] => Ok(Row::Open(number(conn)?, Some(space(peer)?))),
        _ => Err(RowFault::Bad),
    }
}

fn came_of(alloc: Global, kind: &str, parts: &[&str]) -> Result<Row, RowFault> {
    let [conn, step, words @ ..] = parts else {
        return Err(RowFault::Bad);
    };
    match kind {
        "hand" => bytes_row(alloc, conn, step, "0", words, After::More),
        "end" => bytes_row(alloc, conn, step, "0", words, After::End),
        _ => failing_row(alloc, conn, step, words),
    }
}

fn failing_row(alloc: Global, conn: &str, step: &str, words: &[&str]) -> Result<Row, RowFault> {
    match words {
        [call, words @ ..] if number(call)? > 0 => {
            bytes_row(alloc, conn, step, call, words, After::End)
        }
        _ => Err(RowFault::Bad),
    }
}

fn bytes_row(
    alloc: Global,
    conn: &str,
    step: &str,
    call: &str,
    words: &[&str],
    after: After,
) -> Result<Row, RowFault> {
    let device = Device {
        step: index(step)?,
        fail: number(call)?,
    };
    Ok(Row::Bytes(number(conn)?, device, bytes_of(alloc, words)?, after))
}

fn root_of(alloc: Global, parts: &[&str]) -> Result<Row, RowFault> {
    match parts {
        [at, fuel, arguments @ ..] => Ok(Row::Root(Root {
            method: method(at)?,
            arguments: values(alloc, arguments)?,
            fuel: number(fuel)?,
            refused: None,
        })),
        _ => Err(RowFault::Bad),
    }
}

// An operation of a task that asks for it.
fn asked_of(alloc: Global, kind: &str, parts: &[&str]) -> Result<Row, RowFault> {
    let [task, words @ ..] = parts else {
        return Err(RowFault::Bad);
    };
    let stand = Stand::AsksFor(op_of(alloc, kind, words)?);
    Ok(Row::Commit(number(task)?, stand, op_of(alloc, kind, words)?))
}

fn op_of(alloc: Global, kind: &str, words: &[&str]) -> Result<Op, RowFault> {
    match (kind, words) {
        ("create", [of]) => Ok(Op::Create(class(of)?)),
        ("put", [object, slot, put]) => Ok(Op::Put {
            object: ObjId(number(object)?),
            slot: index(slot)?,
            value: value(alloc, put)?,
        }),
        _ => Err(RowFault::Bad),
    }
}

// A call at which a task stands.
fn call_of(alloc: Global, parts: &[&str]) -> Result<Row, RowFault> {
    let [task, fuel, target, at, words @ ..] = parts else {
        return Err(RowFault::Bad);
    };
    let op = Op::Call {
        target: reference(alloc, target)?,
        method: method(at)?,
        arguments: values(alloc, words)?,
    };
    let (task, fuel) = (number(task)?, number(fuel)?);
    Ok(Row::Hand(task, Hand::Park, Stand::AsksFor(op), fuel))
}

fn ended_of(alloc: Global, kind: &str, parts: &[&str]) -> Result<Row, RowFault> {
    let [task, words @ ..] = parts else {
        return Err(RowFault::Bad);
    };
    let (outcome, fuel) = outcome_of(alloc, kind, words)?;
    let stand = Stand::HasEnded(outcome);
    Ok(Row::Hand(number(task)?, Hand::Finish, stand, fuel))
}

// How a task ended, and with which fuel.
fn outcome_of(alloc: Global, kind: &str, words: &[&str]) -> Result<(Outcome, u64), RowFault> {
    match (kind, words) {
        ("return", [fuel]) => Ok((Outcome::Returned(None), number(fuel)?)),
        ("return", [fuel, word]) => {
            Ok((Outcome::Returned(Some(value(alloc, word)?)), number(fuel)?))
        }
        ("throw", [fuel, of]) => Ok((Outcome::Threw(class(of)?), number(fuel)?)),
        ("spend", []) => Ok((Outcome::Spent, 0)),
        _ => Err(RowFault::Bad),
    }
}

fn look_of(kind: &str, parts: &[&str]) -> Result<Row, RowFault> {
    match (kind, parts) {
        ("object", [at]) => Ok(Row::Look(Look::Object(index(at)?))),
        ("ready", []) => Ok(Row::Look(Look::Ready)),
        _ => Err(RowFault::Bad),
    }
}

fn named_of(alloc: Global, kind: &str, parts: &[&str]) -> Result<Event, RowFault> {
    match (kind, parts) {
        ("bind", [text, bound]) => Ok(Event::Bind {
            name: name(alloc, text)?,
            value: value(alloc, bound)?,
        }),
        ("unbind", [text]) => Ok(Event::Unbind {
            name: name(alloc, text)?,
        }),
        ("lookup", [peer, text]) => Ok(Event::Lookup {
            peer: space(peer)?,
            name: name(alloc, text)?,
        }),
        _ => Err(RowFault::Bad),
    }
}

fn event_of(kind: &str, parts: &[&str]) -> Result<Event, RowFault> {
    match (kind, parts) {
        ("moment", [moment]) => Ok(Event::Moment(number(moment)?)),
        ("sweep", []) => Ok(Event::Sweep),
        ("ack", [task]) => Ok(Event::RootAck(number(task)?)),
        ("refused", [peer]) => Ok(Event::Refused { peer: space(peer)? }),
        ("broken", [conn, unsent]) => Ok(Event::WriteFailed {
            conn: number(conn)?,
            unsent: number(unsent)?,
        }),
        _ => Err(RowFault::Bad),
    }
}
