//! The rows of the input.

use super::parts::{method, name, values};
use sp_core::{Event, Op, Outcome, Root, Stand, StartFault};
use space_ids::{ObjId, Row as Values, Uuid};
use std::alloc::Global;
use test_rows::{RowFault, class, index, number, space, value};

/// What a task in hand is given to its core for.
#[derive(Drop)]
pub enum Hand {
    Give,
    Park(Stand),
    Finish(Stand),
}

/// A row of the input.
#[derive(Drop)]
pub enum Row {
    Core(Uuid, u64, u8),
    Event(Event),
    /// A root, and how often it comes.
    Root(Root, usize),
    Lend(u64),
    Ran(u64, u64),
    /// An operation of a task in hand that stands there, and how often it comes.
    Commit(u64, Stand, Op, usize),
    Hand(u64, Hand),
    Object(usize),
    Ready,
}

/// Returns what a row of this first word asks for.
pub fn row_of(alloc: Global, kind: &str, parts: &[&str]) -> Result<Row, RowFault> {
    match kind {
        "core" => core_of(parts),
        "root" | "roots" | "refused" => root_of(alloc, kind, parts),
        "lend" | "ran" | "object" | "ready" => look_of(kind, parts),
        "create" | "creates" | "get" | "put" => asked_of(alloc, kind, parts),
        "commit" => commit_of(alloc, parts),
        "give" | "park" | "finish" | "return" | "throw" | "spend" => {
            hand_row(alloc, kind, parts)
        }
        _ => Ok(Row::Event(event_of(alloc, kind, parts)?)),
    }
}

fn core_of(parts: &[&str]) -> Result<Row, RowFault> {
    match parts {
        [id, fuel] => Ok(Row::Core(space(id)?, number(fuel)?, 1)),
        [id, fuel, "2"] => Ok(Row::Core(space(id)?, number(fuel)?, 2)),
        _ => Err(RowFault::Bad),
    }
}

// A row that changes no more than what is in hand.
fn look_of(kind: &str, parts: &[&str]) -> Result<Row, RowFault> {
    match (kind, parts) {
        ("lend", [task]) => Ok(Row::Lend(number(task)?)),
        ("ran", [task, made]) => Ok(Row::Ran(number(task)?, number(made)?)),
        ("object", [at]) => Ok(Row::Object(index(at)?)),
        ("ready", []) => Ok(Row::Ready),
        _ => Err(RowFault::Bad),
    }
}

// An operation of a task that asks for it.
fn asked_of(alloc: Global, kind: &str, parts: &[&str]) -> Result<Row, RowFault> {
    let [task, words @ ..] = parts else {
        return Err(RowFault::Bad);
    };
    let task = number(task)?;
    match (kind, words) {
        ("creates", [times, of]) => {
            let stand = Stand::AsksFor(Op::Create(class(of)?));
            Ok(Row::Commit(task, stand, Op::Create(class(of)?), index(times)?))
        }
        _ => {
            let stand = Stand::AsksFor(op_of(alloc, kind, words)?);
            Ok(Row::Commit(task, stand, op_of(alloc, kind, words)?, 1))
        }
    }
}

// An operation of a task that stands at another point.
fn commit_of(alloc: Global, parts: &[&str]) -> Result<Row, RowFault> {
    let [task, words @ ..] = parts else {
        return Err(RowFault::Bad);
    };
    let Some(at) = words.iter().position(|word| *word == "at") else {
        return Err(RowFault::Bad);
    };
    if at >= words.len() {
        return Err(RowFault::Bad);
    }
    let stand = stand_of(alloc, &words[at + 1..])?;
    match &words[..at] {
        [kind, words @ ..] => Ok(Row::Commit(number(task)?, stand, op_of(alloc, kind, words)?, 1)),
        [] => Err(RowFault::Bad),
    }
}

fn stand_of(alloc: Global, words: &[&str]) -> Result<Stand, RowFault> {
    match words {
        [word] if *word == "runs" => Ok(Stand::Runs),
        [kind, words @ ..] => Ok(Stand::AsksFor(op_of(alloc, kind, words)?)),
        [] => Err(RowFault::Bad),
    }
}

fn hand_row(alloc: Global, kind: &str, parts: &[&str]) -> Result<Row, RowFault> {
    match parts {
        [task, parts @ ..] => Ok(Row::Hand(number(task)?, hand_of(alloc, kind, parts)?)),
        [] => Err(RowFault::Bad),
    }
}

fn event_of(alloc: Global, kind: &str, parts: &[&str]) -> Result<Event, RowFault> {
    match (kind, parts) {
        ("moment", [moment]) => Ok(Event::Moment(number(moment)?)),
        ("sweep", []) => Ok(Event::Sweep),
        ("ack", [task]) => Ok(Event::RootAck(number(task)?)),
        ("bind", [text, bound]) => Ok(Event::Bind {
            name: name(alloc, text)?,
            value: value(alloc, bound)?,
        }),
        ("rebind", [text, bound]) => Ok(Event::Rebind {
            name: name(alloc, text)?,
            value: value(alloc, bound)?,
        }),
        ("unbind", [text]) => Ok(Event::Unbind {
            name: name(alloc, text)?,
        }),
        _ => Err(RowFault::Bad),
    }
}

fn root_of(alloc: Global, kind: &str, words: &[&str]) -> Result<Row, RowFault> {
    match (kind, words) {
        ("root", [at, fuel, arguments @ ..]) => {
            let root = Root {
                method: method(at)?,
                arguments: values(alloc, arguments)?,
                fuel: number(fuel)?,
                refused: None,
            };
            Ok(Row::Root(root, 1))
        }
        ("roots", [times, at, fuel]) => {
            Ok(Row::Root(bare_root(alloc, at, fuel, None)?, index(times)?))
        }
        ("refused", [fault, at, fuel]) => {
            let fault = match *fault {
                "85" => StartFault::AbsentMethod,
                "86" => StartFault::BadSignature,
                "87" => StartFault::BadArgument,
                _ => return Err(RowFault::Bad),
            };
            Ok(Row::Root(bare_root(alloc, at, fuel, Some(fault))?, 1))
        }
        _ => Err(RowFault::Bad),
    }
}

// A root without arguments.
fn bare_root(
    alloc: Global,
    at: &str,
    fuel: &str,
    refused: Option<StartFault>,
) -> Result<Root, RowFault> {
    Ok(Root {
        method: method(at)?,
        arguments: Values::new(Vec::new(alloc)),
        fuel: number(fuel)?,
        refused,
    })
}

fn op_of(alloc: Global, kind: &str, words: &[&str]) -> Result<Op, RowFault> {
    match (kind, words) {
        ("create", [of]) => Ok(Op::Create(class(of)?)),
        ("get", [object, slot]) => Ok(Op::Get {
            object: ObjId(number(object)?),
            slot: index(slot)?,
        }),
        ("put", [object, slot, put]) => Ok(Op::Put {
            object: ObjId(number(object)?),
            slot: index(slot)?,
            value: value(alloc, put)?,
        }),
        _ => Err(RowFault::Bad),
    }
}

fn hand_of(alloc: Global, kind: &str, words: &[&str]) -> Result<Hand, RowFault> {
    match (kind, words) {
        ("give", []) => Ok(Hand::Give),
        ("park", []) => Ok(Hand::Park(Stand::Runs)),
        ("finish", []) => Ok(Hand::Finish(Stand::Runs)),
        ("return", []) => Ok(ended(Outcome::Returned(None))),
        ("return", [returned]) => Ok(ended(Outcome::Returned(Some(value(alloc, returned)?)))),
        ("throw", [of]) => Ok(ended(Outcome::Threw(class(of)?))),
        ("spend", []) => Ok(ended(Outcome::Spent)),
        _ => Err(RowFault::Bad),
    }
}

fn ended(outcome: Outcome) -> Hand {
    Hand::Finish(Stand::HasEnded(outcome))
}
