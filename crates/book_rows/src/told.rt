//! What is printed of answers.

use sp_book::{BookFault, Input};
use sp_outputs::Output;
use sp_tasks::Outcome;
use space_ids::Value;
use std::io;
use std::io::{ErrorKind, Write};

/// What is played did not come to what it has to.
pub fn failed() -> io::Error {
    io::Error::from(ErrorKind::InvalidData)
}

/// Prints what came of an input.
pub fn put_answer<W: Write>(
    out: &mut W,
    answer: Result<(), (BookFault, Option<Input>)>,
) -> io::Result<()> {
    match answer {
        Ok(()) => writeln!(out, "taken"),
        Err((fault, left)) => writeln!(out, "{fault}, handed back: {}", left.is_some()),
    }
}

/// Prints the ends of tasks, and the objects that were withdrawn.
pub fn put_all<W: Write>(out: &mut W, batches: Vec<Vec<Output>>) -> io::Result<()> {
    for batch in batches {
        for output in batch {
            put_output(out, &output)?;
        }
    }
    Ok(())
}

fn put_output<W: Write>(out: &mut W, output: &Output) -> io::Result<()> {
    match output {
        Output::Ended(task, outcome) => put_outcome(out, *task, outcome),
        Output::Withdrawn(ids) => writeln!(out, "withdrawn {}", ids.as_slice().len()),
        _ => Ok(()),
    }
}

fn put_outcome<W: Write>(out: &mut W, task: u64, outcome: &Outcome) -> io::Result<()> {
    match outcome {
        Outcome::Returned(Some(Value::Int(number))) => writeln!(out, "{task} returned {number}"),
        Outcome::Returned(Some(Value::Ref(object))) => {
            writeln!(out, "{task} returned object {}", object.id.0)
        }
        Outcome::Returned(_) => writeln!(out, "{task} returned"),
        Outcome::Threw(class) => writeln!(out, "{task} threw class {}", class.0),
        Outcome::Spent => writeln!(out, "{task} spent"),
    }
}
