//! The parts of a line.

use crate::calls;
use crate::pair::SentClean;
use sim_worlds::ScriptSpace;
use sp_tasks::Outcome;
use space_ids::{ClassId, ObjId, Value};
use std::io::Write;
use test_rows::RowFault;

/// Tells how a task of a space ended, or that it waits.
pub fn put_outcome<S: ScriptSpace>(
    line: &mut Vec<u8>,
    space: &S,
    outcome: Option<&Outcome>,
) -> Result<(), RowFault> {
    match outcome {
        Some(Outcome::Returned(value)) => put_returned(line, value),
        Some(Outcome::Threw(class)) => put_thrown(line, calls::class_name(space, *class)),
        Some(Outcome::Spent) => put(line, "spent"),
        None => put(line, "waits"),
    }
}

fn put_returned(line: &mut Vec<u8>, value: &Option<Value>) -> Result<(), RowFault> {
    match value {
        Some(Value::Int(int)) => write!(line, "returned {int}")?,
        Some(Value::Ref(_)) => write!(line, "returned")?,
        _ => write!(line, "returned something else")?,
    }
    Ok(())
}

fn put_thrown(line: &mut Vec<u8>, class: &[u8]) -> Result<(), RowFault> {
    put(line, "threw ")?;
    line.extend_from_slice(class)?;
    Ok(())
}

/// Tells how many entries keep the object, or that it is gone.
pub fn put_object(
    line: &mut Vec<u8>,
    object: Option<(ObjId, ClassId, usize)>,
) -> Result<(), RowFault> {
    match object {
        Some((_, _, entries)) => write!(line, "entries {entries}")?,
        None => write!(line, "gone")?,
    }
    Ok(())
}

/// Tells that B sent a clean call.
pub fn put_clean(line: &mut Vec<u8>, clean: SentClean) -> Result<(), RowFault> {
    match clean {
        SentClean::Plain => put(line, "; Clean"),
        SentClean::Strong => put(line, "; strong Clean"),
    }
}

fn put(line: &mut Vec<u8>, text: &str) -> Result<(), RowFault> {
    line.extend_from_slice(text.as_bytes())?;
    Ok(())
}
