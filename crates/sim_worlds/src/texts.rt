//! The lines that scripts show of variables.

use crate::names::Names;
use crate::{Named, PlayFault};
use sp_tasks::Outcome;
use space_ids::{Uuid, Value};
use std::io::Write;

/// How texts name spaces.
pub trait SpaceNames {
    /// Adds what the space of an id is called. `PlayFault::Memory` alone.
    fn put_name(&self, text: &mut Vec<u8>, id: &Uuid) -> Result<(), PlayFault>;
}

impl SpaceNames for Names {
    fn put_name(&self, text: &mut Vec<u8>, id: &Uuid) -> Result<(), PlayFault> {
        text.extend_from_slice(self.of(id).as_bytes())?;
        Ok(())
    }
}

/// Adds the line of a variable, and of how its task ended, if it has: `VAR OUTCOME`, or `VAR waiting`.
pub fn put_outcome<S: Named, N: SpaceNames>(
    text: &mut Vec<u8>,
    space: &S,
    names: &N,
    variable: &str,
    outcome: &Option<Outcome>,
) -> Result<(), PlayFault> {
    write!(text, "{variable} ")?;
    match outcome {
        None => write!(text, "waiting")?,
        Some(Outcome::Spent) => write!(text, "spent")?,
        Some(Outcome::Threw(class)) => {
            write!(text, "threw ")?;
            text.extend_from_slice(space.class_name(*class))?;
        }
        Some(Outcome::Returned(None)) => write!(text, "returned")?,
        Some(Outcome::Returned(Some(value))) => {
            write!(text, "returned ")?;
            put_value(text, names, value)?;
        }
    }
    text.push(b'\n')?;
    Ok(())
}

fn put_value<N: SpaceNames>(text: &mut Vec<u8>, names: &N, value: &Value) -> Result<(), PlayFault> {
    match value {
        Value::Null => write!(text, "null")?,
        Value::Int(int) => write!(text, "{int}")?,
        Value::Ints(ints) => put_ints(text, ints.as_slice())?,
        Value::Ref(reference) => {
            write!(text, "ref ")?;
            names.put_name(text, &reference.space)?;
            write!(text, " {}", reference.id.0)?;
        }
    }
    Ok(())
}

fn put_ints(text: &mut Vec<u8>, ints: &[i32]) -> Result<(), PlayFault> {
    write!(text, "[")?;
    for (index, int) in ints.iter().enumerate() {
        if index > 0 {
            write!(text, ",")?;
        }
        write!(text, "{int}")?;
    }
    write!(text, "]")?;
    Ok(())
}
