//! Calls of the results of a space that wait to be acknowledged.

use sp_results::Results;
use sp_store::IdSet;
use space_ids::{ObjId, Value};
use std::alloc::Global;
use std::io::Write;
use test_rows::{RowFault, number, object, one_number, one_word, space_of, value};

/// Plays a call, and prints what it answers.
pub fn play(
    results: &mut Results,
    alloc: Global,
    said: &mut Vec<u8>,
    call: &str,
    words: &[&str],
) -> Result<(), RowFault> {
    match call {
        "hold" => hold(results, alloc, words),
        "release" => release(results, words),
        "has" => put_held(results, said, words),
        "own" => put_named(results, alloc, said, words),
        _ => Err(RowFault::Bad),
    }
}

fn hold(results: &mut Results, alloc: Global, words: &[&str]) -> Result<(), RowFault> {
    let [task, held] = words else {
        return Err(RowFault::Bad);
    };
    hold_value(results, number(task)?, value(alloc, held)?)
}

fn release(results: &mut Results, words: &[&str]) -> Result<(), RowFault> {
    results.release(one_number(words)?);
    Ok(())
}

fn put_held(results: &Results, said: &mut Vec<u8>, words: &[&str]) -> Result<(), RowFault> {
    writeln!(said, "{}", results.contains(one_number(words)?))?;
    Ok(())
}

fn put_named(
    results: &Results,
    alloc: Global,
    said: &mut Vec<u8>,
    words: &[&str],
) -> Result<(), RowFault> {
    writeln!(
        said,
        "{}",
        names(results, alloc, object(one_word(words)?)?)?
    )?;
    Ok(())
}

fn hold_value(results: &mut Results, task: u64, value: Value) -> Result<(), RowFault> {
    if results.contains(task) {
        return Err(RowFault::Bad);
    }
    Ok(results.hold(task, Some(value))?)
}

// Whether a result names the space's own object.
fn names(results: &Results, alloc: Global, id: ObjId) -> Result<bool, RowFault> {
    let mut ids = IdSet::new(alloc);
    results.insert_own(&space_of(1), &mut ids)?;
    Ok(ids.contains(id))
}
