//! What a core that takes calls asks of a program.

use super::links::class_named;
use sp_call_set::CallSet;
use sp_requests::{CallClasses, ClassSet, FieldKind, RemoteException, ResultKind};
use space_ids::{ClassId, Row, Value};
use std::alloc::{AllocError, Global};
use std::io::Write;
use std::str;
use test_rows::{RowFault, class, one_word, put, value};
use vm_step::Program;

/// Plays a question about a program.
pub fn play(
    alloc: Global,
    program: &Program,
    said: &mut Vec<u8>,
    kind: &str,
    words: &[&str],
) -> Result<(), RowFault> {
    let set = made(alloc, program)?;
    ask(alloc, program, &set, said, kind, words)
}

fn ask(
    alloc: Global,
    program: &Program,
    set: &CallSet<'_>,
    said: &mut Vec<u8>,
    kind: &str,
    words: &[&str],
) -> Result<(), RowFault> {
    let [of, words @ ..] = words else {
        return if kind == "thrown" {
            put_thrown(program, set, said)
        } else {
            Err(RowFault::Bad)
        };
    };
    match kind {
        "takes" => put_takes(alloc, set, said, of, words),
        "gives" => put(said, "gives", &result_kind(set, method(of)?)),
        _ => ask_class(program, set, said, kind, class_of(program, of)?, words),
    }
}

fn put_takes(
    alloc: Global,
    set: &CallSet<'_>,
    said: &mut Vec<u8>,
    of: &str,
    words: &[&str],
) -> Result<(), RowFault> {
    let values = values_of(alloc, words)?;
    put(said, "takes", &takes(set, method(of)?, &values))
}

// A question about a class.
fn ask_class(
    program: &Program,
    set: &CallSet<'_>,
    said: &mut Vec<u8>,
    kind: &str,
    of: ClassId,
    words: &[&str],
) -> Result<(), RowFault> {
    match kind {
        "class" | "remote" | "throws" if words.is_empty() => {
            put_class_kind(program, set, said, kind, of)
        }
        "call" => put(
            said,
            "may call",
            &may_call(set, of, method(one_word(words)?)?),
        ),
        "runs" => put(said, "runs", &selected(set, of, method(one_word(words)?)?)),
        _ => Err(RowFault::Bad),
    }
}

fn put_class_kind(
    program: &Program,
    set: &CallSet<'_>,
    said: &mut Vec<u8>,
    kind: &str,
    of: ClassId,
) -> Result<(), RowFault> {
    match kind {
        "class" => put(said, "number", &of.0),
        "remote" => put_remote(set, said, of),
        _ => put_throws(program, set, said, of),
    }
}

fn put_throws(
    program: &Program,
    set: &CallSet<'_>,
    said: &mut Vec<u8>,
    of: ClassId,
) -> Result<(), RowFault> {
    put(said, "throwable", &is_throwable(set, of))?;
    put_class(program, said, "told", told_class(set, of))
}

fn put_remote(set: &CallSet<'_>, said: &mut Vec<u8>, of: ClassId) -> Result<(), RowFault> {
    put(said, "remote", &is_remote(set, of))?;
    let count = field_count(set, of);
    put(said, "fields", &count)?;
    for slot in 0..count {
        put(said, "field", &field_kind(set, of, slot))?;
    }
    put(said, "next", &field_kind(set, of, count))
}

// Each exception with its class.
fn put_thrown(program: &Program, set: &CallSet<'_>, said: &mut Vec<u8>) -> Result<(), RowFault> {
    put_class(program, said, "out of memory", out_of_memory(set))?;
    for exception in [
        RemoteException::NoSuchObject,
        RemoteException::Unmarshal,
        RemoteException::Marshal,
        RemoteException::Connect,
        RemoteException::ServerError,
        RemoteException::NotBound,
    ] {
        put_class(program, said, "thrown", thrown(set, exception))?;
    }
    Ok(())
}

// ---- words

fn method(word: &str) -> Result<u32, RowFault> {
    word.parse::<u32>().map_err(|_| RowFault::Bad)
}

// The class of a number, or of a name.
fn class_of(program: &Program, word: &str) -> Result<ClassId, RowFault> {
    match class(word) {
        Ok(class) => Ok(class),
        Err(_) => class_named(program.linked(), word),
    }
}

fn values_of(alloc: Global, words: &[&str]) -> Result<Vec<Value>, RowFault> {
    let mut values = Vec::new(alloc);
    for word in words {
        values.push(value_of(alloc, word)?)?;
    }
    Ok(values)
}

fn value_of(alloc: Global, word: &str) -> Result<Value, RowFault> {
    if word == "ints" {
        return Ok(Value::Ints(Row::new(vec![in alloc; 1; 2]?)));
    }
    value(alloc, word)
}

fn put_class(
    program: &Program,
    said: &mut Vec<u8>,
    word: &str,
    class: ClassId,
) -> Result<(), RowFault> {
    match str::from_utf8(name(program, class)) {
        Ok(name) => writeln!(said, "{word} {name}")?,
        Err(_) => return Err(RowFault::Bad),
    }
    Ok(())
}

// ---- what the calls answer. These functions promise nothing, so that a row is proved at once.

fn made(alloc: Global, program: &Program) -> Result<CallSet<'_>, AllocError> {
    CallSet::new(alloc, program)
}

// The name of a class: none for a number that no class has.
fn name(program: &Program, class: ClassId) -> &[u8] {
    let set = program.linked().set();
    if usize::from(class.0) >= set.len() {
        return b"none";
    }
    set.name(class).as_bytes()
}

fn is_remote(set: &CallSet<'_>, class: ClassId) -> bool {
    set.is_remote(class)
}

fn field_count(set: &CallSet<'_>, class: ClassId) -> usize {
    set.field_count(class)
}

fn field_kind(set: &CallSet<'_>, class: ClassId, slot: usize) -> Option<FieldKind> {
    set.field_kind(class, slot)
}

fn out_of_memory(set: &CallSet<'_>) -> ClassId {
    set.out_of_memory()
}

fn may_call(set: &CallSet<'_>, class: ClassId, method: u32) -> bool {
    set.may_call(class, method)
}

fn takes(set: &CallSet<'_>, method: u32, arguments: &[Value]) -> bool {
    set.takes(method, arguments)
}

fn result_kind(set: &CallSet<'_>, method: u32) -> ResultKind {
    set.result_kind(method)
}

fn selected(set: &CallSet<'_>, class: ClassId, method: u32) -> Option<u32> {
    set.selected(class, method)
}

fn is_throwable(set: &CallSet<'_>, class: ClassId) -> bool {
    set.is_throwable(class)
}

fn told_class(set: &CallSet<'_>, class: ClassId) -> ClassId {
    set.told_class(class)
}

fn thrown(set: &CallSet<'_>, exception: RemoteException) -> ClassId {
    set.thrown(exception)
}
