//! Calls of a registry.

use base_types::Numbered;
use sp_registry::{BindFault, Bindings, Registry};
use space_ids::ObjId;
use std::alloc::Global;
use std::io::Write;
use std::str;
use test_rows::{RowFault, index, object, one_word};

/// Plays a call, and prints what it answers.
pub fn play(
    names: &mut Registry,
    alloc: Global,
    said: &mut Vec<u8>,
    call: &str,
    words: &[&str],
) -> Result<(), RowFault> {
    match call {
        "list" => put_list(names, said, words),
        "count" => put_count(names, said, words),
        "lookup" => put_found(names, alloc, said, words),
        "unbind" => put_unbound(names, alloc, said, words),
        "bind" | "rebind" => put_bound(names, alloc, said, call, words),
        _ => Err(RowFault::Bad),
    }
}

fn put_list(names: &Registry, said: &mut Vec<u8>, words: &[&str]) -> Result<(), RowFault> {
    if !words.is_empty() {
        return Err(RowFault::Bad);
    }
    put_bindings(said, list(names))
}

fn put_count(names: &Registry, said: &mut Vec<u8>, words: &[&str]) -> Result<(), RowFault> {
    writeln!(said, "{}", count(names, object(one_word(words)?)?))?;
    Ok(())
}

fn put_found(
    names: &Registry,
    alloc: Global,
    said: &mut Vec<u8>,
    words: &[&str],
) -> Result<(), RowFault> {
    writeln!(said, "{:?}", lookup(names, &name(alloc, one_word(words)?)?))?;
    Ok(())
}

fn put_unbound(
    names: &mut Registry,
    alloc: Global,
    said: &mut Vec<u8>,
    words: &[&str],
) -> Result<(), RowFault> {
    put_change(said, unbind(names, &name(alloc, one_word(words)?)?))
}

fn put_bound(
    names: &mut Registry,
    alloc: Global,
    said: &mut Vec<u8>,
    call: &str,
    words: &[&str],
) -> Result<(), RowFault> {
    let [text, of] = words else {
        return Err(RowFault::Bad);
    };
    let name = name(alloc, text)?;
    let object = bound(of)?;
    if call == "bind" {
        put_change(said, bind(names, &name, object))
    } else {
        put_change(said, rebind(names, &name, object))
    }
}

// The bytes of a name.
fn name(alloc: Global, word: &str) -> Result<Vec<u8>, RowFault> {
    if let Some(count) = word.strip_suffix("*") {
        return Ok(vec![in alloc; b'n'; index(count)?]?);
    }
    let bytes = if word == "-" { "" } else { word };
    Ok(bytes.as_bytes().to_vec(alloc)?)
}

// The object of a name.
fn bound(word: &str) -> Result<Option<ObjId>, RowFault> {
    if word == "-" {
        return Ok(None);
    }
    Ok(Some(object(word)?))
}

// What the calls of the registry answer. These functions promise nothing, so that a row is proved at once.
fn bind(names: &mut Registry, name: &[u8], object: Option<ObjId>) -> Result<(), BindFault> {
    names.bind(name, object)
}

fn rebind(names: &mut Registry, name: &[u8], object: Option<ObjId>) -> Result<(), BindFault> {
    names.rebind(name, object)
}

fn unbind(names: &mut Registry, name: &[u8]) -> Result<(), BindFault> {
    Ok(names.unbind(name)?)
}

fn lookup(names: &Registry, name: &[u8]) -> Option<ObjId> {
    names.lookup(name)
}

fn list(names: &Registry) -> Bindings<'_> {
    names.list()
}

fn count(names: &Registry, of: ObjId) -> usize {
    names.count_of(of)
}

fn put_change(said: &mut Vec<u8>, change: Result<(), BindFault>) -> Result<(), RowFault> {
    match change {
        Ok(()) => writeln!(said, "done")?,
        Err(BindFault::Denied(fault)) => {
            let denied = BindFault::from(fault);
            writeln!(said, "denied: {} {denied}", fault.number())?
        }
        Err(BindFault::Memory) => return Err(RowFault::Memory),
    }
    Ok(())
}

fn put_bindings(said: &mut Vec<u8>, bindings: Bindings<'_>) -> Result<(), RowFault> {
    let count = bindings.len();
    for binding in bindings {
        let bytes = binding.name.as_bytes();
        match str::from_utf8(bytes) {
            Ok(text) if bytes.len() < 20 => write!(said, "{text}={} ", binding.object.0)?,
            _ => write!(said, "{} bytes={} ", bytes.len(), binding.object.0)?,
        }
    }
    writeln!(said, "in all {count}")?;
    Ok(())
}
