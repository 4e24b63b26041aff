//! Calls of a store of remote objects.

use super::parts::objects;
use sp_store::{IdSet, Store};
use space_ids::{ClassId, ObjId, Value};
use std::alloc::{AllocError, Global};
use std::io::Write;
use test_rows::{RowFault, class, index, object, one_word, value, values};

/// Plays a call, and prints what it answers.
pub fn play(
    store: &mut Store,
    alloc: Global,
    said: &mut Vec<u8>,
    call: &str,
    words: &[&str],
) -> Result<(), RowFault> {
    match call {
        "create" => put_created(store, alloc, said, words),
        "put" => put_old(store, alloc, said, words),
        "idle" | "sweep" => put_unneeded(store, alloc, said, call, words),
        "hold" | "release" => count(store, call, words),
        _ => look(store, said, call, words),
    }
}

fn put_created(
    store: &mut Store,
    alloc: Global,
    said: &mut Vec<u8>,
    words: &[&str],
) -> Result<(), RowFault> {
    let [of, fields @ ..] = words else {
        return Err(RowFault::Bad);
    };
    let id = create(store, class(of)?, values(alloc, fields)?)?;
    writeln!(said, "{id:?}")?;
    Ok(())
}

fn put_old(
    store: &mut Store,
    alloc: Global,
    said: &mut Vec<u8>,
    words: &[&str],
) -> Result<(), RowFault> {
    let [id, slot, put] = words else {
        return Err(RowFault::Bad);
    };
    let old = put_field(store, object(id)?, index(slot)?, value(alloc, put)?);
    writeln!(said, "{old:?}")?;
    Ok(())
}

// Prints the objects that nothing needs: of `sweep`, which go with it.
fn put_unneeded(
    store: &mut Store,
    alloc: Global,
    said: &mut Vec<u8>,
    call: &str,
    words: &[&str],
) -> Result<(), RowFault> {
    let needed = set(alloc, words)?;
    if call == "sweep" {
        put_ids(said, &sweep(store, alloc, needed)?)
    } else {
        put_ids(said, &idle(store, alloc, needed)?)
    }
}

fn count(store: &mut Store, call: &str, words: &[&str]) -> Result<(), RowFault> {
    let id = object(one_word(words)?)?;
    if call == "hold" {
        store.hold(id);
    } else {
        store.release(id);
    }
    Ok(())
}

fn look(store: &Store, said: &mut Vec<u8>, call: &str, words: &[&str]) -> Result<(), RowFault> {
    match call {
        "get" => put_got(store, said, words),
        "at" => put_object(store, said, words),
        "count" => put_count(store, said, words),
        _ => Err(RowFault::Bad),
    }
}

fn put_got(store: &Store, said: &mut Vec<u8>, words: &[&str]) -> Result<(), RowFault> {
    let [id, slot] = words else {
        return Err(RowFault::Bad);
    };
    writeln!(said, "{:?}", get_field(store, object(id)?, index(slot)?))?;
    Ok(())
}

fn put_object(store: &Store, said: &mut Vec<u8>, words: &[&str]) -> Result<(), RowFault> {
    writeln!(said, "{:?}", object_at(store, index(one_word(words)?)?))?;
    Ok(())
}

fn put_count(store: &Store, said: &mut Vec<u8>, words: &[&str]) -> Result<(), RowFault> {
    if !words.is_empty() {
        return Err(RowFault::Bad);
    }
    writeln!(said, "{} stand of {} made", store.len(), store.made())?;
    Ok(())
}

// The set of ids of a row.
fn set(alloc: Global, words: &[&str]) -> Result<IdSet, RowFault> {
    Ok(set_of(alloc, &objects(alloc, one_word(words)?)?)?)
}

fn set_of(alloc: Global, ids: &[ObjId]) -> Result<IdSet, AllocError> {
    let mut needed = IdSet::new(alloc);
    for id in ids {
        needed.insert(*id)?;
    }
    Ok(needed)
}

// What the calls of the store answer. These functions promise nothing, so that a row is proved at once.
fn create(
    store: &mut Store,
    class: ClassId,
    fields: Vec<Value>,
) -> Result<Option<ObjId>, RowFault> {
    if store.made() >= 1 << 62 {
        return Err(RowFault::Bad);
    }
    Ok(store.create(class, fields)?)
}

fn put_field(store: &mut Store, id: ObjId, slot: usize, value: Value) -> Option<Value> {
    store.put_field(id, slot, value)
}

fn get_field(store: &Store, id: ObjId, slot: usize) -> Option<&Value> {
    store.get_field(id, slot)
}

fn object_at(store: &Store, at: usize) -> Option<(ObjId, ClassId)> {
    store.object(at)
}

fn idle(store: &Store, alloc: Global, needed: IdSet) -> Result<Vec<ObjId>, AllocError> {
    store.idle(alloc, needed)
}

fn sweep(store: &mut Store, alloc: Global, needed: IdSet) -> Result<Vec<ObjId>, AllocError> {
    store.sweep(alloc, needed)
}

fn put_ids(said: &mut Vec<u8>, ids: &[ObjId]) -> Result<(), RowFault> {
    for id in ids {
        write!(said, "{} ", id.0)?;
    }
    writeln!(said, "in all {}", ids.len())?;
    Ok(())
}
