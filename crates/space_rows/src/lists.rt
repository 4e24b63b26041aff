//! Calls of an owner's reference lists.

use super::parts::{number_of, objects};
use super::plain;
use dgc_list::RefList;
use space_ids::{ObjId, Uuid};
use std::alloc::{AllocError, Global};
use std::io::Write;
use test_rows::{RowFault, number, object, one_number, one_word, space};

/// Plays a call, and prints what it answers.
pub fn play(
    list: &mut RefList,
    alloc: Global,
    said: &mut Vec<u8>,
    call: &str,
    words: &[&str],
) -> Result<(), RowFault> {
    match call {
        "dirty" => put_granted(list, alloc, said, words),
        "clean" => take_clean(list, alloc, words),
        "entries" => put_entries(list, said, words),
        "until" => put_until(list, said, words),
        "clients" => put_clients(list, alloc, said, words),
        _ => take(list, alloc, said, call, words),
    }
}

fn put_granted(
    list: &mut RefList,
    alloc: Global,
    said: &mut Vec<u8>,
    words: &[&str],
) -> Result<(), RowFault> {
    let [of, ids, count, period] = words else {
        return Err(RowFault::Bad);
    };
    let ids = objects(alloc, ids)?;
    let granted = dirty(list, &space(of)?, &ids, number(count)?, number(period)?)?;
    writeln!(said, "granted {granted}")?;
    Ok(())
}

fn take_clean(list: &mut RefList, alloc: Global, words: &[&str]) -> Result<(), RowFault> {
    let ([of, ids, count] | [of, ids, count, "strong"]) = words else {
        return Err(RowFault::Bad);
    };
    let ids = objects(alloc, ids)?;
    Ok(clean(list, &space(of)?, &ids, number(count)?, words.len() == 4)?)
}

fn put_entries(list: &RefList, said: &mut Vec<u8>, words: &[&str]) -> Result<(), RowFault> {
    writeln!(said, "{}", entries(list, object(one_word(words)?)?))?;
    Ok(())
}

fn put_until(list: &RefList, said: &mut Vec<u8>, words: &[&str]) -> Result<(), RowFault> {
    let [of, id] = words else {
        return Err(RowFault::Bad);
    };
    writeln!(said, "{:?}", until(list, &space(of)?, object(id)?))?;
    Ok(())
}

fn put_clients(
    list: &RefList,
    alloc: Global,
    said: &mut Vec<u8>,
    words: &[&str],
) -> Result<(), RowFault> {
    put_spaces(said, &clients(list, alloc, object(one_word(words)?)?)?)
}

fn take(
    list: &mut RefList,
    alloc: Global,
    said: &mut Vec<u8>,
    call: &str,
    words: &[&str],
) -> Result<(), RowFault> {
    let number = one_number(words)?;
    match call {
        "forget" => {
            list.forget(ObjId(number));
            Ok(())
        }
        "moment" => pass(list, number),
        "compare" => plain::compare(alloc, said, number),
        _ => Err(RowFault::Bad),
    }
}

// What the calls of the list answer. These functions promise nothing, so that a row is proved at once.
pub fn dirty(
    list: &mut RefList,
    client: &Uuid,
    ids: &[ObjId],
    number: u64,
    period: u64,
) -> Result<u64, AllocError> {
    list.dirty(client, ids, number, period)
}

pub fn clean(
    list: &mut RefList,
    client: &Uuid,
    ids: &[ObjId],
    number: u64,
    strong: bool,
) -> Result<(), AllocError> {
    list.clean(client, ids, number, strong)
}

pub fn pass(list: &mut RefList, moment: u64) -> Result<(), RowFault> {
    if moment >= 1 << 63 {
        return Err(RowFault::Bad);
    }
    list.moment(moment);
    Ok(())
}

pub fn until(list: &RefList, client: &Uuid, id: ObjId) -> Option<u64> {
    list.entry(client, id)
}

fn entries(list: &RefList, id: ObjId) -> usize {
    list.entries_of(id)
}

fn clients(list: &RefList, alloc: Global, id: ObjId) -> Result<Vec<Uuid>, AllocError> {
    list.clients_of(alloc, id)
}

fn put_spaces(said: &mut Vec<u8>, clients: &[Uuid]) -> Result<(), RowFault> {
    for client in clients {
        write!(said, "{} ", number_of(client))?;
    }
    writeln!(said, "in all {}", clients.len())?;
    Ok(())
}
