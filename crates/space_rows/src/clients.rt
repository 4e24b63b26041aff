//! Calls of all leases of a client.

use super::parts::number_of;
use dgc_client::{ClientLease, Clients, ForeignId, Group};
use space_ids::ObjId;
use std::alloc::{AllocError, Global};
use std::io::Write;
use test_rows::{RowFault, index, number, object, one_number, space, space_of};

// How many objects a frame of version 1 names at most.
const MOST_IDS: usize = 1_024;

/// Plays a call, and prints what it answers.
pub fn play(
    clients: &mut Clients,
    alloc: Global,
    said: &mut Vec<u8>,
    call: &str,
    words: &[&str],
) -> Result<(), RowFault> {
    match call {
        "due" => put_due(clients, alloc, said, words),
        "settle" => settle(clients, alloc, said, words),
        "fail" => fail(clients, alloc, words),
        "many" => Ok(hold_many(clients, one_number(words)?)?),
        "renewals" | "lapsed" => put_leases(clients, alloc, said, call, words),
        "lease" => put_lease(said, &lease(clients, &reference(words)?)),
        "last" => put_last(clients, said, words),
        "moment" => {
            clients.moment(one_number(words)?);
            Ok(())
        }
        "hold" => Ok(clients.hold(&reference(words)?)?),
        "drop" => {
            clients.drop_holder(&reference(words)?);
            Ok(())
        }
        _ => Err(RowFault::Bad),
    }
}

fn reference(words: &[&str]) -> Result<ForeignId, RowFault> {
    let [of, id] = words else {
        return Err(RowFault::Bad);
    };
    Ok(ForeignId {
        space: space(of)?,
        id: object(id)?,
    })
}

fn hold_many(clients: &mut Clients, count: u64) -> Result<(), AllocError> {
    for id in 0..count {
        clients.hold(&ForeignId {
            space: space_of(7),
            id: ObjId(id),
        })?;
    }
    Ok(())
}

// What the calls of the clients answer. These functions promise nothing, so that a row is proved at once.
fn due(clients: &mut Clients, alloc: Global) -> Result<Vec<Group>, AllocError> {
    clients.due(alloc)
}

fn renewals(clients: &Clients, alloc: Global, moment: u64) -> Result<Vec<ForeignId>, AllocError> {
    clients.renewals(alloc, moment)
}

fn lapsed(clients: &Clients, alloc: Global, moment: u64) -> Result<Vec<ForeignId>, AllocError> {
    clients.lapsed(alloc, moment)
}

fn lease(clients: &Clients, reference: &ForeignId) -> ClientLease {
    clients.lease(reference)
}

fn parts(group: &Group, alloc: Global, most: usize) -> Result<Vec<Group>, AllocError> {
    // No frame names no object.
    group.parts(alloc, most.max(1))
}

fn settle(
    clients: &mut Clients,
    alloc: Global,
    said: &mut Vec<u8>,
    words: &[&str],
) -> Result<(), RowFault> {
    let (period, most) = match words {
        [period] => (number(period)?, MOST_IDS),
        [period, most] => (number(period)?, index(most)?),
        _ => return Err(RowFault::Bad),
    };
    for group in &due(clients, alloc)? {
        clients.made(group, 1);
        for part in &parts(group, alloc, most)? {
            put_group(said, part)?;
            writeln!(said, ", under {:?}", answer(clients, part, period))?;
        }
    }
    Ok(())
}

// Sends a part and answers it. Returns the number under which it went out.
fn answer(clients: &mut Clients, part: &Group, period: u64) -> Option<u64> {
    let number = clients.sent(part, 1);
    clients.dirty_answered(part, 1, period);
    clients.clean_answered(part, 1);
    number
}

fn fail(clients: &mut Clients, alloc: Global, words: &[&str]) -> Result<(), RowFault> {
    let [at, of] = words else {
        return Err(RowFault::Bad);
    };
    fail_due(clients, alloc, index(at)?, number(of)?)
}

fn fail_due(clients: &mut Clients, alloc: Global, at: usize, of: u64) -> Result<(), RowFault> {
    match due(clients, alloc)?.get(at) {
        Some(group) => {
            fail_group(clients, group, of);
            Ok(())
        }
        None => Err(RowFault::Bad),
    }
}

fn fail_group(clients: &mut Clients, group: &Group, of: u64) {
    clients.made(group, of);
    clients.dirty_failed(group, of);
    clients.clean_failed(group, of);
}

fn put_due(
    clients: &mut Clients,
    alloc: Global,
    said: &mut Vec<u8>,
    words: &[&str],
) -> Result<(), RowFault> {
    if !words.is_empty() {
        return Err(RowFault::Bad);
    }
    put_groups(said, &due(clients, alloc)?)
}

fn put_leases(
    clients: &Clients,
    alloc: Global,
    said: &mut Vec<u8>,
    call: &str,
    words: &[&str],
) -> Result<(), RowFault> {
    let moment = one_number(words)?;
    if call == "lapsed" {
        put_references(said, &lapsed(clients, alloc, moment)?)
    } else {
        put_references(said, &renewals(clients, alloc, moment)?)
    }
}

fn put_groups(said: &mut Vec<u8>, groups: &[Group]) -> Result<(), RowFault> {
    if groups.is_empty() {
        writeln!(said, "none")?;
    }
    for group in groups {
        put_group(said, group)?;
        writeln!(said)?;
    }
    Ok(())
}

// Prints the kind, the peer and the first objects of a group, and how many objects it has.
fn put_group(said: &mut Vec<u8>, group: &Group) -> Result<(), RowFault> {
    write!(said, "{:?} to {}:", group.kind, number_of(&group.peer))?;
    for id in group.ids.as_slice().iter().take(4) {
        write!(said, " {}", id.0)?;
    }
    write!(said, ", in all {}", group.ids.as_slice().len())?;
    Ok(())
}

fn put_references(said: &mut Vec<u8>, references: &[ForeignId]) -> Result<(), RowFault> {
    for reference in references {
        write!(said, "{}:{} ", number_of(&reference.space), reference.id.0)?;
    }
    writeln!(said, "in all {}", references.len())?;
    Ok(())
}

fn put_lease(said: &mut Vec<u8>, lease: &ClientLease) -> Result<(), RowFault> {
    let has = if lease.lease.is_some() {
        "a lease"
    } else {
        "no lease"
    };
    writeln!(
        said,
        "{has}, {} holders, moment {}",
        lease.holders, lease.moment
    )?;
    Ok(())
}

fn put_last(clients: &Clients, said: &mut Vec<u8>, words: &[&str]) -> Result<(), RowFault> {
    if !words.is_empty() {
        return Err(RowFault::Bad);
    }
    writeln!(said, "{}", clients.last_number())?;
    Ok(())
}
