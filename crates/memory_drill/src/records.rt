//! Names, reference lists and leases.

use super::Tally;
use dgc_client::{Clients, Due, ForeignId, Group};
use dgc_list::RefList;
use sp_registry::{BindFault, Registry};
use space_ids::ObjId;
use std::alloc::{AllocError, Global};
use uuid::Uuid;

// Binds `a` and `b`, and then `b` and `c` whether they are bound or not.
fn names(alloc: Global, tally: &mut Tally) -> Result<(), AllocError> {
    let mut made = Registry::new(alloc);
    if made.is_err() {
        tally.replace(&mut made, Registry::new(alloc));
    }
    let mut names = made?;
    for (name, object) in [(b"a", 1), (b"b", 2)] {
        let mut answer = names.bind(name, Some(ObjId(object)));
        if answer == Err(BindFault::Memory) {
            tally.replace(&mut answer, names.bind(name, Some(ObjId(object))));
        }
        tally.answer(answer == Ok(()));
    }
    for (name, object) in [(b"b", 3), (b"c", 4)] {
        let mut answer = names.rebind(name, Some(ObjId(object)));
        if answer == Err(BindFault::Memory) {
            tally.replace(&mut answer, names.rebind(name, Some(ObjId(object))));
        }
        tally.answer(answer == Ok(()));
    }
    let owed = [(b"a", 1), (b"b", 3), (b"c", 4)];
    tally.answer(names.list().len() == owed.len() && names.count_of(ObjId(3)) == 1);
    for (binding, (name, object)) in names.list().zip(owed) {
        tally.answer(binding.name.is(name) && binding.object == ObjId(object));
    }
    Ok(())
}

const OBJECTS: [ObjId; 2] = [ObjId(1), ObjId(2)];

// Dirty calls of two clients, and a strong clean call of the first.
fn lists(alloc: Global, tally: &mut Tally) {
    let mut list = RefList::new(alloc);
    let [first, second] = [Uuid::from_u64_pair(0, 1), Uuid::from_u64_pair(0, 2)];
    for client in [first, second] {
        let mut answer = list.dirty(&client, &OBJECTS, 1, 100);
        if answer.is_err() {
            tally.replace(&mut answer, list.dirty(&client, &OBJECTS, 1, 100));
        }
        tally.answer(answer == Ok(100));
    }
    // Object 3 has no clients, and the call's number is kept all the same.
    for object in [ObjId(1), ObjId(3)] {
        let mut answer = list.clean(&first, &[object], 2, true);
        if answer.is_err() {
            tally.replace(&mut answer, list.clean(&first, &[object], 2, true));
        }
        tally.answer(answer.is_ok());
    }
    for (object, owed) in [(1, [second].as_slice()), (2, &[first, second]), (3, &[])] {
        let mut answer = list.clients_of(alloc, ObjId(object));
        if answer.is_err() {
            tally.replace(&mut answer, list.clients_of(alloc, ObjId(object)));
        }
        let is_right = match answer {
            Ok(clients) => clients.as_slice() == owed,
            Err(_) => false,
        };
        tally.answer(is_right);
    }
}

// Three references of two spaces are held, each once: two dirty calls are due.
fn leases(alloc: Global, tally: &mut Tally) {
    let mut clients = Clients::new(alloc);
    for (space, object) in [(1, 1), (2, 1), (1, 2)] {
        let reference = ForeignId {
            space: Uuid::from_u64_pair(0, space),
            id: ObjId(object),
        };
        let mut answer = clients.hold(&reference);
        if answer.is_err() {
            tally.replace(&mut answer, clients.hold(&reference));
        }
        tally.answer(answer.is_ok() && clients.lease(&reference).holders == 1);
    }
    let mut answer = clients.due(alloc);
    if answer.is_err() {
        tally.replace(&mut answer, clients.due(alloc));
    }
    match answer {
        Ok(groups) => compare_groups(&groups, tally),
        Err(_) => tally.answer(false),
    }
}

// The groups that are owed: one for each of the two spaces.
fn compare_groups(groups: &[Group], tally: &mut Tally) {
    tally.answer(groups.len() == 2);
    for (group, (space, ids)) in groups
        .iter()
        .zip([(1, [ObjId(1), ObjId(2)].as_slice()), (2, &[ObjId(1)])])
    {
        tally.answer(group.peer == Uuid::from_u64_pair(0, space));
        tally.answer(group.kind == Due::Dirty && group.ids.as_slice() == ids);
    }
}

/// Plays names, reference lists and leases.
pub fn play(alloc: Global, tally: &mut Tally) -> Result<(), AllocError> {
    names(alloc, tally)?;
    lists(alloc, tally);
    leases(alloc, tally);
    Ok(())
}
