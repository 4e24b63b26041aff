//! What bench/leases measures. The first argument is a scenario of the client's leases, of the
//! owner's reference lists or of its names, and the second its size; the third says how many events
//! touch one reference or one name, or how many moments come. Prints how many calls were answered. Without arguments it
//! runs each scenario at a small size.
#![tactic(auto)]

use dgc_client::{Clients, ForeignId};
use dgc_list::RefList;
use sp_registry::{BindFault, Registry};
use space_ids::ObjId;
use std::alloc::{AllocError, Global};
use std::process::ExitCode;
use std::rt::Env;
use std::{env, io};
use uuid::Uuid;

fn main(rt: HostRuntime) -> ExitCode {
    let Ok(words) = words_of(&rt) else {
        return ExitCode::FAILURE;
    };
    let answered = match answers_of(rt.alloc(), words) {
        Ok(answered) => answered,
        Err(AllocError) => return ExitCode::FAILURE,
    };
    match println!(rt; "{answered}") {
        Ok(()) => ExitCode::SUCCESS,
        Err(_) => ExitCode::FAILURE,
    }
}

/// What is measured.
#[derive(Clone, Copy)]
enum Scenario {
    /// References are held, one an event.
    Held,
    /// References are held and leased, and events touch one of them each.
    Touched,
    /// References are held and leased, and moments come before a lease is half over.
    Moments,
    /// `size` clients of one object come and go.
    Clients,
    /// One client renews its lease of one object with two periods in turn.
    Renewals,
    /// One client's leases of `size` objects end at one moment.
    Ends,
    /// `size` objects have as many clients each as there are events.
    Entries,
    /// `size` objects have one client each, and each event copies the lists.
    Copies,
    /// `size` names are bound, and each event unbinds, binds, rebinds and looks up one of them.
    Names,
    /// Each of these.
    All,
}

fn scenario_of(word: &str) -> Scenario {
    match word {
        "held" => Scenario::Held,
        "touched" => Scenario::Touched,
        "moments" => Scenario::Moments,
        "clients" => Scenario::Clients,
        "renewals" => Scenario::Renewals,
        "ends" => Scenario::Ends,
        "entries" => Scenario::Entries,
        "copies" => Scenario::Copies,
        "names" => Scenario::Names,
        _ => Scenario::All,
    }
}

/// What the arguments say.
#[derive(Clone, Copy)]
struct Words {
    scenario: Scenario,
    size: u64,
    events: u64,
}

fn words_of<R: Env + AllocGlobal>(rt: &R) -> io::Result<Words> {
    let mut words = env::args(rt)?.skip(1);
    let scenario = match words.next() {
        Some(word) => scenario_of(word.as_str()),
        None => Scenario::All,
    };
    let size = match words.next() {
        Some(word) => word.parse::<u64>().unwrap_or(0),
        None => 10,
    };
    let events = match words.next() {
        Some(word) => word.parse::<u64>().unwrap_or(0),
        None => 10,
    };
    Ok(Words {
        scenario,
        size,
        events,
    })
}

fn answers_of(alloc: Global, words: Words) -> Result<u64, AllocError> {
    match words.scenario {
        Scenario::Held => held(alloc, words.size),
        Scenario::Touched => touched(alloc, words.size, words.events),
        Scenario::Moments => moments(alloc, words.size, words.events),
        Scenario::Clients => clients(alloc, words.size),
        Scenario::Renewals => renewals(alloc, words.size),
        Scenario::Ends => ends(alloc, words.size),
        Scenario::Entries => entries(alloc, words.size, words.events),
        Scenario::Copies => copies(alloc, words.size, words.events),
        Scenario::Names => names(alloc, words.size, words.events),
        Scenario::All => all(alloc, words.size),
    }
}

fn all(alloc: Global, size: u64) -> Result<u64, AllocError> {
    let leases = held(alloc, size)?
        .wrapping_add(touched(alloc, size, size)?)
        .wrapping_add(moments(alloc, size, size)?);
    let lists = clients(alloc, size)?
        .wrapping_add(renewals(alloc, size)?)
        .wrapping_add(names(alloc, size, size)?);
    let entries = ends(alloc, size)?
        .wrapping_add(entries(alloc, size, size)?)
        .wrapping_add(copies(alloc, size, size)?);
    Ok(leases.wrapping_add(lists).wrapping_add(entries))
}

fn reference(id: u64) -> ForeignId {
    ForeignId {
        space: Uuid::from_u64_pair(0, 7),
        id: ObjId(id),
    }
}

// Makes, sends and answers all that is due. Returns how many groups that were.
fn settle(clients: &mut Clients, alloc: Global) -> Result<u64, AllocError> {
    let groups = clients.due(alloc)?;
    for group in &groups {
        clients.made(group, 1);
        let _ = clients.sent(group, 1);
        clients.dirty_answered(group, 1, 600_000);
        clients.clean_answered(group, 1);
    }
    Ok(groups.len() as u64)
}

fn held(alloc: Global, size: u64) -> Result<u64, AllocError> {
    let mut clients = Clients::new(alloc);
    let mut answered: u64 = 0;
    for id in 0..size {
        clients.hold(&reference(id))?;
        answered = answered.wrapping_add(settle(&mut clients, alloc)?);
    }
    Ok(answered)
}

// Holds `size` references, and leases them. Returns how many groups that were.
fn lease_all(clients: &mut Clients, alloc: Global, size: u64) -> Result<u64, AllocError> {
    for id in 0..size {
        clients.hold(&reference(id))?;
    }
    settle(clients, alloc)
}

fn touched(alloc: Global, size: u64, events: u64) -> Result<u64, AllocError> {
    let mut clients = Clients::new(alloc);
    let mut answered = lease_all(&mut clients, alloc, size)?;
    for event in 0..events {
        let one = reference(event % size.max(1));
        clients.drop_holder(&one);
        answered = answered.wrapping_add(settle(&mut clients, alloc)?);
        clients.hold(&one)?;
        answered = answered.wrapping_add(settle(&mut clients, alloc)?);
    }
    Ok(answered)
}

// What a space asks and tells at a moment.
fn pass(clients: &mut Clients, alloc: Global, moment: u64) -> Result<u64, AllocError> {
    let renewals = clients.renewals(alloc, moment)?.len();
    let lapsed = clients.lapsed(alloc, moment)?.len();
    clients.moment(moment);
    let groups = settle(clients, alloc)?;
    Ok(
        groups
            .wrapping_add(renewals as u64)
            .wrapping_add(lapsed as u64),
    )
}

fn moments(alloc: Global, size: u64, events: u64) -> Result<u64, AllocError> {
    let mut clients = Clients::new(alloc);
    let mut answered = lease_all(&mut clients, alloc, size)?;
    for moment in 0..events {
        answered = answered.wrapping_add(pass(&mut clients, alloc, moment)?);
    }
    Ok(answered)
}

fn client(number: u64) -> Uuid {
    Uuid::from_u64_pair(1, number)
}

// `size` clients of one object come and go. Returns how many came, without those that stay.
fn clients(alloc: Global, size: u64) -> Result<u64, AllocError> {
    let mut list = RefList::new(alloc);
    let mut came: u64 = 0;
    for number in 0..size {
        let granted = list.dirty(&client(number), &[ObjId(1)], 1, 600_000)?;
        came = came.wrapping_add(u64::from(granted == 600_000));
    }
    for number in 0..size {
        list.clean(&client(number), &[ObjId(1)], 2, false)?;
    }
    Ok(came.wrapping_sub(list.clients_of(alloc, ObjId(1))?.len() as u64))
}

// A client renews its lease of one object `size` times, for two periods in turn. Returns how many were granted.
fn renewals(alloc: Global, size: u64) -> Result<u64, AllocError> {
    let mut list = RefList::new(alloc);
    let mut granted: u64 = 0;
    for number in 0..size {
        let period = if number % 2 == 0 { 600_000 } else { 1000 };
        let told = list.dirty(&client(0), &[ObjId(1)], number + 1, period)?;
        granted = granted.wrapping_add(u64::from(told == period));
    }
    Ok(granted)
}

// The leases of `size` objects end at one moment. Returns how many ended.
fn ends(alloc: Global, size: u64) -> Result<u64, AllocError> {
    let mut list = RefList::new(alloc);
    for id in 0..size {
        list.dirty(&client(0), &[ObjId(id)], 1, 600_000)?;
    }
    list.moment(600_000);
    let ended = (0..size).filter(|id| list.entry(&client(0), ObjId(*id)).is_none());
    Ok(ended.count() as u64)
}

// `size` objects get as many clients each. Returns how many entries the last of them has.
fn entries(alloc: Global, size: u64, clients: u64) -> Result<u64, AllocError> {
    let mut list = RefList::new(alloc);
    for number in 0..clients {
        for id in 0..size {
            list.dirty(&client(number), &[ObjId(id)], 1, 600_000)?;
        }
    }
    Ok(list.entries_of(ObjId(size.saturating_sub(1))) as u64)
}

// `size` objects get one client each, and the lists are copied. Returns how many copies have the entry of the
// first object.
fn copies(alloc: Global, size: u64, copies: u64) -> Result<u64, AllocError> {
    let mut list = RefList::new(alloc);
    for id in 0..size {
        list.dirty(&client(id), &[ObjId(id)], 1, 600_000)?;
    }
    let mut same: u64 = 0;
    for _ in 0..copies {
        let copy = list.copy()?;
        same = same.wrapping_add(copy.entries_of(ObjId(0)) as u64);
    }
    Ok(same)
}

// Binds `size` names, and then unbinds and binds one of them again, rebinds it and looks it up.
// Returns how often a name was found.
fn names(alloc: Global, size: u64, events: u64) -> Result<u64, AllocError> {
    let mut names = Registry::new(alloc)?;
    for index in 0..size {
        let name = format!(in alloc; "name.{index}")?;
        changed(names.bind(name.as_bytes(), Some(ObjId(index))))?;
    }
    let mut found: u64 = 0;
    for event in 0..events {
        let name = format!(in alloc; "name.{}", event.wrapping_mul(7919) % size.max(1))?;
        found = found.wrapping_add(touch(&mut names, name.as_bytes(), ObjId(event))?);
    }
    Ok(found)
}

// Unbinds a name, binds it, rebinds it and looks it up. Returns how often it was found.
fn touch(names: &mut Registry, name: &[u8], object: ObjId) -> Result<u64, AllocError> {
    let was_bound = names.unbind(name).is_ok();
    changed(names.bind(name, Some(object)))?;
    changed(names.rebind(name, Some(ObjId(1))))?;
    let is_found = names.lookup(name).is_some() && names.count_of(ObjId(1)) > 0;
    Ok(u64::from(was_bound).wrapping_add(u64::from(is_found)))
}

// A change that is denied is none; out of memory it is an error.
fn changed(change: Result<(), BindFault>) -> Result<(), AllocError> {
    match change {
        Err(BindFault::Memory) => Err(AllocError),
        _ => Ok(()),
    }
}
