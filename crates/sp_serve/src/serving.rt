//! Serving a space from its first line to the last.

use crate::input::{Ending, obey_all};
use sim_worlds::PlayFault;
use sp_board::{Board, Fault, Served};
use sp_hall::{
    Gate, Hall, Peer, start_acceptor, start_clock, start_dialler, start_printer, start_worker,
};
use sp_links::Host;
use sp_world::{CoreFault, Event};
use space_ids::Row;
use std::alloc::{AllocError, Global};
use std::io::{BufRead, Write};
use std::net::{Ipv4Addr, SocketAddr, TcpListener, TcpStream};
use std::sync::Mutex;
use std::thread::Scope;
use std::time::Duration;
use std::{io, thread};

/// An object that is bound before the input is read: a static method without arguments makes it.
#[derive(Drop)]
pub struct Bound {
    pub name: String,
    pub class: String,
    /// The method's name and descriptor.
    pub method: String,
}

/// What a space is served with.
#[derive(Drop)]
pub struct Plan {
    pub bound: Vec<Bound>,
    pub peers: Vec<Peer>,
    /// How many workers run its tasks, 1 to 16.
    pub workers: usize,
    /// The fuel of the methods that make bound objects.
    pub fuel: u64,
}

/// Listens at an address, as `127.0.0.1:4000`.
pub fn open<R: Host>(rt: &R, address: &str) -> io::Result<TcpListener> {
    TcpListener::bind(rt, address)
}

/// A space that is served, with what it is served with, and where its lines go.
#[derive(Drop)]
pub struct Station<S, G, O> {
    hall: Hall<S, G>,
    out: Mutex<O>,
    bound: Vec<Bound>,
    workers: usize,
    fuel: u64,
}

impl<S: Served + Drop, G: Gate, O> Station<S, G, O> {
    /// A space to which nothing has happened, at a listener. `gate` holds its workers back; its lines go to `out`.
    pub fn new(
        alloc: Global,
        listener: TcpListener,
        space: S,
        plan: Plan,
        gate: G,
        out: O,
    ) -> Station<S, G, O> {
        let Plan {
            bound,
            peers,
            workers,
            fuel,
        } = plan;
        Station {
            hall: Hall::new(alloc, Some(listener), space, gate, peers),
            out: Mutex::new(out),
            bound,
            workers,
            fuel,
        }
    }
}

/// Serves a space at its listener, until the input ends. Returns the status: 0, or 3 if a line is bad, a read of the
/// input fails, an object that is to be bound cannot be made, memory ran out, or the output failed. All threads are
/// joined.
///
/// The output gets a line for the address, for each object that is bound, for each that is withdrawn, and for each
/// root and look-up of the input as it ends; `err` what is wrong.
pub fn serve_on<
    'x,
    R: Host,
    S: Served + Drop + Send,
    G: Gate + Drop + Sync,
    I: BufRead,
    O: Write + Send + Drop,
    E: Write,
>(rt: &'x R, station: &'x Station<S, G, O>, input: &mut I, err: &mut E) -> u8
where
    S::Apart: Send,
{
    let hall = &station.hall;
    let ending = thread::scope(thread::scope_env(), rt, |scope| {
        start_all(rt, scope, station);
        let ending = obey_plan(rt, station, input);
        hall.stop(rt);
        wake_acceptor(rt, hall);
        ending
    });
    status(rt, hall, ending, err)
}

// Starts the threads round the space, apart from the closure of the scope: a search in that reaches its limits.
fn start_all<
    's,
    E,
    R: Host,
    S: Served + Drop + Send,
    G: Gate + Drop + Sync,
    O: Write + Send + Drop,
>(rt: &'s R, scope: &'s Scope<'s, E>, station: &'s Station<S, G, O>)
where
    S::Apart: Send,
{
    let hall = &station.hall;
    start_printer(rt, scope, hall, &station.out);
    start_clock(rt, scope, hall);
    start_acceptor(rt, scope, hall);
    start_dialler(rt, scope, hall);
    for _ in 0..station.workers {
        start_worker(rt, scope, hall);
    }
}

// Tells the address, binds what is to be bound, and obeys the input.
fn obey_plan<R: Host, S: Served + Drop, G: Gate, O, I: BufRead>(
    rt: &R,
    station: &Station<S, G, O>,
    input: &mut I,
) -> Ending {
    let hall = &station.hall;
    if tell_address(rt, hall).is_err() {
        return Ending::Memory;
    }
    for object in &station.bound {
        match bind(rt, hall, object, station.fuel) {
            Ok(true) => {}
            Ok(false) => return Ending::Unbound,
            Err(_) => return Ending::Memory,
        }
    }
    hall.board.lock(rt).tell_ends();
    obey_all(rt, hall, station.fuel, input)
}

fn tell_address<R: Host, S: Served + Drop, G: Gate>(
    rt: &R,
    hall: &Hall<S, G>,
) -> Result<(), PlayFault> {
    let Some(address) = address_of(hall) else {
        return Ok(());
    };
    let mut line = Vec::new(hall.alloc);
    writeln!(line, "listening {address}")?;
    hall.board.lock(rt).tell(&line)?;
    hall.print.notify_one();
    Ok(())
}

// Makes an object by its method, and binds it. Returns whether it is bound; if it is not, what came of the method is
// told.
fn bind<R: Host, S: Served + Drop, G: Gate>(
    rt: &R,
    hall: &Hall<S, G>,
    bound: &Bound,
    fuel: u64,
) -> Result<bool, PlayFault> {
    if !begin_export(rt, hall, bound, fuel)? {
        return Ok(false);
    }
    let guard = hall.board.lock(rt);
    let mut guard = hall.ended.wait_while(rt, guard, |board| {
        !board.is_stopped && has_not_ended(board, &bound.name)
    });
    let board = &mut *guard;
    let is_bound = end_export(rt, hall.alloc, board, &bound.name)?;
    let due = board.take_due();
    drop(guard);
    hall.attend(rt, due);
    Ok(is_bound)
}

// Starts the method that makes an object. Returns whether it started.
fn begin_export<R: Host, S: Served + Drop, G: Gate>(
    rt: &R,
    hall: &Hall<S, G>,
    bound: &Bound,
    fuel: u64,
) -> Result<bool, PlayFault> {
    let mut guard = hall.board.lock(rt);
    let board = &mut *guard;
    let started = match board.space.method(&bound.class, &bound.method) {
        Ok(method) => board.root(rt, &bound.name, method, &[], fuel),
        Err(fault) => Err(fault),
    };
    let due = board.take_due();
    drop(guard);
    hall.attend(rt, due);
    match started {
        Ok(()) => Ok(true),
        Err(CoreFault::Memory) => Err(PlayFault::Memory),
        Err(_) => Ok(false),
    }
}

/// Whether the task of a variable goes on.
pub(crate) fn has_not_ended<S: Served + Drop>(board: &Board<S>, name: &str) -> bool {
    match board.variables.find(name) {
        Some(variable) => variable.outcome.is_none(),
        None => false,
    }
}

// Binds the object that the task of a variable returned, and lets its result go. Returns whether it returned one, and the
// space took the name.
fn end_export<R: Host, S: Served + Drop>(
    rt: &R,
    alloc: Global,
    board: &mut Board<S>,
    name: &str,
) -> Result<bool, PlayFault> {
    let Some(value) = board.reference(name) else {
        board.tell_variable(name)?;
        return Ok(false);
    };
    let word = Row::new(name.as_bytes().to_vec(alloc)?);
    match board.on(rt, &Event::Bind { name: word, value }) {
        Ok(()) => {}
        Err(CoreFault::Memory) => return Err(PlayFault::Memory),
        Err(_) => return Ok(false),
    }
    if let Some(variable) = board.variables.find(name) {
        let task = variable.key.task;
        let _ = board.on(rt, &Event::RootAck(task));
    }
    board.tell(b"bound ")?;
    board.tell(name.as_bytes())?;
    board.tell(b"\n")?;
    Ok(true)
}

// Wakes the thread that accepts by a connection of our own: a listener has no other way out.
fn wake_acceptor<R: Host, S: Served + Drop, G: Gate>(rt: &R, hall: &Hall<S, G>) {
    let Some(address) = address_of(hall) else {
        return;
    };
    let mut own = address;
    if own.ip().is_unspecified() {
        own.set_ip(Ipv4Addr::LOCALHOST.into());
    }
    let _ = TcpStream::connect_timeout(rt, &own, Duration::from_secs(1));
}

// Where the space listens.
fn address_of<S: Served + Drop, G: Gate>(hall: &Hall<S, G>) -> Option<SocketAddr> {
    match &hall.listener {
        Some(listener) => listener.local_addr().ok(),
        None => None,
    }
}

// The status, and what went wrong on standard error.
fn status<R: Host, S: Served + Drop, G: Gate, E: Write>(
    rt: &R,
    hall: &Hall<S, G>,
    ending: Ending,
    err: &mut E,
) -> u8 {
    let fault = hall.board.lock(rt).fault;
    match (ending, fault) {
        (Ending::BadLine(number), _) => {
            let _ = writeln!(err, "line {number}: bad");
            3
        }
        (Ending::Unreadable, _) => {
            let _ = writeln!(err, "cannot read standard input");
            3
        }
        (Ending::Memory, _) | (_, Some(Fault::Memory)) => {
            let _ = writeln!(err, "no memory");
            3
        }
        (Ending::Unbound, _) | (_, Some(Fault::Output)) => 3,
        (Ending::Done, None) => 0,
    }
}
