//! A space for one call.

use crate::serving::has_not_ended;
use sim_worlds::PlayFault;
use sp_board::{Board, Served};
use sp_hall::{Gate, Hall, OpenGate, Peer, start_clock, start_dialler, start_worker};
use sp_links::Host;
use sp_tasks::Outcome;
use sp_world::{CoreFault, StartFault};
use space_ids::Row;
use std::alloc::{AllocError, Global};
use std::thread;
use std::thread::Scope;
use std::time::Duration;

// The words that stand for what was looked up, and for the call.
const FOUND: &str = "found";

const CALLED: &str = "called";

// How often, each 10 ms, is looked whether all has gone out that lets references go.
const LOOKS: u64 = 100;

/// A call to make: of a static method, whose first argument is what a peer has bound to a name.
#[derive(Drop)]
pub struct OneCall {
    /// The name that the peer has bound.
    pub name: String,
    pub class: String,
    /// The method's name and descriptor.
    pub method: String,
    /// The words of its arguments after the first, each a number, an array or `null`.
    pub arguments: Vec<String>,
    pub fuel: u64,
}

/// How a call ended.
#[derive(Drop)]
pub enum Called {
    /// The method or the look-up ended, as this line says; whether the method returned.
    Ended(Vec<u8>, bool),
    /// The space refuses to look the name up, or to start the method.
    Refused(CoreFault),
    /// Memory ran out.
    Memory,
}

/// A space that makes one call, with its peer.
#[derive(Drop)]
pub struct Caller<S> {
    hall: Hall<S, OpenGate>,
    call: OneCall,
}

impl<S: Served + Drop> Caller<S> {
    /// A space to which nothing has happened, which is to make a call of a peer's object.
    /// `AllocError` if memory runs out.
    pub fn new(
        alloc: Global,
        space: S,
        peer: Peer,
        call: OneCall,
    ) -> Result<Caller<S>, AllocError> {
        let mut peers = Vec::new(alloc);
        peers.push(peer)?;
        Ok(Caller {
            hall: Hall::new(alloc, None, space, OpenGate, peers),
            call,
        })
    }
}

/// Makes a call: looks the name up at the peer, and starts the method. Returns how that ended, once its references
/// were let go, or a second has passed. All threads are joined.
pub fn call_on<'x, R: Host, S: Served + Drop + Send>(rt: &'x R, caller: &'x Caller<S>) -> Called
where
    S::Apart: Send,
{
    thread::scope(thread::scope_env(), rt, |scope| {
        start_all(rt, scope, &caller.hall);
        let called = make(rt, &caller.hall, &caller.call);
        let_go(rt, &caller.hall);
        caller.hall.stop(rt);
        called
    })
}

// Starts the threads round the space.
fn start_all<'s, E, R: Host, S: Served + Drop + Send>(
    rt: &'s R,
    scope: &'s Scope<'s, E>,
    hall: &'s Hall<S, OpenGate>,
)
where
    S::Apart: Send,
{
    start_clock(rt, scope, hall);
    start_dialler(rt, scope, hall);
    start_worker(rt, scope, hall);
}

// Makes the call, and returns how it ended.
fn make<R: Host, S: Served + Drop, G: Gate>(rt: &R, hall: &Hall<S, G>, call: &OneCall) -> Called {
    match try_call(rt, hall, call) {
        Ok(called) => called,
        Err(CoreFault::Memory) => Called::Memory,
        Err(fault) => Called::Refused(fault),
    }
}

fn try_call<R: Host, S: Served + Drop, G: Gate>(
    rt: &R,
    hall: &Hall<S, G>,
    call: &OneCall,
) -> Result<Called, CoreFault> {
    let method = look_up(rt, hall, call)?;
    wait_for(rt, hall, FOUND);
    if begin_method(rt, hall, call, method)? {
        wait_for(rt, hall, CALLED);
        ending_of(rt, hall, CALLED)
    } else {
        ending_of(rt, hall, FOUND)
    }
}

// Starts the look-up, and returns the number of the method.
fn look_up<R: Host, S: Served + Drop, G: Gate>(
    rt: &R,
    hall: &Hall<S, G>,
    call: &OneCall,
) -> Result<u32, CoreFault> {
    let Some(peer) = hall.peer_at(Some(0)) else {
        return Err(CoreFault::Strange);
    };
    let name = Row::new(call.name.as_bytes().to_vec(hall.alloc)?);
    let mut guard = hall.board.lock(rt);
    let board = &mut *guard;
    let begun = match board.space.method(&call.class, &call.method) {
        Ok(method) => match board.look_up(rt, FOUND, peer, name) {
            Ok(()) => Ok(method),
            Err(fault) => Err(fault),
        },
        Err(fault) => Err(fault),
    };
    let due = board.take_due();
    drop(guard);
    hall.attend(rt, due);
    begun
}

// Waits until the task of a variable has ended, or serving stops.
fn wait_for<R: Host, S: Served + Drop, G: Gate>(rt: &R, hall: &Hall<S, G>, name: &str) {
    let guard = hall.board.lock(rt);
    let guard = hall.ended.wait_while(rt, guard, |board| {
        !board.is_stopped && has_not_ended(board, name)
    });
    drop(guard);
}

// Starts the method with what was looked up. Returns whether that gave a reference.
fn begin_method<R: Host, S: Served + Drop, G: Gate>(
    rt: &R,
    hall: &Hall<S, G>,
    call: &OneCall,
    method: u32,
) -> Result<bool, CoreFault> {
    let words = words_of(hall.alloc, call)?;
    let mut guard = hall.board.lock(rt);
    let board = &mut *guard;
    if board.reference(FOUND).is_none() {
        return Ok(false);
    }
    let started = match board.variables.values(&words) {
        Ok(arguments) => board.root(rt, CALLED, method, &arguments, call.fuel),
        Err(PlayFault::Memory) => Err(CoreFault::Memory),
        Err(PlayFault::Bad) => Err(CoreFault::Start(StartFault::BadArgument)),
    };
    let due = board.take_due();
    drop(guard);
    hall.attend(rt, due);
    match started {
        Ok(()) => Ok(true),
        Err(fault) => Err(fault),
    }
}

// The words of the arguments, the object first.
fn words_of(alloc: Global, call: &OneCall) -> Result<Vec<&str>, AllocError> {
    let mut words = Vec::new(alloc);
    words.push(FOUND)?;
    for word in &call.arguments {
        words.push(word.as_str())?;
    }
    Ok(words)
}

// How the task of a variable ended, as a line without the variable.
fn ending_of<R: Host, S: Served + Drop, G: Gate>(
    rt: &R,
    hall: &Hall<S, G>,
    name: &str,
) -> Result<Called, CoreFault> {
    let mut guard = hall.board.lock(rt);
    let board = &mut *guard;
    let has_returned = match board.variables.find(name) {
        Some(variable) => match &variable.outcome {
            Some(outcome) => matches!(outcome, Outcome::Returned(_)),
            None => return Err(CoreFault::Memory),
        },
        None => return Err(CoreFault::Memory),
    };
    let line = line_of(hall.alloc, board, name)?;
    Ok(Called::Ended(line, has_returned))
}

// The line of a variable without its name and the blank after that.
fn line_of<S: Served + Drop>(
    alloc: Global,
    board: &mut Board<S>,
    name: &str,
) -> Result<Vec<u8>, AllocError> {
    let _ = board.take_text();
    if board.tell_variable(name).is_err() {
        return Err(AllocError);
    }
    let text = board.take_text();
    match text.strip_prefix(name.as_bytes()) {
        Some([_, line @ ..]) => line.to_vec(alloc),
        _ => Ok(text),
    }
}

// Lets all results go, and waits until what says so has gone out, or for a second.
fn let_go<R: Host, S: Served + Drop, G: Gate>(rt: &R, hall: &Hall<S, G>) {
    let mut guard = hall.board.lock(rt);
    let board = &mut *guard;
    board.let_go(rt);
    let due = board.take_due();
    drop(guard);
    hall.attend(rt, due);
    for _ in 0..LOOKS {
        if has_sent_all(rt, hall) {
            return;
        }
        thread::sleep(rt, Duration::from_millis(10));
    }
}

// Whether each frame that the space gave has gone out.
fn has_sent_all<R: Host, S: Served + Drop, G: Gate>(rt: &R, hall: &Hall<S, G>) -> bool {
    let guard = hall.board.lock(rt);
    let links = guard.links.all();
    drop(guard);
    let Ok(links) = links else {
        return true;
    };
    for link in links {
        if link.unsent(rt) > 0 {
            return false;
        }
    }
    true
}
