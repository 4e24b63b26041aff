//! Connections: they are accepted and dialled, and each has a reading and a writing thread.

use crate::Gate;
use crate::hall::Hall;
use crate::working::{compute, run_task};
use dev_io::StdSource;
use net_message::Message;
use sp_board::{Advance, Fault, Served};
use sp_inflow::{Arrival, Arrivals};
use sp_links::{Host, Link};
use sp_world::Event;
use space_ids::Uuid;
use std::alloc::AllocError;
use std::io::{BufReader, Read};
use std::net::TcpStream;
use std::sync::Arc;
use std::thread::{Scope, sleep};
use std::time::Duration;

// How often a reading thread lets a task compute more before it leaves it to the workers.
const ROUNDS: usize = 1;

// How long a dial may take, in seconds.
const DIALLING: u64 = 5;

// How long a write may take, in seconds, before it has failed.
const WRITING: u64 = 30;

// The socket of a connection as its reading thread has it.
#[derive(Drop)]
struct Incoming(Arc<Link>);

impl Read for Incoming {
    fn read(&mut self, buffer: &mut [u8]) -> std::io::Result<usize> {
        (&self.0.stream).read(buffer)
    }
}

/// Enters the connections that others make, until serving stops.
pub(crate) fn accept_all<'s, E, R: Host, S: Served + Drop + Send, G: Gate + Sync>(
    rt: &'s R,
    scope: &'s Scope<'s, E>,
    hall: &'s Hall<S, G>,
)
where
    S::Apart: Send,
{
    let Some(listener) = &hall.listener else {
        return;
    };
    for stream in listener.incoming() {
        if hall.board.lock(rt).is_stopped {
            return;
        }
        match stream {
            Ok(stream) => enter(rt, scope, hall, stream, None),
            Err(_) => sleep(rt, Duration::from_millis(10)),
        }
    }
}

/// Dials the peers that the space asks for, each in a thread of its own, and enters the connections that come of it,
/// until serving stops.
pub(crate) fn dial_all<'s, E, R: Host, S: Served + Drop + Send, G: Gate + Sync>(
    rt: &'s R,
    scope: &'s Scope<'s, E>,
    hall: &'s Hall<S, G>,
)
where
    S::Apart: Send,
{
    for _ in rt.forever() {
        match next_dial(rt, hall) {
            Some(Dialling::Asked(index)) => start_dial(rt, scope, hall, index),
            Some(Dialling::Made(index, stream)) => enter(rt, scope, hall, stream, Some(index)),
            Some(Dialling::Refused) => {}
            None => return,
        }
    }
}

// What is to be done about a dial, by the peer's index among those of which it is known where they listen.
#[derive(Drop)]
enum Dialling {
    // The space asks for it.
    Asked(usize),
    // It came to a connection.
    Made(usize, TcpStream),
    // The peer is not known, so it was refused.
    Refused,
}

// What is to be done next about dials, once there is something. None at the stop.
fn next_dial<R: Host, S: Served + Drop, G: Gate>(rt: &R, hall: &Hall<S, G>) -> Option<Dialling> {
    let guard = hall.board.lock(rt);
    let mut guard = hall.dial.wait_while(rt, guard, |board| {
        board.dials.is_empty() && board.made.is_empty() && !board.is_stopped
    });
    if guard.is_stopped {
        return None;
    }
    if let Some((index, stream)) = guard.made.pop_front() {
        return Some(Dialling::Made(index, stream));
    }
    let asked = guard.dials.pop_front();
    drop(guard);
    match asked {
        Some(peer) => Some(known(rt, hall, peer)),
        None => Some(Dialling::Refused),
    }
}

// A dial to a peer. One of which it is not known where it listens refuses.
fn known<R: Host, S: Served + Drop, G: Gate>(rt: &R, hall: &Hall<S, G>, peer: Uuid) -> Dialling {
    match hall.peers.iter().position(|known| known.id == peer) {
        Some(index) => Dialling::Asked(index),
        None => {
            let _ = hall.on(rt, &Event::Refused { peer });
            Dialling::Refused
        }
    }
}

// Starts the thread of a dial. One that the system does not start is a dial that the peer refused.
fn start_dial<'s, E, R: Host, S: Served + Drop + Send, G: Gate + Sync>(
    rt: &'s R,
    scope: &'s Scope<'s, E>,
    hall: &'s Hall<S, G>,
    index: usize,
)
where
    S::Apart: Send,
{
    let is_started = scope.spawn(move || dial(rt, hall, index)).is_ok();
    if !is_started && let Some(peer) = hall.peer_at(Some(index)) {
        let _ = hall.on(rt, &Event::Refused { peer });
    }
}

// Makes a connection to the peer of this index, or tells that it refused.
fn dial<R: Host, S: Served + Drop, G: Gate>(rt: &R, hall: &Hall<S, G>, index: usize) {
    let Some(peer) = hall.peers.get(index) else {
        return;
    };
    let within = Duration::from_secs(DIALLING);
    let Ok(stream) = TcpStream::connect_timeout(rt, &peer.address, within) else {
        let _ = hall.on(rt, &Event::Refused { peer: peer.id });
        return;
    };
    let mut guard = hall.board.lock(rt);
    let board = &mut *guard;
    if board.made.push_back((index, stream)).is_err() {
        board.fail(Fault::Memory);
    }
    let due = board.take_due();
    drop(guard);
    hall.attend(rt, due);
}

// Enters a connection, and starts its threads. `dialled` is the index of the peer that was dialled, if one was.
fn enter<'s, E, R: Host, S: Served + Drop + Send, G: Gate + Sync>(
    rt: &'s R,
    scope: &'s Scope<'s, E>,
    hall: &'s Hall<S, G>,
    stream: TcpStream,
    dialled: Option<usize>,
)
where
    S::Apart: Send,
{
    let _ = stream.set_nodelay(true);
    let _ = stream.set_write_timeout(Some(Duration::from_secs(WRITING)));
    let mut guard = hall.board.lock(rt);
    let board = &mut *guard;
    let opened = if board.is_stopped {
        None
    } else {
        board.open(rt, stream, hall.peer_at(dialled))
    };
    let due = board.take_due();
    drop(guard);
    hall.attend(rt, due);
    if let Some(link) = opened
        && start_threads(rt, scope, hall, &link).is_err()
    {
        forget(rt, hall, &link);
    }
}

// Starts the writing thread of a connection, and then the reading one. An error if one of them does not start: then no
// thread reads.
fn start_threads<'s, E, R: Host, S: Served + Drop + Send, G: Gate + Sync>(
    rt: &'s R,
    scope: &'s Scope<'s, E>,
    hall: &'s Hall<S, G>,
    link: &Arc<Link>,
) -> Result<(), AllocError>
where
    S::Apart: Send,
{
    let writing = Arc::try_clone(link)?;
    let reading = Arc::try_clone(link)?;
    let is_writing = scope.spawn(move || write_all(rt, hall, &writing)).is_ok();
    if is_writing && scope.spawn(move || read_all(rt, hall, reading)).is_ok() {
        Ok(())
    } else {
        Err(AllocError)
    }
}

// Ends a connection that no thread reads, as its reading thread would: serving goes on for all others.
fn forget<R: Host, S: Served + Drop, G: Gate>(rt: &R, hall: &Hall<S, G>, link: &Link) {
    let conn = link.conn;
    if link.end(rt) {
        let _ = hall.on(rt, &Event::ReadFailed { conn });
    }
    hall.board.lock(rt).links.remove(conn);
}

// The reading thread: each frame is an event, and so is the end. At the end the connection is forgotten.
fn read_all<R: Host, S: Served + Drop, G: Gate>(rt: &R, hall: &Hall<S, G>, link: Arc<Link>) {
    if read_frames(rt, hall, &link).is_err() {
        hall.fail(rt, Fault::Memory);
    }
    let conn = link.conn;
    let _ = link.end(rt);
    hall.board.lock(rt).links.remove(conn);
}

// Tells what comes on a connection, until its end.
fn read_frames<R: Host, S: Served + Drop, G: Gate>(
    rt: &R,
    hall: &Hall<S, G>,
    link: &Arc<Link>,
) -> Result<(), AllocError> {
    let alloc = hall.alloc;
    let Ok(incoming) = BufReader::new(alloc, Incoming(Arc::try_clone(link)?)) else {
        return Err(AllocError);
    };
    let mut arrivals = Arrivals::new(alloc, StdSource::new(incoming))?;
    for _ in rt.forever() {
        link.wait_for_room(rt);
        match arrivals.next()? {
            Some(arrival) => tell(rt, hall, link, arrival),
            None => return Ok(()),
        }
    }
    Ok(())
}

// Tells the space what came. An end is told if nobody told one before.
fn tell<R: Host, S: Served + Drop, G: Gate>(
    rt: &R,
    hall: &Hall<S, G>,
    link: &Link,
    arrival: Arrival,
) {
    let conn = link.conn;
    let event = match arrival {
        Arrival::Received(message) => {
            link.hear(rt, matches!(message, Message::Ack { .. }));
            return receive(rt, hall, &Event::Received { conn, message });
        }
        Arrival::Closed => Event::Closed { conn },
        Arrival::ReadFailed => Event::ReadFailed { conn },
        Arrival::Bad => Event::Bad { conn },
    };
    if link.end(rt) {
        let _ = hall.on(rt, &event);
    }
}

// Lets a frame come, and runs a task that may go on for a while: most often the one to which the frame brought what it
// waits for, or which it started. So no other thread has to wake for it, and what it sends goes out in one write with
// what the frame is answered by. One that computes for longer is left to the workers.
fn receive<R: Host, S: Served + Drop, G: Gate>(rt: &R, hall: &Hall<S, G>, event: &Event) {
    let mut guard = hall.lock(rt);
    let board = &mut *guard;
    let _ = board.on(rt, event);
    let computing = match board.ready.pop_front() {
        Some(task) => match board.advance(rt, task) {
            Advance::Computes(apart) => Some((task, apart)),
            Advance::Rests | Advance::Waits => None,
        },
        None => None,
    };
    let due = board.take_due();
    drop(guard);
    hall.attend(rt, due);
    if let Some((task, apart)) = computing {
        compute(rt, hall, apart);
        let _ = run_task(rt, hall, task, ROUNDS);
    }
}

// The writing thread. A write that failed is told with the frames that did not go out, if nobody told an end before.
fn write_all<R: Host, S: Served + Drop, G: Gate>(rt: &R, hall: &Hall<S, G>, link: &Link) {
    if link.write_on(rt) && link.end(rt) {
        let mut guard = hall.board.lock(rt);
        let board = &mut *guard;
        let event = Event::WriteFailed {
            conn: link.conn,
            unsent: link.unsent(rt),
        };
        let _ = board.on(rt, &event);
        let due = board.take_due();
        drop(guard);
        hall.attend(rt, due);
    }
}
