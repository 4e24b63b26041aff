//! What the threads of a served space share.

use crate::Gate;
use sp_board::{Board, Due, Fault, Served};
use sp_links::Host;
use sp_world::{CoreFault, Event};
use space_ids::Uuid;
use std::alloc::Global;
use std::net::{SocketAddr, TcpListener};
use std::sync::{Condvar, Mutex, MutexGuard};
use std::thread::yield_now;

// How often a thread looks whether the space's lock is free, and lets others run, before it sleeps until it is.
const LOOKS: u32 = 64;

/// Where a peer listens.
#[derive(Clone, Copy)]
pub struct Peer {
    pub id: Uuid,
    pub address: SocketAddr,
}

/// The lock with the space behind it, and where threads sleep until there is something for them.
#[derive(Drop)]
pub struct Hall<S, G> {
    pub alloc: Global,
    pub board: Mutex<Board<S>>,
    /// Where peers' connections come, if any may.
    pub listener: Option<TcpListener>,
    pub gate: G,
    pub peers: Vec<Peer>,
    /// Of workers.
    pub work: Condvar,
    /// Of the thread that dials.
    pub dial: Condvar,
    /// Of the thread that prints.
    pub print: Condvar,
    /// Of the clock.
    pub tick: Condvar,
    /// Of who waits for a task to end.
    pub ended: Condvar,
}

impl<S: Served + Drop, G: Gate> Hall<S, G> {
    /// A space at a listener, or without one, at whose tasks nobody works yet.
    pub fn new(
        alloc: Global,
        listener: Option<TcpListener>,
        space: S,
        gate: G,
        peers: Vec<Peer>,
    ) -> Hall<S, G> {
        Hall {
            alloc,
            board: Mutex::new(Board::new(alloc, space)),
            listener,
            gate,
            peers,
            work: Condvar::new(),
            dial: Condvar::new(),
            print: Condvar::new(),
            tick: Condvar::new(),
            ended: Condvar::new(),
        }
    }

    /// The id of the peer of an index.
    pub fn peer_at(&self, index: Option<usize>) -> Option<Uuid> {
        match self.peers.get(index?) {
            Some(peer) => Some(peer.id),
            None => None,
        }
    }

    /// The space, once no other thread has it. An event takes some microseconds, and a thread that slept would be woken
    /// with the lock in its hands, which nobody else can take until it runs: so it looks for a while first.
    pub fn lock<R: Host>(&self, rt: &R) -> MutexGuard<'_, Board<S>> {
        for _ in 0..LOOKS {
            if let Some(guard) = self.board.try_lock() {
                return guard;
            }
            yield_now();
        }
        self.board.lock(rt)
    }

    /// Lets an event happen, and sees to what it answers.
    pub fn on<R: Host>(&self, rt: &R, event: &Event) -> Result<(), CoreFault> {
        let mut guard = self.lock(rt);
        let board = &mut *guard;
        let answered = board.on(rt, event);
        let due = board.take_due();
        drop(guard);
        self.attend(rt, due);
        answered
    }

    /// Sees to what is to be done after the lock was let go: wakes who has something to do, and has frames go out.
    pub fn attend<R: Host>(&self, rt: &R, due: Due) {
        if due.is_ready {
            self.work.notify_one();
        }
        if due.is_dialled {
            self.dial.notify_one();
        }
        if due.is_told {
            self.print.notify_one();
        }
        if due.is_ended {
            self.ended.notify_one();
        }
        due.flush(rt);
    }

    /// Serving ends for this reason.
    pub fn fail<R: Host>(&self, rt: &R, fault: Fault) {
        self.board.lock(rt).fail(fault);
        self.wake_all();
    }

    /// Has all threads end, and ends the connections.
    pub fn stop<R: Host>(&self, rt: &R) {
        let mut guard = self.board.lock(rt);
        guard.is_stopped = true;
        let links = guard.links.all();
        drop(guard);
        self.wake_all();
        if let Ok(links) = links {
            for link in links {
                let _ = link.end(rt);
            }
        }
    }

    fn wake_all(&self) {
        self.work.notify_all();
        self.dial.notify_all();
        self.print.notify_all();
        self.tick.notify_all();
        self.ended.notify_all();
    }
}
