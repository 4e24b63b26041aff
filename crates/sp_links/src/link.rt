//! A connection's way out.

ghost use Rattle.std.specs.Prelude.{◌≡◌, ◌≤◌, leb, length, not, true};
ghost use Rattle.std.specs.List.{filter};
ghost use Rattle.net_message.specs.Wire.{body};

use crate::Host;
use bytes::BytesMut;
use net_engine::Frame;
use net_message::MAX_BODY;
use std::alloc::{AllocError, Global};
use std::io::{ErrorKind, Write};
use std::mem;
use std::net::{Shutdown, TcpStream};
use std::sync::{Condvar, Mutex};

// How many bytes may wait to go out on an accepted connection before no more is read from it.
const MOST_WAITING: usize = 1_048_576;

// How many results that went out may lack their Ack.
const MOST_RESULTS: u64 = 4_096;

// How many bytes may be written by whoever has them, since the peer last showed that it reads. The buffers of a
// socket hold as many, so such a write waits for nobody; the thread of the connection writes what is more.
const MOST_UNREAD: usize = 8_192;

// How long a connection may be silent, in seconds: before its Hello, and an accepted one after it.
const GREETING: u64 = 10;

const SILENCE: u64 = 1_800;

// How long what was taken at once may be on its way out on an accepted connection, in seconds, however much of it goes
// out meanwhile.
const WRITING: u64 = 120;

/// An open connection: its socket, and what waits to go out on it.
#[derive(Drop)]
pub struct Link {
    pub conn: u64,
    pub stream: TcpStream,
    /// Whether the peer made it.
    pub is_accepted: bool,
    alloc: Global,
    out: Mutex<Out>,
    more: Condvar,
    room: Condvar,
}

// The frames that wait, one after the other, and where each ends.
#[derive(Drop)]
struct Batch {
    bytes: BytesMut,
    ends: Vec<usize>,
}

// What waits to go out on a connection, how many frames the space gave, how many of them went out whole, what was
// heard of the peer, and whether the connection has ended.
#[derive(Drop)]
struct Out {
    waiting: Batch,
    given: u64,
    whole: u64,
    // Whether a thread writes, and for how many seconds it has written what it took.
    is_writing: bool,
    written_for: u64,
    // Bytes that were taken to be written since the peer last showed that it reads.
    unread: usize,
    // Results without their Ack.
    results: u64,
    // Seconds since something came, and whether anything ever did.
    silent: u64,
    is_greeted: bool,
    has_ended: bool,
    // Whether something was to go out that no frame says: then as much as if a write failed.
    is_broken: bool,
}

impl Batch {
    fn new(alloc: Global) -> Batch {
        Batch {
            bytes: BytesMut::new(alloc),
            ends: Vec::new(alloc),
        }
    }

    // Adds a frame. Its body is no longer than a frame's may be.
    fn push(&mut self, frame: &Frame) -> Result<(), AllocError>
        requires { length (body frame.now) ≤ 65536 }
    {
        self.ends.reserve(1)?;
        self.bytes.reserve(4 + frame.body_len())?;
        frame.append_to(&mut self.bytes);
        let end = self.bytes.len();
        self.ends.push_reserved(end);
        Ok(())
    }
}

// How many frames that end there are whole in the first bytes, of which so many were written.
fn whole_in(ends: &[usize], written: usize) -> usize
    ensures { result ≡ length (filter (λ end. leb end written) ends.now) }
{
    ends.iter().filter(|end| **end <= written).count()
}

impl Out {
    // Whether the peer has been too slow.
    fn is_slow(&self, is_accepted: bool) -> bool {
        if !self.is_greeted {
            return self.silent >= GREETING;
        }
        let is_stuck = self.is_writing && self.written_for >= WRITING;
        is_accepted && (self.silent >= SILENCE || is_stuck)
    }

    // The connection ends. Returns whether it was open until now.
    fn end(&mut self) -> bool
        ensures once { result ≡ not self.old.has_ended }
        ensures ended { self.new.has_ended ≡ true }
    {
        let was_open = !self.has_ended;
        self.has_ended = true;
        was_open
    }
}

impl Link {
    /// A connection on which nothing waits.
    pub fn new(alloc: Global, conn: u64, stream: TcpStream, is_accepted: bool) -> Link {
        Link {
            conn,
            stream,
            is_accepted,
            alloc,
            out: Mutex::new(Out {
                waiting: Batch::new(alloc),
                given: 0,
                whole: 0,
                is_writing: false,
                written_for: 0,
                unread: 0,
                results: 0,
                silent: 0,
                is_greeted: false,
                has_ended: false,
                is_broken: false,
            }),
            more: Condvar::new(),
            room: Condvar::new(),
        }
    }

    /// Has a frame wait to go out after those that wait: `flush` is to follow. It counts as given also if the
    /// connection has ended.
    pub fn append<R: Host>(&self, rt: &R, frame: &Frame) -> Result<(), AllocError> {
        let mut guard = self.out.lock(rt);
        let out = &mut *guard;
        out.given = out.given.wrapping_add(1);
        if out.has_ended || out.is_broken {
            return Ok(());
        }
        if frame.body_len() > MAX_BODY {
            out.is_broken = true;
        } else {
            out.waiting.push(frame)?;
        }
        Ok(())
    }

    /// Notes that a result goes out, which the peer is to acknowledge. With 4,097 that lack their Ack the
    /// connection is given up.
    pub fn owe<R: Host>(&self, rt: &R) {
        let mut guard = self.out.lock(rt);
        guard.results = guard.results.saturating_add(1);
        if guard.results > MOST_RESULTS {
            guard.is_broken = true;
        }
    }

    /// Notes that a frame came, `is_ack` if it acknowledges a result. An Ack shows that the peer reads, and so does
    /// each frame on a connection that it did not make: these are answers.
    pub fn hear<R: Host>(&self, rt: &R, is_ack: bool) {
        let mut guard = self.out.lock(rt);
        guard.silent = 0;
        guard.is_greeted = true;
        if is_ack {
            guard.results = guard.results.saturating_sub(1);
        }
        if is_ack || !self.is_accepted {
            guard.unread = 0;
        }
    }

    /// Writes what waits, if nobody writes and it is little; otherwise the thread of the connection does.
    pub fn flush<R: Host>(&self, rt: &R) {
        if let Some(batch) = self.little_batch(rt) {
            let _ = self.write_batch(rt, &batch);
        }
    }

    // All that waits, if it may be written by this thread. Else the connection's thread is told, unless one that
    // writes will see it.
    fn little_batch<R: Host>(&self, rt: &R) -> Option<Batch> {
        let mut guard = self.out.lock(rt);
        if guard.has_ended || guard.is_writing {
            return None;
        }
        let size = guard.waiting.bytes.len();
        if guard.is_broken || size > MOST_UNREAD || guard.unread > MOST_UNREAD {
            drop(guard);
            self.more.notify_one();
            return None;
        }
        if guard.waiting.ends.is_empty() {
            return None;
        }
        Some(self.take_batch(&mut *guard))
    }

    // Takes all that waits, to write it.
    fn take_batch(&self, out: &mut Out) -> Batch {
        out.is_writing = true;
        out.written_for = 0;
        out.unread = out.unread.saturating_add(out.waiting.bytes.len());
        let none = Batch::new(self.alloc);
        let batch = mem::replace(&mut out.waiting, none);
        self.room.notify_all();
        batch
    }

    // Writes what was taken, and returns whether all of it went out. If something else waits then, or a write failed,
    // the connection's thread sees to it.
    fn write_batch<R: Host>(&self, rt: &R, batch: &Batch) -> bool {
        let written = self.write(batch.bytes.as_slice());
        let mut guard = self.out.lock(rt);
        let out = &mut *guard;
        out.whole = out
            .whole
            .wrapping_add(whole_in(&batch.ends, written) as u64);
        out.is_writing = false;
        let went_out = written >= batch.bytes.len();
        if !went_out {
            out.is_broken = true;
        }
        let is_more = out.is_broken || !out.waiting.ends.is_empty();
        drop(guard);
        if is_more {
            self.more.notify_one();
        }
        went_out
    }

    /// Notes that a second has passed. Returns whether the peer has been too slow: silent for 10 s before its first
    /// frame; or on a connection that it made, silent for 1,800 s after that, or for 120 s at what was written to it at
    /// once.
    pub fn pass_second<R: Host>(&self, rt: &R) -> bool {
        let mut guard = self.out.lock(rt);
        let out = &mut *guard;
        out.silent = out.silent.saturating_add(1);
        if out.is_writing {
            out.written_for = out.written_for.saturating_add(1);
        }
        out.is_slow(self.is_accepted)
    }

    /// Waits, on a connection that the peer made, while more than 1 MiB waits to go out: who does not take answers
    /// is not read from. Two spaces never wait for one another so, since each reads what it dialled.
    pub fn wait_for_room<R: Host>(&self, rt: &R) {
        if self.is_accepted {
            let guard = self.room.wait_while(rt, self.out.lock(rt), |out| {
                out.waiting.bytes.len() > MOST_WAITING && !out.has_ended && !out.is_broken
            });
            drop(guard);
        }
    }

    /// Notes that the space gave what no frame says: its writing thread tells that a write failed.
    pub fn give_up<R: Host>(&self, rt: &R) {
        let mut guard = self.out.lock(rt);
        guard.given = guard.given.wrapping_add(1);
        guard.is_broken = true;
        drop(guard);
        self.more.notify_one();
    }

    /// Ends the connection: its threads end. Returns whether it was open until now, so that its end is told once.
    pub fn end<R: Host>(&self, rt: &R) -> bool {
        let mut guard = self.out.lock(rt);
        let out = &mut *guard;
        let was_open = out.end();
        drop(guard);
        let _ = self.stream.shutdown(Shutdown::Both);
        self.more.notify_all();
        self.room.notify_all();
        was_open
    }

    /// How many of the frames that the space gave did not go out whole.
    pub fn unsent<R: Host>(&self, rt: &R) -> u64 {
        let guard = self.out.lock(rt);
        guard.given.wrapping_sub(guard.whole)
    }

    /// Writes what waits and was not flushed, until the connection ends. Returns whether a write failed.
    pub fn write_on<R: Host>(&self, rt: &R) -> bool {
        for _ in rt.forever() {
            let Some(batch) = self.next_batch(rt) else {
                return self.out.lock(rt).is_broken;
            };
            if !self.write_batch(rt, &batch) {
                return true;
            }
        }
        false
    }

    // All that waits, once something does and nobody writes. None once the connection has ended.
    fn next_batch<R: Host>(&self, rt: &R) -> Option<Batch> {
        let mut guard = self.more.wait_while(rt, self.out.lock(rt), |out| {
            !out.has_ended && (out.is_writing || !out.is_broken && out.waiting.ends.is_empty())
        });
        if guard.has_ended || guard.is_broken {
            return None;
        }
        Some(self.take_batch(&mut *guard))
    }

    // Writes bytes, and returns how many went out before a write failed.
    fn write(&self, bytes: &[u8]) -> usize {
        let mut stream = &self.stream;
        let mut written = 0usize;
        for _ in 0..u64::MAX {
            if written >= bytes.len() {
                return written;
            }
            match stream.write(&bytes[written..]) {
                Ok(0) => return written,
                Ok(count) => written = written.saturating_add(count),
                Err(error) if error.kind() == ErrorKind::Interrupted => {}
                Err(_) => return written,
            }
        }
        written
    }
}
