//! All connections of a world.

ghost use Rattle.std.specs.Prelude.{◌≡◌, ◌≤◌, ◌<◌, false, List, [], ◌∷◌, ◌++◌, OnOk, OnErr, length, map, not, option_copied, option_map, slice_get, take};
ghost use Rattle.std.specs.List.{list_any};
ghost use Rattle.sp_rules.specs.Lists.{at_index};
ghost use Rattle.sp_rules.specs.Worlds.{Pipe as Row, begin_side, cut_end, end_of as end_at, ends as over, new_pipe, other, queue_up as queued, set_side, take_front as rest_of, End as Ends};

use crate::End;
use crate::pipe::Pipe;
use net_message::Message;
use std::alloc::{AllocError, Global};

/// The connections of a world, by their numbers from 0 on, each with a queue of frames each way. What is
/// asked of one connection costs the same however many there are.
///
/// A contract names the list of connections that the value may stand for.
#[derive(Drop)]
pub struct Pipes {
    alloc: Global,
    rows: Vec<Pipe>,
    // The lowest that waits to be accepted, or how many there are. It only rises.
    unaccepted: usize,
}

impl Pipes {
    ghost use Rattle.sp_pipes.specs.Connections.{ArePipes, comes_over, end_of, has_frames_or_end, live_space, lost_at, lowest_waiting, front_at, pipe_of, room, unopened_space, waits, waits_at};

    /// No connection.
    pub fn new(alloc: Global) -> Pipes
        ensures { ArePipes [] result }
    {
        Pipes {
            alloc,
            rows: Vec::new(alloc),
            unaccepted: 0,
        }
    }

    /// How many there are: the number of the next.
    pub fn len(&self) -> u64
        ensures { (pipes : List Row) → ArePipes pipes self.now → result ≡ length pipes }
    {
        self.rows.len() as u64
    }

    /// The lowest that waits to be accepted.
    pub fn unaccepted(&self) -> Option<u64>
        ensures { (pipes : List Row) → ArePipes pipes self.now → result ≡ lowest_waiting pipes }
    {
        if self.unaccepted < self.rows.len() {
            Some(self.unaccepted as u64)
        } else {
            None
        }
    }

    /// The space at an end of a connection, if that end gets events.
    pub fn live_space(&self, conn: u64, end: End) -> Option<usize>
        ensures { (pipes : List Row) → ArePipes pipes self.now → result ≡ live_space (end_of end) (slice_get pipes conn) }
    {
        match self.pipe(conn) {
            Some(pipe) if pipe.is_live(end) => Some(pipe.space(end)),
            _ => None,
        }
    }

    /// The space that was dialled, if the connection waits to be accepted.
    pub fn unopened_space(&self, conn: u64) -> Option<usize>
        ensures { (pipes : List Row) → ArePipes pipes self.now → result ≡ unopened_space (slice_get pipes conn) }
    {
        match self.pipe(conn) {
            Some(pipe) if pipe.is_unopened() => Some(pipe.space(End::Accepter)),
            _ => None,
        }
    }

    /// The first frame that comes towards an end.
    pub fn front(&self, conn: u64, to: End) -> Option<&Message>
        ensures { (pipes : List Row) → ArePipes pipes self.now → option_copied result ≡ front_at (end_of to) (slice_get pipes conn) }
    {
        match self.pipe(conn) {
            Some(pipe) => pipe.front(to),
            None => None,
        }
    }

    /// Whether an end of a connection has ended.
    pub fn is_over(&self, conn: u64, end: End) -> bool
        ensures { (pipes : List Row) → ArePipes pipes self.now → result ≡ comes_over (end_of end) (slice_get pipes conn) }
    {
        match self.pipe(conn) {
            Some(pipe) => pipe.is_over(end),
            None => false,
        }
    }

    /// Whether something comes to an end of a connection that gets events: a frame, or that the other end
    /// has ended.
    pub fn is_queued(&self, conn: u64, to: End) -> bool
        ensures { (pipes : List Row) → ArePipes pipes self.now → result ≡ has_frames_or_end (end_of to) (slice_get pipes conn) }
    {
        match self.pipe(conn) {
            Some(pipe) => {
                pipe.is_live(to) && (pipe.front(to).is_some() || pipe.is_over(to.other()))
            }
            None => false,
        }
    }

    /// How many of the last frames that an end wrote are lost if `unsent` of them were not sent: at most those
    /// that were not delivered.
    pub fn lost(&self, conn: u64, end: End, unsent: u64) -> u64
        ensures { (pipes : List Row) → ArePipes pipes self.now → result ≡ lost_at unsent (end_of end) (slice_get pipes conn) }
    {
        match self.pipe(conn) {
            Some(pipe) => pipe.lost(end, unsent),
            None => 0,
        }
    }

    /// Puts a frame that a space wrote into the queue towards the other end. Nothing changes at out of
    /// memory.
    pub fn queue_up(&mut self, conn: u64, writer: usize, message: Message) -> Result<(), AllocError>
        ensures queued { OnOk result ((pipes : List Row) → ArePipes pipes self.old → ArePipes (at_index (λ p. set_side (queued message) (other (end_at writer p)) p) conn pipes) self.new) }
        ensures same { OnErr result ((pipes : List Row) → ArePipes pipes self.old → ArePipes pipes self.new) }
        ensures room { room self.new ≡ room self.old }
    {
        let index = conn as usize;
        if index >= self.rows.len() {
            return Ok(());
        }
        let to = self.rows[index].end_at(writer).other();
        self.rows[index].queue_up(to, message)
    }

    /// Ends the end of a connection at which a space stands. It takes no memory.
    pub fn close(&mut self, conn: u64, writer: usize)
        ensures closed { (pipes : List Row) → ArePipes pipes self.old → ArePipes (at_index (λ p. set_side over (end_at writer p) p) conn pipes) self.new }
        ensures room { room self.new ≡ room self.old }
    {
        let index = conn as usize;
        if index >= self.rows.len() {
            return;
        }
        let side = self.rows[index].end_at(writer);
        self.rows[index].end(side);
        self.advance();
    }

    /// Ends an end of a connection. It takes no memory.
    pub fn end(&mut self, conn: u64, end: End)
        ensures ended { (pipes : List Row) → ArePipes pipes self.old → ArePipes (at_index (set_side over (end_of end)) conn pipes) self.new }
        ensures room { room self.new ≡ room self.old }
    {
        let index = conn as usize;
        if index >= self.rows.len() {
            return;
        }
        self.rows[index].end(end);
        self.advance();
    }

    /// Accepts a connection: the end at the space that was dialled gets events. It takes no memory.
    pub fn begin(&mut self, conn: u64)
        ensures begun { (pipes : List Row) → ArePipes pipes self.old → ArePipes (at_index (set_side begin_side Ends.Accepter) conn pipes) self.new }
        ensures room { room self.new ≡ room self.old }
    {
        let index = conn as usize;
        if index >= self.rows.len() {
            return;
        }
        self.rows[index].begin();
        self.advance();
    }

    /// Takes the first frame that comes towards an end away. It takes no memory.
    pub fn take_front(&mut self, conn: u64, to: End)
        ensures taken { (pipes : List Row) → ArePipes pipes self.old → ArePipes (at_index (set_side rest_of (end_of to)) conn pipes) self.new }
        ensures room { room self.new ≡ room self.old }
    {
        let index = conn as usize;
        if index >= self.rows.len() {
            return;
        }
        self.rows[index].take_front(to);
    }

    /// Takes this many of the last frames that come towards an end away. It takes no memory.
    pub fn cut_end(&mut self, conn: u64, to: End, frames: u64)
        ensures cut { (pipes : List Row) → ArePipes pipes self.old → ArePipes (at_index (set_side (cut_end frames) (end_of to)) conn pipes) self.new }
        ensures room { room self.new ≡ room self.old }
    {
        let index = conn as usize;
        if index >= self.rows.len() {
            return;
        }
        self.rows[index].cut_end(to, frames);
    }

    /// Makes room for one more connection. Nothing else changes, at out of memory too.
    pub fn reserve(&mut self) -> Result<(), AllocError>
        ensures ok { OnOk result (0 < room self.new) }
        ensures same { (pipes : List Row) → ArePipes pipes self.old → ArePipes pipes self.new }
    {
        self.rows.reserve(1)
    }

    /// Adds a connection that one space dialled, and that the other has not accepted. It takes no memory: the
    /// caller owes [room](Pipes::reserve) for it.
    pub fn open_reserved(&mut self, dialler: usize, accepter: usize)
        requires { 0 < room self.old }
        ensures { (pipes : List Row) → ArePipes pipes self.old → ArePipes (pipes ++ new_pipe dialler accepter ∷ []) self.new }
    {
        self.rows
            .push_reserved(Pipe::new(self.alloc, dialler, accepter));
    }

    // A connection, if there is one of this number.
    fn pipe(&self, conn: u64) -> Option<&Pipe>
        ensures { (pipes : List Row) → ArePipes pipes self.now → option_map pipe_of (option_copied result) ≡ slice_get pipes conn }
    {
        self.rows.get(conn as usize)
    }

    // Goes on to the lowest connection that waits to be accepted.
    fn advance(&mut self)
        ensures found { self.old.unaccepted ≤ length self.old.rows.items → list_any waits (take self.old.unaccepted (map pipe_of self.old.rows.items)) ≡ false → ArePipes (map pipe_of self.old.rows.items) self.new }
        ensures room { room self.new ≡ room self.old }
    {
        'up: while self.is_passed() {
            self.unaccepted += 1;
        }
    }

    // Whether the connection that counted as the lowest that waits to be accepted is there and does not.
    fn is_passed(&self) -> bool
        ensures { result ≡ not (waits_at (slice_get (map pipe_of self.now.rows.items) self.now.unaccepted)) }
    {
        match self.rows.get(self.unaccepted) {
            Some(pipe) => !pipe.is_unopened(),
            None => false,
        }
    }
}
