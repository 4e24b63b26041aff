//! The calls of the queue.

ghost use Rattle.std.specs.Prelude.{List, ◌≡◌, ◌<◌, ℕ, true, false, IfErr, IfNone, IfOk, IfSome, OnErr, OnOk};
ghost use Rattle.crossbeam_queue.specs.Passes.{IsPassOf, ruled_capacity, view};
ghost use Rattle.sp_ready.specs.Notices.{AllTaken, Took, all_parts, joined, newcomer, with_pushed, without_part, writer_at_first};

use crate::rule::{Cut, InOrder, Known, Puts, Takes, Total};
use crossbeam_queue::{Pass, RuledArrayQueue};
use std::alloc::{AllocError, Global};
use std::sync::Wait;

/// A queue of notices, each the id of a task.
pub type Queue = RuledArrayQueue<u64, Known, InOrder>;

/// A thread's seat at a queue. It has no bytes.
pub type Seat = Pass<u64, Known>;

/// A queue with room for this many notices, and the seat that puts them in.
pub fn open(alloc: Global, ready: usize) -> Result<(Queue, Seat), AllocError>
    requires { 0 < ready }
    ensures capacity { IfOk result (λ opened. ruled_capacity opened.0 ≡ ready) }
    ensures tied { IfOk result (λ opened. IsPassOf opened.0 opened.1) }
    ensures fresh { IfOk result (λ opened. view opened.1 ≡ writer_at_first) }
{
    Queue::ruled(alloc, ready)
}

/// A seat for one thread more, which takes notices.
pub fn another_seat(queue: &Queue, writer: &mut Seat) -> Seat
    requires queue { IsPassOf queue.now writer.old }
    requires parts { 1 < (view writer.old).parts }
    ensures queue { IsPassOf queue.now writer.new }
    ensures writer { view writer.new ≡ without_part (view writer.old) }
    ensures tied { IsPassOf queue.now result }
    ensures fresh { view result ≡ newcomer }
{
    queue.another::<Cut>(writer)
}

/// Puts a notice in. If there is no room, or the last thread that took from its place is not done, the
/// notice is given back. It waits for no thread.
pub fn put(queue: &Queue, writer: &mut Seat, notice: u64) -> Result<(), u64>
    requires queue { IsPassOf queue.now writer.old }
    requires pushes { (view writer.old).pushes ≡ true }
    ensures queue { IsPassOf queue.now writer.new }
    ensures pushed { OnOk result (view writer.new ≡ with_pushed (view writer.old) notice) }
    ensures back { IfErr result (λ back. back ≡ notice) }
    ensures unchanged { OnErr result (view writer.new ≡ view writer.old) }
{
    queue.try_push_as::<Puts>(writer, notice)
}

/// Takes the oldest notice. There is none only if the queue was empty at one moment of the call. It may
/// wait for a thread that is about to put a notice in, or take one, and holds no lock.
pub fn take<R: Wait>(rt: &R, queue: &Queue, seat: &mut Seat) -> Option<u64>
    requires queue { IsPassOf queue.now seat.old }
    requires part { 0 < (view seat.old).parts }
    ensures queue { IsPassOf queue.now seat.new }
    ensures taken { IfSome result (λ notice. Took (view seat.old) notice (view seat.new)) }
    ensures none { IfNone result (view seat.new ≡ view seat.old) }
{
    queue.pop_as::<Takes, R>(rt, seat)
}

/// Takes in a seat of a thread that takes no more.
pub fn return_seat(queue: &Queue, writer: &mut Seat, seat: Seat)
    requires writer { IsPassOf queue.now writer.old }
    requires seat { IsPassOf queue.now seat }
    requires part { 0 < (view seat).parts }
    requires takes { (view seat).pushes ≡ false }
    ensures queue { IsPassOf queue.now writer.new }
    ensures both { view writer.new ≡ joined (view writer.old) (view seat) }
{
    queue.absorb::<Cut>(writer, seat)
}

/// What became of all notices, once each seat is back: each that was put in was taken once, at its place,
/// or is in the queue; those that are in it are the last.
pub fn account(queue: &Queue, writer: &mut Seat)
    requires queue { IsPassOf queue.now writer.old }
    requires whole { (view writer.old).parts ≡ all_parts }
    requires pushes { (view writer.old).pushes ≡ true }
    ensures queue { IsPassOf queue.now writer.new }
    ensures same { view writer.new ≡ view writer.old }
    ensures each { (items : List ℕ) × AllTaken (view writer.old) items }
{
    queue.learn_as::<Total>(writer)
}
