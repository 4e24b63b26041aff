//! What a thread holds of a book.

ghost use Rattle.std.specs.Prelude.{◌≡◌, ◌==◌, ◌<◌, ◌≤◌, ◌+◌, ◌^◌, [], ◌∷◌, ◌++◌, length, position, remove, true};
ghost use Rattle.sp_book.specs.Passes.{Adds, IsSame, has, without};
ghost use Rattle.sp_history.specs.Entries.{entry_of};

use crate::naming::Naming;
use crate::past::{AllCalls, CallList};
use ghost_value::Ghost;
use sp_history::Call;
use sp_ready::Seat;
use std::marker::Model;
use std::sync::ledger::{Book as Tally, Share};

/// A thread's right to call a book: its number, the calls that it made since a checkpoint, and how many it
/// made before, the ids of the tasks that it was lent, its share of the count of entries, and its seat at the
/// queue.
#[derive(Drop)]
pub struct Pass<N: Naming> {
    pub(crate) number: u32,
    pub(crate) list: Vec<Call>,
    // How many calls it made before its list began, and how many entries were cut by then.
    pub(crate) older: u64,
    pub(crate) since: u64,
    // The calls before its list began.
    pub(crate) past: Ghost<CallList>,
    pub(crate) hand: Vec<u64>,
    pub(crate) share: Share<N>,
    pub(crate) seat: Seat,
}

impl<N: Naming> Model for Pass<N> {
    ghost use Rattle.std.specs.Prelude.{◌≡◌, ◌+◌, ◌-◌, ◌≤◌, ◌^◌, ◌++◌, [], false, length, map, vec_capacity, vec_len};
    ghost use Rattle.crossbeam_queue.specs.Passes.{view as known_by};
    ghost use Rattle.sp_book.specs.Passes.{Seen};
    ghost use Rattle.sp_history.specs.Entries.{entry_of};

    ghost Value = { Seen };

    ghost view = { λ p. record { number = p.number; calls = p.past.value ++ map entry_of p.list.items; older = p.older; since = p.since; hand = p.hand.items; known = known_by p.seat; room = vec_capacity p.list - (vec_len p.list + vec_len p.hand) } };

    ghost invariant = { λ p. (p.share.amount ≡ p.older + vec_len p.list)
        × (p.share.parts ≡ 1)
        × (vec_len p.list + vec_len p.hand ≤ vec_capacity p.list)
        × (p.seat.table_id ≡ N.table)
        × (p.seat.me.1 ≡ [])
        × ((known_by p.seat).parts ≡ 1)
        × ((known_by p.seat).pushes ≡ false)
        × (p.older ≡ length p.past.value)
        × (p.older + vec_len p.list ≤ 2 ^ 63) };
}

// Where a task stands among these.
fn find(hand: &[u64], task: u64) -> Option<usize>
    ensures { result ≡ position (λ x. x == task) hand.now }
{
    hand.iter().position(|other| *other == task)
}

impl<N: Naming> Pass<N> {
    /// Its number. The passes of a book are numbered from 0.
    pub fn number(&self) -> u32
        ensures { result ≡ self.now.number }
    {
        self.number
    }

    /// How many accepted calls it made.
    pub fn calls(&self) -> u64
        ensures { result ≡ length self.now.calls }
    {
        self.older + self.list.len() as u64
    }

    /// Whether it was lent this task, which has not come back.
    pub fn has(&self, task: u64) -> bool
        ensures { result ≡ has task self.now.hand }
    {
        find(self.hand.as_slice(), task).is_some()
    }

    // Where a task that it was lent stands among them.
    pub(crate) fn place(&self, task: u64) -> usize
        requires { has task self.now.hand ≡ true }
        ensures within { result < length self.now.hand }
        ensures first { remove self.now.hand result ≡ without task self.now.hand }
    {
        match find(self.hand.as_slice(), task) {
            Some(at) => at,
            None => unreachable!(),
        }
    }

    // Makes room for a call beside those with which its tasks come back. False if memory runs out.
    pub(crate) fn make_room(&mut self) -> bool
        ensures room { result ≡ true → 0 < self.new.room }
        ensures same { IsSame self.old self.new }
    {
        self.list.reserve(self.hand.len() + 1).is_ok()
    }

    // Where entries were cut since its list began, it begins anew.
    fn begin_list(&mut self, cut: u64)
        ensures same { IsSame self.old self.new }
        ensures room { self.old.room ≤ self.new.room }
        ensures since { cut ≤ self.new.since }
    {
        if self.since < cut {
            let past = Ghost::of::<Pass<N>, AllCalls>(self);
            self.past = past;
            self.older += self.list.len() as u64;
            self.list.clear();
            self.since = cut;
        }
    }

    // A call for which it has room is one of its own, and counts. So many entries were cut before it.
    pub(crate) fn enter(&mut self, tally: &mut Tally<N>, cut: u64, call: Call)
        requires room { 0 < self.old.room }
        requires few { tally.old.total < 2 ^ 63 }
        ensures counted { tally.new.total ≡ tally.old.total + 1 }
        ensures listed { Adds (entry_of call) self.old self.new }
        ensures since { cut ≤ self.new.since }
    {
        self.begin_list(cut);
        tally.audit(&mut self.share);
        tally.add(&mut self.share, 1);
        self.list.push_reserved(call);
    }

    // A task that it was lent came back: the call is one of its own, and counts.
    pub(crate) fn take_back(&mut self, tally: &mut Tally<N>, cut: u64, at: usize, call: Call)
        requires within { at < length self.old.hand }
        requires few { tally.old.total < 2 ^ 63 }
        ensures counted { tally.new.total ≡ tally.old.total + 1 }
        ensures calls { self.new.calls ≡ self.old.calls ++ entry_of call ∷ [] }
        ensures hand { self.new.hand ≡ remove self.old.hand at }
        ensures same { (self.new.number ≡ self.old.number) × (self.new.known ≡ self.old.known) }
        ensures since { cut ≤ self.new.since }
    {
        self.begin_list(cut);
        tally.audit(&mut self.share);
        tally.add(&mut self.share, 1);
        self.hand.remove(at);
        self.list.push_reserved(call);
    }
}
