//! A space with its history.

ghost use Rattle.std.specs.Prelude.{◌≡◌, ◌+◌, ◌≤◌, ◌^◌, ◌++◌, [], IfOk, IfSome, OnErr, IfNone, OnOk, length, map};
ghost use Rattle.sp_history.specs.Books.{Replays};
ghost use Rattle.sp_history.specs.Entries.{numbered_entry, outputs_in_all};
ghost use Rattle.sp_history.specs.Logs.{IsKept, first_log, is_full, limit_after, start_of, state_in, unnumbered, with_all_taken};
ghost use Rattle.sp_outputs.specs.Notes.{output_of};
ghost use Rattle.sp_rules.specs.State.{opening};

use crate::entry::Entry;
use crate::gathered::Gathered;
use crate::naming::Setup;
use crate::notices::MOST;
use crate::past::{EntryList, NoEntries, NoOutputs, OutputList};
use ghost_value::Ghost;
use sp_lender::Lender;
use sp_outputs::Output;
use std::alloc::{AllocError, Global};
use std::collections::VecDeque;
use std::marker::{Model, PhantomData};
use std::mem;

// As many entries a history takes at most, those that were cut among them.
const MOST_ENTRIES: u64 = 1 << 63;

/// A space with the entries of its history since the last checkpoint, oldest first, a copy of the state there,
/// the outputs of which nobody took, the notices that tasks may go on, and the ids of the tasks in hand.
///
/// Its entries replay from the state at the last checkpoint to the state of the space. A contract sees its
/// entries, and those that were cut; the outputs that wait, and those that waited at the checkpoint; how many
/// tasks are in hand, and how many entries it takes.
#[derive(Drop)]
pub struct History<N: Setup, S: Lender + Drop> {
    pub(crate) space: S,
    pub(crate) entries: Vec<Entry>,
    // The outputs of an event are a batch, so that there is room for those of any event.
    pub(crate) waiting: Vec<Vec<Output>>,
    pub(crate) notices: VecDeque<u64>,
    pub(crate) in_hand: Vec<u64>,
    pub(crate) limit: usize,
    // How many entries were cut, and a copy of the state there.
    pub(crate) cut: u64,
    pub(crate) base: Option<S::Base>,
    // What was cut, and what waited there.
    pub(crate) past: Ghost<EntryList>,
    pub(crate) before: Ghost<OutputList>,
    pub(crate) name: PhantomData<N>,
}

impl<N: Setup, S: Lender + Drop> Model for History<N, S> {
    ghost use Rattle.std.specs.Prelude.{◌≡◌, ◌+◌, ◌≤◌, ◌^◌, [], length, map, vec_capacity, vec_len};
    ghost use Rattle.sp_history.specs.Books.{Replays, run_from};
    ghost use Rattle.sp_history.specs.Entries.{numbered_entry, outputs_in_all};
    ghost use Rattle.sp_history.specs.Logs.{IsKept, Log, start_of, unnumbered};
    ghost use Rattle.sp_rules.specs.State.{opening};

    ghost Value = { Log };

    ghost view = { λ h. record { cut = h.past.value; before = h.before.value; entries = map numbered_entry h.entries.items; waiting = outputs_in_all h.waiting.items; in_hand = vec_len h.in_hand; limit = h.limit } };

    ghost invariant = { λ h. S.is_space N.setting (run_from N.setting (start_of N.setting h.past.value) (unnumbered (map numbered_entry h.entries.items))) h.space
        × Replays N.setting (start_of N.setting h.past.value) h.before.value (unnumbered (map numbered_entry h.entries.items)) (outputs_in_all h.waiting.items)
        × (vec_len h.entries + vec_len h.in_hand ≤ h.limit)
        × (vec_len h.entries + vec_len h.in_hand ≤ vec_capacity h.entries)
        × (vec_len h.waiting + vec_len h.in_hand ≤ vec_capacity h.waiting)
        × Replays N.setting opening [] (unnumbered h.past.value) h.before.value
        × IsKept (S.is_base N.setting) N.setting h.past.value h.base
        × (h.cut ≡ length h.past.value)
        × (h.cut + h.limit ≤ 2 ^ 63) };
}

// As how many entries and tasks in hand together a history takes, of which so many entries were cut.
pub(crate) fn limit_after(cut: u64, limit: usize) -> usize
    requires { cut ≤ 2 ^ 63 }
    ensures { result ≡ limit_after cut limit }
{
    limit.min((MOST_ENTRIES - cut) as usize)
}

impl<N: Setup, S: Lender + Drop> History<N, S> {
    /// The history of a space to which nothing has happened, which takes this many entries, and not more than
    /// 2^63 in all.
    pub fn new(alloc: Global, space: S, limit: usize) -> Result<History<N, S>, AllocError>
        requires { S.is_space N.setting opening space }
        ensures { IfOk result (λ history. history ≡ first_log limit) }
    {
        Ok(History {
            space,
            entries: Vec::new(alloc),
            waiting: Vec::new(alloc),
            notices: VecDeque::with_capacity(alloc, MOST)?,
            in_hand: Vec::new(alloc),
            limit: limit_after(0, limit),
            cut: 0,
            base: None,
            past: Ghost::of::<(), NoEntries>(&()),
            before: Ghost::of::<(), NoOutputs>(&()),
            name: PhantomData,
        })
    }

    /// How many entries were cut. With those since and the tasks in hand they are 2^63 at most.
    pub fn cut(&self) -> u64
        ensures count { result ≡ length self.now.cut }
        ensures most { length self.now.cut + (length self.now.entries + self.now.in_hand)
            ≤ 2 ^ 63 }
    {
        self.cut
    }

    /// Whether entries and tasks in hand are as many as it takes.
    pub fn is_full(&self) -> bool
        ensures { result ≡ is_full self.now }
    {
        self.limit - self.entries.len() <= self.in_hand.len()
    }

    /// The entries, oldest first.
    pub fn entries(&self) -> &[Entry]
        ensures { map numbered_entry result.now ≡ self.now.entries }
    {
        self.entries.as_slice()
    }

    /// The notice that waits first.
    pub fn first_notice(&self) -> Option<u64> {
        self.notices.front().copied()
    }

    /// The notice that waited first waits no more.
    pub fn drop_notice(&mut self)
        ensures { self.new ≡ self.old }
    {
        let _ = self.notices.pop_front();
    }

    /// The space.
    pub fn space(&self) -> &S
        ensures { S.is_space N.setting (state_in N.setting self.now) result.now }
    {
        &self.space
    }

    /// Takes the outputs of one event, of those whose outputs wait the first, if any wait. It takes no memory.
    pub fn next_outputs(&mut self) -> Option<Vec<Output>>
        ensures first { IfSome result (λ batch. self.old.waiting
            ≡ map output_of batch.items ++ self.new.waiting) }
        ensures none { IfNone result (self.old.waiting ≡ []) }
        ensures same { self.new ≡ record self.old { waiting = self.new.waiting } }
    {
        if self.waiting.is_empty() {
            return None;
        }
        Some(self.waiting.remove(0))
    }

    /// Takes all outputs that wait, a batch for each event, in the order of the history. Nothing changes at
    /// out of memory.
    pub fn outputs(&mut self, alloc: Global) -> Result<Vec<Vec<Output>>, AllocError>
        ensures taken { IfOk result (λ batches. outputs_in_all batches.items ≡ self.old.waiting) }
        ensures ok { OnOk result (self.new ≡ with_all_taken self.old) }
        ensures err { OnErr result (self.new ≡ self.old) }
    {
        let next = Vec::with_capacity(alloc, self.in_hand.len())?;
        Ok(mem::replace(&mut self.waiting, next))
    }

    /// What it was.
    pub fn into_parts(self) -> Gathered<S>
        ensures base { IsKept (S.is_base N.setting) N.setting self.cut result.base }
        ensures space { S.is_space N.setting (state_in N.setting self) result.space }
        ensures past { Replays N.setting opening [] (unnumbered self.cut) self.before }
        ensures replays { Replays N.setting (start_of N.setting self.cut) self.before
            (unnumbered self.entries) self.waiting }
        ensures entries { map numbered_entry result.entries.items ≡ self.entries }
        ensures waiting { outputs_in_all result.waiting.items ≡ self.waiting }
        ensures cut { (result.cut.value ≡ self.cut) × (result.before.value ≡ self.before) }
    {
        let History {
            space,
            entries,
            waiting,
            notices: _,
            in_hand: _,
            limit: _,
            cut: _,
            base,
            past,
            before,
            name: _,
        } = self;
        Gathered {
            base,
            space,
            entries,
            waiting,
            cut: past,
            before,
        }
    }
}
