//! Checkpoints.

ghost use Rattle.std.specs.Prelude.{◌≡◌, IfErr, IfOk, OnErr, OnOk, map};
ghost use Rattle.sp_history.specs.Entries.{numbered_entry};
ghost use Rattle.sp_history.specs.Faults.{cut_fault};
ghost use Rattle.sp_history.specs.Logs.{IsKept, state_in, with_all_cut};

use crate::fault::BookFault;
use crate::history::{History, limit_after};
use crate::naming::Setup;
use crate::past::{AllEntries, WhatWaits};
use crate::segment::Segment;
use ghost_value::Ghost;
use sp_lender::Lender;
use std::alloc::Global;
use std::mem;

impl<N: Setup, S: Lender + Drop> History<N, S> {
    /// Cuts all entries, and answers them. It keeps a copy of the state, from which the entries that come replay;
    /// that is all the room that it takes. Outputs that wait stay. InHand comes while tasks are in hand, and Memory
    /// where there is no room for the copy; then nothing changes.
    pub fn checkpoint(&mut self, alloc: Global) -> Result<Segment<S>, BookFault>
        ensures cut { OnOk result (self.new ≡ with_all_cut self.old) }
        ensures entries { IfOk result (λ cut. map numbered_entry cut.entries.items
            ≡ self.old.entries) }
        ensures base { IfOk result (λ cut. IsKept (S.is_base N.setting) N.setting self.old.cut
            cut.base) }
        ensures idle { OnOk result (self.old.in_hand ≡ 0) }
        ensures fault { IfErr result (λ fault. fault ≡ cut_fault self.old.in_hand) }
        ensures unchanged { OnErr result (self.new ≡ self.old) }
    {
        let lent = self.in_hand.len();
        if lent > 0 {
            return Err(BookFault::InHand(lent as u64));
        }
        match self.space.copy() {
            Ok(base) => Ok(self.cut_off(alloc, base)),
            Err(_) => Err(BookFault::Memory),
        }
    }

    // Cuts all entries at a state of which this is a copy, while no task is in hand.
    fn cut_off(&mut self, alloc: Global, base: S::Base) -> Segment<S>
        requires idle { self.old.in_hand ≡ 0 }
        requires base { S.is_base N.setting (state_in N.setting self.old) base }
        ensures cut { self.new ≡ with_all_cut self.old }
        ensures entries { map numbered_entry result.entries.items ≡ self.old.entries }
        ensures base { IsKept (S.is_base N.setting) N.setting self.old.cut result.base }
    {
        let past = Ghost::of::<History<N, S>, AllEntries>(self);
        let before = Ghost::of::<History<N, S>, WhatWaits>(self);
        let cut = self.cut + self.entries.len() as u64;
        let limit = limit_after(cut, self.limit);
        self.cut = cut;
        self.limit = limit;
        self.past = past;
        self.before = before;
        let base = mem::replace(&mut self.base, Some(base));
        let entries = mem::replace(&mut self.entries, Vec::new(alloc));
        Segment { base, entries }
    }
}
