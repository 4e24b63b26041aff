//! What lies under the lock.

ghost use Rattle.std.specs.Prelude.{◌≡◌, ◌≤◌, [], IfErr, IfOk, IfSome, OnErr, OnOk, length, map};
ghost use Rattle.sp_book.specs.Passes.{Adds, Holds, IsSame};
ghost use Rattle.sp_history.specs.Entries.{event_of_input, numbered_entry};
ghost use Rattle.sp_history.specs.Faults.{cut_fault};
ghost use Rattle.sp_history.specs.Frames.{frames_on, unsent_with};
ghost use Rattle.sp_history.specs.Logs.{IsKept, entered, with_all_cut, with_one_lent};
ghost use Rattle.sp_history.specs.declared.fault.BookFault.TheVariants.{BookFull};
ghost use Rattle.sp_history.specs.declared.twice.Left.TheVariants.{Whole};
ghost use Rattle.sp_ready.specs.Notices.{newcomer};
ghost use Rattle.sp_rules.specs.Behaviours as replies;
ghost use Rattle.sp_rules.specs.Books.{OnCommit, OnEvent};
ghost use Rattle.sp_rules.specs.Events.{WriteFailed};
ghost use Rattle.sp_tasks.specs.Behaviours.{op_of};
ghost use Rattle.sp_tasks.specs.Rows.{replied_hand};

use crate::lent::Lent;
use crate::naming::Naming;
use crate::pass::Pass;
use crate::past::NoCalls;
use ghost_value::Ghost;
use sp_history::{BookFault, History, Input, Left, Segment, Twice, Unlent};
use sp_lender::Lender;
use sp_ready::{Queue, Seat, another_seat, put};
use sp_tasks::Op;
use std::alloc::Global;
use std::marker::{Model, PhantomData};
use std::sync::ledger::{Book as Tally, Share};

// How many notices are told at most as a call ends: as many as may wait.
const MOST: u64 = 8192;

/// What lies under the lock: the space with its history, the seat that puts notices into the queue, the
/// count of entries, and how many passes there are. A contract sees the history.
#[derive(Drop)]
pub struct Locked<N: Naming, S: Lender + Drop> {
    pub(crate) history: History<N, S>,
    pub(crate) writer: Seat,
    pub(crate) rest: Share<N>,
    pub(crate) tally: Tally<N>,
    pub(crate) passes: u32,
}

impl<N: Naming, S: Lender + Drop> Model for Locked<N, S> {
    ghost use Rattle.std.specs.Prelude.{◌≡◌, ◌+◌, ◌^◌, true, [], length};
    ghost use Rattle.crossbeam_queue.specs.Passes.{view as known_by};
    ghost use Rattle.sp_history.specs.Logs.{Log};

    ghost Value = { Log };

    ghost view = { λ s. s.history };

    ghost invariant = { λ s. ((s.writer.table_id ≡ N.table) × (s.writer.me.1 ≡ []))
        × (((known_by s.writer).pushes ≡ true) × ((known_by s.writer).taken ≡ []) × ((known_by s.writer).parts + s.passes ≡ 2 ^ 32))
        × (s.rest.parts + s.passes ≡ N.all)
        × (s.rest.amount ≡ 0)
        × (s.tally.total ≡ length s.history.cut + length s.history.entries)
        × (N.all ≡ 2 ^ 32) };
}

impl<N: Naming, S: Lender + Drop> Locked<N, S> {
    // Puts the notice that waits first into the queue. If there is no room, it waits on.
    fn tell_one(&mut self, queue: &Queue) -> bool
        requires { queue.now.table.shared.table_id ≡ N.table }
        ensures { self.new ≡ self.old }
    {
        let Some(notice) = self.history.first_notice() else {
            return false;
        };
        if put(queue, &mut self.writer, notice).is_err() {
            return false;
        }
        self.history.drop_notice();
        true
    }

    // After a call that was taken: puts notices that wait into the queue, the first one first, as long as
    // there is room, and answers how many.
    pub(crate) fn tell(&mut self, taken: bool, queue: &Queue) -> u64
        requires { queue.now.table.shared.table_id ≡ N.table }
        ensures { self.new ≡ self.old }
    {
        if !taken {
            return 0;
        }
        for told in 0..MOST {
            if !self.tell_one(queue) {
                return told;
            }
        }
        MOST
    }

    pub(crate) fn on(
        &mut self,
        alloc: Global,
        pass: &mut Pass<N>,
        input: Input,
    ) -> Result<(), (BookFault, Left<Input>)>
        ensures entered { OnOk result (self.new ≡ entered N.setting pass.old.number (OnEvent (event_of_input input)) self.old) }
        ensures listed { OnOk result (Adds (OnEvent (event_of_input input)) pass.old pass.new) }
        ensures since { OnOk result (length self.old.cut ≤ pass.new.since) }
        ensures unchanged { OnErr result (self.new ≡ self.old) }
        ensures kept { OnErr result (IsSame pass.old pass.new) }
        ensures back { IfErr result (λ refused. refused.0 ≡ BookFull → refused.1 ≡ Whole input) }
    {
        if self.history.is_full() {
            return Err((BookFault::BookFull, Left::Whole(input)));
        }
        if !pass.make_room() {
            return Err((BookFault::Memory, Left::Whole(input)));
        }
        match self.history.on(alloc, pass.number(), input) {
            Ok(call) => {
                let cut = self.history.cut();
                pass.enter(&mut self.tally, cut, call);
                Ok(())
            }
            Err(refused) => Err(refused),
        }
    }

    pub(crate) fn fail_write(
        &mut self,
        alloc: Global,
        pass: &mut Pass<N>,
        conn: u64,
        unsent: u64,
    ) -> Result<(), BookFault>
        ensures entered { OnOk result (self.new ≡ entered N.setting pass.old.number (OnEvent (WriteFailed conn (unsent_with unsent (frames_on conn self.old.waiting)))) self.old) }
        ensures listed { OnOk result (Adds (OnEvent (WriteFailed conn (unsent_with unsent (frames_on conn self.old.waiting)))) pass.old pass.new) }
        ensures unchanged { OnErr result (self.new ≡ self.old) }
        ensures kept { OnErr result (IsSame pass.old pass.new) }
    {
        if self.history.is_full() {
            return Err(BookFault::BookFull);
        }
        if !pass.make_room() {
            return Err(BookFault::Memory);
        }
        match self.history.fail_write(alloc, pass.number(), conn, unsent) {
            Ok(call) => {
                let cut = self.history.cut();
                pass.enter(&mut self.tally, cut, call);
                Ok(())
            }
            Err((fault, _)) => Err(fault),
        }
    }

    // A pass for one thread more. None if there is no number left.
    pub(crate) fn pass(&mut self, alloc: Global, queue: &Queue) -> Option<Pass<N>>
        requires { queue.now.table.shared.table_id ≡ N.table }
        ensures unchanged { self.new ≡ self.old }
        ensures calls { IfSome result (λ pass. pass.calls ≡ []) }
        ensures hand { IfSome result (λ pass. pass.hand ≡ []) }
        ensures known { IfSome result (λ pass. pass.known ≡ newcomer) }
    {
        if self.passes == u32::MAX {
            return None;
        }
        let number = self.passes;
        let seat = another_seat(queue, &mut self.writer);
        let share = self.rest.split_off(1, 0);
        self.passes += 1;
        Some(Pass {
            number,
            list: Vec::new(alloc),
            older: 0,
            since: 0,
            past: Ghost::of::<(), NoCalls>(&()),
            hand: Vec::new(alloc),
            share,
            seat,
        })
    }

    pub(crate) fn lend(&mut self, pass: &mut Pass<N>, task: u64) -> Result<Lent<N, S>, Unlent>
        ensures lent { OnOk result (self.new ≡ with_one_lent self.old) }
        ensures id { IfOk result (λ lent. lent.id ≡ task) }
        ensures made { IfOk result (λ lent. lent.made ≡ 0) }
        ensures holds { OnOk result (Holds task pass.old pass.new) }
        ensures unchanged { OnErr result (self.new ≡ self.old) }
        ensures kept { OnErr result (IsSame pass.old pass.new) }
    {
        if pass.list.reserve(pass.hand.len() + 1).is_err() || pass.hand.reserve(1).is_err() {
            self.history.remind(task);
            return Err(Unlent::Memory);
        }
        match self.history.lend(task) {
            Ok(lent) => {
                pass.hand.push_reserved(task);
                Ok(Lent {
                    task: lent,
                    name: PhantomData,
                })
            }
            Err(why) => Err(why),
        }
    }

    // It answers what is cut, so that it is let go without the lock.
    pub(crate) fn checkpoint(&mut self, alloc: Global) -> Result<Segment<S>, BookFault>
        ensures cut { OnOk result (self.new ≡ with_all_cut self.old) }
        ensures entries { IfOk result (λ cut. map numbered_entry cut.entries.items
            ≡ self.old.entries) }
        ensures base { IfOk result (λ cut. IsKept (S.is_base N.setting) N.setting self.old.cut
            cut.base) }
        ensures idle { OnOk result (self.old.in_hand ≡ 0) }
        ensures fault { IfErr result (λ fault. fault ≡ cut_fault self.old.in_hand) }
        ensures unchanged { OnErr result (self.new ≡ self.old) }
    {
        self.history.checkpoint(alloc)
    }

    pub(crate) fn commit(
        &mut self,
        pass: &mut Pass<N>,
        lent: &mut Lent<N, S>,
        op: Twice<Op>,
    ) -> Result<(), BookFault>
        ensures entered { OnOk result ((reply : replies.Reply)
            × (self.new ≡ entered N.setting pass.old.number (OnCommit lent.old.id lent.old.made (op_of op) reply) self.old)
            × Adds (OnCommit lent.old.id lent.old.made (op_of op) reply) pass.old pass.new
            × (lent.new ≡ replied_hand reply lent.old)) }
        ensures unchanged { OnErr result (self.new ≡ self.old) }
        ensures kept { OnErr result (IsSame pass.old pass.new) }
        ensures task { OnErr result (lent.new ≡ lent.old) }
    {
        if self.history.is_full() {
            return Err(BookFault::BookFull);
        }
        if !pass.make_room() {
            return Err(BookFault::Memory);
        }
        match self.history.commit(pass.number(), &mut lent.task, op) {
            Ok(call) => {
                let cut = self.history.cut();
                pass.enter(&mut self.tally, cut, call);
                Ok(())
            }
            Err(refused) => Err(refused),
        }
    }
}
