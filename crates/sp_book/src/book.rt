//! The lock, and the calls that take it.

ghost use Rattle.std.specs.Prelude.{ℕ, ◌≡◌, [], true, Some, IfErr, IfNone, IfOk, IfSome, OnErr, OnOk};
ghost use Rattle.sp_book.specs.Passes.{Adds, Holds, IsSame, Returns, has};
ghost use Rattle.sp_events.specs.declared.fault.CoreFault.TheVariants.{NotLent};
ghost use Rattle.sp_history.specs.Entries.{event_of_input};
ghost use Rattle.sp_history.specs.Faults.{cut_fault};
ghost use Rattle.sp_history.specs.Frames.{unsent_with};
ghost use Rattle.sp_history.specs.declared.fault.BookFault.TheVariants.{BookFull, Core};
ghost use Rattle.sp_ready.specs.Notices.{Took, newcomer};
ghost use Rattle.sp_rules.specs.Behaviours as replies;
ghost use Rattle.sp_rules.specs.Books.{OnCommit, OnEvent, OnFinish, OnGiveBack, OnPark};
ghost use Rattle.sp_rules.specs.Events.{WriteFailed};
ghost use Rattle.sp_tasks.specs.Behaviours.{op_of};
ghost use Rattle.sp_tasks.specs.Rows.{replied_hand};

use crate::lent::Lent;
use crate::locked::Locked;
use crate::naming::Naming;
use crate::pass::Pass;
use crossbeam_utils::sync::{EventCount, Key};
use sp_history::{BookFault, Input, Twice, Unlent};
use sp_lender::Lender;
use sp_outputs::Output;
use sp_ready::{Queue, take};
use sp_tasks::Op;
use std::alloc::{AllocError, Global};
use std::sync::{Mutex, Wait};

/// A space and its history behind one lock, with the queue of ready tasks and the bell of workers that
/// sleep beside it. Threads share it, each with a pass of its own.
///
/// Each accepted call of a pass enters one entry in the history, and the same one in the list of the pass.
/// Whenever the lock is free, the history replays, from the state at the last checkpoint, to the state of the
/// space, and the outputs that wait are an end of those that waited there and those that it answers. No lock is held while a task makes instructions of its own.
#[derive(Drop)]
pub struct Book<N: Naming, S: Lender + Drop> {
    pub(crate) locked: Mutex<Locked<N, S>>,
    pub(crate) queue: Queue,
    pub(crate) bell: EventCount,
    pub ghost queue_is: { queue.table.shared.table_id ≡ N.table },
}

impl<N: Naming, S: Lender + Drop> Book<N, S> {
    /// A pass for one thread more. None once 2^32 - 1 were made.
    pub fn pass<R: Wait>(&self, rt: &R, alloc: Global) -> Option<Pass<N>>
        ensures calls { IfSome result (λ pass. pass.calls ≡ []) }
        ensures hand { IfSome result (λ pass. pass.hand ≡ []) }
        ensures known { IfSome result (λ pass. pass.known ≡ newcomer) }
    {
        let mut guard = self.locked.lock(rt);
        let locked = &mut *guard;
        locked.pass(alloc, &self.queue)
    }

    /// Lets it happen to the space. A full book comes first, then out of memory, then what the space refuses.
    /// What a full book refuses is handed back.
    pub fn on<R: Wait>(
        &self,
        rt: &R,
        alloc: Global,
        pass: &mut Pass<N>,
        input: Input,
    ) -> Result<(), (BookFault, Option<Input>)>
        ensures listed { OnOk result (Adds (OnEvent (event_of_input input)) pass.old pass.new) }
        ensures kept { OnErr result (IsSame pass.old pass.new) }
        ensures back { IfErr result (λ refused. refused.0 ≡ BookFull → refused.1 ≡ Some input) }
    {
        let mut guard = self.locked.lock(rt);
        let locked = &mut *guard;
        let done = locked.on(alloc, pass, input);
        let told = locked.tell(done.is_ok(), &self.queue);
        drop(guard);
        self.wake(told);
        match done {
            Ok(()) => Ok(()),
            Err((fault, left)) => Err((fault, left.into_whole())),
        }
    }

    /// Takes the oldest notice: the id of a task that may go on. It takes no lock.
    pub fn next<R: Wait>(&self, rt: &R, pass: &mut Pass<N>) -> Option<u64>
        ensures taken { IfSome result (λ task. Took pass.old.known task pass.new.known) }
        ensures none { IfNone result (pass.new.known ≡ pass.old.known) }
        ensures same { (pass.new.number ≡ pass.old.number) × (pass.new.calls ≡ pass.old.calls) × (pass.new.hand ≡ pass.old.hand) }
    {
        take(rt, &self.queue, &mut pass.seat)
    }

    /// Lends a task that may go on, and keeps the room with which it comes back. A task that a full book
    /// refuses, or for which memory ran out, gets a new notice with the next call that the book takes.
    pub fn lend<R: Wait>(&self, rt: &R, pass: &mut Pass<N>, task: u64) -> Result<Lent<N, S>, Unlent>
        ensures id { IfOk result (λ lent. lent.id ≡ task) }
        ensures made { IfOk result (λ lent. lent.made ≡ 0) }
        ensures holds { OnOk result (Holds task pass.old pass.new) }
        ensures kept { OnErr result (IsSame pass.old pass.new) }
    {
        let mut guard = self.locked.lock(rt);
        let locked = &mut *guard;
        let lent = locked.lend(pass, task);
        let taken = !matches!(lent, Err(Unlent::BookFull | Unlent::Memory));
        let told = locked.tell(taken, &self.queue);
        drop(guard);
        self.wake(told);
        lent
    }

    /// Does the operation on the store at which a task in hand stands, and gives the task the reply. A full
    /// book comes first, then out of memory, then what the space refuses.
    pub fn commit<R: Wait>(
        &self,
        rt: &R,
        pass: &mut Pass<N>,
        lent: &mut Lent<N, S>,
        op: Twice<Op>,
    ) -> Result<(), BookFault>
        ensures listed { OnOk result ((reply : replies.Reply) × Adds (OnCommit lent.old.id lent.old.made (op_of op) reply) pass.old pass.new × (lent.new ≡ replied_hand reply lent.old)) }
        ensures kept { OnErr result (IsSame pass.old pass.new) }
        ensures task { OnErr result (lent.new ≡ lent.old) }
    {
        let mut guard = self.locked.lock(rt);
        let locked = &mut *guard;
        let done = locked.commit(pass, lent, op);
        let told = locked.tell(done.is_ok(), &self.queue);
        drop(guard);
        self.wake(told);
        done
    }

    /// Lets a task in hand wait for the reply to the call at which it stands.
    pub fn park<R: Wait>(
        &self,
        rt: &R,
        pass: &mut Pass<N>,
        lent: Lent<N, S>,
        op: Twice<Op>,
    ) -> Result<(), (Lent<N, S>, BookFault)>
        requires { has lent.id pass.old.hand ≡ true }
        ensures listed { OnOk result (Returns lent.id (OnPark lent.id lent.made (op_of op)) pass.old pass.new) }
        ensures kept { OnErr result (IsSame pass.old pass.new) }
        ensures task { IfErr result (λ refused. refused.0 ≡ lent) }
    {
        let mut guard = self.locked.lock(rt);
        let locked = &mut *guard;
        let done = locked.park(pass, lent, op);
        let told = locked.tell(done.is_ok(), &self.queue);
        drop(guard);
        self.wake(told);
        done
    }

    /// Gives a task in hand back: it may go on, and a notice of it waits. It meets neither a full book nor
    /// want of memory.
    pub fn give_back<R: Wait>(
        &self,
        rt: &R,
        pass: &mut Pass<N>,
        lent: Lent<N, S>,
    ) -> Result<(), (Lent<N, S>, BookFault)>
        requires { has lent.id pass.old.hand ≡ true }
        ensures listed { OnOk result (Returns lent.id (OnGiveBack lent.id lent.made) pass.old pass.new) }
        ensures fault { IfErr result (λ refused. refused.1 ≡ Core NotLent) }
        ensures kept { OnErr result (IsSame pass.old pass.new) }
        ensures task { IfErr result (λ refused. refused.0 ≡ lent) }
    {
        let mut guard = self.locked.lock(rt);
        let locked = &mut *guard;
        let done = locked.give_back(pass, lent);
        let told = locked.tell(done.is_ok(), &self.queue);
        drop(guard);
        self.wake(told);
        done
    }

    /// Lets a task in hand go that has ended. What is left of it is let go after the lock.
    pub fn finish<R: Wait>(
        &self,
        rt: &R,
        pass: &mut Pass<N>,
        lent: Lent<N, S>,
    ) -> Result<(), (Lent<N, S>, BookFault)>
        requires { has lent.id pass.old.hand ≡ true }
        ensures listed { OnOk result (Returns lent.id (OnFinish lent.id lent.made) pass.old pass.new) }
        ensures kept { OnErr result (IsSame pass.old pass.new) }
        ensures task { IfErr result (λ refused. refused.0 ≡ lent) }
    {
        let mut guard = self.locked.lock(rt);
        let locked = &mut *guard;
        let done = locked.finish(pass, lent);
        let told = locked.tell(done.is_ok(), &self.queue);
        drop(guard);
        self.wake(told);
        match done {
            Ok(rest) => {
                drop(rest);
                Ok(())
            }
            Err(refused) => Err(refused),
        }
    }

    /// Takes all outputs that wait, a batch for each event, in the order of the history; a Ready is no
    /// output, but a notice. Nothing changes at out of memory.
    pub fn outputs<R: Wait>(&self, rt: &R, alloc: Global) -> Result<Vec<Vec<Output>>, AllocError> {
        let mut guard = self.locked.lock(rt);
        let locked = &mut *guard;
        locked.history.outputs(alloc)
    }

    /// Lets a write that failed on a connection happen to the space. So many of the last frames that were
    /// handed to the connection were not sent; the frames for it that wait here are counted in.
    pub fn fail_write<R: Wait>(
        &self,
        rt: &R,
        alloc: Global,
        pass: &mut Pass<N>,
        conn: u64,
        unsent: u64,
    ) -> Result<(), BookFault>
        ensures listed { OnOk result ((waiting : ℕ) × Adds (OnEvent (WriteFailed conn (unsent_with unsent waiting))) pass.old pass.new) }
        ensures kept { OnErr result (IsSame pass.old pass.new) }
    {
        let mut guard = self.locked.lock(rt);
        let locked = &mut *guard;
        let done = locked.fail_write(alloc, pass, conn, unsent);
        let told = locked.tell(done.is_ok(), &self.queue);
        drop(guard);
        self.wake(told);
        done
    }

    /// Cuts all entries of the history, and answers how many they were. It keeps a copy of the state of the
    /// space, from which the entries that come replay; that is all the room that it takes. Outputs that wait
    /// stay. InHand comes while tasks are in hand, and Memory where there is no room for the copy; then nothing
    /// changes.
    pub fn checkpoint<R: Wait>(&self, rt: &R, alloc: Global) -> Result<u64, BookFault>
        ensures { IfErr result (λ fault. (in_hand : ℕ) × (fault ≡ cut_fault in_hand)) }
    {
        let mut guard = self.locked.lock(rt);
        let locked = &mut *guard;
        let done = locked.checkpoint(alloc);
        let told = locked.tell(done.is_ok(), &self.queue);
        drop(guard);
        self.wake(told);
        match done {
            Ok(cut) => Ok(cut.entries.len() as u64),
            Err(fault) => Err(fault),
        }
    }

    /// Announces that a worker looks for a notice, and sleeps if there is none. It waits by the key, or drops
    /// it. A notice that comes after this call, and a ring, end its sleep.
    pub fn watch(&self) -> Key<'_> {
        self.bell.prepare_wait()
    }

    /// Wakes all workers that sleep: they look whether they are to stop.
    pub fn ring(&self) {
        self.bell.notify_all();
    }

    // Wakes a worker for each notice that was put into the queue, if one sleeps.
    fn wake(&self, told: u64) {
        for _ in 0..told {
            self.bell.notify_one();
        }
    }
}
