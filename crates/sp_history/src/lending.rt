//! Tasks that are lent, and what is done with them.

ghost use Rattle.std.specs.Prelude.{◌≡◌, false, true, IfErr, IfOk, OnErr, OnOk};
ghost use Rattle.sp_history.specs.Entries.{entry_of};
ghost use Rattle.sp_history.specs.Logs.{back, entered, is_full, state_in, with_one_lent};
ghost use Rattle.sp_history.specs.declared.fault.BookFault.TheVariants.{Core, BookFull};
ghost use Rattle.sp_history.specs.declared.fault.Unlent.TheVariants as unlent;
ghost use Rattle.sp_events.specs.declared.fault.CoreFault.TheVariants.{NotLent};
ghost use Rattle.sp_lender.specs.Hands.{IsHistorys};
ghost use Rattle.sp_rules.specs.Behaviours as replies;
ghost use Rattle.sp_rules.specs.Books.{OnCommit, OnFinish, OnGiveBack, OnPark};
ghost use Rattle.sp_rules.specs.State.{ready_at};
ghost use Rattle.sp_tasks.specs.Behaviours.{op_of};
ghost use Rattle.sp_tasks.specs.Rows.{replied_hand};

use crate::entry::{Call, Entry};
use crate::fault::{BookFault, Unlent};
use crate::history::History;
use crate::naming::Setup;
use crate::notices::{announce, announce_all, without_ready};
use crate::twice::Twice;
use sp_events::CoreFault;
use sp_lender::{InHand, Lender};
use sp_tasks::Op;

impl<N: Setup, S: Lender + Drop> History<N, S> {
    /// Lends a task that may go on, and keeps the room for the entry and the outputs with which it comes
    /// back. If it is full, or memory runs out, a notice of the task waits.
    pub fn lend(&mut self, task: u64) -> Result<S::Task, Unlent>
        ensures lent { OnOk result (self.new ≡ with_one_lent self.old) }
        ensures id { IfOk result (λ lent. (S.Task.hand lent).id ≡ task) }
        ensures made { IfOk result (λ lent. (S.Task.hand lent).made ≡ 0) }
        ensures of { IfOk result (λ lent. S.Task.is_of N.setting lent) }
        ensures historys { IfOk result (λ lent. IsHistorys (ready_at (state_in N.setting self.old) task) (S.Task.hand lent)) }
        ensures unchanged { OnErr result (self.new ≡ self.old) }
        ensures full { IfErr result (λ why. why ≡ unlent.BookFull → is_full self.old ≡ true) }
    {
        let lent = self.in_hand.len();
        if self.limit - self.entries.len() <= lent {
            self.remind(task);
            return Err(Unlent::BookFull);
        }
        if self.entries.reserve(lent + 1).is_err()
            || self.waiting.reserve(lent + 1).is_err()
            || self.in_hand.reserve(1).is_err()
            || self.space.reserve().is_err()
        {
            self.remind(task);
            return Err(Unlent::Memory);
        }
        let Some(hand) = self.space.lend(task) else {
            return Err(Unlent::NotReady);
        };
        self.in_hand.push_reserved(task);
        Ok(hand)
    }

    /// A notice waits of a task that could not be lent.
    pub fn remind(&mut self, task: u64)
        ensures { self.new ≡ self.old }
    {
        announce(&mut self.notices, task);
    }

    /// Does the operation on the store at which a task in hand stands, gives the task the reply, enters
    /// both, and answers the call for the list of who calls.
    pub fn commit(&mut self, by: u32, task: &mut S::Task, op: Twice<Op>) -> Result<Call, BookFault>
        requires { S.Task.is_of N.setting task.old }
        ensures entered { IfOk result (λ call. self.new ≡ entered N.setting by (entry_of call) self.old) }
        ensures call { IfOk result (λ call. (reply : replies.Reply) × (entry_of call ≡ OnCommit (S.Task.hand task.old).id (S.Task.hand task.old).made (op_of op) reply) × (S.Task.hand task.new ≡ replied_hand reply (S.Task.hand task.old))) }
        ensures of { S.Task.is_of N.setting task.new }
        ensures historys { OnOk result (IsHistorys (ready_at (state_in N.setting self.old) (S.Task.hand task.old).id) (S.Task.hand task.old)) }
        ensures room { OnOk result (is_full self.old ≡ false) }
        ensures full { IfErr result (λ fault. fault ≡ BookFull → is_full self.old ≡ true) }
        ensures unchanged { OnErr result (self.new ≡ self.old) }
        ensures kept { OnErr result (S.Task.hand task.new ≡ S.Task.hand task.old) }
    {
        let lent = self.in_hand.len();
        if self.limit - self.entries.len() <= lent {
            return Err(BookFault::BookFull);
        }
        if self.entries.reserve(lent + 1).is_err() {
            return Err(BookFault::Memory);
        }
        let id = task.id();
        let steps = task.made();
        match self.space.commit(task, op.get()) {
            Ok((reply, copy)) => {
                let (op, same) = op.into_both();
                self.entries.push_reserved(Entry {
                    by,
                    call: Call::Commit {
                        task: id,
                        steps,
                        op,
                        reply: copy,
                    },
                });
                Ok(Call::Commit {
                    task: id,
                    steps,
                    op: same,
                    reply,
                })
            }
            Err(fault) => Err(BookFault::of(fault)),
        }
    }

    /// Lets a task in hand wait for the reply to the call at which it stands, which is the operation that is
    /// told, enters it, and answers the call for the list of who calls.
    pub fn park(
        &mut self,
        by: u32,
        task: S::Task,
        op: Twice<Op>,
    ) -> Result<Call, (S::Task, BookFault)>
        requires { S.Task.is_of N.setting task }
        ensures entered { OnOk result (self.new ≡ back (entered N.setting by (OnPark (S.Task.hand task).id (S.Task.hand task).made (op_of op)) self.old)) }
        ensures call { IfOk result (λ call. entry_of call ≡ OnPark (S.Task.hand task).id (S.Task.hand task).made (op_of op)) }
        ensures historys { OnOk result (IsHistorys (ready_at (state_in N.setting self.old) (S.Task.hand task).id) (S.Task.hand task)) }
        ensures unchanged { OnErr result (self.new ≡ self.old) }
        ensures kept { IfErr result (λ refused. S.Task.hand refused.0 ≡ S.Task.hand task) }
        ensures of { IfErr result (λ refused. S.Task.is_of N.setting refused.0) }
    {
        let id = task.id();
        let steps = task.made();
        let Some(at) = self.in_hand.iter().position(|x| *x == id) else {
            return Err((task, BookFault::Core(CoreFault::NotLent)));
        };
        match self.space.park(task) {
            Ok(outputs) => {
                let (op, same) = op.into_both();
                announce_all(&mut self.notices, outputs.as_slice());
                let batch = without_ready(outputs);
                self.in_hand.swap_remove(at);
                self.entries.push_reserved(Entry {
                    by,
                    call: Call::Park {
                        task: id,
                        steps,
                        op,
                    },
                });
                self.waiting.push_reserved(batch);
                Ok(Call::Park {
                    task: id,
                    steps,
                    op: same,
                })
            }
            Err((task, fault)) => Err((task, BookFault::of(fault))),
        }
    }

    /// Takes a task in hand back, enters that, and answers the call for the list of who calls. A notice of
    /// the task waits. It takes no memory.
    pub fn give_back(&mut self, by: u32, task: S::Task) -> Result<Call, (S::Task, BookFault)>
        requires { S.Task.is_of N.setting task }
        ensures entered { OnOk result (self.new ≡ back (entered N.setting by (OnGiveBack (S.Task.hand task).id (S.Task.hand task).made) self.old)) }
        ensures call { IfOk result (λ call. entry_of call ≡ OnGiveBack (S.Task.hand task).id (S.Task.hand task).made) }
        ensures historys { OnOk result (IsHistorys (ready_at (state_in N.setting self.old) (S.Task.hand task).id) (S.Task.hand task)) }
        ensures fault { IfErr result (λ refused. refused.1 ≡ Core NotLent) }
        ensures unchanged { OnErr result (self.new ≡ self.old) }
        ensures kept { IfErr result (λ refused. S.Task.hand refused.0 ≡ S.Task.hand task) }
        ensures of { IfErr result (λ refused. S.Task.is_of N.setting refused.0) }
    {
        let id = task.id();
        let steps = task.made();
        let Some(at) = self.in_hand.iter().position(|x| *x == id) else {
            return Err((task, BookFault::Core(CoreFault::NotLent)));
        };
        match self.space.give_back(task) {
            Ok(()) => {
                announce(&mut self.notices, id);
                self.in_hand.swap_remove(at);
                self.entries.push_reserved(Entry {
                    by,
                    call: Call::GiveBack { task: id, steps },
                });
                Ok(Call::GiveBack { task: id, steps })
            }
            Err((task, fault)) => Err((task, BookFault::of(fault))),
        }
    }

    /// Lets a task in hand go that has ended, enters that, and answers the call for the list of who calls,
    /// with what is left of the task.
    pub fn finish(
        &mut self,
        by: u32,
        task: S::Task,
    ) -> Result<(Call, S::Rest), (S::Task, BookFault)>
        requires { S.Task.is_of N.setting task }
        ensures entered { OnOk result (self.new ≡ back (entered N.setting by (OnFinish (S.Task.hand task).id (S.Task.hand task).made) self.old)) }
        ensures call { IfOk result (λ ended. entry_of ended.0 ≡ OnFinish (S.Task.hand task).id (S.Task.hand task).made) }
        ensures historys { OnOk result (IsHistorys (ready_at (state_in N.setting self.old) (S.Task.hand task).id) (S.Task.hand task)) }
        ensures unchanged { OnErr result (self.new ≡ self.old) }
        ensures kept { IfErr result (λ refused. S.Task.hand refused.0 ≡ S.Task.hand task) }
        ensures of { IfErr result (λ refused. S.Task.is_of N.setting refused.0) }
    {
        let id = task.id();
        let steps = task.made();
        let Some(at) = self.in_hand.iter().position(|x| *x == id) else {
            return Err((task, BookFault::Core(CoreFault::NotLent)));
        };
        match self.space.finish(task) {
            Ok((outputs, rest)) => {
                announce_all(&mut self.notices, outputs.as_slice());
                let batch = without_ready(outputs);
                self.in_hand.swap_remove(at);
                self.entries.push_reserved(Entry {
                    by,
                    call: Call::Finish { task: id, steps },
                });
                self.waiting.push_reserved(batch);
                Ok((Call::Finish { task: id, steps }, rest))
            }
            Err((task, fault)) => Err((task, BookFault::of(fault))),
        }
    }
}
