//! Replies to tasks that wait, and ends of lookups.

ghost use Rattle.std.specs.Prelude.{◌≡◌, Some, OnOk, drop, length};
ghost use Rattle.sp_requests.specs.Asking.{asks_by, first_of};
ghost use Rattle.sp_rules.specs.Classes.{Setting};
ghost use Rattle.sp_rules.specs.LivingTasks.{keep_result, outcome_of as outcome_in, reply_task, reply_to};
ghost use Rattle.sp_rules.specs.References.{references_in, with_references};
ghost use Rattle.sp_rules.specs.ParkedFrames.{answer_parked};
ghost use Rattle.sp_rules.specs.State.{Asked as Question, ParkedFrame as Row, RootAcked, State, say};
ghost use Rattle.sp_rules.specs.Events.{Ended};
ghost use Rattle.sp_tasks.specs.Behaviours.{outcome_of, reply_of};
ghost use Rattle.sp_tasks.specs.Lent.{KeepsLent};
ghost use Rattle.sp_tasks.specs.Rows.{value_given};
ghost use Rattle.sp_living.specs.Holding.{listed};

use crate::Living;
use sp_outputs::Output;
use sp_requests::Asker;
use sp_tasks::{Outcome, Reply, copy_outcome, copy_reply};
use space_ids::{Ref, Value};
use std::alloc::AllocError;

impl Living {
    ghost use Rattle.sp_living.specs.Holding.{held_at};
    ghost use Rattle.sp_living.specs.Livings.{IsLiving};

    /// Gives who asked by a call or lookup its reply: the call's task goes on with it, and the lookup ends.
    pub fn reply_to(&mut self, asker: Asker, reply: Reply) -> Result<(), AllocError>
        ensures replied { OnOk result ((g : Setting) (s : State) (question : Question) → IsLiving g s self.old → first_of (asks_by question) ≡ Some asker → IsLiving g (reply_to g question (reply_of reply) s) self.new) }
        ensures lent { OnOk result (KeepsLent self.old.tasks self.new.tasks) }
    {
        match asker {
            Asker::Call {
                task,
                lent: _,
                kind: _,
            } => self.reply_task(task, reply),
            Asker::Lookup { task } => self.end_lookup(task, outcome_with(reply)),
        }
    }

    /// Gives a task the reply to its call: it holds the reference in it too, and may go on. Nothing happens
    /// if no such task lives. A task that asked waits (law `waiting_tasks_have_one_call`).
    pub fn reply_task(&mut self, id: u64, reply: Reply) -> Result<(), AllocError>
        ensures replied { OnOk result ((g : Setting) (s : State) → IsLiving g s self.old → IsLiving g (reply_task g id (reply_of reply) s) self.new) }
        ensures lent { OnOk result (KeepsLent self.old.tasks self.new.tasks) }
    {
        if self.tasks.origin(id).is_none() {
            return Ok(());
        }
        if !self.tasks.waits(id) {
            return Err(AllocError);
        }
        let gained = self.gained(id, &reply);
        let copy = copy_reply(self.alloc, &reply)?;
        self.tasks.answer_reserved(id, reply, copy);
        self.hold_found(gained)?;
        self.say(Output::Ready(id))
    }

    // Ends a lookup of the space's own so: its result, if it has one, is held until it is acknowledged.
    fn end_lookup(&mut self, task: u64, outcome: Outcome) -> Result<(), AllocError>
        ensures ended { OnOk result ((g : Setting) (s : State) → IsLiving g s self.old → IsLiving g (keep_result g (RootAcked task) (outcome_of outcome) (say (Ended task (outcome_of outcome)) s)) self.new) }
        ensures tasks { self.new.tasks ≡ self.old.tasks }
    {
        let told = copy_outcome(self.alloc, &outcome)?;
        self.say(Output::Ended(task, told))?;
        self.keep_root_outcome(task, outcome)
    }

    /// Holds the result with which a root or lookup of the space's own ends, if it returned, until it is
    /// acknowledged.
    pub fn keep_root_outcome(&mut self, task: u64, outcome: Outcome) -> Result<(), AllocError>
        ensures kept { OnOk result ((g : Setting) (s : State) → IsLiving g s self.old → IsLiving g (keep_result g (RootAcked task) (outcome_of outcome) s) self.new) }
        ensures tasks { self.new.tasks ≡ self.old.tasks }
    {
        match outcome {
            Outcome::Returned(value) => self.keep_root(task, value),
            Outcome::Threw(_) => Ok(()),
            Outcome::Spent => Ok(()),
        }
    }

    /// Acknowledges a result that was parked under this connection and number, and gives who asked the reply.
    /// Nothing happens if nobody asks by it. It came on a connection that this space dialled (law
    /// `answers_are_parked`).
    pub fn answer_parked(&mut self, conn: u64, number: u64, reply: Reply) -> Result<(), AllocError>
        ensures answered { OnOk result ((g : Setting) (s : State) (p : Row) → IsLiving g s self.old → p.conn ≡ conn → p.number ≡ number → IsLiving g (answer_parked g p (reply_of reply) s) self.new) }
        ensures lent { OnOk result (KeepsLent self.old.tasks self.new.tasks) }
    {
        if !self.is_dialled(conn) {
            return Err(AllocError);
        }
        self.transport.reserve_notes(1)?;
        match self.transport.acknowledge_reserved(conn, number) {
            Some(asker) => self.reply_to(asker, reply),
            None => Ok(()),
        }
    }

    // The reference in a reply, if there is one and the task does not hold it.
    pub(crate) fn gained(&self, id: u64, reply: &Reply) -> Option<Ref>
        ensures { listed result ≡ drop (length (held_at id self.now)) (with_references (held_at id self.now) (references_in (value_given (reply_of reply.now)))) }
    {
        match reply {
            Reply::Gives(Some(Value::Ref(reference)))
            | Reply::GivesBack {
                value: Some(Value::Ref(reference)),
                fuel: _,
            } if !self.holds(id, reference) => Some(*reference),
            _ => None,
        }
    }
}

// How a lookup ends that is given this reply.
fn outcome_with(reply: Reply) -> Outcome
    ensures { outcome_of result ≡ outcome_in (reply_of reply) }
{
    match reply {
        Reply::Gives(value) => Outcome::Returned(value),
        Reply::GivesBack { value, fuel: _ } => Outcome::Returned(value),
        Reply::Throws(class) => Outcome::Threw(class),
        Reply::RunsOut => Outcome::Spent,
    }
}
