//! A task in hand.

ghost use Rattle.std.specs.Prelude.{◌≡◌, ◌+◌, ◌^◌, ◌<◌, ◌≤◌, true, false, IfOk, OnOk, OnErr};
ghost use Rattle.sp_tasks.specs.Behaviours.{reply_of};
ghost use Rattle.sp_tasks.specs.Rows.{replied_hand, roomy_hand};

use crate::{Record, Reply};
use std::alloc::{AllocError, Global};
use std::marker::Model;

/// A task that a core lends, beside its machine: its id, its record and its own instructions as it was
/// lent, the instructions that its machine made since, and whether its record has room for the reply to
/// its next call.
#[derive(Drop)]
pub struct LentTask {
    id: u64,
    past: Record,
    steps: u64,
    made: u64,
    room: bool,
}

impl Model for LentTask {
    ghost use Rattle.std.specs.Prelude.{◌≡◌, ◌+◌, ◌^◌, ◌<◌, true};
    ghost use Rattle.sp_tasks.specs.Rows.{Hand};

    ghost Value = { Hand };

    ghost view = { λ task. record { id = task.id; past = task.past.past; steps = task.steps; made = task.made; room = task.room } };

    ghost invariant = { λ task. (task.steps + task.made < 2 ^ 64) × (task.room ≡ true → 0 < task.past.room) };
}

impl LentTask {
    // The task of this id and record, after this number of instructions since its last reply.
    pub(crate) fn new(id: u64, past: Record, steps: u64) -> LentTask
        ensures { result ≡ record { id = id; past = past.past; steps = steps; made = 0; room = false } }
    {
        LentTask {
            id,
            past,
            steps,
            made: 0,
            room: false,
        }
    }

    /// The same task in hand. It costs a step for each entry of its record.
    pub fn copy(&self, alloc: Global) -> Result<LentTask, AllocError>
        ensures { IfOk result (λ copy. copy ≡ self.now) }
    {
        Ok(LentTask {
            id: self.id,
            past: self.past.copy(alloc)?,
            steps: self.steps,
            made: self.made,
            room: self.room,
        })
    }

    /// Its id.
    pub fn id(&self) -> u64
        ensures { result ≡ self.now.id }
    {
        self.id
    }

    /// Its record, as it was lent or as the last reply left it.
    pub fn record(&self) -> &Record
        ensures { result.now.past ≡ self.now.past }
    {
        &self.past
    }

    /// How many instructions of its own it had made since its last reply as it was lent.
    pub fn steps(&self) -> u64
        ensures { result ≡ self.now.steps }
    {
        self.steps
    }

    /// How many instructions of its own it made since it was lent or given a reply.
    pub fn made(&self) -> u64
        ensures result { result ≡ self.now.made }
        ensures fits { self.now.steps + self.now.made < 2 ^ 64 }
    {
        self.made
    }

    /// Adds to the instructions that its machine has made.
    pub fn ran(&mut self, made: u64)
        requires { self.old.steps + self.old.made + made < 2 ^ 64 }
        ensures { self.new ≡ record self.old { made = self.old.made + made } }
    {
        self.made += made;
    }

    /// Takes the instructions back that its machine made since it was lent or given a reply.
    pub fn undo(&mut self)
        ensures { self.new ≡ record self.old { made = 0 } }
    {
        self.made = 0;
    }

    // Its record, which has room for a reply if the task has.
    pub(crate) fn into_record(self) -> Record
        ensures past { result.past ≡ self.past }
        ensures room { self.room ≡ true → 0 < result.room }
    {
        let LentTask {
            id: _,
            past,
            steps: _,
            made: _,
            room: _,
        } = self;
        past
    }

    // Makes room for the reply to its next call. At out of memory nothing happens.
    pub(crate) fn reserve(&mut self) -> Result<(), AllocError>
        ensures ok { OnOk result (self.new ≡ roomy_hand self.old) }
        ensures err { OnErr result (self.new ≡ self.old) }
    {
        self.past.reserve()?;
        self.room = true;
        Ok(())
    }

    // Enters a reply to an operation on the store, for which there is room. It takes no memory.
    pub(crate) fn enter_reserved(&mut self, reply: Reply)
        requires { self.old.room ≡ true }
        ensures { self.new ≡ replied_hand (reply_of reply) self.old }
    {
        self.past
            .enter_reserved(self.steps + self.made, false, reply);
        self.steps = 0;
        self.made = 0;
        self.room = false;
    }
}
