//! The record of a living task.

ghost use Rattle.std.specs.Prelude.{◌≡◌, ◌<◌, ◌≤◌, [], IfOk, OnOk, length, option_map, slice_get};
ghost use Rattle.sp_rules.specs.State as rules;
ghost use Rattle.sp_tasks.specs.Behaviours.{reply_of};
ghost use Rattle.sp_tasks.specs.Recorded.{with_entry};
ghost use Rattle.sp_tasks.specs.Same.{is_recorded};

use crate::Reply;
use crate::copies::copy_reply;
use crate::same::{same_givens, same_values};
use space_ids::{Row, Value};
use std::alloc::{AllocError, Global};
use std::marker::Model;
use table_copies::copy_values;

// For how many replies a record has room as its task starts: most tasks are given few.
const FIRST_REPLIES: usize = 2;

/// The record of a living task: how it began, and each reply that it was given, with the number
/// of its own instructions before it.
#[derive(Debug, Drop)]
pub struct Record {
    method: u32,
    arguments: Row<Value>,
    fuel: u64,
    given: Vec<Given>,
}

// A reply, and the instructions of the task's own before it. The task lent its fuel for it, or not.
#[derive(Debug, Drop)]
pub(crate) struct Given {
    pub(crate) steps: u64,
    pub(crate) lent: bool,
    pub(crate) reply: Reply,
}

impl Model for Record {
    ghost use Rattle.sp_tasks.specs.Recorded.{RecordedRoom};

    ghost Value = { RecordedRoom };

    ghost use Rattle.sp_tasks.specs.Records.{room_of};

    ghost view = { room_of };
}

impl Record {
    /// The record of a task that starts at a method.
    pub fn start(
        alloc: Global,
        method: u32,
        arguments: &[Value],
        fuel: u64,
    ) -> Result<Record, AllocError>
        ensures { IfOk result (λ started. started.past ≡ record { began = record { method = method; arguments = arguments.now; fuel = fuel }; given = [] }) }
    {
        Ok(Record {
            method,
            arguments: Row::new(copy_values(alloc, arguments)?),
            fuel,
            given: Vec::with_capacity(alloc, FIRST_REPLIES)?,
        })
    }

    // The same record, with room for one more reply.
    pub(crate) fn copy(&self, alloc: Global) -> Result<Record, AllocError>
        ensures past { IfOk result (λ copy. copy.past ≡ self.now.past) }
        ensures room { IfOk result (λ copy. 0 < copy.room) }
    {
        let mut given = copy_given(alloc, &self.given)?;
        given.reserve(1)?;
        Ok(Record {
            method: self.method,
            arguments: Row::new(copy_values(alloc, self.arguments.as_slice())?),
            fuel: self.fuel,
            given,
        })
    }

    /// The number of the method at which the task began.
    pub fn method(&self) -> u32
        ensures { result ≡ self.now.past.began.method }
    {
        self.method
    }

    /// The arguments with which it began.
    pub fn arguments(&self) -> &[Value]
        ensures { result.now ≡ self.now.past.began.arguments }
    {
        self.arguments.as_slice()
    }

    /// The fuel with which it began.
    pub fn fuel(&self) -> u64
        ensures { result ≡ self.now.past.began.fuel }
    {
        self.fuel
    }

    /// How many replies it was given.
    pub fn replies(&self) -> usize
        ensures { result ≡ length self.now.past.given }
    {
        self.given.len()
    }

    /// A reply that it was given, by its index, the oldest first.
    pub fn reply(&self, index: usize) -> Option<&Reply>
        ensures { option_map (λ reply. reply_of reply.now) result ≡ option_map (λ (given : rules.Given). given.reply) (slice_get self.now.past.given index) }
    {
        match self.given.get(index) {
            Some(given) => Some(&given.reply),
            None => None,
        }
    }

    /// Whether the two records are the same.
    pub fn is_same(&self, other: &Record) -> bool
        ensures { result ≡ is_recorded self.now.past other.now.past }
    {
        (self.method == other.method
            && (self.fuel == other.fuel
                && same_values(self.arguments.as_slice(), other.arguments.as_slice())))
            && same_givens(&self.given, &other.given)
    }

    // Makes room for one more reply. What is recorded stays, at out of memory too.
    pub(crate) fn reserve(&mut self) -> Result<(), AllocError>
        ensures ok { OnOk result (0 < self.new.room) }
        ensures past { self.new.past ≡ self.old.past }
        ensures room { self.old.room ≤ self.new.room }
    {
        self.given.reserve(1)
    }

    // Enters a reply, how many instructions came before it, and whether the task lent its fuel for it.
    // It takes no memory.
    pub(crate) fn enter_reserved(&mut self, steps: u64, lent: bool, reply: Reply)
        requires { 0 < self.old.room }
        ensures { self.new.past ≡ with_entry steps lent (reply_of reply) self.old.past }
    {
        self.given.push_reserved(Given { steps, lent, reply });
    }
}

// The same replies.
fn copy_given(alloc: Global, given: &[Given]) -> Result<Vec<Given>, AllocError>
    ensures { IfOk result (λ copies. copies.items ≡ given.now) }
{
    let mut copies = Vec::new(alloc);
    for one in given {
        copies.push(Given {
            steps: one.steps,
            lent: one.lent,
            reply: copy_reply(alloc, &one.reply)?,
        })?;
    }
    Ok(copies)
}
