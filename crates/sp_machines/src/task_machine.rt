//! The machine of a living task.

ghost use Rattle.std.specs.Prelude.{◌≡◌, ◌≤◌, ℕ, false, IfOk, IfSome, IsOk, OnOk, OnErr, Ok, Some, is_some, option_map};
ghost use Rattle.cls_link.specs.Links.{Links};
ghost use Rattle.sp_behaviours.specs.Behaviours.{op_at};
ghost use Rattle.sp_behaviours.specs.Follows.{PlaysOn, is_over};
ghost use Rattle.sp_living.specs.Views.{recorded_in};
ghost use Rattle.sp_rules.specs.Classes.{Setting};
ghost use Rattle.sp_rules.specs.LivingTasks.{after_steps};
ghost use Rattle.sp_rules.specs.State.{Living};
ghost use Rattle.sp_rules.specs.Tasks.{HasEnded, stand};
ghost use Rattle.sp_tasks.specs.Behaviours.{op_of, outcome_of};
ghost use Rattle.vm_act.specs.declared.machine.Machine.{Machine};
ghost use Rattle.vm_step.specs.Begin.{begun};
ghost use Rattle.vm_step.specs.Run.{Waits, IsNeverStuck};
ghost use Rattle.vm_step.specs.Task.{fuel_left};
ghost use Rattle.sp_machines.specs.Coming.{IsAskedBy, IsNext};
ghost use Rattle.sp_machines.specs.Players.{AsksIn, CanCatchUp, IsLevel, IsPlayedBy, WaitsFor, ended_in, end_in};

use crate::boxed_task::BoxedTask;
use crate::telling;
use sp_tasks::{Op, Outcome, Record};
use space_ids::Uuid;
use std::alloc::{AllocError, Global};
use std::marker::Model;
use table_copies::copy_values;
use vm_code::Asked;
use vm_step::{Limits, MethodId, Pause, Program, StartFault, Task};

/// The machine of a living task, and how many replies of the task's record it has taken. It may have made an
/// instruction that its task has not made: the space could not take what that led to, and takes it with the
/// task's next step. It is ahead then.
#[derive(Drop)]
pub struct TaskMachine<'p> {
    program: &'p Program,
    task: BoxedTask,
    taken: usize,
    is_ahead: bool,
}

impl<'p> Model for TaskMachine<'p> {
    ghost use Rattle.std.specs.Prelude.{◌≡◌};
    ghost use Rattle.sp_machines.specs.Players.{Played};

    ghost Value = { Played };

    ghost view = { λ player. record { task = player.task; taken = player.taken; ahead = player.is_ahead } };

    ghost invariant = { λ player. player.task.program ≡ player.program.now };
}

/// What comes next of a task.
#[derive(Drop)]
pub enum Next {
    /// It has ended so.
    Ended(Outcome),
    /// It asks its space for this.
    Asks(Asked),
    /// Its machine has made an instruction of its own, which may have ended it.
    Made(Option<Outcome>),
}

impl<'p> TaskMachine<'p> {
    /// The machine of a task that begins as its record says.
    pub fn new(
        alloc: Global,
        program: &'p Program,
        own: Uuid,
        record: &Record,
        limits: Limits,
    ) -> Result<TaskMachine<'p>, AllocError>
        // A task that lives has begun (law `tasks_begin`).
        requires begins { IsOk (begun program.now own (record { 0 = record.now.past.began.method }) record.now.past.began.arguments limits) }
        ensures begins { IfOk result (λ player. begun program.now own (record { 0 = record.now.past.began.method }) record.now.past.began.arguments limits ≡ Ok player.task) }
        ensures never_stuck { IfOk result (λ player. IsNeverStuck program.now player.task.state) }
        ensures program { IfOk result (λ player. player.task.program ≡ program.now) }
        ensures new { IfOk result (λ player. (player.taken ≡ 0) × (player.ahead ≡ false)) }
    {
        let values = copy_values(alloc, record.arguments())?;
        let method = MethodId(record.method());
        match Task::begin(alloc, program, own, method, values, limits) {
            Ok(task) => Ok(TaskMachine {
                program,
                task: BoxedTask::new(alloc, task)?,
                taken: 0,
                is_ahead: false,
            }),
            Err(StartFault::Memory) => Err(AllocError),
            Err(_) => unreachable!(),
        }
    }

    /// Gives the machine of a task that does not wait the reply for which it stands, if the record has one more
    /// than it has taken. That is one that it takes (laws `tasks_go_on` and `replies_are_taken`).
    pub fn catch_up(&mut self, alloc: Global, record: &Record) -> Result<(), AllocError>
        requires { CanCatchUp self.old record.now.past }
        ensures level { OnOk result ((links : Links) (g : Setting) (t : Living) → PlaysOn links g → IsPlayedBy links g t self.old → t.waits ≡ false → recorded_in t ≡ record.now.past → IsLevel links g t self.new) }
        ensures same { OnErr result (self.new ≡ self.old) }
        ensures ahead { self.new.ahead ≡ self.old.ahead }
    {
        let Some(given) = record.reply(self.taken) else {
            return Ok(());
        };
        let Pause::Ask(asked) = self.task.pause() else {
            unreachable!()
        };
        let Some(reply) = telling::reply(alloc, &asked, given)? else {
            unreachable!()
        };
        self.task.answer(self.program, reply);
        self.taken = record.replies();
        Ok(())
    }

    /// Lets a machine that is level with its task make an instruction, if it has not ended and does not ask, and is
    /// not ahead. Returns what comes next of the task.
    pub fn next(&mut self, alloc: Global) -> Result<Next, AllocError>
        ensures level { (links : Links) (g : Setting) (t : Living) → IsLevel links g t self.old → IsLevel links g t self.new }
        ensures next { IfOk result (λ next. (links : Links) (g : Setting) (t : Living) → IsLevel links g t self.old → IsNext t self.new next) }
        ensures asked { IfOk result (λ next. IsAskedBy next (Some self.new)) }
    {
        if self.is_ahead {
            return Ok(Next::Made(self.ended(alloc)?));
        }
        if let Some(outcome) = self.outcome(alloc)? {
            return Ok(Next::Ended(outcome));
        }
        match self.task.run(self.program, 1) {
            Pause::Ask(asked) => Ok(Next::Asks(asked)),
            _ => {
                self.is_ahead = true;
                Ok(Next::Made(self.ended(alloc)?))
            }
        }
    }

    /// Lets a machine that is level with its task make instructions of its own, so many at most, and returns how many
    /// it made: none if it is ahead, asks or has ended.
    pub fn run(&mut self, most: u64) -> u64
        ensures level { (links : Links) (g : Setting) (t : Living) → IsLevel links g t self.old → IsLevel links g (after_steps result t) self.new }
        ensures most { result ≤ most }
        ensures within { (links : Links) (g : Setting) (t : Living) → IsLevel links g t self.old → result ≤ t.task.fuel }
        ensures ahead { self.new.ahead ≡ self.old.ahead }
    {
        if self.is_ahead {
            return 0;
        }
        let before = self.task.fuel();
        let _ = self.task.run(self.program, most);
        before - self.task.fuel()
    }

    /// How the task has ended with which it is level, if it has.
    pub fn end(&self, alloc: Global) -> Result<Option<Outcome>, AllocError>
        ensures { IfOk result (λ told. IfSome told (λ outcome. (links : Links) (g : Setting) (t : Living) → IsLevel links g t self.now → self.now.ahead ≡ false → stand t.task ≡ HasEnded (outcome_of outcome))) }
    {
        self.outcome(alloc)
    }

    // How its task has ended, if it has: with no fuel left it is spent.
    fn outcome(&self, alloc: Global) -> Result<Option<Outcome>, AllocError>
        ensures { IfOk result (λ told. option_map outcome_of told ≡ end_in self.now.task.program.classes self.now.task.state) }
    {
        match self.ended(alloc)? {
            Some(ended) => Ok(Some(ended)),
            None if self.task.fuel() == 0 => Ok(Some(Outcome::Spent)),
            None => Ok(None),
        }
    }

    // How the machine has ended it, if it has.
    fn ended(&self, alloc: Global) -> Result<Option<Outcome>, AllocError>
        ensures ended { IfOk result (λ told. option_map outcome_of told ≡ ended_in self.now.task.program.classes self.now.task.state) }
        ensures over { IfOk result (λ told. is_some told ≡ is_over self.now.task.state) }
    {
        match self.task.outcome(alloc)? {
            Some(ended) => Ok(Some(telling::outcome(ended))),
            None => Ok(None),
        }
    }

    /// The task has made the instruction too.
    pub fn settle(&mut self)
        ensures { self.new ≡ record self.old { ahead = false } }
    {
        self.is_ahead = false;
    }

    /// The fuel that it has left.
    pub fn fuel(&self) -> u64
        ensures { result ≡ fuel_left self.now.task.state }
    {
        self.task.fuel()
    }

    /// What it asks for as an operation.
    pub fn op(&self, alloc: Global, asked: &Asked) -> Result<Op, AllocError>
        requires { AsksIn asked.now self.now.task.state }
        ensures { IfOk result (λ op. (m : Machine) (fuel : ℕ) → self.now.task.state ≡ Waits asked.now m fuel → op_of op ≡ op_at self.now.task.program.classes asked.now m) }
    {
        telling::op(alloc, self.program, self.task.task(), asked)
    }

    /// What it asks for, if it waits for the reply to something.
    pub fn asked(&self) -> Option<Asked>
        ensures { IfSome result (λ asked. AsksIn asked self.now.task.state) }
    {
        if let Pause::Ask(asked) = self.task.pause() {
            return Some(asked);
        }
        None
    }

    /// The operation for which it waits.
    pub fn awaited(&self, alloc: Global, asked: &Asked) -> Result<Op, AllocError>
        requires { AsksIn asked.now self.now.task.state }
        ensures { IfOk result (λ op. WaitsFor self.now op) }
    {
        self.op(alloc, asked)
    }
}
