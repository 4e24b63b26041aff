//! Steps of tasks.

ghost use Rattle.std.specs.Prelude.{◌≡◌, ℕ, List, IfOk, IfErr, OnErr, OnOk, map, is_some, true, false};
ghost use Rattle.sp_outputs.specs.Notes.{output_of};
ghost use Rattle.sp_rules.specs.Classes.{Setting};
ghost use Rattle.sp_rules.specs.Events.{Event as Happening};
ghost use Rattle.sp_core.specs.Cores.{has_lent};
ghost use Rattle.sp_space.specs.Events.{IsStep, IsStepRefused};
ghost use Rattle.sp_space.specs.Hands.{ComesNext, IsInHand, IsLevelHand, LivesAs};
ghost use Rattle.sp_machines.specs.Coming.{IsAskedBy};
ghost use Rattle.sp_space.specs.Machines.{machine_at};
ghost use Rattle.sp_space.specs.Spaces.{IsFree, IsResting, LendsNoOther, Somewhere, Stands};

use crate::parts::Parts;
use sp_core::LentTask;
use sp_events::CoreFault;
use sp_machines::{Next, TaskMachine};
use sp_outputs::Output;
use sp_tasks::Record;
use std::alloc::AllocError;
use vm_step::Limits;

impl<'p> Parts<'p> {
    // Lets a task make one instruction, and answers the outputs of the events that it is. Refused or out of
    // memory, the space stands where it stood. A task that cannot be lent does not live, or waits for a reply.
    pub(crate) fn step_task(&mut self, task: u64) -> Result<Vec<Output>, CoreFault>
        requires rests { IsResting self.old }
        ensures done { IfOk result (λ outputs. (g : Setting) (h : List Happening) → Stands g h self.old → IsStep g h task self.new (map output_of outputs.items)) }
        ensures refused { IfErr result (λ fault. (g : Setting) (h : List Happening) → Stands g h self.old → IsStepRefused g h task fault) }
        ensures same { OnErr result ((g : Setting) (h : List Happening) → Stands g h self.old → Stands g h self.new) }
        ensures free { IsFree self.new.core }
    {
        let Some(hand) = self.core.lend(task) else {
            return Err(CoreFault::NotLent);
        };
        match self.level(&hand) {
            Ok(()) => self.advance(hand),
            Err(_) => Err(self.fail(hand, CoreFault::Memory)),
        }
    }

    // Brings the machine of a task in hand to where the task's record is. A task that has none gets one.
    pub(crate) fn level(&mut self, hand: &LentTask) -> Result<(), AllocError>
        requires known { Somewhere (λ g h. IsInHand g h self.old hand.now) }
        ensures level { OnOk result ((g : Setting) (h : List Happening) → IsInHand g h self.old hand.now → IsLevelHand g h self.new hand.now) }
        ensures same { (g : Setting) (h : List Happening) → IsInHand g h self.old hand.now → IsInHand g h self.new hand.now }
        ensures core { self.new.core ≡ self.old.core }
    {
        self.make(hand)?;
        self.machines.catch_up(self.alloc, hand.id(), hand.record())
    }

    // Makes the machine of a task in hand that has none.
    fn make(&mut self, hand: &LentTask) -> Result<(), AllocError>
        requires known { Somewhere (λ g h. IsInHand g h self.old hand.now) }
        ensures same { (g : Setting) (h : List Happening) → IsInHand g h self.old hand.now → IsInHand g h self.new hand.now }
        ensures core { self.new.core ≡ self.old.core }
        ensures machine { OnOk result (is_some (machine_at hand.now.task.id self.new.machines) ≡ true) }
    {
        let id = hand.id();
        if self.machines.has(id) {
            return Ok(());
        }
        self.begin(id, hand.record())
    }

    // Makes the machine of a task to which nothing has happened since it began.
    fn begin(&mut self, id: u64, record: &Record) -> Result<(), AllocError>
        requires none { is_some (machine_at id self.old.machines) ≡ false }
        requires known { Somewhere (λ g h. LivesAs g h self.old id record.now.past) }
        ensures stands { (g : Setting) (h : List Happening) → LivesAs g h self.old id record.now.past → Stands g h self.new }
        ensures core { self.new.core ≡ self.old.core }
        ensures machine { OnOk result (is_some (machine_at id self.new.machines) ≡ true) }
    {
        let limits = Limits {
            fuel: record.fuel(),
            ..self.limits
        };
        self.machines.reserve()?;
        let player = TaskMachine::new(self.alloc, self.program, self.id, record, limits)?;
        self.machines.insert_reserved(id, player);
        Ok(())
    }

    // Makes an instruction of a task in hand, with whose machine it is level.
    pub(crate) fn advance(&mut self, hand: LentTask) -> Result<Vec<Output>, CoreFault>
        requires own { has_lent self.old.core hand ≡ true }
        requires others { LendsNoOther hand.task.id self.old.core }
        requires known { Somewhere (λ g h. IsLevelHand g h self.old hand) }
        ensures done { IfOk result (λ outputs. (g : Setting) (h : List Happening) → IsLevelHand g h self.old hand → IsStep g h hand.task.id self.new (map output_of outputs.items)) }
        ensures refused { IfErr result (λ fault. (g : Setting) (h : List Happening) → IsLevelHand g h self.old hand → IsStepRefused g h hand.task.id fault) }
        ensures same { OnErr result ((g : Setting) (h : List Happening) → IsLevelHand g h self.old hand → Stands g h self.new) }
        ensures free { IsFree self.new.core }
    {
        match self.machines.next(self.alloc, hand.id()) {
            Ok(next) => self.take(hand, next),
            Err(_) => Err(self.fail(hand, CoreFault::Memory)),
        }
    }

    // Takes what comes next of a task in hand.
    fn take(&mut self, hand: LentTask, next: Next) -> Result<Vec<Output>, CoreFault>
        requires own { has_lent self.old.core hand ≡ true }
        requires others { LendsNoOther hand.task.id self.old.core }
        requires known { Somewhere (λ g h. ComesNext g h self.old hand next) }
        requires asked { IsAskedBy next (machine_at hand.task.id self.old.machines) }
        ensures done { IfOk result (λ outputs. (g : Setting) (h : List Happening) → ComesNext g h self.old hand next → IsStep g h hand.task.id self.new (map output_of outputs.items)) }
        ensures refused { IfErr result (λ fault. (g : Setting) (h : List Happening) → ComesNext g h self.old hand next → IsStepRefused g h hand.task.id fault) }
        ensures same { OnErr result ((g : Setting) (h : List Happening) → ComesNext g h self.old hand next → Stands g h self.new) }
        ensures free { IsFree self.new.core }
    {
        match next {
            Next::Ended(outcome) => self.finish(hand, outcome),
            Next::Asks(asked) => self.ask(hand, &asked),
            Next::Made(outcome) => self.made(hand, outcome),
        }
    }
}
