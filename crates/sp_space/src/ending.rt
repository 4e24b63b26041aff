//! Instructions of a task's own, and ends of tasks.

ghost use Rattle.std.specs.Prelude.{◌≡◌, List, IfOk, IfErr, OnErr, map, true};
ghost use Rattle.sp_outputs.specs.Notes.{output_of};
ghost use Rattle.sp_rules.specs.Classes.{Setting};
ghost use Rattle.sp_rules.specs.Events.{Event as Happening};
ghost use Rattle.sp_core.specs.Cores.{has_lent};
ghost use Rattle.sp_core.specs.Hands.{finished, given_back};
ghost use Rattle.sp_space.specs.Events.{Happened, IsRefused, IsStep, IsStepRefused};
ghost use Rattle.sp_space.specs.Hands.{ComesNext, EndsInHand, HasMade};
ghost use Rattle.sp_space.specs.Spaces.{IsFree, LendsNoOther, Somewhere, Stands};
ghost use Rattle.sp_machines.specs.declared.task_machine.Next.TheVariants as next;

use crate::parts::Parts;
use sp_core::LentTask;
use sp_events::CoreFault;
use sp_outputs::Output;
use sp_tasks::{Outcome, Stand};

impl<'p> Parts<'p> {
    // Takes an instruction that the machine of a task in hand has made, and the task's end if that ended it.
    pub(crate) fn made(
        &mut self,
        mut hand: LentTask,
        outcome: Option<Outcome>,
    ) -> Result<Vec<Output>, CoreFault>
        requires own { has_lent self.old.core hand ≡ true }
        requires others { LendsNoOther hand.task.id self.old.core }
        requires known { Somewhere (λ g h. ComesNext g h self.old hand (next.Made outcome)) }
        ensures done { IfOk result (λ outputs. (g : Setting) (h : List Happening) → ComesNext g h self.old hand (next.Made outcome) → IsStep g h hand.task.id self.new (map output_of outputs.items)) }
        ensures refused { IfErr result (λ fault. (g : Setting) (h : List Happening) → ComesNext g h self.old hand (next.Made outcome) → IsStepRefused g h hand.task.id fault) }
        ensures same { OnErr result ((g : Setting) (h : List Happening) → ComesNext g h self.old hand (next.Made outcome) → Stands g h self.new) }
        ensures free { IsFree self.new.core }
    {
        // It makes no more of them than it began with fuel for.
        let _fuel = hand.record().fuel();
        hand.ran(1);
        match outcome {
            Some(outcome) => self.end(hand, outcome),
            None => Ok(self.go_on(hand)),
        }
    }

    // Gives a task in hand back, with whose machine it is level then.
    fn go_on(&mut self, hand: LentTask) -> Vec<Output>
        requires own { has_lent self.old.core hand ≡ true }
        requires others { LendsNoOther hand.task.id self.old.core }
        ensures goes { (g : Setting) (h : List Happening) → HasMade g h self.old hand → Happened g h (given_back hand.task) self.new (map output_of result.items) }
        ensures free { IsFree self.new.core }
    {
        self.machines.settle(hand.id());
        self.core.take_back(hand);
        Vec::new(self.alloc)
    }

    // Ends a task in hand that has ended so.
    pub(crate) fn finish(
        &mut self,
        hand: LentTask,
        outcome: Outcome,
    ) -> Result<Vec<Output>, CoreFault>
        requires own { has_lent self.old.core hand ≡ true }
        requires others { LendsNoOther hand.task.id self.old.core }
        requires known { Somewhere (λ g h. Stands g h self.old) }
        ensures done { IfOk result (λ outputs. (g : Setting) (h : List Happening) → ComesNext g h self.old hand (next.Ended outcome) → IsStep g h hand.task.id self.new (map output_of outputs.items)) }
        ensures refused { IfErr result (λ fault. (g : Setting) (h : List Happening) → ComesNext g h self.old hand (next.Ended outcome) → IsStepRefused g h hand.task.id fault) }
        ensures same { OnErr result ((g : Setting) (h : List Happening) → ComesNext g h self.old hand (next.Ended outcome) → Stands g h self.new) }
        ensures free { IsFree self.new.core }
    {
        self.end(hand, outcome)
    }

    // Ends a task in hand, which stands at this end.
    fn end(&mut self, hand: LentTask, outcome: Outcome) -> Result<Vec<Output>, CoreFault>
        requires own { has_lent self.old.core hand ≡ true }
        requires others { LendsNoOther hand.task.id self.old.core }
        requires known { Somewhere (λ g h. Stands g h self.old) }
        ensures done { IfOk result (λ outputs. (g : Setting) (h : List Happening) → EndsInHand g h self.old hand outcome → Happened g h (finished hand.task) self.new (map output_of outputs.items)) }
        ensures refused { IfErr result (λ fault. (g : Setting) (h : List Happening) → EndsInHand g h self.old hand outcome → IsRefused g h (finished hand.task) fault) }
        ensures same { OnErr result ((g : Setting) (h : List Happening) → Stands g h self.old → Stands g h self.new) }
        ensures free { IsFree self.new.core }
    {
        let id = hand.id();
        let fuel = self.machines.fuel(id);
        match self
            .core
            .finish_lent(self.classes, hand, &Stand::HasEnded(outcome), fuel)
        {
            Ok(outputs) => {
                self.machines.remove(id);
                Ok(outputs)
            }
            Err((hand, fault)) => Err(self.fail(hand, fault)),
        }
    }

    // Takes a task in hand back whose step is not made, and answers the fault.
    pub(crate) fn fail(&mut self, mut hand: LentTask, fault: CoreFault) -> CoreFault
        requires own { has_lent self.old.core hand ≡ true }
        requires others { LendsNoOther hand.task.id self.old.core }
        requires known { Somewhere (λ g h. Stands g h self.old) }
        ensures fault { result ≡ fault }
        ensures same { (g : Setting) (h : List Happening) → Stands g h self.old → Stands g h self.new }
        ensures free { IsFree self.new.core }
    {
        hand.undo();
        match self.core.give_back(hand) {
            Ok(()) => fault,
            Err(_) => unreachable!(),
        }
    }
}
