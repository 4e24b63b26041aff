//! What lent tasks ask their space for.

ghost use Rattle.std.specs.Prelude.{◌≡◌, List, IfOk, IfErr, OnErr, map, true, false};
ghost use Rattle.sp_outputs.specs.Notes.{output_of};
ghost use Rattle.sp_rules.specs.Classes.{Setting};
ghost use Rattle.sp_rules.specs.Events.{Event as Happening};
ghost use Rattle.sp_tasks.specs.Behaviours.{op_of};
ghost use Rattle.sp_core.specs.Cores.{has_lent};
ghost use Rattle.sp_core.specs.Hands.{is_on_store};
ghost use Rattle.sp_space.specs.Events.{IsStep, IsStepRefused};
ghost use Rattle.sp_space.specs.Hands.{AsksInHand, ComesNext};
ghost use Rattle.sp_machines.specs.Coming.{IsAskedBy};
ghost use Rattle.sp_space.specs.Machines.{machine_at};
ghost use Rattle.sp_space.specs.Spaces.{IsFree, LendsNoOther, Somewhere, Stands};
ghost use Rattle.sp_machines.specs.declared.task_machine.Next.TheVariants as next;

use crate::parts::Parts;
use sp_core::LentTask;
use sp_events::CoreFault;
use sp_outputs::Output;
use sp_tasks::{Op, Stand};
use vm_code::Asked;

impl<'p> Parts<'p> {
    // Does what the machine of a task in hand asks for, or lets the task wait for the reply to its call.
    pub(crate) fn ask(&mut self, hand: LentTask, asked: &Asked) -> Result<Vec<Output>, CoreFault>
        requires own { has_lent self.old.core hand ≡ true }
        requires others { LendsNoOther hand.task.id self.old.core }
        requires known { Somewhere (λ g h. Stands g h self.old) }
        requires asked { IsAskedBy (next.Asks asked.now) (machine_at hand.task.id self.old.machines) }
        ensures done { IfOk result (λ outputs. (g : Setting) (h : List Happening) → ComesNext g h self.old hand (next.Asks asked.now) → IsStep g h hand.task.id self.new (map output_of outputs.items)) }
        ensures refused { IfErr result (λ fault. (g : Setting) (h : List Happening) → ComesNext g h self.old hand (next.Asks asked.now) → IsStepRefused g h hand.task.id fault) }
        ensures same { OnErr result ((g : Setting) (h : List Happening) → ComesNext g h self.old hand (next.Asks asked.now) → Stands g h self.new) }
        ensures free { IsFree self.new.core }
    {
        match self.machines.op(self.alloc, hand.id(), asked) {
            Ok(op) => {
                if is_on_store(&op) {
                    self.commit(hand, op)
                } else {
                    self.park(hand, op)
                }
            }
            Err(_) => Err(self.fail(hand, CoreFault::Memory)),
        }
    }

    // Does the operation on the store at which the machine of a task in hand stands. The machine takes the reply as
    // the task is lent the next time.
    fn commit(&mut self, mut hand: LentTask, op: Op) -> Result<Vec<Output>, CoreFault>
        requires own { has_lent self.old.core hand ≡ true }
        requires others { LendsNoOther hand.task.id self.old.core }
        requires known { Somewhere (λ g h. Stands g h self.old) }
        ensures done { IfOk result (λ outputs. (g : Setting) (h : List Happening) → AsksInHand g h self.old hand op → is_on_store (op_of op) ≡ true → IsStep g h hand.task.id self.new (map output_of outputs.items)) }
        ensures refused { IfErr result (λ fault. (g : Setting) (h : List Happening) → AsksInHand g h self.old hand op → is_on_store (op_of op) ≡ true → IsStepRefused g h hand.task.id fault) }
        ensures same { OnErr result ((g : Setting) (h : List Happening) → Stands g h self.old → Stands g h self.new) }
        ensures free { IsFree self.new.core }
    {
        let stand = Stand::AsksFor(op);
        let Stand::AsksFor(op) = &stand else {
            unreachable!()
        };
        if let Err(fault) = self.core.commit_lent(self.classes, &mut hand, &stand, op) {
            return Err(self.fail(hand, fault));
        }
        self.core.take_back(hand);
        Ok(Vec::new(self.alloc))
    }

    // Lets a task in hand wait for the reply to the call at which its machine stands.
    fn park(&mut self, hand: LentTask, op: Op) -> Result<Vec<Output>, CoreFault>
        requires own { has_lent self.old.core hand ≡ true }
        requires others { LendsNoOther hand.task.id self.old.core }
        requires known { Somewhere (λ g h. Stands g h self.old) }
        ensures done { IfOk result (λ outputs. (g : Setting) (h : List Happening) → AsksInHand g h self.old hand op → is_on_store (op_of op) ≡ false → IsStep g h hand.task.id self.new (map output_of outputs.items)) }
        ensures refused { IfErr result (λ fault. (g : Setting) (h : List Happening) → AsksInHand g h self.old hand op → is_on_store (op_of op) ≡ false → IsStepRefused g h hand.task.id fault) }
        ensures same { OnErr result ((g : Setting) (h : List Happening) → Stands g h self.old → Stands g h self.new) }
        ensures free { IsFree self.new.core }
    {
        let fuel = self.machines.fuel(hand.id());
        match self
            .core
            .park_lent(self.classes, hand, &Stand::AsksFor(op), fuel)
        {
            Ok(outputs) => Ok(outputs),
            Err((hand, fault)) => Err(self.fail(hand, fault)),
        }
    }
}

// Whether an operation is one on the store, and no call.
fn is_on_store(op: &Op) -> bool
    ensures { result ≡ is_on_store (op_of op.now) }
{
    !matches!(op, Op::Call { .. })
}
