//! Calls of lent tasks.

ghost use Rattle.std.specs.Prelude.{◌≡◌, ◌==◌, ◌&&◌, ◌∷◌, not, is_ok, ℕ, List, false, true, None, IfErr, IfOk, OnErr, OnOk, map};
ghost use Rattle.sp_events.specs.FaultNames.{Refuses};
ghost use Rattle.sp_living.specs.Hands.{StandsAt, task_of};
ghost use Rattle.sp_outputs.specs.Notes.{output_of};
ghost use Rattle.sp_rules.specs.Behaviours.{Call as Calls};
ghost use Rattle.sp_rules.specs.Classes.{Setting};
ghost use Rattle.sp_rules.specs.Events.{Event as Happening};
ghost use Rattle.sp_rules.specs.Origins.{IsTaken, OwnStand};
ghost use Rattle.sp_rules.specs.Refusals.{refusal};
ghost use Rattle.sp_rules.specs.Space.{on as after_event, state_of};
ghost use Rattle.sp_rules.specs.State.{State};
ghost use Rattle.sp_rules.specs.Tasks.{AsksFor, stand};
ghost use Rattle.sp_tasks.specs.Behaviours.{op_of};
ghost use Rattle.sp_core.specs.Hands.{HasFuel, is_on_store, parked};

use crate::{LentTask, SpaceCore};
use sp_changes::{Call, let_go, park_in, park_too};
use sp_events::CoreFault;
use sp_outputs::Output;
use sp_requests::CallClasses;
use sp_tasks::{Op, Stand};
use space_ids::Row;
use std::alloc::{AllocError, Global};
use std::mem;
use table_copies::copy_values;

impl SpaceCore {
    ghost use Rattle.sp_core.specs.Cores.{IsCore, Lends, has_lent, is_lent, lends, lent_as};

    /// Lets a lent task, with this fuel left, wait for the reply to the call at which its machine stands. The
    /// peer is asked, with all of the fuel but the unit of the call. A task that is refused or finds no memory
    /// is handed back, and nothing has changed. Of several refusals the lowest counts, but 98 first.
    pub fn park<C: CallClasses>(
        &mut self,
        classes: &C,
        task: LentTask,
        stand: &Stand,
        fuel: u64,
    ) -> Result<Vec<Output>, (LentTask, CoreFault)>
        ensures accepted { OnOk result ((g : Setting) (s : State) (lent : List ℕ) → IsCore g s self.old → Lends self.old lent → C.tells classes.now g.classes → StandsAt g task.task stand.now → refusal g (lent_as s task.task lent) s (parked task.task) ≡ None) }
        ensures outputs { IfOk result (λ outputs. (g : Setting) (s : State) → IsCore g s self.old → C.tells classes.now g.classes → StandsAt g task.task stand.now → HasFuel g task.task fuel → map output_of outputs.items ≡ (after_event g (parked task.task) s).1) }
        ensures state { OnOk result ((g : Setting) (s : State) → IsCore g s self.old → C.tells classes.now g.classes → StandsAt g task.task stand.now → HasFuel g task.task fuel → IsCore g (after_event g (parked task.task) s).0 self.new) }
        ensures lent { (g : Setting) (s : State) → IsCore g s self.old → (id : ℕ) → is_lent self.new id ≡ (not (is_ok result && id == task.task.id) && is_lent self.old id) }
        ensures refused { IfErr result (λ back. (g : Setting) (s : State) (lent : List ℕ) → IsCore g s self.old → Lends self.old lent → C.tells classes.now g.classes → StandsAt g task.task stand.now → Refuses (refusal g (lent_as s task.task lent) s (parked task.task)) back.1) }
        ensures task { IfErr result (λ back. back.0.task ≡ task.task) }
        ensures unchanged { OnErr result ((g : Setting) (s : State) → IsCore g s self.old → IsCore g s self.new) }

        // Own references name standing objects of their class after each history that the space took.
        ensures standing { OnOk result ((g : Setting) (h : List Happening) (lent : List ℕ) → IsCore g (state_of g h) self.old → Lends self.old lent → C.tells classes.now g.classes → StandsAt g task.task stand.now → IsTaken g h → OwnStand g (state_of g (parked task.task ∷ h))) }
    {
        if !self.lends(&task) {
            let fault = self.refuse_unlent(&task);
            return Err((task, fault));
        }
        let mut task = task;
        self.keep_twin(&mut task);
        self.park_lent(classes, task, stand, fuel)
    }

    /// Lets a task wait of which the caller knows that this core lends it, as `park` does, at a cost that does not
    /// depend on the task's record.
    pub fn park_lent<C: CallClasses>(
        &mut self,
        classes: &C,
        task: LentTask,
        stand: &Stand,
        fuel: u64,
    ) -> Result<Vec<Output>, (LentTask, CoreFault)>
        requires { has_lent self.old task ≡ true }
        ensures accepted { OnOk result ((g : Setting) (s : State) (lent : List ℕ) → IsCore g s self.old → Lends self.old lent → C.tells classes.now g.classes → StandsAt g task.task stand.now → refusal g (lent_as s task.task lent) s (parked task.task) ≡ None) }
        ensures outputs { IfOk result (λ outputs. (g : Setting) (s : State) → IsCore g s self.old → C.tells classes.now g.classes → StandsAt g task.task stand.now → HasFuel g task.task fuel → map output_of outputs.items ≡ (after_event g (parked task.task) s).1) }
        ensures state { OnOk result ((g : Setting) (s : State) → IsCore g s self.old → C.tells classes.now g.classes → StandsAt g task.task stand.now → HasFuel g task.task fuel → IsCore g (after_event g (parked task.task) s).0 self.new) }
        ensures lent { (g : Setting) (s : State) → IsCore g s self.old → (id : ℕ) → is_lent self.new id ≡ (not (is_ok result && id == task.task.id) && is_lent self.old id) }
        ensures refused { IfErr result (λ back. (g : Setting) (s : State) (lent : List ℕ) → IsCore g s self.old → Lends self.old lent → C.tells classes.now g.classes → StandsAt g task.task stand.now → Refuses (refusal g (lent_as s task.task lent) s (parked task.task)) back.1) }
        ensures task { IfErr result (λ back. back.0.task ≡ task.task) }
        ensures own { IfErr result (λ back. has_lent self.new back.0 ≡ true) }
        ensures unchanged { OnErr result ((g : Setting) (s : State) → IsCore g s self.old → IsCore g s self.new) }

        // Own references name standing objects of their class after each history that the space took.
        ensures standing { OnOk result ((g : Setting) (h : List Happening) (lent : List ℕ) → IsCore g (state_of g h) self.old → Lends self.old lent → C.tells classes.now g.classes → StandsAt g task.task stand.now → IsTaken g h → OwnStand g (state_of g (parked task.task ∷ h))) }
    {
        match self.refuse_park(classes, &task, stand) {
            Err(fault) => Err((task, fault)),
            Ok(op) => match self.call(classes, task, op, fuel) {
                Ok(outputs) => Ok(outputs),
                Err(task) => Err((task, CoreFault::Memory)),
            },
        }
    }

    // Lets a task wait for the reply to this call.
    fn call<C: CallClasses>(
        &mut self,
        classes: &C,
        task: LentTask,
        op: &Op,
        fuel: u64,
    ) -> Result<Vec<Output>, LentTask>
        requires own { has_lent self.old task ≡ true }
        requires call { is_on_store (op_of op.now) ≡ false }
        ensures outputs { IfOk result (λ outputs. (g : Setting) (s : State) → IsCore g s self.old → C.tells classes.now g.classes → stand (task_of g task.task) ≡ AsksFor (op_of op.now) → HasFuel g task.task fuel → map output_of outputs.items ≡ (after_event g (parked task.task) s).1) }
        ensures state { OnOk result ((g : Setting) (s : State) → IsCore g s self.old → C.tells classes.now g.classes → stand (task_of g task.task) ≡ AsksFor (op_of op.now) → HasFuel g task.task fuel → IsCore g (after_event g (parked task.task) s).0 self.new) }
        ensures lent { (g : Setting) (s : State) → IsCore g s self.old → (id : ℕ) → is_lent self.new id ≡ (not (is_ok result && id == task.task.id) && is_lent self.old id) }
        ensures unchanged { OnErr result ((g : Setting) (s : State) → IsCore g s self.old → IsCore g s self.new) }
        ensures task { IfErr result (λ back. back.task ≡ task.task) }
        ensures own { IfErr result (λ back. has_lent self.new back ≡ true) }
    {
        let mut task = task;
        let Ok(first) = call_of(self.alloc, op) else {
            return Err(task);
        };
        let Ok(second) = call_of(self.alloc, op) else {
            return Err(task);
        };
        let Ok(taken) = self.take_second(&task.task, task.twin.take()) else {
            return Err(task);
        };
        let (mut next, twin) = taken;
        let Ok(outputs) = park_in(&mut next, classes, twin, first, fuel) else {
            let_go(next);
            return Err(task);
        };
        let last = mem::replace(&mut self.state, next);
        let LentTask { task, twin: _twin } = task;
        let spare = park_too(last, classes, task, second, fuel);
        self.put_spare(spare);
        Ok(outputs)
    }
}

// A copy of a call.
fn call_of(alloc: Global, op: &Op) -> Result<Call, AllocError>
    requires { is_on_store (op_of op.now) ≡ false }
    ensures { IfOk result (λ call. op_of op.now ≡ Calls call.target call.method call.arguments) }
{
    match op {
        Op::Call {
            target,
            method,
            arguments,
        } => Ok(Call {
            target: *target,
            method: *method,
            arguments: Row::new(copy_values(alloc, arguments.as_slice())?),
        }),
        Op::Create(_) | Op::Get { .. } | Op::Put { .. } => unreachable!(),
    }
}
