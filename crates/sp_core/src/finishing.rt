//! Ends of lent tasks.

ghost use Rattle.std.specs.Prelude.{◌≡◌, ◌==◌, ◌&&◌, ◌∷◌, not, is_ok, ℕ, List, true, None, IfErr, IfOk, OnErr, OnOk, map};
ghost use Rattle.sp_events.specs.FaultNames.{Refuses};
ghost use Rattle.sp_living.specs.Hands.{StandsAt, task_of};
ghost use Rattle.sp_outputs.specs.Notes.{output_of};
ghost use Rattle.sp_rules.specs.Classes.{Setting};
ghost use Rattle.sp_rules.specs.Events.{Event as Happening};
ghost use Rattle.sp_rules.specs.Origins.{IsTaken, OwnStand};
ghost use Rattle.sp_rules.specs.Refusals.{refusal};
ghost use Rattle.sp_rules.specs.Space.{on as after_event, state_of};
ghost use Rattle.sp_rules.specs.State.{State};
ghost use Rattle.sp_rules.specs.Tasks.{HasEnded, stand};
ghost use Rattle.sp_tasks.specs.Behaviours.{outcome_of, stand_of};
ghost use Rattle.sp_core.specs.Hands.{HasFuel, finished};

use crate::{LentTask, SpaceCore};
use sp_changes::{finish_in, finish_too, let_go};
use sp_events::CoreFault;
use sp_holders::CallKey;
use sp_outputs::Output;
use sp_requests::CallClasses;
use sp_tasks::{Origin, Outcome, Stand, copy_outcome};
use space_ids::Value;
use std::alloc::AllocError;
use std::mem;

impl SpaceCore {
    ghost use Rattle.sp_core.specs.Cores.{IsCore, Lends, has_lent, is_lent, lends, lent_as};

    /// Lets a lent task go that has ended, with this fuel left, and answers so. A root's result is held until
    /// it is acknowledged; a caller is answered, and its result held until then. A refused task is handed
    /// back, and so is one that finds no memory: then nothing has changed. Of several refusals the lowest
    /// counts, but 98 first.
    pub fn finish<C: CallClasses>(
        &mut self,
        classes: &C,
        task: LentTask,
        stand: &Stand,
        fuel: u64,
    ) -> Result<Vec<Output>, (LentTask, CoreFault)>
        ensures accepted { OnOk result ((g : Setting) (s : State) (lent : List ℕ) → IsCore g s self.old → Lends self.old lent → StandsAt g task.task stand.now → refusal g (lent_as s task.task lent) s (finished task.task) ≡ None) }
        ensures outputs { IfOk result (λ outputs. (g : Setting) (s : State) → IsCore g s self.old → C.tells classes.now g.classes → StandsAt g task.task stand.now → HasFuel g task.task fuel → map output_of outputs.items ≡ (after_event g (finished task.task) s).1) }
        ensures state { OnOk result ((g : Setting) (s : State) → IsCore g s self.old → C.tells classes.now g.classes → StandsAt g task.task stand.now → HasFuel g task.task fuel → IsCore g (after_event g (finished task.task) s).0 self.new) }
        ensures lent { (g : Setting) (s : State) → IsCore g s self.old → (id : ℕ) → is_lent self.new id ≡ (not (is_ok result && id == task.task.id) && is_lent self.old id) }
        ensures refused { IfErr result (λ back. (g : Setting) (s : State) (lent : List ℕ) → IsCore g s self.old → Lends self.old lent → StandsAt g task.task stand.now → Refuses (refusal g (lent_as s task.task lent) s (finished task.task)) back.1) }
        ensures task { IfErr result (λ back. back.0.task ≡ task.task) }
        ensures unchanged { OnErr result ((g : Setting) (s : State) → IsCore g s self.old → IsCore g s self.new) }

        // Own references name standing objects of their class after each history that the space took.
        ensures standing { OnOk result ((g : Setting) (h : List Happening) (lent : List ℕ) → IsCore g (state_of g h) self.old → Lends self.old lent → StandsAt g task.task stand.now → IsTaken g h → OwnStand g (state_of g (finished task.task ∷ h))) }
    {
        if !self.lends(&task) {
            let fault = self.refuse_unlent(&task);
            return Err((task, fault));
        }
        let mut task = task;
        self.keep_twin(&mut task);
        self.finish_lent(classes, task, stand, fuel)
    }

    /// Lets a task go of which the caller knows that this core lends it, as `finish` does, at a cost that does not
    /// depend on the task's record.
    pub fn finish_lent<C: CallClasses>(
        &mut self,
        classes: &C,
        task: LentTask,
        stand: &Stand,
        fuel: u64,
    ) -> Result<Vec<Output>, (LentTask, CoreFault)>
        requires { has_lent self.old task ≡ true }
        ensures accepted { OnOk result ((g : Setting) (s : State) (lent : List ℕ) → IsCore g s self.old → Lends self.old lent → StandsAt g task.task stand.now → refusal g (lent_as s task.task lent) s (finished task.task) ≡ None) }
        ensures outputs { IfOk result (λ outputs. (g : Setting) (s : State) → IsCore g s self.old → C.tells classes.now g.classes → StandsAt g task.task stand.now → HasFuel g task.task fuel → map output_of outputs.items ≡ (after_event g (finished task.task) s).1) }
        ensures state { OnOk result ((g : Setting) (s : State) → IsCore g s self.old → C.tells classes.now g.classes → StandsAt g task.task stand.now → HasFuel g task.task fuel → IsCore g (after_event g (finished task.task) s).0 self.new) }
        ensures lent { (g : Setting) (s : State) → IsCore g s self.old → (id : ℕ) → is_lent self.new id ≡ (not (is_ok result && id == task.task.id) && is_lent self.old id) }
        ensures refused { IfErr result (λ back. (g : Setting) (s : State) (lent : List ℕ) → IsCore g s self.old → Lends self.old lent → StandsAt g task.task stand.now → Refuses (refusal g (lent_as s task.task lent) s (finished task.task)) back.1) }
        ensures task { IfErr result (λ back. back.0.task ≡ task.task) }
        ensures own { IfErr result (λ back. has_lent self.new back.0 ≡ true) }
        ensures unchanged { OnErr result ((g : Setting) (s : State) → IsCore g s self.old → IsCore g s self.new) }

        // Own references name standing objects of their class after each history that the space took.
        ensures standing { OnOk result ((g : Setting) (h : List Happening) (lent : List ℕ) → IsCore g (state_of g h) self.old → Lends self.old lent → StandsAt g task.task stand.now → IsTaken g h → OwnStand g (state_of g (finished task.task ∷ h))) }
    {
        let mut task = task;
        match self.refuse_finish(&task, stand) {
            Err(fault) => Err((task, fault)),
            Ok(outcome) => {
                let call = self.call_returned(&task, outcome);
                match self.end(classes, &mut task, fuel, outcome) {
                    Ok(outputs) => {
                        self.see_end(call, outputs.as_slice());
                        Ok(outputs)
                    }
                    Err(_) => Err((task, CoreFault::Memory)),
                }
            }
        }
    }

    // The call that started a task, if there is one and the task returns a reference.
    fn call_returned(&self, task: &LentTask, outcome: &Outcome) -> Option<CallKey> {
        match (outcome, self.state.living().tasks().origin(task.id())) {
            (Outcome::Returned(Some(Value::Ref(_))), Some(Origin::Call { conn, number })) => {
                Some(CallKey { conn, number })
            }
            _ => None,
        }
    }

    // Keeps where the result of a task that ended is held, if it is a reference: with the call that started it,
    // or as the outputs say.
    fn see_end(&mut self, call: Option<CallKey>, outputs: &[Output])
        ensures { self.new ≡ record self.old { sightings = self.new.sightings } }
    {
        match call {
            Some(call) => self.sightings.see_call(self.state.state(), call),
            None => self.sightings.see_results(self.state.state(), outputs),
        }
    }

    // Lets a task go that ended so.
    fn end<C: CallClasses>(
        &mut self,
        classes: &C,
        task: &mut LentTask,
        fuel: u64,
        outcome: &Outcome,
    ) -> Result<Vec<Output>, AllocError>
        requires { has_lent self.old task.old ≡ true }
        ensures outputs { IfOk result (λ outputs. (g : Setting) (s : State) → IsCore g s self.old → C.tells classes.now g.classes → stand (task_of g task.old.task) ≡ HasEnded (outcome_of outcome.now) → HasFuel g task.old.task fuel → map output_of outputs.items ≡ (after_event g (finished task.old.task) s).1) }
        ensures state { OnOk result ((g : Setting) (s : State) → IsCore g s self.old → C.tells classes.now g.classes → stand (task_of g task.old.task) ≡ HasEnded (outcome_of outcome.now) → HasFuel g task.old.task fuel → IsCore g (after_event g (finished task.old.task) s).0 self.new) }
        ensures lent { OnOk result ((g : Setting) (s : State) → IsCore g s self.old → (id : ℕ) → is_lent self.new id ≡ (not (id == task.old.task.id) && is_lent self.old id)) }
        ensures still { OnErr result ((id : ℕ) → is_lent self.new id ≡ is_lent self.old id) }
        ensures unchanged { OnErr result ((g : Setting) (s : State) → IsCore g s self.old → IsCore g s self.new) }
        ensures task { task.new.task ≡ task.old.task }
        ensures own { OnErr result (has_lent self.new task.new ≡ true) }
    {
        let first = copy_outcome(self.alloc, outcome)?;
        let second = copy_outcome(self.alloc, outcome)?;
        let (mut next, twin) = self.take_second(&task.task, task.twin.take())?;
        let Ok(outputs) = finish_in(&mut next, classes, &twin, fuel, first) else {
            let_go(next);
            return Err(AllocError);
        };
        let last = mem::replace(&mut self.state, next);
        let spare = finish_too(last, classes, &task.task, fuel, second);
        self.put_spare(spare);
        Ok(outputs)
    }
}
