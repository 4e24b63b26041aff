//! Events that come from outside.

ghost use Rattle.std.specs.Prelude.{◌≡◌, ℕ, List, [], ◌∷◌, None, IfErr, IfOk, OnErr, OnOk, map};
ghost use Rattle.sp_events.specs.Events.{event_of};
ghost use Rattle.sp_events.specs.FaultNames.{Refuses};
ghost use Rattle.sp_outputs.specs.Notes.{output_of};
ghost use Rattle.sp_rules.specs.Classes.{Setting};
ghost use Rattle.sp_rules.specs.Events.{Event as Happening};
ghost use Rattle.sp_rules.specs.Origins.{IsTaken, OwnStand};
ghost use Rattle.sp_rules.specs.Refusals.{refusal};
ghost use Rattle.sp_rules.specs.Space.{on as after_event, state_of};
ghost use Rattle.sp_rules.specs.State.{State};
ghost use Rattle.sp_state.specs.LetIn.{IsLetIn};

use crate::SpaceCore;
use sp_changes::{follow, let_go};
use sp_events::{CoreFault, Event, copy_event};
use sp_outputs::Output;
use sp_requests::CallClasses;
use std::alloc::AllocError;
use std::mem;

impl SpaceCore {
    ghost use Rattle.sp_core.specs.Cores.{IsCore, is_lent};

    /// Lets an event happen, and answers its outputs. A refused event changes nothing, nor does one that finds
    /// no memory; the refusal with the lowest number counts, but 98 before all others.
    pub fn on<C: CallClasses>(
        &mut self,
        classes: &C,
        event: &Event,
    ) -> Result<Vec<Output>, CoreFault>
        ensures accepted { OnOk result ((g : Setting) (s : State) (lent : List ℕ) → IsCore g s self.old → refusal g lent s (event_of event.now) ≡ None) }
        ensures outputs { IfOk result (λ outputs. (g : Setting) (s : State) → IsCore g s self.old → C.tells classes.now g.classes → map output_of outputs.items ≡ (after_event g (event_of event.now) s).1) }
        ensures state { OnOk result ((g : Setting) (s : State) → IsCore g s self.old → C.tells classes.now g.classes → IsCore g (after_event g (event_of event.now) s).0 self.new) }
        ensures lent { (g : Setting) (s : State) → IsCore g s self.old → (id : ℕ) → is_lent self.new id ≡ is_lent self.old id }
        ensures refused { IfErr result (λ fault. (g : Setting) (s : State) (lent : List ℕ) → IsCore g s self.old → Refuses (refusal g lent s (event_of event.now)) fault) }
        ensures unchanged { OnErr result ((g : Setting) (s : State) → IsCore g s self.old → IsCore g s self.new) }

        // Own references in tasks, fields, results and parked frames name standing objects of their class after
        // each history that the space took.
        ensures standing { OnOk result ((g : Setting) (h : List Happening) → IsCore g (state_of g h) self.old → IsTaken g h → OwnStand g (state_of g (event_of event.now ∷ h))) }
    {
        match self.refusal(event) {
            Some(fault) => Err(fault),
            None => Ok(self.accept(classes, event)?),
        }
    }

    // Lets an event happen that is not refused, and answers its outputs.
    fn accept<C: CallClasses>(
        &mut self,
        classes: &C,
        event: &Event,
    ) -> Result<Vec<Output>, AllocError>
        ensures outputs { IfOk result (λ outputs. (g : Setting) (s : State) → IsCore g s self.old → C.tells classes.now g.classes → IsLetIn g s (event_of event.now) → map output_of outputs.items ≡ (after_event g (event_of event.now) s).1) }
        ensures state { OnOk result ((g : Setting) (s : State) → IsCore g s self.old → C.tells classes.now g.classes → IsLetIn g s (event_of event.now) → IsCore g (after_event g (event_of event.now) s).0 self.new) }
        ensures lent { (g : Setting) (s : State) → IsCore g s self.old → (id : ℕ) → is_lent self.new id ≡ is_lent self.old id }
        ensures unchanged { OnErr result ((g : Setting) (s : State) → IsCore g s self.old → IsCore g s self.new) }
    {
        let first = copy_event(self.alloc, event)?;
        let second = copy_event(self.alloc, event)?;
        let mut next = self.take_spare()?;
        let Ok(outputs) = next.on(classes, first) else {
            let_go(next);
            return Err(AllocError);
        };
        let last = mem::replace(&mut self.state, next);
        let spare = follow(last, classes, second);
        self.put_spare(spare);
        self.sightings
            .see_results(self.state.state(), outputs.as_slice());
        Ok(outputs)
    }
}
