//! Roots: tasks that the space starts by itself.

ghost use Rattle.std.specs.Prelude.{◌≡◌, ℕ, List, [], ◌∷◌, None, true, IfErr, IfOk, OnErr, OnOk, is_some, map, option_and_then, option_map};
ghost use Rattle.std.specs.List.{list_all};
ghost use Rattle.sp_events.specs.Events.{event_of_root};
ghost use Rattle.sp_events.specs.FaultNames.{RefusesOrLacks, core_fault_number};
ghost use Rattle.sp_outputs.specs.Notes.{output_of};
ghost use Rattle.sp_rules.specs.Classes.{Setting};
ghost use Rattle.sp_rules.specs.Events.{Event as Happening};
ghost use Rattle.sp_rules.specs.Holders.{lease_now};
ghost use Rattle.sp_rules.specs.Origins.{IsTaken, OwnStand};
ghost use Rattle.sp_rules.specs.References.{reference_of, references_of};
ghost use Rattle.sp_rules.specs.Refusals.{checks, first_refusal, is_root_argument, refusal, refusal_number};
ghost use Rattle.sp_rules.specs.Space.{on as after_event, state_of};
ghost use Rattle.sp_rules.specs.State.{State};
ghost use Rattle.sp_core.specs.Roots.{IsTold, root_number};

use crate::SpaceCore;
use sp_changes::{follow_root, let_go};
use sp_endings::is_busy;
use sp_events::{CoreFault, Root, StartFault};
use sp_holders::has_holder;
use sp_outputs::Output;
use space_ids::{ForeignId, Ref, Value};
use std::alloc::AllocError;
use std::mem;

impl SpaceCore {
    ghost use Rattle.sp_core.specs.Cores.{IsCore, is_lent};

    /// Starts a task at a method, and answers that it started and may go on. Refused or out of memory, nothing
    /// changes; the refusal with the lowest number counts, but 98 before all others. To look for a reason takes
    /// memory too. That the class set says what the root tells of it is the caller's to know.
    pub fn root(&mut self, root: &Root) -> Result<Vec<Output>, CoreFault>
        ensures accepted { OnOk result ((g : Setting) (s : State) (lent : List ℕ) → IsCore g s self.old → IsTold g root.now → refusal g lent s (event_of_root root.now) ≡ None) }
        ensures outputs { IfOk result (λ outputs. (g : Setting) (s : State) → IsCore g s self.old → map output_of outputs.items ≡ (after_event g (event_of_root root.now) s).1) }
        ensures state { OnOk result ((g : Setting) (s : State) → IsCore g s self.old → IsCore g (after_event g (event_of_root root.now) s).0 self.new) }
        ensures lent { (g : Setting) (s : State) → IsCore g s self.old → (id : ℕ) → is_lent self.new id ≡ is_lent self.old id }
        ensures refused { IfErr result (λ fault. (g : Setting) (s : State) (lent : List ℕ) → IsCore g s self.old → IsTold g root.now → RefusesOrLacks (refusal g lent s (event_of_root root.now)) fault) }
        ensures unchanged { OnErr result ((g : Setting) (s : State) → IsCore g s self.old → IsCore g s self.new) }

        // Own references name standing objects of their class after each history that the space took.
        ensures standing { OnOk result ((g : Setting) (h : List Happening) → IsCore g (state_of g h) self.old → IsTold g root.now → IsTaken g h → OwnStand g (state_of g (event_of_root root.now ∷ h))) }
    {
        let arguments = root.arguments.as_slice();
        self.sightings.look_for(self.state.state(), arguments);
        match self.refuse_root(root)? {
            Some(fault) => Err(fault),
            None => Ok(self.start(root)?),
        }
    }

    // Why the root is refused, if it is.
    fn refuse_root(&self, root: &Root) -> Result<Option<CoreFault>, AllocError>
        ensures { IfOk result (λ fault. (g : Setting) (s : State) (lent : List ℕ) → IsCore g s self.now → IsTold g root.now → option_map refusal_number (refusal g lent s (event_of_root root.now)) ≡ option_and_then core_fault_number fault) }
    {
        if self.is_worn() {
            Ok(Some(CoreFault::WornOut))
        } else {
            self.check_root(root)
        }
    }

    // Why the root is refused if the space is not worn out: the reason with the lowest number.
    fn check_root(&self, root: &Root) -> Result<Option<CoreFault>, AllocError>
        ensures { IfOk result (λ fault. (g : Setting) (s : State) (lent : List ℕ) → IsCore g s self.now → IsTold g root.now → option_map refusal_number (first_refusal (checks g lent s (event_of_root root.now))) ≡ option_and_then core_fault_number fault) }
    {
        let may_have = self.are_arguments(root.arguments.as_slice())?;
        let is_over = root.fuel > self.fuel;
        let is_busy = is_busy(self.alloc, self.state.living())?;
        Ok(first_fault(root.refused, may_have, is_over, is_busy))
    }

    // Whether a root may have each reference among the values.
    fn are_arguments(&self, values: &[Value]) -> Result<bool, AllocError>
        ensures { IfOk result (λ are. (g : Setting) (s : State) → IsCore g s self.now → are ≡ list_all (is_root_argument g s) (references_of values.now)) }
    {
        for value in values {
            if !self.is_argument(value)? {
                return Ok(false);
            }
        }
        Ok(true)
    }

    // Whether a root may have the reference that the value is, if it is one.
    fn is_argument(&self, value: &Value) -> Result<bool, AllocError>
        ensures { IfOk result (λ is. (g : Setting) (s : State) → IsCore g s self.now → is ≡ list_all (is_root_argument g s) (reference_of value.now)) }
    {
        match value {
            Value::Ref(reference) => self.may_have(reference),
            _ => Ok(true),
        }
    }

    // Whether a root may have the reference: it is of a standing own object, of its class, or a foreign one
    // that is leased and has a holder.
    fn may_have(&self, reference: &Ref) -> Result<bool, AllocError>
        ensures { IfOk result (λ may. (g : Setting) (s : State) → IsCore g s self.now → may ≡ is_root_argument g s reference.now) }
    {
        if reference.space == self.id {
            return Ok(self.state.owner().is_own_standing(reference));
        }
        if !self.is_leased(reference) {
            return Ok(false);
        }
        has_holder(self.alloc, self.state.state(), &self.sightings, reference)
    }

    // Whether a foreign reference is leased.
    fn is_leased(&self, reference: &Ref) -> bool
        ensures { (g : Setting) (s : State) → IsCore g s self.now → result ≡ is_some (lease_now s (record { space = reference.now.space; id = reference.now.id })).lease }
    {
        let id = ForeignId {
            space: reference.space,
            id: reference.id,
        };
        self.state.living().transport().lease(&id).lease.is_some()
    }

    // Starts the task of a root that is not refused.
    fn start(&mut self, root: &Root) -> Result<Vec<Output>, AllocError>
        ensures outputs { IfOk result (λ outputs. (g : Setting) (s : State) → IsCore g s self.old → map output_of outputs.items ≡ (after_event g (event_of_root root.now) s).1) }
        ensures state { OnOk result ((g : Setting) (s : State) → IsCore g s self.old → IsCore g (after_event g (event_of_root root.now) s).0 self.new) }
        ensures lent { (g : Setting) (s : State) → IsCore g s self.old → (id : ℕ) → is_lent self.new id ≡ is_lent self.old id }
        ensures unchanged { OnErr result ((g : Setting) (s : State) → IsCore g s self.old → IsCore g s self.new) }
    {
        let mut next = self.take_spare()?;
        let Ok(outputs) = next.on_root(root) else {
            let_go(next);
            return Err(AllocError);
        };
        let last = mem::replace(&mut self.state, next);
        let spare = follow_root(last, root);
        self.put_spare(spare);
        Ok(outputs)
    }
}

// The first of the reasons to refuse a root.
fn first_fault(
    refused: Option<StartFault>,
    may_have: bool,
    is_over: bool,
    is_busy: bool,
) -> Option<CoreFault>
    ensures { option_and_then core_fault_number result ≡ root_number refused may_have is_over is_busy }
{
    match refused {
        Some(fault) => Some(CoreFault::Start(fault)),
        None if !may_have => Some(CoreFault::NotHeld),
        None if is_over => Some(CoreFault::WrongKind),
        None if is_busy => Some(CoreFault::Busy),
        None => None,
    }
}
