//! Objects that have no reason to stay (Java RMI specification, 3.3).

ghost use Rattle.std.specs.Prelude.{◌≡◌, ◌++◌, IfOk, OnOk, option_map, unwrap_or, []};
ghost use Rattle.std.specs.List.{flat_map};
ghost use Rattle.sp_rules.specs.Classes.{Setting};
ghost use Rattle.sp_rules.specs.Holders.{fields_of};
ghost use Rattle.sp_rules.specs.OwnEvents.{on_sweep};
ghost use Rattle.sp_rules.specs.References.{reference_of, references_of};
ghost use Rattle.sp_rules.specs.State.{State, object_at};
ghost use Rattle.sp_tasks.specs.Lent.{KeepsLent};

use crate::SpaceState;
use sp_outputs::Output;
use sp_store::IdSet;
use space_ids::{ObjId, Ref, Row, Value};
use std::alloc::AllocError;

impl SpaceState {
    ghost use Rattle.sp_state.specs.Spaces.{IsSpace};
    ghost use Rattle.sp_state.specs.Sweeping.{fields_at, idle_of, withdrawn};

    /// Withdraws the objects that have no reason to stay, and lets the references in their fields go. Answers
    /// them, if there are any.
    pub fn sweep(&mut self) -> Result<(), AllocError>
        ensures swept { OnOk result ((g : Setting) (s : State) → IsSpace g s self.old → IsSpace g (on_sweep g s) self.new) }
        ensures lent { OnOk result (KeepsLent self.old.living.tasks self.new.living.tasks) }
    {
        let ids = self.idle()?;
        let count = ids.len();
        if count == 0 {
            return Ok(());
        }
        self.withdraw(ids)
    }

    // The objects that have no reason to stay, in the order of ids.
    fn idle(&self) -> Result<Vec<ObjId>, AllocError>
        ensures { IfOk result (λ ids. (g : Setting) (s : State) → IsSpace g s self.now → ids.items ≡ idle_of g s) }
    {
        let mut needed = IdSet::new(self.alloc);
        sp_endings::insert_own(self.alloc, &self.living, &mut needed)?;
        let ids = self.owner.idle(needed)?;
        Ok(ids)
    }

    // Withdraws these objects.
    fn withdraw(&mut self, ids: Vec<ObjId>) -> Result<(), AllocError>
        ensures withdrawn { OnOk result ((g : Setting) (s : State) → IsSpace g s self.old → IsSpace g (withdrawn g ids.items s) self.new) }
        ensures lent { OnOk result (KeepsLent self.old.living.tasks self.new.living.tasks) }
    {
        let gone = ids.as_slice();
        let references = self.references_of(gone)?;
        self.owner.withdraw(gone)?;
        let dropped = references.as_slice();
        self.living.drop_holders(dropped);
        self.living.say(Output::Withdrawn(Row::new(ids)))
    }

    // The references in the fields of these objects, one after the other.
    fn references_of(&self, ids: &[ObjId]) -> Result<Vec<Ref>, AllocError>
        ensures { IfOk result (λ references. (g : Setting) (s : State) → IsSpace g s self.now → references.items ≡ flat_map (fields_at g s) ids.now) }
    {
        let mut references = Vec::new(self.alloc);
        for id in ids {
            if let Some(fields) = self.owner.fields_of(*id) {
                push_references(fields, &mut references)?;
            }
        }
        Ok(references)
    }
}

// Adds the references that values are.
fn push_references(values: &[Value], references: &mut Vec<Ref>) -> Result<(), AllocError>
    ensures { OnOk result (references.new.items ≡ references.old.items ++ references_of values.now) }
{
    for value in values {
        push_reference(value, references)?;
    }
    Ok(())
}

// Adds the reference that a value is, if it is one.
fn push_reference(value: &Value, references: &mut Vec<Ref>) -> Result<(), AllocError>
    ensures { OnOk result (references.new.items ≡ references.old.items ++ reference_of value.now) }
{
    match value {
        Value::Ref(reference) => {
            references.push(*reference)?;
            Ok(())
        }
        _ => Ok(()),
    }
}
