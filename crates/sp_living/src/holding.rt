//! Holders of foreign references.

ghost use Rattle.std.specs.Prelude.{◌≡◌, IfOk, OnOk};
ghost use Rattle.sp_rules.specs.Classes.{Setting};
ghost use Rattle.sp_rules.specs.Holders.{drop, drop_ids, hold, hold_ids};
ghost use Rattle.sp_rules.specs.References.{foreign_id, is_reference_in};
ghost use Rattle.sp_rules.specs.State.{State};
ghost use Rattle.sp_living.specs.Holding.{listed};

use crate::Living;
use space_ids::{ForeignId, Ref, is_among};
use std::alloc::AllocError;

impl Living {
    ghost use Rattle.sp_living.specs.Holding.{held_at};
    ghost use Rattle.sp_living.specs.Livings.{IsLiving};

    /// Adds a holder of each foreign reference among these.
    pub fn hold(&mut self, references: &[Ref]) -> Result<(), AllocError>
        ensures tasks { self.new.tasks ≡ self.old.tasks }
        ensures held { OnOk result ((g : Setting) (s : State) → IsLiving g s self.old → IsLiving g (hold g references.now s) self.new) }
    {
        for reference in references {
            self.hold_one(reference)?;
        }
        Ok(())
    }

    /// Takes a holder of each foreign reference among these away, if it has one. It takes no memory.
    pub fn drop_holders(&mut self, references: &[Ref])
        ensures tasks { self.new.tasks ≡ self.old.tasks }
        ensures dropped { (g : Setting) (s : State) → IsLiving g s self.old → IsLiving g (drop g references.now s) self.new }
    {
        for reference in references {
            self.drop_one(reference);
        }
    }

    /// Adds a holder of each of these foreign references.
    pub fn hold_ids(&mut self, references: &[ForeignId]) -> Result<(), AllocError>
        ensures held { OnOk result ((g : Setting) (s : State) → IsLiving g s self.old → IsLiving g (hold_ids references.now s) self.new) }
        ensures tasks { self.new.tasks ≡ self.old.tasks }
    {
        self.transport.reserve_holders(references.len())?;
        self.transport.hold_ids_reserved(references);
        Ok(())
    }

    /// Takes a holder of each of these foreign references away, if it has one. It takes no memory.
    pub fn drop_ids(&mut self, references: &[ForeignId])
        ensures dropped { (g : Setting) (s : State) → IsLiving g s self.old → IsLiving g (drop_ids references.now s) self.new }
        ensures tasks { self.new.tasks ≡ self.old.tasks }
    {
        self.transport.drop_ids(references);
    }

    // Adds a holder of a reference, if there is one and it is foreign.
    pub(crate) fn hold_found(&mut self, found: Option<Ref>) -> Result<(), AllocError>
        ensures tasks { self.new.tasks ≡ self.old.tasks }
        ensures held { OnOk result ((g : Setting) (s : State) → IsLiving g s self.old → IsLiving g (hold g (listed found) s) self.new) }
    {
        match found {
            Some(reference) => self.hold_one(&reference),
            None => Ok(()),
        }
    }

    // Takes a holder of a reference away, if there is one and it is foreign.
    pub(crate) fn drop_found(&mut self, found: Option<Ref>)
        ensures dropped { (g : Setting) (s : State) → IsLiving g s self.old → IsLiving g (drop g (listed found) s) self.new }
        ensures tasks { self.new.tasks ≡ self.old.tasks }
    {
        match found {
            Some(reference) => self.drop_one(&reference),
            None => {}
        }
    }

    // Adds a holder of a reference, if it is foreign.
    fn hold_one(&mut self, reference: &Ref) -> Result<(), AllocError>
        ensures tasks { self.new.tasks ≡ self.old.tasks }
        ensures held { OnOk result ((g : Setting) (s : State) → IsLiving g s self.old → IsLiving g (hold_ids (foreign_id g.id reference.now) s) self.new) }
    {
        if reference.space == self.id {
            return Ok(());
        }
        self.transport.reserve_holders(1)?;
        self.transport.hold_reserved(&ForeignId {
            space: reference.space,
            id: reference.id,
        });
        Ok(())
    }

    // Takes a holder of a reference away, if it is foreign.
    fn drop_one(&mut self, reference: &Ref)
        ensures tasks { self.new.tasks ≡ self.old.tasks }
        ensures dropped { (g : Setting) (s : State) → IsLiving g s self.old → IsLiving g (drop_ids (foreign_id g.id reference.now) s) self.new }
    {
        if reference.space != self.id {
            self.transport.drop_holder(&ForeignId {
                space: reference.space,
                id: reference.id,
            });
        }
    }

    /// A copy of what a task holds, nothing if none of this id lives.
    pub fn held(&self, id: u64) -> Result<Vec<Ref>, AllocError>
        ensures { IfOk result (λ held. held.items ≡ held_at id self.now) }
    {
        match self.tasks.held(id) {
            Some(held) => Ok(held.to_vec(self.alloc)?),
            None => Ok(Vec::new(self.alloc)),
        }
    }

    // Whether a task lives that holds a reference.
    pub(crate) fn holds(&self, id: u64, reference: &Ref) -> bool
        ensures { result ≡ is_reference_in (held_at id self.now) reference.now }
    {
        match self.tasks.held(id) {
            Some(held) => is_among(held, reference),
            None => false,
        }
    }
}
