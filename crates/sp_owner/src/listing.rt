//! What clients tell of objects (Java RMI specification, 9.1: DGC.dirty and DGC.clean).

ghost use Rattle.std.specs.Prelude.{◌≡◌, ◌<◌, ◌^◌, ◌∷◌, ◌++◌, [], IfOk, OnOk, map, min};
ghost use Rattle.dgc_list.specs.History.Call.{Dirty, Clean, Moment};
ghost use Rattle.sp_rules.specs.Classes.{Setting};
ghost use Rattle.sp_rules.specs.Frames.{that_stand};
ghost use Rattle.sp_rules.specs.References.{is_id_in};
ghost use Rattle.sp_rules.specs.State.{State, standing, tell_owner};

use crate::Owner;
use space_ids::{ObjId, Uuid};
use std::alloc::AllocError;

impl Owner {
    ghost use Rattle.sp_owner.specs.Owners.{IsOwner};

    /// Makes a dirty call of a client on those of the objects that stand, and returns the granted period.
    pub fn dirty(
        &mut self,
        client: &Uuid,
        ids: &[ObjId],
        sequence: u64,
        period: u64,
    ) -> Result<u64, AllocError>
        ensures granted { IfOk result (λ granted. granted ≡ min period 600000) }
        ensures told { OnOk result ((g : Setting) (s : State) → IsOwner g s self.old → IsOwner g (tell_owner (Dirty client.now (that_stand s ids.now) sequence period) s) self.new) }
    {
        let standing = self.those_that_stand(ids)?;
        self.entries.dirty(client, &standing, sequence, period)
    }

    /// Makes a clean call of a client on those of the objects that stand.
    pub fn clean(
        &mut self,
        client: &Uuid,
        ids: &[ObjId],
        sequence: u64,
        strong: bool,
    ) -> Result<(), AllocError>
        ensures { OnOk result ((g : Setting) (s : State) → IsOwner g s self.old → IsOwner g (tell_owner (Clean client.now (that_stand s ids.now) sequence strong) s) self.new) }
    {
        let standing = self.those_that_stand(ids)?;
        self.entries.clean(client, &standing, sequence, strong)
    }

    /// The moment is now: entries whose period is over are gone. A moment below the last changes nothing.
    pub fn moment(&mut self, moment: u64)
        requires { moment < 2 ^ 63 }
        ensures { (g : Setting) (s : State) → IsOwner g s self.old → IsOwner g (tell_owner (Moment moment) s) self.new }
    {
        self.entries.moment(moment);
    }

    // Those of the objects that stand, in their order.
    fn those_that_stand(&self, ids: &[ObjId]) -> Result<Vec<ObjId>, AllocError>
        ensures { IfOk result (λ standing. (g : Setting) (s : State) → IsOwner g s self.now → standing.items ≡ that_stand s ids.now) }
    {
        let mut standing = Vec::new(self.alloc);
        for id in ids {
            self.push_if_it_stands(*id, &mut standing)?;
        }
        Ok(standing)
    }

    // Adds an object to others, if it stands.
    fn push_if_it_stands(&self, id: ObjId, others: &mut Vec<ObjId>) -> Result<(), AllocError>
        ensures { OnOk result ((g : Setting) (s : State) → IsOwner g s self.now → others.new.items ≡ others.old.items ++ that_stand s (id ∷ [])) }
    {
        if self.stands(id) {
            others.push(id)?;
        }
        Ok(())
    }

    // Whether an object stands.
    fn stands(&self, id: ObjId) -> bool
        ensures { (g : Setting) (s : State) → IsOwner g s self.now → result ≡ is_id_in (map (λ o. o.id) (standing s.store)) id }
    {
        self.store.class_of(id).is_some()
    }
}
