//! Dirty and clean calls that fail, as the leases tell them.

ghost use Rattle.std.specs.Prelude.{◌≡◌, ◌&&◌, [], ◌∷◌, IfOk, OnOk, is_none};
ghost use Rattle.dgc_client.specs.History.Event.{CleanFailed};
ghost use Rattle.dgc_client.specs.Lease.{is_made};
ghost use Rattle.dgc_client.specs.declared.lease.Due.TheVariants as due;
ghost use Rattle.sp_rules.specs.Classes.{Setting};
ghost use Rattle.sp_rules.specs.State.{State};
ghost use Rattle.sp_transport.specs.Answers.{tell_leases};
ghost use Rattle.sp_living.specs.Telling.{dirty_failed, lacks_lease};

use crate::Living;
use dgc_client::{ClientLease, Due, Group};
use space_ids::{ForeignId, Row};
use std::alloc::{AllocError, Global};

impl Living {
    ghost use Rattle.sp_living.specs.Livings.{IsLiving};

    /// Notes that the clean calls of a group failed, made under this number. It takes no memory.
    pub fn clean_failed(&mut self, group: &Group, call: u64)
        ensures failed { (g : Setting) (s : State) → IsLiving g s self.old → IsLiving g (tell_leases group.now (CleanFailed call) s) self.new }
        ensures tasks { self.new.tasks ≡ self.old.tasks }
    {
        self.transport.clean_failed(group, call);
    }

    /// Notes that the dirty call of a reference failed, made under this number. Returns whether frames that
    /// wait for the reference fail with it: it was not overtaken, and there is no lease yet.
    pub fn dirty_failed(&mut self, reference: &ForeignId, call: u64) -> Result<bool, AllocError>
        ensures tasks { self.new.tasks ≡ self.old.tasks }
        ensures lacks { IfOk result (λ lacks. (g : Setting) (s : State) → IsLiving g s self.old → lacks ≡ lacks_lease call s reference.now) }
        ensures failed { OnOk result ((g : Setting) (s : State) → IsLiving g s self.old → IsLiving g (dirty_failed call s reference.now) self.new) }
    {
        let group = group_of_one(self.alloc, reference)?;
        let lacks = is_unleased(self.transport.lease(reference), call);
        self.transport.dirty_failed(&group, call);
        Ok(lacks)
    }
}

// Whether a dirty call is the one on its way, and there is no lease yet.
fn is_unleased(lease: ClientLease, call: u64) -> bool
    ensures { result ≡ (is_made lease.dirty call && is_none lease.lease) }
{
    match lease.dirty {
        Some(made) => made.call == call && lease.lease.is_none(),
        None => false,
    }
}

// The dirty call of a reference alone.
fn group_of_one(alloc: Global, reference: &ForeignId) -> Result<Group, AllocError>
    ensures { IfOk result (λ group. group ≡ record { peer = reference.now.space; kind = due.Dirty; ids = reference.now.id ∷ [] }) }
{
    let mut ids = Vec::new(alloc);
    ids.push(reference.id)?;
    Ok(Group {
        peer: reference.space,
        kind: Due::Dirty,
        ids: Row::new(ids),
    })
}
