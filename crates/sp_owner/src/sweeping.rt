//! Objects that have no reason to stay (Java RMI specification, 3.3).

ghost use Rattle.std.specs.Prelude.{◌≡◌, ◌||◌, not, nat_lt, List, IfOk, OnOk, filter, length};
ghost use Rattle.std.specs.List.{list_any};
ghost use Rattle.dgc_list.specs.History as owner;
ghost use Rattle.space_ids.specs.declared.ids.ObjId.{ObjId};
ghost use Rattle.sp_rules.specs.Classes.{Setting};
ghost use Rattle.sp_rules.specs.References.{is_id, is_id_in};
ghost use Rattle.sp_rules.specs.State.{State};
ghost use Rattle.sp_owner.specs.Owners.{forgotten, idle, without};

use crate::Owner;
use dgc_list::RefList;
use sp_registry::Registry;
use sp_store::IdSet;
use space_ids::ObjId;
use std::alloc::{AllocError, Global};

impl Owner {
    ghost use Rattle.sp_owner.specs.Owners.{IsOwner};

    /// The standing objects that have no reason to stay, in the order of ids: they are not among those that
    /// are needed, no name is bound to them, no client has an entry of them, and no field has them.
    pub fn idle(&self, needed: IdSet) -> Result<Vec<ObjId>, AllocError>
        ensures { IfOk result (λ ids. (g : Setting) (s : State) → IsOwner g s self.now → ids.items ≡ idle g s needed) }
    {
        let mut needed = needed;
        insert_bound(&self.names, &mut needed)?;
        let idle = self.store.idle(self.alloc, needed)?;
        unlisted(self.alloc, &self.entries, &idle)
    }

    /// Withdraws the objects of these ids, and forgets all that clients told of them.
    pub fn withdraw(&mut self, ids: &[ObjId]) -> Result<(), AllocError>
        ensures { OnOk result ((g : Setting) (s : State) → IsOwner g s self.old → IsOwner g (without ids.now s) self.new) }
    {
        self.store.withdraw(self.alloc, ids)?;
        forget(&mut self.entries, ids);
        Ok(())
    }
}

// Adds the ids of the objects to which names are bound.
fn insert_bound(names: &Registry, needed: &mut IdSet) -> Result<(), AllocError>
    ensures { OnOk result ((id : ObjId) → is_id_in needed.new id ≡ (is_id_in needed.old id || list_any (λ binding. is_id binding.object id) names.now.bindings)) }
{
    for binding in names.list() {
        needed.insert(binding.object)?;
    }
    Ok(())
}

// Those of the objects of which no client has an entry.
fn unlisted(alloc: Global, entries: &RefList, ids: &[ObjId]) -> Result<Vec<ObjId>, AllocError>
    ensures { IfOk result (λ left. (h : List owner.Call) → owner.IsAfter h entries.now → left.items ≡ filter (λ id. not (nat_lt 0 (length (owner.clients_of h id)))) ids.now) }
{
    let mut left = Vec::new(alloc);
    for id in ids {
        if entries.entries_of(*id) == 0 {
            left.push(*id)?;
        }
    }
    Ok(left)
}

// Forgets all that clients told of these objects.
fn forget(entries: &mut RefList, ids: &[ObjId])
    ensures { (h : List owner.Call) → owner.IsAfter h entries.old → owner.IsAfter (forgotten ids.now h) entries.new }
{
    for id in ids {
        entries.forget(*id);
    }
}
