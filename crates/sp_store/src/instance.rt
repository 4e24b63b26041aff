//! One remote object.

ghost use Rattle.std.specs.Prelude.{◌≡◌, ◌++◌, [], IfSome, IfNone, OnOk, slice_get, slice_set, nat_lt};
ghost use Rattle.sp_rules.specs.References.{own_ids, references_of};
ghost use Rattle.sp_store.specs.Instances.{after_hold, after_release};

use space_ids::{ClassId, ObjId, Uuid, Value};
use std::alloc::{AllocError, Global};
use std::marker::Model;
use table_copies::{CopyIn, copy_values};

/// A remote object as its store keeps it. A contract sees its class, its fields as the list of what
/// they hold, and by how many it is held.
#[derive(Drop)]
pub(crate) struct Instance {
    class: ClassId,
    fields: Vec<Value>,
    holds: u64,
}

impl Model for Instance {
    ghost use Rattle.sp_store.specs.Instances.{Remote};

    ghost Value = { Remote };

    ghost view = { λ instance. record { class = instance.class; fields = instance.fields.items; holds = instance.holds } };
}

impl CopyIn for Instance {
    ghost use Rattle.std.specs.Prelude.{◌≡◌};

    ghost is_copy = { λ instance copy. copy ≡ instance };

    fn copy_in(&self, alloc: Global) -> Result<Instance, AllocError> {
        Ok(Instance {
            class: self.class,
            fields: copy_values(alloc, &self.fields)?,
            holds: self.holds,
        })
    }
}

impl Instance {
    // An object of this class whose fields hold these values. Nothing holds it.
    pub(crate) fn new(class: ClassId, fields: Vec<Value>) -> Instance
        ensures { result ≡ record { class = class; fields = fields.items; holds = 0 } }
    {
        Instance {
            class,
            fields,
            holds: 0,
        }
    }

    pub(crate) fn class(&self) -> ClassId
        ensures { result ≡ self.now.class }
    {
        self.class
    }

    // What its fields hold, by slot.
    pub(crate) fn fields(&self) -> &[Value]
        ensures { result.now ≡ self.now.fields }
    {
        &self.fields
    }

    pub(crate) fn is_held(&self) -> bool
        ensures { result ≡ nat_lt 0 self.now.holds }
    {
        self.holds > 0
    }

    // Puts the value into the field. Returns what it held; none, and nothing happens, if there is no
    // such field.
    pub(crate) fn put(&mut self, slot: usize, value: Value) -> Option<Value>
        ensures had { result ≡ slice_get self.old.fields slot }
        ensures fields { IfSome result (λ _. self.new.fields ≡ slice_set self.old.fields slot value) }
        ensures unchanged { IfNone result (self.new ≡ self.old) }
        ensures class { self.new.class ≡ self.old.class }
        ensures holds { self.new.holds ≡ self.old.holds }
    {
        if slot >= self.fields.len() {
            return None;
        }
        Some(std::mem::replace(&mut self.fields[slot], value))
    }

    // One more holds it.
    pub(crate) fn hold(&mut self)
        ensures { self.new ≡ record self.old { holds = after_hold self.old.holds } }
    {
        if self.holds < u64::MAX {
            self.holds += 1;
        }
    }

    // One less holds it.
    pub(crate) fn release(&mut self)
        ensures { self.new ≡ record self.old { holds = after_release self.old.holds } }
    {
        if self.holds < u64::MAX {
            self.holds = self.holds.saturating_sub(1);
        }
    }
}
