//! How many names are bound to each object.

ghost use Rattle.std.specs.Prelude.{◌≡◌, ◌+◌, ◌-◌, ◌<◌, ◌^◌, OnOk, OnErr, if◌then◌else◌};
ghost use Rattle.space_ids.specs.declared.ids.ObjId.{ObjId};
ghost use Rattle.sp_registry.specs.Counts.{is_same, number_in};

use space_ids::ObjId;
use std::alloc::{AllocError, Global};
use std::collections::HashMap;
use std::marker::Model;

/// How many names are bound to each object. A contract sees the list of the objects
/// with their numbers, and asks for the number of an object, 0 if it is not there.
#[derive(Clone, Drop)]
pub(crate) struct Counts {
    counts: HashMap<ObjId, usize>,
}

impl Model for Counts {
    ghost use Rattle.std.specs.Prelude.{ℕ, List};
    ghost use Rattle.space_ids.specs.declared.ids.ObjId.{ObjId};

    ghost Value = { List (ObjId × ℕ) };

    ghost view = { λ counts. counts.counts.entries };
}

impl Counts {
    pub(crate) fn new(alloc: Global) -> Counts
        ensures { (object : ObjId) → number_in result object ≡ 0 }
    {
        Counts {
            counts: HashMap::new(alloc),
        }
    }

    // How many names are bound to the object.
    pub(crate) fn get(&self, object: ObjId) -> usize
        ensures { result ≡ number_in self.now object }
    {
        match self.counts.get(&object) {
            Some(count) => *count,
            None => 0,
        }
    }

    // One more name is bound to the object. At out of memory nothing happens.
    pub(crate) fn add(&mut self, object: ObjId) -> Result<(), AllocError>
        requires { number_in self.old object + 1 < 2 ^ 64 }
        ensures ok { OnOk result ((other : ObjId) → number_in self.new other
            ≡ (if is_same object other then number_in self.old other + 1 else number_in self.old other)) }
        ensures err { OnErr result ((other : ObjId) → number_in self.new other ≡ number_in self.old other) }
    {
        let count = self.get(object);
        self.counts.insert(object, count + 1)?;
        Ok(())
    }

    // One name less is bound to the object.
    pub(crate) fn take(&mut self, object: ObjId)
        ensures { (other : ObjId) → number_in self.new other
            ≡ (if is_same object other then number_in self.old other - 1 else number_in self.old other) }
    {
        let left = self.get(object).saturating_sub(1);
        if left == 0 {
            let _ = self.counts.remove(&object);
        } else if let Some(count) = self.counts.get_mut(&object) {
            *count = left;
        }
    }
}
