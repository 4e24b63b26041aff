//! When entries expire, in the order of the moments.

ghost use Rattle.std.specs.Prelude.{◌≡◌, ◌≢◌, ◌+◌, ◌<◌, ◌≤◌, ◌⊎◌, [], length, Contains, OnOk, OnSome, IfSome, IfNone};
ghost use Rattle.dgc_list.specs.declared.expiries.Expiry.{Expiry};

use space_ids::ObjId;
use std::alloc::{AllocError, Global};
use std::collections::BTreeSet;
use std::marker::Model;
use uuid::Uuid;

/// A client's entry for an object is gone from a moment on.
#[derive(Clone, Copy, PartialEq, Eq, PartialOrd, Ord)]
pub(crate) struct Expiry {
    pub(crate) moment: u64,
    pub(crate) object: ObjId,
    pub(crate) client: Uuid,
}

/// Expiries in the order of their moments, one for each entry that stands. One more may be there if
/// an entry went with its object, or its call was out of memory. It does no harm, since the entry
/// itself is looked at when the moment comes.
#[derive(Clone, Drop)]
pub(crate) struct Expiries {
    row: BTreeSet<Expiry>,
}

impl Model for Expiries {
    ghost use Rattle.std.specs.Prelude.{List};
    ghost use Rattle.dgc_list.specs.declared.expiries.Expiry.{Expiry};

    ghost Value = { List Expiry };

    ghost view = { λ expiries. expiries.row.keys };
}

impl Expiries {
    pub(crate) fn new(alloc: Global) -> Expiries
        ensures { result ≡ [] }
    {
        Expiries {
            row: BTreeSet::new(alloc),
        }
    }

    // Adds an expiry.
    pub(crate) fn add(&mut self, expiry: Expiry) -> Result<(), AllocError>
        ensures added { OnOk result (Contains self.new expiry) }
        ensures kept { (other : Expiry) → Contains self.old other → Contains self.new other }
    {
        self.row.insert(expiry)?;
        Ok(())
    }

    // Takes an expiry out.
    pub(crate) fn remove(&mut self, expiry: Expiry)
        ensures others { (other : Expiry) → Contains self.old other
            → (other ≡ expiry) ⊎ Contains self.new other }
        ensures gone { Contains self.new expiry → ⊥ }
    {
        let _ = self.row.remove(&expiry);
    }

    // Takes the first expiry, if the moment has reached it.
    pub(crate) fn pop_gone(&mut self, moment: u64) -> Option<Expiry>
        ensures reached { IfSome result (λ gone. gone.moment ≤ moment) }
        ensures others { IfSome result (λ gone. (other : Expiry) → Contains self.old other
            → (other ≡ gone) ⊎ Contains self.new other) }
        ensures fewer { OnSome result (length self.new + 1 ≡ length self.old) }
        ensures none { IfNone result ((other : Expiry) → Contains self.old other
            → moment < other.moment) }
        ensures unchanged { IfNone result (self.new ≡ self.old) }
    {
        match self.row.first() {
            Some(first) if first.moment <= moment => self.row.pop_first(),
            _ => None,
        }
    }
}
