//! The classes by which calls and lookups end.

ghost use Rattle.std.specs.Prelude.{◌≡◌};

use space_ids::ClassId;

// The classes by which calls and lookups end: those that were not sent whole, and the others.
#[derive(Clone, Copy)]
pub(crate) struct Thrown {
    pub(crate) unsent: ClassId,
    pub(crate) others: ClassId,
}

impl Thrown {
    ghost use Rattle.sp_endings.specs.Ends.{thrown_at};

    // All end by one class.
    pub(crate) fn all(class: ClassId) -> Thrown
        ensures { result ≡ record { unsent = class; others = class } }
    {
        Thrown {
            unsent: class,
            others: class,
        }
    }

    // The class by which a call or lookup ends.
    pub(crate) fn class(self, unsent: bool) -> ClassId
        ensures { result ≡ thrown_at self unsent }
    {
        if unsent { self.unsent } else { self.others }
    }
}
