//! Ids of objects and classes.

ghost use Rattle.std.proofs.Common.{rules};
ghost use Rattle.std.specs.Prelude.{◌∷◌};
ghost use Rattle.std.specs.Cmp.Rules.{hashing};
ghost use Rattle.std.specs.Hash as fed;

use std::hash::{Hash, Hasher};
use uuid::Uuid;

/// A class's number in its class set: its index in the order of names by bytes, from 0.
#[derive(Clone, Copy, Debug, PartialEq, Eq)]
pub struct ClassId(pub u16);

/// A remote object's number in the space that made it: from 1 on, never given twice.
#[derive(Clone, Copy, Debug, PartialEq, Eq, PartialOrd, Ord, Hash)]
pub struct ObjId(pub u64);

/// Which object of which other space a reference names. References that differ in their class alone
/// are leased as one, since dirty and clean calls name objects by their numbers.
#[derive(Clone, Copy, Debug, PartialEq, Eq)]
pub struct ForeignId {
    pub space: Uuid,
    pub id: ObjId,
}

impl Hash for ForeignId {
    ghost hash_input = { λ id. id.space ∷ fed.u64 id.id.0 };

    ghost respects_eq = { Prim.search (hashing, rules) };

    // The bytes of the space's id at once: `Uuid` would hand them over one by one.
    fn hash<H: Hasher>(&self, state: &mut H) {
        state.write(self.space.as_bytes());
        state.write_u64(self.id.0);
    }
}

/// A reference to a remote object: the space that made it, its number there and its class.
#[derive(Clone, Copy, Debug, PartialEq, Eq)]
pub struct Ref {
    pub space: Uuid,
    pub id: ObjId,
    pub class: ClassId,
}
