//! Whether references are the same.

ghost use Rattle.std.specs.Prelude.{◌≡◌};
ghost use Rattle.std.specs.List.{list_any};
ghost use Rattle.space_ids.specs.References.{is_same_reference};

use crate::Ref;

impl Ref {
    /// Whether it is the other reference: of one space, with one id and one class. Ids are compared first, since most
    /// references that are compared are of one space.
    pub fn is_same(&self, other: &Ref) -> bool
        ensures { result ≡ is_same_reference self.now other.now }
    {
        self.id == other.id && (self.space == other.space && self.class == other.class)
    }
}

/// Whether a reference is among others.
pub fn is_among(references: &[Ref], reference: &Ref) -> bool
    ensures { result ≡ list_any (is_same_reference reference.now) references.now }
{
    references.iter().any(|other| reference.is_same(other))
}
