//! Laws of what stands in a space.

ghost use Rattle.sp_behaviours.specs.Stores.{HeldObjectsStand, ReferencesAreRemote, StoresFit};

/// After every history that a space took, each standing object is of a remote class that is not
/// abstract, and what was put last into a field of it is a value of the field's kind.
pub fn stores_fit()
    ensures { StoresFit }
{}

/// After every history that a space took, an own reference that a living task holds is of a standing
/// object, of the reference's class.
pub fn held_objects_stand()
    ensures { HeldObjectsStand }
{}

/// After every history that a space took, the references in it are of remote classes that are not
/// abstract, those to objects of other spaces too.
pub fn references_are_remote()
    ensures { ReferencesAreRemote }
{}
