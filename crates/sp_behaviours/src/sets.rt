//! Laws of what is told of linked class sets.

ghost use Rattle.sp_behaviours.specs.Sets.{SetsAreTold};

/// What the rules are told of a linked set is so of its classes: which are remote, what their fields hold,
/// and which class an OutOfMemoryError is of.
pub fn sets_are_told()
    ensures { SetsAreTold }
{}
