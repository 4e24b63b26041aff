//! The laws of what a world owes to the objects that its spaces hold.

ghost use Rattle.sp_held_laws.specs.Going.{FramesGoWithLeases};
ghost use Rattle.sp_held_laws.specs.Guards.{NothingHoldsWhatGoes, RootsNameWhatIsLeased};
ghost use Rattle.sp_held_laws.specs.HeldResults.{ResultsAreHeld, ResultsStayHeld};

/// A Root that is not refused names own objects among its arguments, and references for which its space
/// has a lease.
pub fn roots_name_what_is_leased()
    ensures { RootsNameWhatIsLeased }
{}

/// What has no reason to stay, and so is withdrawn by the next Sweep, no name, task, field or result of its
/// space holds, as a world sees its object; and no client has an entry for it.
pub fn nothing_holds_what_goes()
    ensures { NothingHoldsWhatGoes }
{}

/// After every history of a space what a Returned says that an event is answered with is held after the
/// event, until its Ack, or, if its connection ended, until a moment.
pub fn results_are_held()
    ensures { ResultsAreHeld }
{}

/// After every history of a space, whatever event comes, a result that is held until the Ack of its number
/// on its connection is held on, or, if its connection ended, until a moment; unless the event is that Ack.
pub fn results_stay_held()
    ensures { ResultsStayHeld }
{}

/// As parked frames go, each frame stays parked, or a frame of its connection and number has a lease for
/// each foreign reference for which it waits.
pub fn frames_go_with_leases()
    ensures { FramesGoWithLeases }
{}
