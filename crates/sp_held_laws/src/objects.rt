//! The laws of what events of a world are to one object.

ghost use Rattle.sp_held_laws.specs.SeenAs.{RefusedEventsAreNone, WhatDoesNotHappenIsNone, WhatIsSeenStaysWhole};

/// An event of a world that is refused is none to each object.
pub fn refused_events_are_none()
    ensures { RefusedEventsAreNone }
{}

/// An event of a world that does not fit it is none to each object: an event that is no space's own, an
/// Open or a Refuse for which no Dial was asked, an Accept of a connection that is not there or was
/// accepted, a Deliver where no frame and no end waits, and a failure at an end that is not live.
pub fn what_does_not_happen_is_none()
    ensures { WhatDoesNotHappenIsNone }
{}

/// If an object is as its machine keeps it in one world, and is seen to pass by fitting events of the
/// machine to another, it is so there too.
pub fn what_is_seen_stays_whole()
    ensures { WhatIsSeenStaysWhole }
{}
