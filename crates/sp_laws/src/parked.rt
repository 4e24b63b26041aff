//! The laws of parked frames.

ghost use Rattle.sp_laws.specs.ParkedWaiting.{EventsLeaveFramesWaiting, ParkedFramesWait};

/// After every history of a space each frame that is parked lacks the lease of a foreign reference in it:
/// one that waits for nothing goes before the event ends.
pub fn parked_frames_wait()
    ensures { ParkedFramesWait }
{}

/// If each parked frame lacks a lease before an event, each lacks one after it.
pub fn events_leave_frames_waiting()
    ensures { EventsLeaveFramesWaiting }
{}
