//! The laws of spaces and worlds that need more than one event.

ghost use Rattle.sp_laws.specs.AllSpaces.{SpacesAreInOrder};
ghost use Rattle.sp_laws.specs.Answered.{AnswersAreParked};
ghost use Rattle.sp_laws.specs.Asking.{EntriesHaveNumbers, TasksAskOfWhatTheyHold};
ghost use Rattle.sp_laws.specs.Awaited.{ParkedFramesWaitForLeases};
ghost use Rattle.sp_laws.specs.CallsHeld.{CallsAreHeld};
ghost use Rattle.sp_laws.specs.Counted.{HoldersAreCounted};
ghost use Rattle.sp_laws.specs.Given.{IdsAreGiven};
ghost use Rattle.sp_laws.specs.Idle.{UnaskedConnectionsAreIdle};
ghost use Rattle.sp_laws.specs.Inbound.{CallsThatComeAreOnce, CallsThatWentStayGone};
ghost use Rattle.sp_laws.specs.Made.{ReferencesAreMade};
ghost use Rattle.sp_laws.specs.Others.{ConnectionsAreOpenedOnce, OthersAreDialled};
ghost use Rattle.sp_laws.specs.Owing.{LeasesOweTheirEnd};
ghost use Rattle.sp_laws.specs.Waiting.{EndedCallsStayEnded, WaitingTasksHaveOneCall};

/// In every run of every world each reference in a task, a field, a result, a parked frame, a
/// request or a frame on its way names an object that its space made, with its class; and a parked
/// call's target was made.
pub fn every_reference_is_made()
    ensures { ReferencesAreMade }
{}

/// After every history that a space took, its leases count exactly the holders of a foreign
/// reference: the living tasks, fields of standing objects, held results and parked frames that
/// have it. This holds as long as a holder of it came fewer than 2^64 - 1 times.
pub fn holders_are_counted()
    ensures { HoldersAreCounted }
{}

/// After every history of a space each task that waits for a reply has one call among the requests,
/// a ready task has none, and each call is of a waiting task. Each number of a call or lookup
/// stands at one request at most, and at none if it was not given yet.
pub fn waiting_tasks_have_one_call()
    ensures { WaitingTasksHaveOneCall }
{}

/// After every history of a space in which no number of a connection comes again, a call that came on a
/// connection under a number occurs once at most: as a parked frame, as a living task, or as a result
/// that is held until its Ack. One above the last of its connection does not occur.
pub fn calls_that_come_are_once()
    ensures { CallsThatComeAreOnce }
{}

/// After every history that a space took, a call that waits to be sent or answered is what its task
/// asks for: the task stands at it, the frame says it, and the task holds its target and the references
/// among its arguments.
pub fn calls_are_held()
    ensures { CallsAreHeld }
{}

/// Of each foreign reference after every history of a space: if a dirty call is on its way, a clean
/// call is owed, and no failed one is remembered; if there is a lease, a clean call is owed,
/// ordinary or strong; and while a clean call is on its way there is neither, and nothing is owed.
pub fn leases_owe_their_end()
    ensures { LeasesOweTheirEnd }
{}

/// In every run of every world, whatever is lost or fails, each space is in order. Its own
/// references stand, and its lines wait for Hellos. Each waiting task of it has one call, and holds
/// what the call names. Its requests and parked frames stand with their connections. Its leases
/// count the holders that there are, and owe their ends.
pub fn spaces_are_in_order()
    ensures { SpacesAreInOrder }
{}

/// A call or lookup that was made and is no longer among the requests of its space never stands among
/// them again, whatever happens then. So it ends once.
pub fn ended_calls_stay_ended()
    ensures { EndedCallsStayEnded }
{}

/// If a call that came on a connection, of a number not above the connection's last, occurs no
/// more, it never occurs again, as long as no number of a connection comes again.
pub fn calls_that_went_stay_gone()
    ensures { CallsThatWentStayGone }
{}

/// After every history that a space took each request that is out, or answered, went to its peer on a
/// connection that this space dialled there and whose Hello came; each parked call came on a connection
/// that a peer dialled, each parked result on one that this space dialled. A call or lookup is answered
/// exactly while its result is parked, once. On a connection whose Hello has not come, or that this space
/// dialled, no number of a call came.
pub fn answers_are_parked()
    ensures { AnswersAreParked }
{}

/// After every history that a space took it dials other spaces alone: each Dial that it answers is to a
/// space of another id.
pub fn others_are_dialled()
    ensures { OthersAreDialled }
{}

/// In every run of every world the two ends of a connection are two spaces, and no number of a connection
/// comes again in the history of a space. So a call that came on a connection under a number occurs once
/// at most in its space: as a parked frame, as a living task, or as a result that is held until its Ack.
pub fn connections_are_opened_once()
    ensures { ConnectionsAreOpenedOnce }
{}

/// After every history that a space took, in which no number of a connection comes again: on a
/// connection whose Hello has not come, or that this space dialled, no call is parked, lives or has a
/// result that waits for its Ack; and on one whose Hello has not come, or that a peer dialled, no request
/// is out or answered.
pub fn unasked_connections_are_idle()
    ensures { UnaskedConnectionsAreIdle }
{}

/// After every history that a space took each parked frame waits for the foreign references in it, each
/// once, and there is one.
pub fn parked_frames_wait_for_leases()
    ensures { ParkedFramesWaitForLeases }
{}

/// An event that a space does not refuse asks of what a task holds alone: the object and the reference of
/// an operation that is done, the target and the arguments of a call that is parked, and the result with
/// which a task ends.
pub fn tasks_ask_of_what_they_hold()
    ensures { TasksAskOfWhatTheyHold }
{}

/// After every history of a space each entry of a client for an object has a number that is remembered.
pub fn entries_have_numbers()
    ensures { EntriesHaveNumbers }
{}

/// After every history of a space the ids of living tasks, of lookups among the requests, and of the
/// roots and lookups for whose acknowledgement results wait, were given.
pub fn ids_are_given()
    ensures { IdsAreGiven }
{}
