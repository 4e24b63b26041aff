//! The laws of calls: how many tasks they start, in which directions frames go, and how they end.

ghost use Rattle.sp_laws.specs.Answers.{AnswersAreOutcomes};
ghost use Rattle.sp_laws.specs.CallEnds.{CallsEndAsNamed};
ghost use Rattle.sp_laws.specs.Directions.{FramesGoTheirWay, SpacesHaveDirections};
ghost use Rattle.sp_laws.specs.LookupEnds.{LookupsEndAsNamed};
ghost use Rattle.sp_laws.specs.Started.{CallsStartOneTask, CallsStartOneTaskInWorlds};

/// A call that came on a connection under a number starts one task at most, whatever happens then: the
/// tasks that it started before and after any part of a history are one. In a history no number of a
/// connection comes again.
pub fn calls_start_one_task()
    ensures { CallsStartOneTask }
{}

/// In every run of every world, whatever is lost or fails, a call that comes to a space on a connection
/// under a number starts one task there at most: two tasks that it started, at any two moments of the
/// space's history, are one.
pub fn calls_start_one_task_in_worlds()
    ensures { CallsStartOneTaskInWorlds }
{}

/// After every history of a space each frame with which an event is answered goes its way: a Call,
/// Lookup, Ack, Dirty or Clean on a connection that this space dialled, a Returned, Threw, Spent,
/// Lease or Cleaned on one that a peer dialled.
pub fn frames_go_their_way()
    ensures { FramesGoTheirWay }
{}

/// In every run of every world, whatever is lost or fails, each frame that a space sent went its way, each
/// of its tasks that a call started came on a connection that a peer dialled, and no connection is both
/// one that the space dialled and one that a peer dialled.
pub fn spaces_have_directions()
    ensures { SpacesHaveDirections }
{}

/// After every history of a space, whatever event comes, the task of a call that waits lives on;
/// and it waits on, with nothing given to it, or it was given one reply. That is the value and the
/// fuel of a Returned of the call's number that came on the connection on which the call is out, or
/// had waited for leases; what a Threw or a Spent of that number says that came there; or the
/// exception of a failure: ConnectException only if no peer is reached, MarshalException only if a
/// write failed, UnmarshalException.
pub fn calls_end_as_named()
    ensures { CallsEndAsNamed }
{}

/// After every history of a space each Returned, Threw and Spent with which an event is answered is
/// one of three. The event ends the task that the call of the frame's number on that connection
/// started, and the frame says how the task ended, an Error as ServerError and a RemoteException as
/// ServerException, and the fuel that it left. Or the event is of no task, and the frame throws
/// NoSuchObjectException, UnmarshalException or ServerError. Or a Lookup of that number came, and the
/// frame throws NotBoundException or gives a reference of an own object.
pub fn answers_are_outcomes()
    ensures { AnswersAreOutcomes }
{}

/// After every history of a space each Ended that an event is answered with is of the task that the event
/// finishes, or of a lookup that stood among the requests. The lookup returns the value of a Returned of
/// its number that came on the connection on which the lookup is out, or had waited for leases; it throws
/// what a Threw of that number says that came there, or the exception of a failure; and it is never spent.
pub fn lookups_end_as_named()
    ensures { LookupsEndAsNamed }
{}
