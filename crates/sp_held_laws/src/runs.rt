//! Runs of spaces, computed by their rules.

ghost use Rattle.sp_held_laws.specs.Quiet.{PassesQuietly};
ghost use Rattle.sp_held_laws.specs.Runs.{PassesWhole, RunsWithLoss, StaysWhole};

/// In a run of three spaces a reference passes from one through another to the third, by frames that wait
/// for leases; in each world of it, event by event, the objects that two of the spaces own are as the machine of an
/// object and its clients keeps them, each clause of its invariant.
pub fn a_reference_is_whole_through_a_third_space()
    ensures { PassesWhole }
{}

/// So are objects in runs in which fields hold references of third spaces, an object comes home that a call
/// made, and a dirty call is overtaken. In a run in which an entry expires one is not.
pub fn objects_stay_whole()
    ensures { StaysWhole }
{}

/// In a run of two spaces in which a frame is lost, a call is out and its task waits.
pub fn frames_are_lost_and_calls_wait()
    ensures { RunsWithLoss }
{}

/// Three spaces are of one kind, and in a run of them in which nothing fails a reference passes from one
/// through another to the third: three of version 1, and three of which the first alone is.
pub fn a_reference_passes_where_nothing_fails()
    ensures { PassesQuietly }
{}
