//! The laws of what one event makes of tasks.

ghost use Rattle.sp_laws.specs.Changes.{LentTasksGoOn, OtherTasksStay, TasksGoOn};

/// After every history of a space an event that is not of a lent task ends no task, and gives each task
/// one reply at most. The task of an id stays as it was; or it waited for the reply to a call, and goes
/// on with one reply that fits the call: a value of the kind of the method's result, whose references are
/// of remote classes, with no more fuel than was lent; a Throwable, or the exception of a failure; or that
/// the callee's fuel was spent. Or it has just begun, with nothing in its record, under an id that was not
/// given before: as the root that the event is, or at what a call selects on an object that stands, with
/// arguments of the kinds of the method's parameters. So whoever has played the record of a task needs only
/// that one reply.
pub fn tasks_go_on()
    ensures { TasksGoOn }
{}

/// After every history of a space an event of a lent task makes of that task, if it is ready, what the
/// event says. After a Committed it goes on with the reply to its operation, after a Parked it waits if
/// it stands at a call, after a GivenBack it stands at the point to which its own instructions brought
/// it, and after a Finished it is gone if it stands at its end. All other tasks stay as they were.
pub fn lent_tasks_go_on()
    ensures own { LentTasksGoOn }
    ensures others { OtherTasksStay }
{}
