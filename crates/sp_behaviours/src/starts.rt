//! Laws of the tasks that begin.

ghost use Rattle.sp_behaviours.specs.ReplyStarts.{TasksBegin};

/// A task that begins with an event after a history that its space took, and the event with it, has a
/// machine: its method starts with its values, in a linked and checked set, whatever the limits.
pub fn tasks_begin()
    ensures { TasksBegin }
{}
