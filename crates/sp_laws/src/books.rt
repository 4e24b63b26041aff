//! The laws of how tasks end, and of what the entries of a book leave of tasks.

ghost use Rattle.sp_laws.specs.Ends.{EndsAreRuns, TasksEndAsRuns};
ghost use Rattle.sp_laws.specs.Rows.{BooksEndAsWritten, RecordsAreEntries};

use crate::calls::lookups_end_as_named;

/// After every history of a space, whatever event comes, each Ended that it is answered with is of the
/// task that the event finishes, or of a lookup. The task was ready, and its machine, over its start, its
/// own recorded replies and the instructions since the last, ends so; then it is gone, and nothing else
/// ended. A lookup ends by an event of the space, and no task has its id at any moment. And a task ends in
/// no other way: one that lived before an event and lives no more is the one that it finished. So no end
/// of a connection, no failure and no reply ends a task.
pub fn ends_are_runs()
    ensures ends { EndsAreRuns }
    ensures tasks { TasksEndAsRuns }
{
    lookups_end_as_named();
}

/// Of a book whose commits have the replies that the space gives. Each living task began with an entry of
/// the space, with nothing in its record, and each entry after that turned its row. An entry of the task's
/// own, where it might go on, made of it what it says: a commit gave it the reply of the entry, a park let
/// it wait if it stood at a call. An entry of the space brought it one reply at most, which fits the call
/// at which it waited. All others left it. And each Ended that one entry more answers is of a lookup, or
/// of the task that the entry finishes, whose row so stands in the entries before.
pub fn records_are_entries()
    ensures rows { RecordsAreEntries }
    ensures ends { BooksEndAsWritten }
{
    ends_are_runs();
}
