//! What holds of every space and every world, whatever happens.

ghost use Rattle.sp_rules.specs.Lines.{LinesWaitForHellos};
ghost use Rattle.sp_rules.specs.Origins.{HistoriesAreTaken, OwnReferencesStand};
ghost use Rattle.sp_rules.specs.Laws.{CommitsAreAsked, StepsAreMade, EventsLeaveOwners, FailuresRemoveNothing, FuelIsBounded, SweepIsExact, OnlySweepsWithdraw, TasksAreRuns, StatesAreHistories, BooksGrow, NamesAreBound, EntriesAreTold, NamesStand, EntriesStand, OutputsAreInOrder, ChecksRise, RefusedChangesNothing, NumbersAreFresh};

/// A failure removes no name and no entry. All events of a space but moments, sweeps, changes of
/// names, and dirty and clean calls that come leave its names and its clients' entries as they
/// were, also the end of a connection and whatever ends with it. In a world a read that fails, a
/// write that fails, with any number of frames lost, and a refused Dial leave those of every space.
pub fn failures_remove_nothing()
    ensures space { EventsLeaveOwners }
    ensures world { FailuresRemoveNothing }
{}

/// All instructions that are made in a world, and all fuel left in it, in its tasks, its calls and
/// its frames, are no more than the fuel of its roots.
pub fn fuel_is_bounded()
    ensures { FuelIsBounded }
{}

/// A Sweep leaves exactly the objects that had a reason to stay as it began, and no other event
/// withdraws an object.
pub fn sweeps_are_exact()
    ensures exact { SweepIsExact }
    ensures only { OnlySweepsWithdraw }
{}

/// In every run of every world each living task stands at the point to which its start and its own
/// record bring it: the replies that it was given, each after instructions of its own.
pub fn tasks_are_runs()
    ensures { TasksAreRuns }
{}

/// In every run of every world the state of a space is what its history leaves.
pub fn states_are_histories()
    ensures { StatesAreHistories }
{}

/// One more entry of a book is one more event of the space.
pub fn books_grow()
    ensures { BooksGrow }
{}

/// The names of a space are what its binds, rebinds and unbinds left, each of an own object that stood
/// as it was bound; nothing else changes them.
pub fn names_are_bound()
    ensures { NamesAreBound }
{}

/// What is remembered of a client and an object, and so the client's entry, is a function of what that
/// client told of that object in its dirty and clean calls, of the moments, and of the object's
/// withdrawal.
pub fn entries_are_told()
    ensures { EntriesAreTold }
{}

/// Nothing is kept of what is gone: the objects to which names are bound stand, and of an object that does
/// not stand no entry, no number and no strong clean call is remembered.
pub fn nothing_is_kept_of_what_is_gone()
    ensures names { NamesStand }
    ensures entries { EntriesStand }
{}

/// The outputs of an event stand in the order of their kinds: Started, Ended, Withdrawn, Denied, Send,
/// Dial, Close, Ready.
pub fn outputs_are_in_order()
    ensures { OutputsAreInOrder }
{}

/// The reasons to refuse an event are looked at in the order of their numbers, so of several the
/// lowest counts; but a space that is worn out says so first.
pub fn checks_rise()
    ensures { ChecksRise }
{}

/// A space takes an operation on the store from a task that stands at it, and from no other.
pub fn commits_are_asked()
    ensures { CommitsAreAsked }
{}

/// A task that stands at its end, or at an instruction that asks, makes no more of its own: of some
/// instructions those that were made bring it to where all of them bring it.
pub fn steps_are_made()
    ensures { StepsAreMade }
{}

/// An event of a world that is refused changes nothing but the note of what was refused.
pub fn refused_changes_nothing()
    ensures { RefusedChangesNothing }
{}

/// In every run of every world the standing objects and the living tasks have numbers from 1, each
/// its own, in the order in which they were made, and none above the last that was given.
pub fn numbers_are_fresh()
    ensures { NumbersAreFresh }
{}

/// In every run of every world the history of a space has no event that the space refused; so what holds
/// after every history that a space took holds of all spaces of all worlds.
pub fn histories_are_taken()
    ensures { HistoriesAreTaken }
{}

/// After every history of which a space refused no event, its own references name standing objects
/// of their class: those that tasks hold, those in the fields of standing objects, in held results
/// and in parked frames. So do the targets of parked calls.
pub fn own_references_stand()
    ensures { OwnReferencesStand }
{}

/// After every history that a space took at most one connection is dialled to a peer, and a peer
/// that is being dialled, each once, has none. A waiting request has a peer that is dialled or
/// being dialled, and whose Hello has not come.
pub fn lines_wait_for_hellos()
    ensures { LinesWaitForHellos }
{}
