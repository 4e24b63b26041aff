//! The run of a world.

ghost use Rattle.std.specs.Prelude.{◌≡◌, ◌≤◌, IfErr, IfOk, length, map, take, true};
ghost use Rattle.sp_held_laws.specs.Lost.{CallsFindTheirObjects, NothingHeldIsLost, WhatIsNamedStands};
ghost use Rattle.sp_held_laws.specs.Secure.{WhatIsHeldIsNotCleaned};
ghost use Rattle.sp_held_laws.specs.Standing.{OwnReferencesStandInWorlds};
ghost use Rattle.sp_laws.specs.Made.{ReferencesAreMade};
ghost use Rattle.sp_laws.specs.Roots.{RootsSpendTheirFuel};
ghost use Rattle.sp_laws.specs.Started.{CallsStartOneTaskInWorlds};
ghost use Rattle.sp_laws.specs.Waiting.{EndedCallsStayEnded};
ghost use Rattle.sp_machine_laws.specs.Machines.{TasksAreMachinesInWorlds};
ghost use Rattle.sp_order_laws.specs.CallAnswers.{CallsEndAsAnswered, RefusedCallsStartNone};
ghost use Rattle.sp_order_laws.specs.Ends.{CallsEndByCallees};
ghost use Rattle.sp_order_laws.specs.Senders.{SendersHold};
ghost use Rattle.sp_rules.specs.Laws.{EventsLeaveOwners, FailuresRemoveNothing, OnlySweepsWithdraw, SweepIsExact, TasksAreRuns};
ghost use Rattle.sp_rules.specs.Worlds.{World as Rules, run as after_all};
ghost use Rattle.sp_world.specs.Happenings.{happening_of};
ghost use Rattle.sp_world.specs.Waitings.{IsWorld, is_settled};

use sp_held_laws::kept::what_is_held_is_not_cleaned;
use sp_held_laws::laws::{
    calls_find_their_objects, nothing_held_is_lost, own_references_stand_in_worlds,
    what_is_named_stands,
};
use sp_laws::calls::calls_start_one_task_in_worlds;
use sp_laws::laws::{ended_calls_stay_ended, every_reference_is_made};
use sp_laws::trees::roots_spend_their_fuel;
use sp_machine_laws::laws::tasks_are_machines_in_worlds;
use sp_order_laws::answers::senders_hold;
use sp_order_laws::ends::{calls_end_as_answered, refused_calls_start_none};
use sp_order_laws::worlds::calls_end_by_callees;
use sp_rules::laws::{failures_remove_nothing, sweeps_are_exact, tasks_are_runs};
use sp_world::{Unfinished, World, WorldEvent, WorldSpace};

/// Returns the world after events, oldest first: any number of spaces, any frame lost, any read or write failed.
/// At out of memory it returns the world after the first of them, and how many these are; the others have not
/// happened.
///
/// The world is that of the rules of spaces (`world`, `unfinished`), and the other clauses say what holds of each
/// run of them, whatever the spaces are and whatever happens.
pub fn run<S: WorldSpace + Drop>(
    world: World<S>,
    events: &[WorldEvent],
) -> Result<World<S>, Unfinished<S>>
    ensures world { IfOk result (λ ran. (w : Rules) → IsWorld S.is_space w world → IsWorld S.is_space (after_all w (map happening_of events.now)) ran) }
    ensures settled { IfOk result (λ ran. is_settled ran ≡ true) }
    ensures unfinished { IfErr result (λ rest. (w : Rules) → IsWorld S.is_space w world → IsWorld S.is_space (after_all w (take rest.made (map happening_of events.now))) rest.world) }
    ensures within { IfErr result (λ rest. rest.made ≤ length events.now) }

    // Each living task stands where its start and the replies that it was given bring it.
    ensures tasks { TasksAreRuns }
    // In a space of a linked and checked class set it is the tagged machine of its method, arguments and limits, over
    // those replies, each of which was due: never stuck, within max_stack and max_locals, and at its end the machine's.
    ensures machines { TasksAreMachinesInWorlds }
    // Each reference in a task, a field, a result or a frame names an object that its space made, of its class.
    // A space's own references name standing objects.
    ensures references { ReferencesAreMade }
    ensures own_references { OwnReferencesStandInWorlds }
    // A Call that came starts one task at most; a call that waits ends once, with what its callee answered or with
    // the exception of a failure.
    ensures started_once { CallsStartOneTaskInWorlds }
    ensures ended_once { EndedCallsStayEnded }
    ensures ended_by_callees { CallsEndByCallees }
    // It ends with the outcome of the task that it started; or with NoSuchObjectException, UnmarshalException or
    // ServerError of its callee, and then it started no task there, before or later; or with the exception of a failure.
    // NotBoundException and what a look-up found end look-ups alone.
    ensures ended_as_answered { CallsEndAsAnswered }
    ensures refused_unstarted { RefusedCallsStartNone }
    // A root and all that its calls start spend no more than its fuel.
    ensures fuel { RootsSpendTheirFuel }
    // A Sweep withdraws exactly the objects that had no reason to stay as it began; nothing else withdraws one.
    ensures swept { SweepIsExact }
    ensures only_swept { OnlySweepsWithdraw }
    // A failed read or write and a refusal remove no name and no entry in any space; nor does any event of a space
    // but moments, sweeps, changes of names, and dirty and clean calls that come.
    ensures failures { FailuresRemoveNothing }
    ensures leave_owners { EventsLeaveOwners }
    // Without failures and expiries nothing that is held is lost, and no Call misses its object: what a frame names
    // stands. Who sends a reference holds it, and no clean call of what is held is on its way.
    ensures held { NothingHeldIsLost }
    ensures found { CallsFindTheirObjects }
    ensures named { WhatIsNamedStands }
    ensures senders { SendersHold }
    ensures not_cleaned { WhatIsHeldIsNotCleaned }
{
    tasks_are_runs();
    tasks_are_machines_in_worlds();
    every_reference_is_made();
    own_references_stand_in_worlds();
    calls_start_one_task_in_worlds();
    ended_calls_stay_ended();
    calls_end_by_callees();
    calls_end_as_answered();
    refused_calls_start_none();
    roots_spend_their_fuel();
    sweeps_are_exact();
    failures_remove_nothing();
    nothing_held_is_lost();
    calls_find_their_objects();
    what_is_named_stands();
    senders_hold();
    what_is_held_is_not_cleaned();
    sp_world::run(world, events)
}
