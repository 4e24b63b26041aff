//! The laws of what is held, and so is not lost.

ghost use Rattle.sp_held_laws.specs.Entries.{GrantedReferencesHaveEntries, LeasesComeOfEntries};
ghost use Rattle.sp_held_laws.specs.Lost.{CallsFindTheirObjects, NothingHeldIsLost, WhatIsNamedStands};
ghost use Rattle.sp_held_laws.specs.Passes.{PassesUnlost};
ghost use Rattle.sp_held_laws.specs.Standing.{OwnReferencesStandInWorlds};

use crate::kept::{
    dirty_calls_are_awaited, dirty_calls_set_entries, entries_stay_until_cleaned,
    events_reach_one_space, granted_references_stay_secure, only_leases_grant,
    what_is_held_is_granted, what_is_out_stays_asked,
};
use crate::runs::a_reference_passes_where_nothing_fails;
use sp_laws::calls::{frames_go_their_way, spaces_have_directions};
use sp_laws::laws::{answers_are_parked, connections_are_opened_once};
use sp_laws::leases::{calls_are_made_when_due, calls_on_their_way_are_requests};
use sp_order_laws::answers::{calls_come_in_time, calls_keep_their_order, senders_hold};
use sp_order_laws::hellos::hand_shakes_are_in_table;
use sp_order_laws::laws::{
    calls_come_above_the_last, each_call_stands_once, each_group_is_answered_once,
    each_result_is_acknowledged_once, frames_are_answered_once, sequence_numbers_rise,
};
use sp_order_laws::worlds::{parked_results_came, what_comes_was_sent};
use sp_rules::laws::{histories_are_taken, own_references_stand, states_are_histories};

/// In every run of every world of spaces of version 1 or 2 that have ids of their own and one digest, in
/// which no Dial is refused, no read or write fails and no entry for an object expires: of each reference
/// to the object that is granted to a client the object's owner has an entry of the client. This holds as
/// long as a holder of the reference came fewer than 2^64 - 1 times in each space, here and in the laws
/// below.
pub fn granted_references_have_entries()
    ensures { GrantedReferencesHaveEntries }
{
    frames_go_their_way();
    parked_results_came();
    spaces_have_directions();
    what_comes_was_sent();
    hand_shakes_are_in_table();
    calls_come_above_the_last();
    each_call_stands_once();
    each_group_is_answered_once();
    each_result_is_acknowledged_once();
    frames_are_answered_once();
    answers_are_parked();
    connections_are_opened_once();
    what_is_held_is_granted();
    dirty_calls_are_awaited();
    granted_references_stay_secure();
    only_leases_grant();
    what_is_out_stays_asked();
    entries_stay_until_cleaned();
    dirty_calls_set_entries();
    senders_hold();
    calls_come_in_time();
    calls_on_their_way_are_requests();
    calls_are_made_when_due();
    calls_keep_their_order();
    sequence_numbers_rise();
    events_reach_one_space();
}

/// In every such run: as a Lease is on its way that answers a dirty call of a reference to the object, and no
/// clean call has overtaken that call, the owner has an entry of the client for the object.
pub fn leases_come_of_entries()
    ensures { LeasesComeOfEntries }
{
    frames_go_their_way();
    parked_results_came();
    spaces_have_directions();
    what_comes_was_sent();
    hand_shakes_are_in_table();
    calls_come_above_the_last();
    each_call_stands_once();
    each_group_is_answered_once();
    each_result_is_acknowledged_once();
    frames_are_answered_once();
    answers_are_parked();
    connections_are_opened_once();
    what_is_held_is_granted();
    dirty_calls_are_awaited();
    granted_references_stay_secure();
    only_leases_grant();
    what_is_out_stays_asked();
    entries_stay_until_cleaned();
    dirty_calls_set_entries();
    senders_hold();
    calls_come_in_time();
    calls_on_their_way_are_requests();
    calls_are_made_when_due();
    calls_keep_their_order();
    sequence_numbers_rise();
    events_reach_one_space();
}

/// In every such run nothing that is held is lost: a reference to the object that a task that has started, a
/// field of a standing object or a held result of another space has names an object that stands, and for
/// which its owner has an entry of that space. So no Sweep takes it.
pub fn nothing_held_is_lost()
    ensures { NothingHeldIsLost }
{
    frames_go_their_way();
    parked_results_came();
    spaces_have_directions();
    what_comes_was_sent();
    hand_shakes_are_in_table();
    calls_come_above_the_last();
    each_call_stands_once();
    each_group_is_answered_once();
    each_result_is_acknowledged_once();
    frames_are_answered_once();
    answers_are_parked();
    connections_are_opened_once();
    what_is_held_is_granted();
    dirty_calls_are_awaited();
    granted_references_stay_secure();
    only_leases_grant();
    what_is_out_stays_asked();
    entries_stay_until_cleaned();
    dirty_calls_set_entries();
    senders_hold();
    calls_come_in_time();
    calls_on_their_way_are_requests();
    calls_are_made_when_due();
    calls_keep_their_order();
    sequence_numbers_rise();
    events_reach_one_space();
}

/// In every such run the object stands while a Call or a Returned that names it is on its way, or waits for
/// leases where it came: as the target of the call, or by a reference among its arguments or as the result,
/// in whatever spaces.
pub fn what_is_named_stands()
    ensures { WhatIsNamedStands }
{
    frames_go_their_way();
    parked_results_came();
    spaces_have_directions();
    what_comes_was_sent();
    hand_shakes_are_in_table();
    calls_come_above_the_last();
    each_call_stands_once();
    each_group_is_answered_once();
    each_result_is_acknowledged_once();
    frames_are_answered_once();
    answers_are_parked();
    connections_are_opened_once();
    what_is_held_is_granted();
    dirty_calls_are_awaited();
    granted_references_stay_secure();
    only_leases_grant();
    what_is_out_stays_asked();
    entries_stay_until_cleaned();
    dirty_calls_set_entries();
    senders_hold();
    calls_come_in_time();
    calls_on_their_way_are_requests();
    calls_are_made_when_due();
    calls_keep_their_order();
    sequence_numbers_rise();
    events_reach_one_space();
}

/// In every such run each Call that came to the owner of the object, with the object as its target, found it
/// there: none was answered that there is no such object.
pub fn calls_find_their_objects()
    ensures { CallsFindTheirObjects }
{
    frames_go_their_way();
    parked_results_came();
    spaces_have_directions();
    what_comes_was_sent();
    hand_shakes_are_in_table();
    calls_come_above_the_last();
    each_call_stands_once();
    each_group_is_answered_once();
    each_result_is_acknowledged_once();
    frames_are_answered_once();
    answers_are_parked();
    connections_are_opened_once();
    what_is_held_is_granted();
    dirty_calls_are_awaited();
    granted_references_stay_secure();
    only_leases_grant();
    what_is_out_stays_asked();
    entries_stay_until_cleaned();
    dirty_calls_set_entries();
    senders_hold();
    calls_come_in_time();
    calls_on_their_way_are_requests();
    calls_are_made_when_due();
    calls_keep_their_order();
    sequence_numbers_rise();
    events_reach_one_space();
}

/// A run of three spaces meets the premises of these laws: a lease is renewed in it, more time passes at the
/// owner than one lease lasts, and a reference passes from it through another space to the third, where it is
/// held.
pub fn a_held_reference_is_passed_on()
    ensures { PassesUnlost }
{
    a_reference_passes_where_nothing_fails();
}

/// In every run of every world, whatever is lost or fails, the own references of each space name standing
/// objects of their class: those that tasks hold, those in the fields of standing objects, in held results
/// and in parked frames. So do the targets of parked calls.
pub fn own_references_stand_in_worlds()
    ensures { OwnReferencesStandInWorlds }
{
    histories_are_taken();
    states_are_histories();
    own_references_stand();
}
