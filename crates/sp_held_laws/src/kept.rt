//! The laws of what is granted to a client, and stays so.

ghost use Rattle.sp_held_laws.specs.Cleans.{GrantedReferencesAreUncleaned};
ghost use Rattle.sp_held_laws.specs.Granted.{DirtyCallsAreAwaited, WhatIsHeldIsGranted};
ghost use Rattle.sp_held_laws.specs.Reaches.{EventsReachOneSpace};
ghost use Rattle.sp_held_laws.specs.Secure.{GrantedReferencesStaySecure, WhatIsHeldIsNotCleaned};
ghost use Rattle.sp_held_laws.specs.Steps.{DirtyCallsSetEntries, EntriesStayUntilCleaned, OnlyLeasesGrant, WhatIsOutStaysAsked};

use crate::holders::nothing_holds_what_goes;
use sp_laws::calls::{frames_go_their_way, spaces_have_directions};
use sp_laws::laws::{answers_are_parked, connections_are_opened_once, holders_are_counted};
use sp_laws::leases::{calls_are_made_when_due, calls_on_their_way_are_requests};
use sp_order_laws::answers::calls_keep_their_order;
use sp_order_laws::hellos::hand_shakes_are_in_table;
use sp_order_laws::laws::{
    calls_come_above_the_last, each_call_stands_once, each_group_is_answered_once,
    each_result_is_acknowledged_once, frames_are_answered_once,
};
use sp_order_laws::worlds::{parked_results_came, what_comes_was_sent};

/// After every history that a space took, in which no number of a connection comes again: a foreign
/// reference that a task that has started, a field of a standing object or a held result has is granted.
/// That is, since the last clean call of it was made its owner answered a dirty call that no clean call had
/// overtaken. So is a reference with a lease. This holds as long as a holder of it came fewer than 2^64 - 1
/// times.
pub fn what_is_held_is_granted()
    ensures { WhatIsHeldIsGranted }
{
    holders_are_counted();
}

/// After such a history a dirty call that is on its way is of a reference that is granted already, or for
/// whose lease a parked frame waits.
pub fn dirty_calls_are_awaited()
    ensures { DirtyCallsAreAwaited }
{
    holders_are_counted();
}

/// Of each reference that is granted after such a history a Lease came on a connection that the space
/// dialled to its owner, and each clean call of the reference that waits for an answer is out under a
/// sequence number below the Lease's. None waits to be sent.
pub fn granted_references_are_uncleaned()
    ensures { GrantedReferencesAreUncleaned }
{
    calls_on_their_way_are_requests();
    calls_are_made_when_due();
    calls_keep_their_order();
}

/// A reference that is granted after an event of a history that a space took was so before it, or the event
/// brings the Lease of a dirty call of the reference that is out and on its way.
pub fn only_leases_grant()
    ensures { OnlyLeasesGrant }
{}

/// After an event of a history that a space took: a dirty or clean call that is out under a sequence number
/// which was given before the event was out so before it. A dirty call that is on its way then, and was
/// among the requests before the event, was on its way.
pub fn what_is_out_stays_asked()
    ensures { WhatIsOutStaysAsked }
{
    calls_on_their_way_are_requests();
    calls_are_made_when_due();
}

/// After every history of a space, whatever event comes: an entry of a client for an object stays, unless it
/// expires with a moment, or a clean call of the client that names the object comes. So no Sweep takes an
/// object for which a client has an entry.
pub fn entries_stay_until_cleaned()
    ensures { EntriesStayUntilCleaned }
{
    nothing_holds_what_goes();
}

/// After every history of a space a dirty call that comes in time, of no more ids than its connection's
/// version allows, sets the entry of its client for each object that it names and that stands.
pub fn dirty_calls_set_entries()
    ensures { DirtyCallsSetEntries }
{}

/// With each event of a world no space changes, or one space alone does: it takes one event, or some one
/// after the other that answer nothing, none of which it refuses. A frame that comes to it is the first in
/// the queue of a connection toward it, and an event of its own is the world's.
pub fn events_reach_one_space()
    ensures { EventsReachOneSpace }
{}

/// In every run of every world of spaces of version 1 or 2 that have ids of their own and one digest, in
/// which no Dial is refused and no read or write fails: a clean call on its way to an owner names no
/// object of a reference that is granted to its client. So none does of what a task that has started, a
/// field or a held result of the client has.
pub fn granted_references_stay_secure()
    ensures { GrantedReferencesStaySecure }
{
    frames_go_their_way();
    parked_results_came();
    spaces_have_directions();
    what_comes_was_sent();
    hand_shakes_are_in_table();
    calls_come_above_the_last();
    each_call_stands_once();
    each_group_is_answered_once();
    each_result_is_acknowledged_once();
    frames_are_answered_once();
    answers_are_parked();
    connections_are_opened_once();
    granted_references_are_uncleaned();
}

/// In every run of every world of spaces of version 1 or 2 that have ids of their own and one digest, in
/// which no Dial is refused and no read or write fails: a clean call on its way to an owner names no
/// object of a reference that a task that has started, a field of a standing object or a held result of
/// the client has, as long as a holder of the reference came fewer than 2^64 - 1 times.
pub fn what_is_held_is_not_cleaned()
    ensures { WhatIsHeldIsNotCleaned }
{
    frames_go_their_way();
    parked_results_came();
    spaces_have_directions();
    what_comes_was_sent();
    hand_shakes_are_in_table();
    calls_come_above_the_last();
    each_call_stands_once();
    each_group_is_answered_once();
    each_result_is_acknowledged_once();
    frames_are_answered_once();
    answers_are_parked();
    connections_are_opened_once();
    granted_references_are_uncleaned();
    what_is_held_is_granted();
}
