//! The laws of answers that find what they answer.

ghost use Rattle.sp_order_laws.specs.Asked.{WhatIsAskedStands};
ghost use Rattle.sp_order_laws.specs.Heard.{OwnersHearWhatCame};
ghost use Rattle.sp_order_laws.specs.InTime.{CallsComeInTime};
ghost use Rattle.sp_order_laws.specs.RequestOrder.{CallsKeepTheirOrder};
ghost use Rattle.sp_order_laws.specs.Results.{ResultsWaitForAcks};
ghost use Rattle.sp_order_laws.specs.Senders.{ParkedFramesCame, SendersHold};
ghost use Rattle.sp_order_laws.specs.Told.{LeasesAnswerDirtyCalls};
ghost use Rattle.sp_order_laws.specs.Unbroken.{NothingCloses};
ghost use Rattle.sp_order_laws.specs.Welcome.{WelcomeFramesCloseNothing};

use crate::hellos::hand_shakes_are_in_table;
use crate::laws::{
    calls_come_above_the_last, each_call_stands_once, each_group_is_answered_once,
    each_result_is_acknowledged_once, frames_are_answered_once,
};
use crate::worlds::{parked_results_came, what_comes_was_sent};
use sp_laws::calls::{frames_go_their_way, spaces_have_directions};
use sp_laws::laws::{answers_are_parked, connections_are_opened_once, spaces_are_in_order};

/// After every history that a space took, in which no number of a connection comes again: of the calls,
/// lookups and dirty and clean calls that the space sent on a connection, those to which no answer came
/// stand among its requests while the connection is open, each as often as it was sent.
pub fn what_is_asked_stands()
    ensures { WhatIsAskedStands }
{
    frames_go_their_way();
    parked_results_came();
}

/// After every history that a space took, in which no number of a connection comes again, a welcome frame
/// closes no connection.
pub fn welcome_frames_close_nothing()
    ensures { WelcomeFramesCloseNothing }
{
    frames_go_their_way();
    parked_results_came();
}

/// After every history in which no number of a connection comes again, a result that was sent on a
/// connection is held until its Ack while the connection is open and no Ack of its number came there.
pub fn results_wait_for_acks()
    ensures { ResultsWaitForAcks }
{}

/// After every history that a space took, in which no number of a connection comes again, each Lease that
/// an event is answered with answers a dirty call that came with the event, on its connection and of its
/// number; and each Cleaned a clean call.
pub fn leases_answer_dirty_calls()
    ensures { LeasesAnswerDirtyCalls }
{
    frames_go_their_way();
    parked_results_came();
}

/// In every run of every world of spaces of version 1 or 2 that have ids of their own and one digest, in
/// which no Dial is refused and no read or write fails: no end of a connection is over, each connection
/// that a space opened joins it with the space that it dialled, or that dialled it, and is open, and each
/// frame that is first in its queue is welcome; but for a connection that tried version 2 in vain, on
/// which Hellos alone are sent: the space that dialled said 2 there, and the other is of version 1.
pub fn nothing_closes()
    ensures { NothingCloses }
{
    frames_go_their_way();
    parked_results_came();
    spaces_have_directions();
    what_comes_was_sent();
    hand_shakes_are_in_table();
    calls_come_above_the_last();
    each_call_stands_once();
    each_group_is_answered_once();
    each_result_is_acknowledged_once();
    frames_are_answered_once();
    answers_are_parked();
    connections_are_opened_once();
}

/// After every history that a space took, in which no number of a connection comes again, each parked frame
/// came on its connection.
pub fn parked_frames_came()
    ensures { ParkedFramesCame }
{
    frames_go_their_way();
    parked_results_came();
}

/// In every run of every world of spaces of version 1 or 2 that have ids of their own and one digest, in
/// which no Dial is refused and no read or write fails: of each Call on its way, and of each that is
/// parked, a task of the caller waits that holds the target and the references among the arguments; and
/// each result on its way, or parked at the caller, the callee holds until its Ack.
pub fn senders_hold()
    ensures { SendersHold }
{
    frames_go_their_way();
    parked_results_came();
    spaces_have_directions();
    what_comes_was_sent();
    hand_shakes_are_in_table();
    calls_come_above_the_last();
    each_call_stands_once();
    each_group_is_answered_once();
    each_result_is_acknowledged_once();
    frames_are_answered_once();
    answers_are_parked();
    connections_are_opened_once();
    spaces_are_in_order();
}

/// After every history that a space took, in which no number of a connection comes again: dirty and clean
/// calls to one peer stand among the requests of the space in the order in which they were made, and of two
/// that are out the one that was made later has the greater sequence number; none is out while one before
/// it waits.
pub fn calls_keep_their_order()
    ensures { CallsKeepTheirOrder }
{
    frames_go_their_way();
}

/// In every run of every world, whatever is lost or fails: what an owner is told of its objects came. The
/// number of each dirty and clean call on its reference lists came in a frame, on a connection on which a
/// Hello of its client came.
pub fn owners_hear_what_came()
    ensures { OwnersHearWhatCame }
{}

/// In every run of every world of spaces of version 1 or 2 that have ids of their own and one digest, in
/// which no Dial is refused and no read or write fails: a dirty or clean call that is on its way is late
/// for no object.
pub fn calls_come_in_time()
    ensures { CallsComeInTime }
{
    frames_go_their_way();
    parked_results_came();
    spaces_have_directions();
    what_comes_was_sent();
    hand_shakes_are_in_table();
    calls_come_above_the_last();
    each_call_stands_once();
    each_group_is_answered_once();
    each_result_is_acknowledged_once();
    frames_are_answered_once();
    answers_are_parked();
    connections_are_opened_once();
}
