//! The laws of the order in which spaces send and answer.

ghost use Rattle.sp_order_laws.specs.Answering.{FramesAreAnsweredOnce};
ghost use Rattle.sp_order_laws.specs.LastCalls.{CallsComeAboveTheLast, LastCallsCame};
ghost use Rattle.sp_order_laws.specs.Places.{CallsGoOutOnce, EachCallStandsOnce, EachGroupIsAnsweredOnce, EachResultIsAcknowledgedOnce};
ghost use Rattle.sp_order_laws.specs.Rising.{CallNumbersRise, NumbersRise, SequenceNumbersRise};

use crate::worlds::what_comes_was_sent;
use sp_laws::calls::frames_go_their_way;

/// After every history that a space took, in which no number of a connection comes again, the numbers of
/// the calls and lookups that it sent on a connection rise, in the order in which it sent them.
pub fn call_numbers_rise()
    ensures { CallNumbersRise }
{
    frames_go_their_way();
}

/// After every history that a space took, in which no number of a connection comes again, the sequence
/// numbers of the dirty and clean calls that it sent, on whatever connections, rise in the order in which
/// it sent them.
pub fn sequence_numbers_rise()
    ensures { SequenceNumbersRise }
{
    frames_go_their_way();
}

/// In every run of every world, whatever is lost or fails: of two calls or lookups that a space sent on a
/// connection the later one has the greater number, and so of two dirty or clean calls. They rise along
/// what came at the other end, and then what is on its way there.
pub fn numbers_rise()
    ensures { NumbersRise }
{
    frames_go_their_way();
    what_comes_was_sent();
}

/// After every history that a space took, in which no number of a connection comes again, a call or lookup
/// of a number waits to be sent, or was sent once, on whatever connection, or neither.
pub fn calls_go_out_once()
    ensures { CallsGoOutOnce }
{
    frames_go_their_way();
}

/// After every history that a space took, in which no number of a connection comes again, it has answered
/// no more than it was asked. Of the calls and lookups that came on a connection under a number, those
/// that are parked, those that are living tasks and those that were answered are together no more than
/// came; likewise of dirty and clean calls and their answers, and of results that are parked or
/// acknowledged.
pub fn frames_are_answered_once()
    ensures { FramesAreAnsweredOnce }
{
    frames_go_their_way();
}

/// In every run of every world, whatever is lost or fails, a call or lookup of a space stands in one part
/// of the world at most. It waits to be sent, or stands once, on one connection: as its frame on its way,
/// as a parked call or a living task where it came, as its answer on its way, or as a result that came
/// back and waits for leases. Once its answer came, nothing of it waits to be sent, is on its way or is
/// under way at the callee, and no other answer comes.
pub fn each_call_stands_once()
    ensures { EachCallStandsOnce }
{
    frames_go_their_way();
    what_comes_was_sent();
}

/// In every run of every world, whatever is lost or fails, a dirty or clean call of a space is answered
/// once: its frame is on its way, or the one Lease or Cleaned that answers it is or came, or neither, and
/// on one connection.
pub fn each_group_is_answered_once()
    ensures { EachGroupIsAnsweredOnce }
{
    frames_go_their_way();
    what_comes_was_sent();
}

/// In every run of every world, whatever is lost or fails, a result that answers a call on a connection is
/// acknowledged once. It is on its way, or waits for leases where it came, or has one Ack, which is on its
/// way or came; and an Ack on its way names a result that its receiver sent on the connection.
pub fn each_result_is_acknowledged_once()
    ensures { EachResultIsAcknowledgedOnce }
{
    frames_go_their_way();
    what_comes_was_sent();
}

/// After every history of a space the last number of each open connection is that of a call or lookup that
/// came there, or 0.
pub fn last_calls_came()
    ensures { LastCallsCame }
{}

/// In every run of every world, whatever is lost or fails, a call or lookup that is on its way has a number
/// above the last of its connection in the space to which it comes. So no connection is closed since a
/// number comes again, or falls.
pub fn calls_come_above_the_last()
    ensures { CallsComeAboveTheLast }
{
    frames_go_their_way();
    what_comes_was_sent();
}
