//! The laws of what spaces of a world send one another.

ghost use Rattle.sp_order_laws.specs.Delivered.{WhatComesWasSent};
ghost use Rattle.sp_order_laws.specs.InOrder.{LostFramesComeLast};
ghost use Rattle.sp_order_laws.specs.Ends.{AnswersCameFromCallees, CallsEndByCallees, ParkedResultsCame};

/// In every run of every world, whatever is lost or fails, the frames that came to a space on a connection,
/// and then those on their way there, are some of those that the other end sent on it, in their order, each
/// once. Where a connection opens in a space, or a frame comes on it, the space is an end of it.
pub fn what_comes_was_sent()
    ensures { WhatComesWasSent }
{}

/// In every run of every world, whatever is lost or fails, the frames that came to a space on a connection,
/// then those on their way there, and then those that were lost, are all that the other end sent on it, in
/// this order. So nothing arrives that was sent after a lost frame; and frames are lost only of an end that
/// is over. At an end that is over its space has the connection no longer open.
pub fn lost_frames_come_last()
    ensures { LostFramesComeLast }
{}

/// After every history of a space each Returned that waits for leases came on its connection.
pub fn parked_results_came()
    ensures { ParkedResultsCame }
{}

/// In every run of every world, whatever is lost or fails, each Returned, Threw and Spent that came to a
/// space on a connection was answered by the space at the other end, with an event of its own: it is the
/// outcome of the task that this event ends, which the call of its number on this connection started; an
/// exception with which a call is answered that starts no task; or what a Lookup found.
pub fn answers_came_from_callees()
    ensures { AnswersCameFromCallees }
{}

/// In every run of every world, whatever is lost or fails, of each space at each event: the task of a call
/// that waits lives on, and waits on, or was given one reply. The reply is what the other end of the
/// connection on which the call went out answered to its number, or the exception of a failure.
pub fn calls_end_by_callees()
    ensures { CallsEndByCallees }
{}
