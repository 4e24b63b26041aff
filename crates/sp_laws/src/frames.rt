//! The laws of connections that are open and of the frames that are sent there.

ghost use Rattle.sp_laws.specs.Open.{ConnectionsEnd, EndedConnectionsAreSilent, FramesGoWhereOpen};

/// After every history of a space each frame with which an event is answered goes out on a connection
/// that was open before the event, or that the event opens; and a connection is closed with an event that
/// brings a frame there, and is not open after it.
pub fn frames_go_where_open()
    ensures { FramesGoWhereOpen }
{}

/// In a space a connection that is not open stays so until an event opens it; and after a Closed, a
/// ReadFailed, a Bad or a WriteFailed of a connection it is not open.
pub fn connections_end()
    ensures { ConnectionsEnd }
{}

/// After every history of a space no event is answered with a frame on a connection that is not open and
/// that it does not open, nor on one that it ends by a Closed, a ReadFailed, a Bad or a WriteFailed.
pub fn ended_connections_are_silent()
    ensures { EndedConnectionsAreSilent }
{}
