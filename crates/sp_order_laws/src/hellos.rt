//! The laws of the Hellos with which connections begin.

ghost use Rattle.sp_order_laws.specs.HandShakes.{HandShakesAreInTable};
ghost use Rattle.sp_order_laws.specs.Hellos.{ConnectionsBeginInOrder, HellosAreSaidFirst};

/// After every history of a space each Hello with which an event is answered goes out on the connection
/// that the event opens, of version 1, or of the space's own if it dialled; or, in a space of version 2, on
/// which a Hello comes with it, of the lower of both versions; and any other frame on a connection on which
/// a frame came.
pub fn hellos_are_said_first()
    ensures { HellosAreSaidFirst }
{}

/// In every run of every world, whatever is lost or fails, of each space and each connection: before it
/// opens there nothing comes and nothing is sent. From then on the first frame that was sent there is the
/// space's own Hello, and no other is one. While it is open and no Hello came, nothing came, and the space's
/// own Hello alone was sent; or nothing, if the space is of version 2 and was dialled. Once a Hello came, that
/// was the first frame that came, of the same digest and from the space that was dialled, if one was; and no
/// other Hello came. A connection keeps the version of its Hellos, and any frame but a Hello is sent only
/// where both ends met in one: no dirty or clean call of more ids than it allows.
pub fn connections_begin_in_order()
    ensures { ConnectionsBeginInOrder }
{}

/// In every run of every world, whatever is lost or fails, of the frames under way along a connection toward
/// an end, and those that were lost after them: there are none before the other end opens. While the
/// connection is open here and no Hello came, the first is the other end's Hello, and no other is one; and
/// it is the only frame while no Hello came there either, or there is none if the other end says it late. Once
/// a Hello came here no other is under way, and nothing at all before one came there. Frames are lost only of
/// an end that is over.
pub fn hand_shakes_are_in_table()
    ensures { HandShakesAreInTable }
{}
