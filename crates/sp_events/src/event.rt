//! What happens to a space.

use crate::StartFault;
use net_message::Message;
use space_ids::{Row, Uuid, Value};

/// An event of a space that comes from outside: all but what is done with lent tasks, and
/// [roots](Root).
#[derive(Drop)]
pub enum Event {
    /// This many milliseconds have passed since the space began to count.
    Moment(u64),
    /// The objects without a reason to stay are to be withdrawn.
    Sweep,
    /// The result of this root or lookup is let go.
    RootAck(u64),
    /// The name is to be bound to the own object that the value names.
    Bind { name: Row<u8>, value: Value },
    /// The same for a name that may be bound already.
    Rebind { name: Row<u8>, value: Value },
    /// The name is to be bound no more.
    Unbind { name: Row<u8> },
    /// The registry of a peer is to be asked for what is bound to the name.
    Lookup { peer: Uuid, name: Row<u8> },
    /// A connection is open: to the peer that this space dialled, or from one that dialled this space.
    Opened { conn: u64, dialled: Option<Uuid> },
    /// A peer that this space dialled could not be reached.
    Refused { peer: Uuid },
    /// A frame came on the connection.
    Received { conn: u64, message: Message },
    /// The peer closed the connection.
    Closed { conn: u64 },
    /// A read on the connection failed.
    ReadFailed { conn: u64 },
    /// Bytes came on the connection that are no frame.
    Bad { conn: u64 },
    /// A write on the connection failed, and this many of the last frames were not sent whole.
    WriteFailed { conn: u64, unsent: u64 },
}

/// A root: a task that starts at a method of the space's own class set. The caller has asked the class
/// set whether it may, and tells its answer.
#[derive(Drop)]
pub struct Root {
    /// The method's number in the class set.
    pub method: u32,
    pub arguments: Row<Value>,
    pub fuel: u64,
    /// Why the class set starts no task at the method with these arguments, if it does not.
    pub refused: Option<StartFault>,
}
