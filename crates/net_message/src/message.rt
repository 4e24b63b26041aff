//! What a frame says, kind by kind.

use space_ids::{ClassId, ObjId, Row, Uuid, Value};

/// The SHA-256 digest of a space's class files.
pub type Digest = [u8; 32];

/// What a frame of the protocol between spaces says. The space that dialled a connection sends
/// `Call`, `Lookup`, `Ack`, `Dirty` and `Clean`, the other end answers, and both begin with `Hello`.
/// A `Message` may go past the format's ranges; a `Frame` holds one that keeps them.
#[derive(Debug, Drop)]
pub enum Message {
    /// Who speaks, and over which classes: the protocol's version, 1 or 2, the space's id, and
    /// the digest of its class files.
    Hello {
        version: u8,
        space: Uuid,
        digest: Digest,
    },
    /// A method call on an object of the peer, with the fuel that it may spend. At most 255 values,
    /// each array of at most 8,000 ints.
    Call {
        number: u64,
        object: ObjId,
        method: u32,
        fuel: u64,
        arguments: Row<Value>,
    },
    /// The result of a `Call` or a `Lookup`, and the fuel left.
    Returned {
        number: u64,
        fuel: u64,
        value: Option<Value>,
    },
    /// The class of what a `Call` or a `Lookup` threw.
    Threw {
        number: u64,
        class: ClassId,
    },
    /// A `Call` that ran out of fuel.
    Spent {
        number: u64,
    },
    /// A `Returned` has arrived.
    Ack {
        number: u64,
    },
    /// The sender holds references to these 1 to 4,096 objects, and asks for a lease of `period`
    /// milliseconds (Java RMI specification, `DGC.dirty`).
    Dirty {
        sequence: u64,
        period: u64,
        objects: Row<ObjId>,
    },
    /// A lease was granted for `period` milliseconds.
    Lease {
        sequence: u64,
        period: u64,
    },
    /// The sender no longer holds references to these 1 to 4,096 objects (Java RMI specification,
    /// `DGC.clean`).
    Clean {
        sequence: u64,
        strong: bool,
        objects: Row<ObjId>,
    },
    /// A `Clean` was taken.
    Cleaned {
        sequence: u64,
    },
    /// Asks for what is bound to a name: 1 to 255 ASCII letters, digits, `_` and `.`.
    Lookup {
        number: u64,
        name: Row<u8>,
    },
}
