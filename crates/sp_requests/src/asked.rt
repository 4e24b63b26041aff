//! What is asked of a peer.

use dgc_client::Group;
use net_message::Message;
use space_ids::Row;

/// What a call returns.
#[derive(Clone, Copy, Debug)]
pub enum ResultKind {
    Int,
    IntArray,
    Reference,
    Nothing,
}

/// Who asks by a call or lookup, and what is to come back.
#[derive(Clone, Copy)]
pub enum Asker {
    /// A task, which lends this fuel to its call.
    Call {
        task: u64,
        lent: u64,
        kind: ResultKind,
    },
    /// A lookup, under its task id.
    Lookup {
        task: u64,
    },
}

/// What waits for the peer's Hello.
#[derive(Drop)]
pub enum Asked {
    Call {
        number: u64,
        task: u64,
        lent: u64,
        kind: ResultKind,
        /// Its frame.
        message: Message,
    },
    Lookup {
        number: u64,
        task: u64,
        name: Row<u8>,
    },
    /// The dirty or clean calls of references, under the number under which they were made.
    Tell {
        call: u64,
        group: Group,
    },
}

/// A call or lookup that went out.
#[derive(Clone, Copy)]
pub struct OutCall {
    pub asker: Asker,
    /// Its result has come and is parked.
    pub answered: bool,
    /// How many frames went out on the connection before its own.
    pub index: u128,
}

/// Dirty or clean calls that went out in one frame, under the number under which they were made.
#[derive(Drop)]
pub struct OutGroup {
    pub call: u64,
    pub group: Group,
}
