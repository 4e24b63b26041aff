//! What a space answers to an event.

ghost use Rattle.std.specs.Prelude.{◌≡◌};
ghost use Rattle.sp_rules.specs.Events as rules;

use net_message::Message;
use sp_registry::RegistryFault;
use sp_tasks::Outcome;
use space_ids::{ObjId, Row, Uuid};

/// What a space answers to an event.
#[derive(Drop)]
pub enum Output {
    /// A task of this id lives.
    Started(u64),
    /// The task ended so.
    Ended(u64, Outcome),
    /// These objects were withdrawn, in the order of ids.
    Withdrawn(Row<ObjId>),
    /// A registry refused what it was asked.
    Denied(RegistryFault),
    /// This frame is to go out on the connection.
    Send { conn: u64, message: Message },
    /// A connection to this space is to be opened.
    Dial(Uuid),
    /// The connection is to be closed.
    Close(u64),
    /// The task may go on: it can be lent.
    Ready(u64),
}

/// The turn of a frame among the frames of one event, in their order.
#[derive(Clone, Copy)]
pub enum Turn {
    /// A `Hello`.
    Hellos,
    /// The answer to a frame of the peer.
    Replies,
    /// A request that waited for the peer's `Hello`.
    Waited,
    /// A `Clean`.
    Cleans,
    /// A `Dirty`.
    Dirties,
    /// A `Call` or a `Lookup`.
    Calls,
    /// An `Ack`.
    Acks,
}

// How many ranks there are.
pub(crate) const RANKS: u8 = 14;

impl Output {
    ghost use Rattle.sp_outputs.specs.Notes.{output_of};

    // The rank of an output that is no frame.
    pub(crate) fn rank(&self) -> u8
        ensures { result ≡ rules.output_rank (output_of self.now) }
    {
        match self {
            Output::Started(_) => 0,
            Output::Ended(_, _) => 1,
            Output::Withdrawn(_) => 2,
            Output::Denied(_) => 3,
            Output::Send {
                conn: _,
                message: _,
            } => RANKS,
            Output::Dial(_) => 11,
            Output::Close(_) => 12,
            Output::Ready(_) => 13,
        }
    }
}

impl Turn {
    ghost use Rattle.sp_outputs.specs.Notes.{turn_of};

    // The rank of a frame.
    pub(crate) fn rank(&self) -> u8
        ensures { result ≡ rules.turn_rank (turn_of self.now) }
    {
        match self {
            Turn::Hellos => 4,
            Turn::Replies => 5,
            Turn::Waited => 6,
            Turn::Cleans => 7,
            Turn::Dirties => 8,
            Turn::Calls => 9,
            Turn::Acks => 10,
        }
    }
}
