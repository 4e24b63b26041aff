//! What happens in a world.

use sp_events::Event;
use sp_pipes::End;
use space_ids::{Row, Value};

/// An event of a world. Spaces and connections are given by their numbers, from 0.
#[derive(Drop)]
pub enum WorldEvent {
    /// One of a space's own events, Moment to Lookup. No other kind of event fits.
    Own {
        space: usize,
        event: Event,
    },
    /// A task of a space starts at a method, by its number in the class set.
    Root {
        space: usize,
        method: u32,
        arguments: Row<Value>,
        fuel: u64,
    },
    /// A task of a space makes one instruction.
    Step {
        space: usize,
        task: u64,
    },
    /// A dial comes to a connection.
    Open {
        dialler: usize,
        dialled: usize,
    },
    /// A dial is refused.
    Refuse {
        dialler: usize,
        dialled: usize,
    },
    /// The space that was dialled accepts the connection.
    Accept(u64),
    /// The first frame comes to an end of a connection, or that the other end has ended.
    Deliver {
        conn: u64,
        to: End,
    },
    /// A read fails at an end of a connection.
    ReadFails {
        conn: u64,
        at: End,
    },
    /// A write fails at an end of a connection, and this many of the last frames were not sent.
    WriteFails {
        conn: u64,
        at: End,
        unsent: u64,
    },
}
