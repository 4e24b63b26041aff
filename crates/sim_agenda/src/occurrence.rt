//! What occurs in a world: an event that is told to a space.

use crate::Routes;
use sp_world::{Dial, End, Event, WorldEvent};

/// An event that is told to a space: to which one and on which connection, if there are such, and what it is.
#[derive(Clone, Copy)]
pub struct Occurrence {
    pub space: Option<usize>,
    pub conn: Option<u64>,
    pub kind: OccurrenceKind,
}

/// What occurs, as far as a record keeps it.
#[derive(Clone, Copy)]
pub enum OccurrenceKind {
    /// A task makes an instruction.
    Step,
    /// The clock is set.
    Moment(u64),
    /// A dial comes to a connection, or is refused.
    Opened(Dial),
    Refused(Dial),
    /// A connection is accepted.
    Accepted,
    /// Something comes to an end.
    Delivered(End),
    /// A read fails at an end, or a write, of which so many frames did not go out.
    ReadFailed(End),
    WriteFailed(End, u64),
    /// Another own event of the space.
    Own,
    /// A root or a look-up, which is kept with its variable.
    Begun,
}

/// How an event is told, over these connections.
pub fn occurrence_of(event: &WorldEvent, connections: &Routes) -> Occurrence {
    match event {
        WorldEvent::Own { space, event } => to_space(*space, own(event)),
        WorldEvent::Root { space, .. } => to_space(*space, OccurrenceKind::Begun),
        WorldEvent::Step { space, .. } => to_space(*space, OccurrenceKind::Step),
        WorldEvent::Open { dialler, dialled } => {
            to_space(
                *dialler,
                OccurrenceKind::Opened(dial_of(*dialler, *dialled)),
            )
        }
        WorldEvent::Refuse { dialler, dialled } => {
            to_space(
                *dialler,
                OccurrenceKind::Refused(dial_of(*dialler, *dialled)),
            )
        }
        WorldEvent::Accept(conn) => {
            on_connection(connections, *conn, End::Accepter, OccurrenceKind::Accepted)
        }
        WorldEvent::Deliver { conn, to } => {
            on_connection(connections, *conn, *to, OccurrenceKind::Delivered(*to))
        }
        WorldEvent::ReadFails { conn, at } => {
            on_connection(connections, *conn, *at, OccurrenceKind::ReadFailed(*at))
        }
        WorldEvent::WriteFails { conn, at, unsent } => {
            on_connection(
                connections,
                *conn,
                *at,
                OccurrenceKind::WriteFailed(*at, *unsent),
            )
        }
    }
}

fn own(event: &Event) -> OccurrenceKind {
    match event {
        Event::Moment(moment) => OccurrenceKind::Moment(*moment),
        _ => OccurrenceKind::Own,
    }
}

fn dial_of(dialler: usize, dialled: usize) -> Dial {
    Dial { dialler, dialled }
}

fn to_space(space: usize, kind: OccurrenceKind) -> Occurrence {
    Occurrence {
        space: Some(space),
        conn: None,
        kind,
    }
}

// What is told to the space at an end of a connection.
fn on_connection(connections: &Routes, conn: u64, end: End, kind: OccurrenceKind) -> Occurrence {
    Occurrence {
        space: connections.space_at(conn, end),
        conn: Some(conn),
        kind,
    }
}
