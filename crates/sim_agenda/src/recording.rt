//! What a record keeps of a script that is played.

use crate::{Occurrence, OccurrenceKind, Routes};
use net_message::Message;
use sim_happenings::{Happening, LinkEnd, ScriptRecord, SentFrame, SentKind};
use sp_world::{End, Output};
use space_ids::ObjId;
use std::alloc::{AllocError, Global};

/// Keeps an event that a space took.
pub fn keep_event(
    record: &mut ScriptRecord,
    space: usize,
    occurrence: Occurrence,
) -> Result<(), AllocError> {
    count_event(record, space, occurrence.kind);
    match happening_of(space, occurrence) {
        Some(happening) => record.add(happening),
        None => Ok(()),
    }
}

/// Counts how many objects stand in a space.
pub fn keep_standing(record: &mut ScriptRecord, space: usize, standing: usize) {
    if let Some(counts) = record.counts_mut(space) {
        counts.standing = standing as u64;
    }
}

fn count_event(record: &mut ScriptRecord, space: usize, kind: OccurrenceKind) {
    let Some(counts) = record.counts_mut(space) else {
        return;
    };
    counts.events = counts.events.saturating_add(1);
    if let OccurrenceKind::Step = kind {
        counts.instructions = counts.instructions.saturating_add(1);
    }
}

// What happens as a space is told an event. The outputs of a step tell what came of it.
fn happening_of(space: usize, occurrence: Occurrence) -> Option<Happening> {
    let conn = occurrence.conn.unwrap_or(0);
    match occurrence.kind {
        OccurrenceKind::Step | OccurrenceKind::Begun => None,
        OccurrenceKind::Own => Some(Happening::Obeyed(space)),
        OccurrenceKind::Moment(moment) => Some(Happening::Moment { space, moment }),
        OccurrenceKind::Opened(dial) => Some(Happening::Opened {
            dialler: dial.dialler,
            dialled: dial.dialled,
        }),
        OccurrenceKind::Refused(dial) => Some(Happening::Refused {
            dialler: dial.dialler,
            dialled: dial.dialled,
        }),
        OccurrenceKind::Accepted => Some(Happening::Accepted(conn)),
        OccurrenceKind::Delivered(to) => Some(Happening::Delivered {
            conn,
            to: link_end(to),
        }),
        OccurrenceKind::ReadFailed(at) => Some(Happening::ReadFailed {
            conn,
            at: link_end(at),
        }),
        OccurrenceKind::WriteFailed(at, unsent) => Some(Happening::WriteFailed {
            conn,
            at: link_end(at),
            unsent,
        }),
    }
}

fn link_end(end: End) -> LinkEnd {
    match end {
        End::Dialler => LinkEnd::Dialler,
        End::Accepter => LinkEnd::Accepter,
    }
}

/// Keeps an output of a space, over these connections. How tasks end is not kept here.
pub fn keep_output(
    alloc: Global,
    record: &mut ScriptRecord,
    connections: &Routes,
    space: usize,
    output: &Output,
) -> Result<(), AllocError> {
    match output {
        Output::Send { conn, message } => {
            let from = end_of(connections, space, *conn);
            keep_frame(alloc, record, space, *conn, from, message)
        }
        Output::Withdrawn(ids) => keep_withdrawn(alloc, record, space, ids.as_slice()),
        Output::Close(conn) => record.add(Happening::Closed {
            conn: *conn,
            by: end_of(connections, space, *conn),
        }),
        Output::Denied(fault) => {
            let text = format!(in alloc; "{fault}")?;
            record.add(Happening::Denied { space, text })
        }
        _ => Ok(()),
    }
}

// At which end of a connection a space stands.
fn end_of(connections: &Routes, space: usize, conn: u64) -> LinkEnd {
    match connections.space_at(conn, End::Dialler) {
        Some(dialler) if dialler == space => LinkEnd::Dialler,
        _ => LinkEnd::Accepter,
    }
}

fn keep_frame(
    alloc: Global,
    record: &mut ScriptRecord,
    space: usize,
    conn: u64,
    from: LinkEnd,
    message: &Message,
) -> Result<(), AllocError> {
    let frame = frame_of(alloc, message)?;
    if let Some(counts) = record.counts_mut(space) {
        counts.send(frame.kind);
    }
    record.add(Happening::Sent { conn, from, frame })
}

fn keep_withdrawn(
    alloc: Global,
    record: &mut ScriptRecord,
    space: usize,
    ids: &[ObjId],
) -> Result<(), AllocError> {
    if let Some(counts) = record.counts_mut(space) {
        counts.withdrawn = counts.withdrawn.saturating_add(ids.len() as u64);
    }
    let objects = numbers_of(alloc, ids)?;
    record.add(Happening::Withdrawn { space, objects })
}

fn numbers_of(alloc: Global, ids: &[ObjId]) -> Result<Vec<u64>, AllocError> {
    let mut numbers = Vec::new(alloc);
    for id in ids {
        numbers.push(id.0)?;
    }
    Ok(numbers)
}

// A frame as a record keeps it.
fn frame_of(alloc: Global, message: &Message) -> Result<SentFrame, AllocError> {
    match message {
        Message::Hello { .. } => Ok(numbered(alloc, SentKind::Hello, 0)),
        Message::Call { number, .. } => Ok(numbered(alloc, SentKind::Call, *number)),
        Message::Returned { number, .. } => Ok(numbered(alloc, SentKind::Returned, *number)),
        Message::Threw { number, .. } => Ok(numbered(alloc, SentKind::Threw, *number)),
        Message::Spent { number } => Ok(numbered(alloc, SentKind::Spent, *number)),
        Message::Ack { number } => Ok(numbered(alloc, SentKind::Ack, *number)),
        Message::Lookup { number, .. } => Ok(numbered(alloc, SentKind::Lookup, *number)),
        Message::Cleaned { sequence } => Ok(numbered(alloc, SentKind::Cleaned, *sequence)),
        Message::Lease { sequence, period } => Ok(SentFrame {
            period: *period,
            ..numbered(alloc, SentKind::Lease, *sequence)
        }),
        Message::Dirty {
            sequence,
            period,
            objects,
        } => Ok(SentFrame {
            period: *period,
            objects: numbers_of(alloc, objects.as_slice())?,
            ..numbered(alloc, SentKind::Dirty, *sequence)
        }),
        Message::Clean {
            sequence,
            strong,
            objects,
        } => Ok(SentFrame {
            strong: *strong,
            objects: numbers_of(alloc, objects.as_slice())?,
            ..numbered(alloc, SentKind::Clean, *sequence)
        }),
    }
}

// A frame that says no more than its kind and its number.
fn numbered(alloc: Global, kind: SentKind, number: u64) -> SentFrame {
    SentFrame {
        kind,
        number,
        period: 0,
        strong: false,
        objects: Vec::new(alloc),
    }
}
