//! Copies of frames.

ghost use Rattle.std.specs.Prelude.{◌≡◌, IfOk};

use net_message::Message;
use space_ids::{ObjId, Row};
use std::alloc::{AllocError, Global};
use table_copies::{copy_result, copy_values};

/// Returns a copy of a frame. It answers out of memory if there is none for the values, the ids or the name in
/// it.
pub fn copy_message(alloc: Global, message: &Message) -> Result<Message, AllocError>
    ensures { IfOk result (λ copy. copy ≡ message.now) }
{
    match message {
        Message::Hello {
            version,
            space,
            digest,
        } => Ok(Message::Hello {
            version: *version,
            space: *space,
            digest: *digest,
        }),
        Message::Call {
            number,
            object,
            method,
            fuel,
            arguments,
        } => Ok(Message::Call {
            number: *number,
            object: *object,
            method: *method,
            fuel: *fuel,
            arguments: Row::new(copy_values(alloc, arguments.as_slice())?),
        }),
        Message::Returned {
            number,
            fuel,
            value,
        } => Ok(Message::Returned {
            number: *number,
            fuel: *fuel,
            value: copy_result(alloc, value)?,
        }),
        Message::Threw { number, class } => Ok(Message::Threw {
            number: *number,
            class: *class,
        }),
        Message::Spent { number } => Ok(Message::Spent { number: *number }),
        Message::Ack { number } => Ok(Message::Ack { number: *number }),
        Message::Dirty {
            sequence,
            period,
            objects,
        } => Ok(Message::Dirty {
            sequence: *sequence,
            period: *period,
            objects: copy_ids(alloc, objects.as_slice())?,
        }),
        Message::Lease { sequence, period } => Ok(Message::Lease {
            sequence: *sequence,
            period: *period,
        }),
        Message::Clean {
            sequence,
            strong,
            objects,
        } => Ok(Message::Clean {
            sequence: *sequence,
            strong: *strong,
            objects: copy_ids(alloc, objects.as_slice())?,
        }),
        Message::Cleaned { sequence } => Ok(Message::Cleaned {
            sequence: *sequence,
        }),
        Message::Lookup { number, name } => Ok(Message::Lookup {
            number: *number,
            name: copy_name(alloc, name.as_slice())?,
        }),
    }
}

// A copy of ids.
fn copy_ids(alloc: Global, ids: &[ObjId]) -> Result<Row<ObjId>, AllocError>
    ensures { IfOk result (λ copy. copy ≡ ids.now) }
{
    Ok(Row::new(Vec::from_slice(alloc, ids)?))
}

/// Returns a copy of the bytes of a name, or out of memory.
pub fn copy_name(alloc: Global, name: &[u8]) -> Result<Row<u8>, AllocError>
    ensures { IfOk result (λ copy. copy ≡ name.now) }
{
    Ok(Row::new(Vec::from_slice(alloc, name)?))
}
