//! Copies of events.

ghost use Rattle.std.specs.Prelude.{◌≡◌, IfOk};

use crate::Event;
use message_copies::{copy_message, copy_name};
use std::alloc::{AllocError, Global};
use table_copies::copy_value;

/// The same event.
pub fn copy_event(alloc: Global, event: &Event) -> Result<Event, AllocError>
    ensures { IfOk result (λ copy. copy ≡ event.now) }
{
    match event {
        Event::Moment(moment) => Ok(Event::Moment(*moment)),
        Event::Sweep => Ok(Event::Sweep),
        Event::RootAck(task) => Ok(Event::RootAck(*task)),
        Event::Bind { name, value } => Ok(Event::Bind {
            name: copy_name(alloc, name.as_slice())?,
            value: copy_value(alloc, value)?,
        }),
        Event::Rebind { name, value } => Ok(Event::Rebind {
            name: copy_name(alloc, name.as_slice())?,
            value: copy_value(alloc, value)?,
        }),
        Event::Unbind { name } => Ok(Event::Unbind {
            name: copy_name(alloc, name.as_slice())?,
        }),
        Event::Lookup { peer, name } => Ok(Event::Lookup {
            peer: *peer,
            name: copy_name(alloc, name.as_slice())?,
        }),
        Event::Opened { conn, dialled } => Ok(Event::Opened {
            conn: *conn,
            dialled: *dialled,
        }),
        Event::Refused { peer } => Ok(Event::Refused { peer: *peer }),
        Event::Received { conn, message } => Ok(Event::Received {
            conn: *conn,
            message: copy_message(alloc, message)?,
        }),
        Event::Closed { conn } => Ok(Event::Closed { conn: *conn }),
        Event::ReadFailed { conn } => Ok(Event::ReadFailed { conn: *conn }),
        Event::Bad { conn } => Ok(Event::Bad { conn: *conn }),
        Event::WriteFailed { conn, unsent } => Ok(Event::WriteFailed {
            conn: *conn,
            unsent: *unsent,
        }),
    }
}
