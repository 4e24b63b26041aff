//! Events.

ghost use Rattle.std.specs.Prelude.{◌≡◌, true};

use crate::messages::same_message;
use crate::values::{same_bytes, same_id, same_value};
use sp_events::Event;
use space_ids::Uuid;

/// Whether two events are the same.
pub fn same_event(event: &Event, other: &Event) -> bool
    ensures { result ≡ true → event.now ≡ other.now }
{
    match event {
        Event::Moment(moment) => match other {
            Event::Moment(another) => moment == another,
            _ => false,
        },
        Event::Sweep => matches!(other, Event::Sweep),
        Event::RootAck(task) => match other {
            Event::RootAck(another) => task == another,
            _ => false,
        },
        Event::Bind { .. } | Event::Rebind { .. } | Event::Unbind { .. } | Event::Lookup { .. } =>
            same_naming(event, other),
        Event::Opened { .. } | Event::Refused { .. } | Event::Received { .. } => {
            same_coming(event, other)
        }
        Event::Closed { .. }
        | Event::ReadFailed { .. }
        | Event::Bad { .. }
        | Event::WriteFailed { .. } => same_end(event, other),
    }
}

// The same of events of names. Others are not compared.
fn same_naming(event: &Event, other: &Event) -> bool
    ensures { result ≡ true → event.now ≡ other.now }
{
    match event {
        Event::Bind { name, value } => match other {
            Event::Bind { name: n, value: v } => {
                same_bytes(name.as_slice(), n.as_slice()) && same_value(value, v)
            }
            _ => false,
        },
        Event::Rebind { name, value } => match other {
            Event::Rebind { name: n, value: v } => {
                same_bytes(name.as_slice(), n.as_slice()) && same_value(value, v)
            }
            _ => false,
        },
        Event::Unbind { name } => match other {
            Event::Unbind { name: n } => same_bytes(name.as_slice(), n.as_slice()),
            _ => false,
        },
        Event::Lookup { peer, name } => match other {
            Event::Lookup { peer: p, name: n } => {
                same_id(peer, p) && same_bytes(name.as_slice(), n.as_slice())
            }
            _ => false,
        },
        _ => false,
    }
}

// The same of connections that open, and of frames. Others are not compared.
fn same_coming(event: &Event, other: &Event) -> bool
    ensures { result ≡ true → event.now ≡ other.now }
{
    match event {
        Event::Opened { conn, dialled } => match other {
            Event::Opened {
                conn: c,
                dialled: d,
            } => conn == c && same_peer(dialled, d),
            _ => false,
        },
        Event::Refused { peer } => match other {
            Event::Refused { peer: p } => same_id(peer, p),
            _ => false,
        },
        Event::Received { conn, message } => match other {
            Event::Received {
                conn: c,
                message: m,
            } => conn == c && same_message(message, m),
            _ => false,
        },
        _ => false,
    }
}

// The same of ends of connections. Others are not compared.
fn same_end(event: &Event, other: &Event) -> bool
    ensures { result ≡ true → event.now ≡ other.now }
{
    match event {
        Event::Closed { conn } => match other {
            Event::Closed { conn: c } => conn == c,
            _ => false,
        },
        Event::ReadFailed { conn } => match other {
            Event::ReadFailed { conn: c } => conn == c,
            _ => false,
        },
        Event::Bad { conn } => match other {
            Event::Bad { conn: c } => conn == c,
            _ => false,
        },
        Event::WriteFailed { conn, unsent } => match other {
            Event::WriteFailed { conn: c, unsent: u } => conn == c && unsent == u,
            _ => false,
        },
        _ => false,
    }
}

fn same_peer(peer: &Option<Uuid>, other: &Option<Uuid>) -> bool
    ensures { result ≡ true → peer.now ≡ other.now }
{
    match peer {
        None => other.is_none(),
        Some(peer) => match other {
            Some(another) => same_id(peer, another),
            None => false,
        },
    }
}
