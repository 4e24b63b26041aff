//! Frames.

ghost use Rattle.std.specs.Prelude.{◌≡◌, true};

use crate::values::{same_bytes, same_digest, same_id, same_objects, same_result, same_values};
use net_message::Message;

/// Whether two frames say the same.
pub fn same_message(message: &Message, other: &Message) -> bool
    ensures { result ≡ true → message.now ≡ other.now }
{
    match message {
        Message::Hello {
            version,
            space,
            digest,
        } => match other {
            Message::Hello {
                version: v,
                space: s,
                digest: d,
            } => version == v && same_id(space, s) && same_digest(digest, d),
            _ => false,
        },
        Message::Call {
            number,
            object,
            method,
            fuel,
            arguments,
        } => match other {
            Message::Call {
                number: n,
                object: o,
                method: m,
                fuel: f,
                arguments: a,
            } => {
                number == n
                    && object == o
                    && method == m
                    && fuel == f
                    && same_values(arguments.as_slice(), a.as_slice())
            }
            _ => false,
        },
        Message::Lookup { number, name } => match other {
            Message::Lookup { number: n, name: m } => {
                number == n && same_bytes(name.as_slice(), m.as_slice())
            }
            _ => false,
        },
        Message::Returned { .. }
        | Message::Threw { .. }
        | Message::Spent { .. }
        | Message::Ack { .. } => same_answer(message, other),
        Message::Dirty { .. }
        | Message::Lease { .. }
        | Message::Clean { .. }
        | Message::Cleaned { .. } => same_holding(message, other),
    }
}

// The same of frames that answer a call, or acknowledge its result. Other frames are not compared.
fn same_answer(message: &Message, other: &Message) -> bool
    ensures { result ≡ true → message.now ≡ other.now }
{
    match message {
        Message::Returned {
            number,
            fuel,
            value,
        } => match other {
            Message::Returned {
                number: n,
                fuel: f,
                value: v,
            } => number == n && fuel == f && same_result(value, v),
            _ => false,
        },
        Message::Threw { number, class } => match other {
            Message::Threw {
                number: n,
                class: c,
            } => number == n && class == c,
            _ => false,
        },
        Message::Spent { number } => match other {
            Message::Spent { number: n } => number == n,
            _ => false,
        },
        Message::Ack { number } => match other {
            Message::Ack { number: n } => number == n,
            _ => false,
        },
        _ => false,
    }
}

// The same of frames that ask for leases and grant them. Other frames are not compared.
fn same_holding(message: &Message, other: &Message) -> bool
    ensures { result ≡ true → message.now ≡ other.now }
{
    match message {
        Message::Dirty {
            sequence,
            period,
            objects,
        } => match other {
            Message::Dirty {
                sequence: s,
                period: p,
                objects: o,
            } => sequence == s && period == p && same_objects(objects.as_slice(), o.as_slice()),
            _ => false,
        },
        Message::Lease { sequence, period } => match other {
            Message::Lease {
                sequence: s,
                period: p,
            } => sequence == s && period == p,
            _ => false,
        },
        Message::Clean {
            sequence,
            strong,
            objects,
        } => match other {
            Message::Clean {
                sequence: s,
                strong: t,
                objects: o,
            } => sequence == s && strong == t && same_objects(objects.as_slice(), o.as_slice()),
            _ => false,
        },
        Message::Cleaned { sequence } => match other {
            Message::Cleaned { sequence: s } => sequence == s,
            _ => false,
        },
        _ => false,
    }
}
