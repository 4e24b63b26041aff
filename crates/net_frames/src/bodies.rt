//! Reading a frame's body: its kind, and then the fields of that kind.

ghost use Rattle.std.specs.Prelude.{◌≡◌};
ghost use Rattle.net_frames.specs.declared.kinds.FrameKind.TheVariants as kinds;
ghost use Rattle.net_frames.specs.Reading.{Gives, fields_at, message_at, whole_at};

use crate::fields::{
    arguments_of, byte_of, class_of, digest_of, flag_of, id_of, name_of, objects_of, result_of,
    space_of, u32_of, u64_of,
};
use crate::kinds::{FrameKind, kind_of};
use net_message::{Message, WireError, WireFault};
use space_ids::Uuid;
use std::alloc::Global;

#[tactic(auto, unfolding(crate::specs::Reading::fields_at))]
fn hello_of(bytes: &[u8]) -> Result<(Message, &[u8]), WireError>
    ensures { Gives (λ x. (x.0, x.1.now)) result (fields_at kinds.Hello bytes.now) }
{
    let (version, rest) = byte_of(bytes)?;
    if version < 1 || version > 2 {
        return Err(WireError::Fault(WireFault::Body));
    }
    let (space, rest) = space_of(rest)?;
    let (digest, rest) = digest_of(rest)?;
    let space = Uuid::from_bytes(space);
    let hello = Message::Hello {
        version,
        space,
        digest,
    };
    Ok((hello, rest))
}

#[tactic(auto, unfolding(crate::specs::Reading::fields_at))]
fn call_of(alloc: Global, bytes: &[u8]) -> Result<(Message, &[u8]), WireError>
    ensures { Gives (λ x. (x.0, x.1.now)) result (fields_at kinds.Call bytes.now) }
{
    let (number, rest) = u64_of(bytes)?;
    let (object, rest) = id_of(rest)?;
    let (method, rest) = u32_of(rest)?;
    let (fuel, rest) = u64_of(rest)?;
    let (arguments, rest) = arguments_of(alloc, rest)?;
    let call = Message::Call {
        number,
        object,
        method,
        fuel,
        arguments,
    };
    Ok((call, rest))
}

#[tactic(auto, unfolding(crate::specs::Reading::fields_at))]
fn returned_of(alloc: Global, bytes: &[u8]) -> Result<(Message, &[u8]), WireError>
    ensures { Gives (λ x. (x.0, x.1.now)) result (fields_at kinds.Returned bytes.now) }
{
    let (number, rest) = u64_of(bytes)?;
    let (fuel, rest) = u64_of(rest)?;
    let (value, rest) = result_of(alloc, rest)?;
    let returned = Message::Returned {
        number,
        fuel,
        value,
    };
    Ok((returned, rest))
}

#[tactic(auto, unfolding(crate::specs::Reading::fields_at))]
fn threw_of(bytes: &[u8]) -> Result<(Message, &[u8]), WireError>
    ensures { Gives (λ x. (x.0, x.1.now)) result (fields_at kinds.Threw bytes.now) }
{
    let (number, rest) = u64_of(bytes)?;
    let (class, rest) = class_of(rest)?;
    Ok((Message::Threw { number, class }, rest))
}

#[tactic(auto, unfolding(crate::specs::Reading::fields_at))]
fn spent_of(bytes: &[u8]) -> Result<(Message, &[u8]), WireError>
    ensures { Gives (λ x. (x.0, x.1.now)) result (fields_at kinds.Spent bytes.now) }
{
    let (number, rest) = u64_of(bytes)?;
    Ok((Message::Spent { number }, rest))
}

#[tactic(auto, unfolding(crate::specs::Reading::fields_at))]
fn ack_of(bytes: &[u8]) -> Result<(Message, &[u8]), WireError>
    ensures { Gives (λ x. (x.0, x.1.now)) result (fields_at kinds.Ack bytes.now) }
{
    let (number, rest) = u64_of(bytes)?;
    Ok((Message::Ack { number }, rest))
}

#[tactic(auto, unfolding(crate::specs::Reading::fields_at))]
fn dirty_of(alloc: Global, bytes: &[u8]) -> Result<(Message, &[u8]), WireError>
    ensures { Gives (λ x. (x.0, x.1.now)) result (fields_at kinds.Dirty bytes.now) }
{
    let (sequence, rest) = u64_of(bytes)?;
    let (period, rest) = u64_of(rest)?;
    let (objects, rest) = objects_of(alloc, rest)?;
    let dirty = Message::Dirty {
        sequence,
        period,
        objects,
    };
    Ok((dirty, rest))
}

#[tactic(auto, unfolding(crate::specs::Reading::fields_at))]
fn lease_of(bytes: &[u8]) -> Result<(Message, &[u8]), WireError>
    ensures { Gives (λ x. (x.0, x.1.now)) result (fields_at kinds.Lease bytes.now) }
{
    let (sequence, rest) = u64_of(bytes)?;
    let (period, rest) = u64_of(rest)?;
    Ok((Message::Lease { sequence, period }, rest))
}

#[tactic(auto, unfolding(crate::specs::Reading::fields_at))]
fn clean_of(alloc: Global, bytes: &[u8]) -> Result<(Message, &[u8]), WireError>
    ensures { Gives (λ x. (x.0, x.1.now)) result (fields_at kinds.Clean bytes.now) }
{
    let (sequence, rest) = u64_of(bytes)?;
    let (strong, rest) = flag_of(rest)?;
    let (objects, rest) = objects_of(alloc, rest)?;
    let clean = Message::Clean {
        sequence,
        strong,
        objects,
    };
    Ok((clean, rest))
}

#[tactic(auto, unfolding(crate::specs::Reading::fields_at))]
fn cleaned_of(bytes: &[u8]) -> Result<(Message, &[u8]), WireError>
    ensures { Gives (λ x. (x.0, x.1.now)) result (fields_at kinds.Cleaned bytes.now) }
{
    let (sequence, rest) = u64_of(bytes)?;
    Ok((Message::Cleaned { sequence }, rest))
}

#[tactic(auto, unfolding(crate::specs::Reading::fields_at))]
fn lookup_of(alloc: Global, bytes: &[u8]) -> Result<(Message, &[u8]), WireError>
    ensures { Gives (λ x. (x.0, x.1.now)) result (fields_at kinds.Lookup bytes.now) }
{
    let (number, rest) = u64_of(bytes)?;
    let (name, rest) = name_of(alloc, rest)?;
    Ok((Message::Lookup { number, name }, rest))
}

fn fields_of(alloc: Global, kind: FrameKind, bytes: &[u8]) -> Result<(Message, &[u8]), WireError>
    ensures { Gives (λ x. (x.0, x.1.now)) result (fields_at kind bytes.now) }
{
    match kind {
        FrameKind::Hello => hello_of(bytes),
        FrameKind::Call => call_of(alloc, bytes),
        FrameKind::Returned => returned_of(alloc, bytes),
        FrameKind::Threw => threw_of(bytes),
        FrameKind::Spent => spent_of(bytes),
        FrameKind::Ack => ack_of(bytes),
        FrameKind::Dirty => dirty_of(alloc, bytes),
        FrameKind::Lease => lease_of(bytes),
        FrameKind::Clean => clean_of(alloc, bytes),
        FrameKind::Cleaned => cleaned_of(bytes),
        FrameKind::Lookup => lookup_of(alloc, bytes),
    }
}

#[tactic(auto, unfolding(crate::specs::Reading::message_at))]
fn message_of(alloc: Global, bytes: &[u8]) -> Result<(Message, &[u8]), WireError>
    ensures { Gives (λ x. (x.0, x.1.now)) result (message_at bytes.now) }
{
    let (kind, rest) = kind_of(bytes)?;
    fields_of(alloc, kind, rest)
}

// What all of a body says.
#[tactic(auto, unfolding(crate::specs::Reading::whole_at))]
pub(crate) fn whole_of(alloc: Global, bytes: &[u8]) -> Result<Message, WireError>
    ensures { Gives (λ message. message) result (whole_at bytes.now) }
{
    let (message, rest) = message_of(alloc, bytes)?;
    if !rest.is_empty() {
        return Err(WireError::Fault(WireFault::Trailing));
    }
    Ok(message)
}
