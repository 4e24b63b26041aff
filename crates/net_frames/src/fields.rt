//! Reading the fields of a frame's body, each from the front of some bytes.

ghost use Rattle.std.specs.Prelude.{◌≡◌, IfOk, FitsSigned};
ghost use Rattle.std.specs.Int.{w32};
ghost use Rattle.space_ids.specs.declared.value.Value.TheVariants as values;
ghost use Rattle.net_frames.specs.Reading.{Gives, shown, byte_at, raw_at, number_at, items_at, int_at, id_at, class_at, reference_at, ints_at, tagged_at, value_at, arguments_at, counted_result_at, result_at, objects_at, flag_at, name_at};

use byteorder::{BigEndian, ByteOrder};
use net_message::{Digest, WireError, WireFault, is_name};
use space_ids::{ClassId, ObjId, Ref, Row, Uuid, Value};
use std::alloc::Global;

pub(crate) fn byte_of(bytes: &[u8]) -> Result<(u8, &[u8]), WireError>
    ensures { Gives (λ x. (x.0, x.1.now)) result (byte_at bytes.now) }
{
    match bytes {
        [] => Err(WireError::Fault(WireFault::Body)),
        [byte, rest @ ..] => Ok((*byte, rest)),
    }
}

#[tactic(auto, unfolding(crate::specs::Reading::raw_at))]
pub(crate) fn raw_of(count: usize, bytes: &[u8]) -> Result<(&[u8], &[u8]), WireError>
    ensures { Gives (λ x. (x.0.now, x.1.now)) result (raw_at count bytes.now) }
{
    if bytes.len() < count {
        return Err(WireError::Fault(WireFault::Body));
    }
    Ok(bytes.split_at(count))
}

#[tactic(auto, unfolding(crate::specs::Reading::number_at))]
pub(crate) fn u64_of(bytes: &[u8]) -> Result<(u64, &[u8]), WireError>
    ensures { Gives (λ x. (x.0, x.1.now)) result (number_at 8 bytes.now) }
{
    if bytes.len() < 8 {
        return Err(WireError::Fault(WireFault::Body));
    }
    Ok((BigEndian::read_u64(bytes), &bytes[8..]))
}

#[tactic(auto, unfolding(crate::specs::Reading::number_at))]
pub(crate) fn u32_of(bytes: &[u8]) -> Result<(u32, &[u8]), WireError>
    ensures { Gives (λ x. (x.0, x.1.now)) result (number_at 4 bytes.now) }
{
    if bytes.len() < 4 {
        return Err(WireError::Fault(WireFault::Body));
    }
    Ok((BigEndian::read_u32(bytes), &bytes[4..]))
}

#[tactic(auto, unfolding(crate::specs::Reading::number_at))]
fn u16_of(bytes: &[u8]) -> Result<(u16, &[u8]), WireError>
    ensures { Gives (λ x. (x.0, x.1.now)) result (number_at 2 bytes.now) }
{
    if bytes.len() < 2 {
        return Err(WireError::Fault(WireFault::Body));
    }
    Ok((BigEndian::read_u16(bytes), &bytes[2..]))
}

#[tactic(auto, unfolding(crate::specs::Reading::number_at))]
fn u8_of(bytes: &[u8]) -> Result<(u8, &[u8]), WireError>
    ensures { Gives (λ x. (x.0, x.1.now)) result (number_at 1 bytes.now) }
{
    match bytes {
        [] => Err(WireError::Fault(WireFault::Body)),
        [byte, rest @ ..] => Ok((*byte, rest)),
    }
}

#[tactic(auto, unfolding(crate::specs::Reading::int_at))]
fn int_of(bytes: &[u8]) -> Result<(i32, &[u8]), WireError>
    ensures read { Gives (λ x. (x.0, x.1.now)) result (int_at bytes.now) }
    ensures range { IfOk result (λ x. FitsSigned w32 x.0) }
{
    let (number, rest) = u32_of(bytes)?;
    Ok((number.cast_signed(), rest))
}

#[tactic(auto, unfolding(crate::specs::Reading::id_at))]
pub(crate) fn id_of(bytes: &[u8]) -> Result<(ObjId, &[u8]), WireError>
    ensures { Gives (λ x. (x.0, x.1.now)) result (id_at bytes.now) }
{
    let (number, rest) = u64_of(bytes)?;
    Ok((ObjId(number), rest))
}

#[tactic(auto, unfolding(crate::specs::Reading::class_at))]
pub(crate) fn class_of(bytes: &[u8]) -> Result<(ClassId, &[u8]), WireError>
    ensures { Gives (λ x. (x.0, x.1.now)) result (class_at bytes.now) }
{
    let (number, rest) = u16_of(bytes)?;
    Ok((ClassId(number), rest))
}

// The bytes of a space's id.
#[tactic(auto, unfolding(crate::specs::Reading::raw_at))]
pub(crate) fn space_of(bytes: &[u8]) -> Result<([u8; 16], &[u8]), WireError>
    ensures { Gives (λ x. (x.0, x.1.now)) result (raw_at 16 bytes.now) }
{
    if bytes.len() < 16 {
        return Err(WireError::Fault(WireFault::Body));
    }
    let (front, rest) = bytes.split_at(16);
    let mut space = [0; 16];
    space.copy_from_slice(front);
    Ok((space, rest))
}

// A SHA-256 digest.
#[tactic(auto, unfolding(crate::specs::Reading::raw_at))]
pub(crate) fn digest_of(bytes: &[u8]) -> Result<(Digest, &[u8]), WireError>
    ensures { Gives (λ x. (x.0, x.1.now)) result (raw_at 32 bytes.now) }
{
    if bytes.len() < 32 {
        return Err(WireError::Fault(WireFault::Body));
    }
    let (front, rest) = bytes.split_at(32);
    let mut digest = [0; 32];
    digest.copy_from_slice(front);
    Ok((digest, rest))
}

// A reference, as a value.
#[tactic(auto, unfolding(crate::specs::Reading::reference_at))]
fn reference_value_of(bytes: &[u8]) -> Result<(Value, &[u8]), WireError>
    ensures { Gives (λ x. (x.0, x.1.now)) result (shown values.Ref reference_at bytes.now) }
{
    let (space, rest) = space_of(bytes)?;
    let (id, rest) = id_of(rest)?;
    let (class, rest) = class_of(rest)?;
    let space = Uuid::from_bytes(space);
    Ok((Value::Ref(Ref { space, id, class }), rest))
}

#[tactic(auto, unfolding(crate::specs::Reading::ints_at))]
fn ints_of(alloc: Global, bytes: &[u8]) -> Result<(Row<i32>, &[u8]), WireError>
    ensures { Gives (λ x. (x.0, x.1.now)) result (ints_at bytes.now) }
{
    let (count, rest) = u32_of(bytes)?;
    if count > 8000 {
        return Err(WireError::Fault(WireFault::Body));
    }
    let (ints, rest) = counted_ints(alloc, count, rest)?;
    Ok((Row::new(ints), rest))
}

fn counted_ints(alloc: Global, count: u32, bytes: &[u8]) -> Result<(Vec<i32>, &[u8]), WireError>
    ensures { Gives (λ x. (x.0.items, x.1.now)) result (items_at int_at count bytes.now) }
{
    let count = count as usize;
    if bytes.len() / 4 < count {
        return Err(WireError::Fault(WireFault::Body));
    }
    let (front, rest) = bytes.split_at(4 * count);
    let mut ints = Vec::new(alloc);
    ints.resize(count, 0)?;
    BigEndian::read_i32_into(front, ints.as_mut_slice());
    Ok((ints, rest))
}

#[tactic(auto, unfolding(crate::specs::Reading::value_at))]
fn value_of(alloc: Global, bytes: &[u8]) -> Result<(Value, &[u8]), WireError>
    ensures { Gives (λ x. (x.0, x.1.now)) result (value_at bytes.now) }
{
    let (tag, rest) = byte_of(bytes)?;
    match tag {
        0 => Ok((Value::Null, rest)),
        1 => {
            let (int, rest) = int_of(rest)?;
            Ok((Value::Int(int), rest))
        }
        2 => {
            let (ints, rest) = ints_of(alloc, rest)?;
            Ok((Value::Ints(ints), rest))
        }
        3 => reference_value_of(rest),
        _ => Err(WireError::Fault(WireFault::Body)),
    }
}

fn counted_values(alloc: Global, count: u8, bytes: &[u8]) -> Result<(Vec<Value>, &[u8]), WireError>
    ensures { Gives (λ x. (x.0.items, x.1.now)) result (items_at value_at count bytes.now) }
{
    let mut values = Vec::new(alloc);
    let mut rest = bytes;
    for _ in 0..count {
        let (value, after) = value_of(alloc, rest)?;
        values.push(value)?;
        rest = after;
    }
    Ok((values, rest))
}

#[tactic(auto, unfolding(crate::specs::Reading::arguments_at))]
pub(crate) fn arguments_of(alloc: Global, bytes: &[u8]) -> Result<(Row<Value>, &[u8]), WireError>
    ensures { Gives (λ x. (x.0, x.1.now)) result (arguments_at bytes.now) }
{
    let (count, rest) = u8_of(bytes)?;
    let (values, rest) = counted_values(alloc, count, rest)?;
    Ok((Row::new(values), rest))
}

#[tactic(auto, unfolding(crate::specs::Reading::result_at))]
pub(crate) fn result_of(alloc: Global, bytes: &[u8]) -> Result<(Option<Value>, &[u8]), WireError>
    ensures { Gives (λ x. (x.0, x.1.now)) result (result_at bytes.now) }
{
    let (count, rest) = byte_of(bytes)?;
    match count {
        0 => Ok((None, rest)),
        1 => {
            let (value, rest) = value_of(alloc, rest)?;
            Ok((Some(value), rest))
        }
        _ => Err(WireError::Fault(WireFault::Body)),
    }
}

fn counted_ids(alloc: Global, count: u16, bytes: &[u8]) -> Result<(Vec<ObjId>, &[u8]), WireError>
    ensures { Gives (λ x. (x.0.items, x.1.now)) result (items_at id_at count bytes.now) }
{
    let mut ids = Vec::new(alloc);
    let mut rest = bytes;
    for _ in 0..count {
        let (id, after) = id_of(rest)?;
        ids.push(id)?;
        rest = after;
    }
    Ok((ids, rest))
}

#[tactic(auto, unfolding(crate::specs::Reading::objects_at))]
pub(crate) fn objects_of(alloc: Global, bytes: &[u8]) -> Result<(Row<ObjId>, &[u8]), WireError>
    ensures { Gives (λ x. (x.0, x.1.now)) result (objects_at bytes.now) }
{
    let (count, rest) = u16_of(bytes)?;
    if count < 1 || count > 4096 {
        return Err(WireError::Fault(WireFault::Body));
    }
    let (ids, rest) = counted_ids(alloc, count, rest)?;
    Ok((Row::new(ids), rest))
}

#[tactic(auto, unfolding(crate::specs::Reading::flag_at))]
pub(crate) fn flag_of(bytes: &[u8]) -> Result<(bool, &[u8]), WireError>
    ensures { Gives (λ x. (x.0, x.1.now)) result (flag_at bytes.now) }
{
    let (flag, rest) = byte_of(bytes)?;
    if flag > 1 {
        return Err(WireError::Fault(WireFault::Body));
    }
    Ok((flag == 1, rest))
}

#[tactic(auto, unfolding(crate::specs::Reading::name_at))]
pub(crate) fn name_of(alloc: Global, bytes: &[u8]) -> Result<(Row<u8>, &[u8]), WireError>
    ensures { Gives (λ x. (x.0, x.1.now)) result (name_at bytes.now) }
{
    let (count, rest) = byte_of(bytes)?;
    let (name, rest) = raw_of(count as usize, rest)?;
    if !is_name(name) {
        return Err(WireError::Fault(WireFault::Body));
    }
    Ok((Row::new(Vec::from_slice(alloc, name)?), rest))
}
