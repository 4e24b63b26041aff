//! The bytes of frames.

ghost use Rattle.std.specs.Prelude.{◌≡◌, ◌^◌, ◌≢◌, ◌+◌, ◌*◌, ◌<◌, ◌≤◌, ◌↔◌, List, [], ◌∷◌, ◌++◌, length, IfOk, IfErr, IfSome};
ghost use Rattle.std.specs.List.{flat_map, AllByRecursion};
ghost use Rattle.net_message.specs.Wire as wire;
ghost use Rattle.net_message.specs.Sizes.{value_size, values_size, result_size, body_size};
ghost use Rattle.net_message.specs.Wire.{number_bytes, int_bytes, id_bytes, class_bytes, reference_bytes, row_bytes, value_bytes, result_bytes, flag_bytes, name_bytes, body, IsReference, AreInts, IsValue, AreArguments, IsInRange};

use crate::message::Message;
use byteorder::{BigEndian, ByteOrder};
use bytes::BytesMut;
use space_ids::{ClassId, ObjId, Ref, Value};

fn put_u8(out: &mut BytesMut, byte: u8)
    requires { 1 ≤ out.old.spare }
    ensures items { out.new.items ≡ out.old.items ++ byte ∷ [] }
    ensures spare { out.new.spare + 1 ≡ out.old.spare }
{
    out.extend_reserved(&[byte]);
}

#[tactic(auto, unfolding(crate::specs::Wire::number_bytes))]
fn put_u16(out: &mut BytesMut, number: u16)
    requires { 2 ≤ out.old.spare }
    ensures items { out.new.items ≡ out.old.items ++ number_bytes 2 number }
    ensures spare { out.new.spare + 2 ≡ out.old.spare }
{
    let mut bytes = [0; 2];
    BigEndian::write_u16(&mut bytes, number);
    out.extend_reserved(&bytes);
}

#[tactic(auto, unfolding(crate::specs::Wire::number_bytes))]
fn put_u32(out: &mut BytesMut, number: u32)
    requires { 4 ≤ out.old.spare }
    ensures items { out.new.items ≡ out.old.items ++ number_bytes 4 number }
    ensures spare { out.new.spare + 4 ≡ out.old.spare }
{
    let mut bytes = [0; 4];
    BigEndian::write_u32(&mut bytes, number);
    out.extend_reserved(&bytes);
}

#[tactic(auto, unfolding(crate::specs::Wire::number_bytes))]
fn put_u64(out: &mut BytesMut, number: u64)
    requires { 8 ≤ out.old.spare }
    ensures items { out.new.items ≡ out.old.items ++ number_bytes 8 number }
    ensures spare { out.new.spare + 8 ≡ out.old.spare }
{
    let mut bytes = [0; 8];
    BigEndian::write_u64(&mut bytes, number);
    out.extend_reserved(&bytes);
}

#[tactic(auto, unfolding(crate::specs::Wire::int_bytes))]
fn put_int(out: &mut BytesMut, int: i32)
    requires { 4 ≤ out.old.spare }
    ensures items { out.new.items ≡ out.old.items ++ int_bytes int }
    ensures spare { out.new.spare + 4 ≡ out.old.spare }
{
    put_u32(out, int.cast_unsigned());
}

#[tactic(auto, unfolding(crate::specs::Wire::id_bytes))]
fn put_id(out: &mut BytesMut, id: ObjId)
    requires { 8 ≤ out.old.spare }
    ensures items { out.new.items ≡ out.old.items ++ id_bytes id }
    ensures spare { out.new.spare + 8 ≡ out.old.spare }
{
    put_u64(out, id.0);
}

#[tactic(auto, unfolding(crate::specs::Wire::class_bytes))]
fn put_class(out: &mut BytesMut, class: ClassId)
    requires { 2 ≤ out.old.spare }
    ensures items { out.new.items ≡ out.old.items ++ class_bytes class }
    ensures spare { out.new.spare + 2 ≡ out.old.spare }
{
    put_u16(out, class.0);
}

#[tactic(auto, unfolding(crate::specs::Wire::reference_bytes))]
fn put_reference(out: &mut BytesMut, reference: &Ref)
    requires fits { IsReference reference.now }
    requires room { 26 ≤ out.old.spare }
    ensures items { out.new.items ≡ out.old.items ++ reference_bytes reference.now }
    ensures spare { out.new.spare + 26 ≡ out.old.spare }
{
    out.extend_reserved(reference.space.as_bytes());
    put_id(out, reference.id);
    put_class(out, reference.class);
}

fn put_each_int(out: &mut BytesMut, ints: &[i32])
    requires { 4 * length ints.now ≤ out.old.spare }
    ensures items { out.new.items ≡ out.old.items ++ flat_map int_bytes ints.now }
    ensures spare { out.new.spare + 4 * length ints.now ≡ out.old.spare }
{
    let start = out.len();
    out.advance_mut(4 * ints.len());
    BigEndian::write_i32_into(ints, &mut out.as_mut_slice()[start..]);
}

fn put_ints(out: &mut BytesMut, ints: &[i32])
    requires short { length ints.now < 2 ^ 32 }
    requires room { 4 + 4 * length ints.now ≤ out.old.spare }
    ensures items { out.new.items ≡ out.old.items ++ row_bytes 4 int_bytes ints.now }
    ensures spare { out.new.spare + (4 + 4 * length ints.now) ≡ out.old.spare }
{
    put_u32(out, ints.len() as u32);
    put_each_int(out, ints);
}

#[tactic(auto, unfolding(crate::specs::Wire::value_bytes, crate::specs::Wire::IsValue, crate::specs::Sizes::value_size))]
fn put_value(out: &mut BytesMut, value: &Value)
    requires fits { IsValue value.now }
    requires room { value_size value.now ≤ out.old.spare }
    ensures items { out.new.items ≡ out.old.items ++ value_bytes value.now }
    ensures spare { out.new.spare + value_size value.now ≡ out.old.spare }
{
    match value {
        Value::Null => put_u8(out, 0),
        Value::Int(int) => {
            put_u8(out, 1);
            put_int(out, *int);
        }
        Value::Ints(ints) => {
            put_u8(out, 2);
            put_ints(out, ints.as_slice());
        }
        Value::Ref(reference) => {
            put_u8(out, 3);
            put_reference(out, reference);
        }
    }
}

fn put_each_value(out: &mut BytesMut, values: &[Value])
    requires fits { AllByRecursion IsValue values.now }
    requires room { values_size values.now ≤ out.old.spare }
    ensures items { out.new.items ≡ out.old.items ++ flat_map value_bytes values.now }
    ensures spare { out.new.spare + values_size values.now ≡ out.old.spare }
{
    for value in values {
        put_value(out, value);
    }
}

fn put_arguments(out: &mut BytesMut, values: &[Value])
    requires fits { AreArguments values.now }
    requires room { 1 + values_size values.now ≤ out.old.spare }
    ensures items { out.new.items ≡ out.old.items ++ row_bytes 1 value_bytes values.now }
    ensures spare { out.new.spare + (1 + values_size values.now) ≡ out.old.spare }
{
    put_count(out, values.len() as u8);
    put_each_value(out, values);
}

#[tactic(auto, unfolding(crate::specs::Wire::number_bytes))]
fn put_count(out: &mut BytesMut, count: u8)
    requires { 1 ≤ out.old.spare }
    ensures items { out.new.items ≡ out.old.items ++ number_bytes 1 count }
    ensures spare { out.new.spare + 1 ≡ out.old.spare }
{
    put_u8(out, count);
}

#[tactic(auto, unfolding(crate::specs::Wire::result_bytes, crate::specs::Sizes::result_size))]
fn put_result(out: &mut BytesMut, outcome: &Option<Value>)
    requires fits { IfSome outcome.now IsValue }
    requires room { result_size outcome.now ≤ out.old.spare }
    ensures items { out.new.items ≡ out.old.items ++ result_bytes outcome.now }
    ensures spare { out.new.spare + result_size outcome.now ≡ out.old.spare }
{
    match outcome {
        None => put_count(out, 0),
        Some(value) => {
            put_count(out, 1);
            put_value(out, value);
        }
    }
}

fn put_each_id(out: &mut BytesMut, ids: &[ObjId])
    requires { 8 * length ids.now ≤ out.old.spare }
    ensures items { out.new.items ≡ out.old.items ++ flat_map id_bytes ids.now }
    ensures spare { out.new.spare + 8 * length ids.now ≡ out.old.spare }
{
    for id in ids {
        put_id(out, *id);
    }
}

fn put_objects(out: &mut BytesMut, objects: &[ObjId])
    requires short { length objects.now ≤ 4096 }
    requires room { 2 + 8 * length objects.now ≤ out.old.spare }
    ensures items { out.new.items ≡ out.old.items ++ row_bytes 2 id_bytes objects.now }
    ensures spare { out.new.spare + (2 + 8 * length objects.now) ≡ out.old.spare }
{
    put_u16(out, objects.len() as u16);
    put_each_id(out, objects);
}

#[tactic(auto, unfolding(crate::specs::Wire::flag_bytes))]
fn put_flag(out: &mut BytesMut, flag: bool)
    requires { 1 ≤ out.old.spare }
    ensures items { out.new.items ≡ out.old.items ++ flag_bytes flag }
    ensures spare { out.new.spare + 1 ≡ out.old.spare }
{
    if flag {
        put_u8(out, 1);
    } else {
        put_u8(out, 0);
    }
}

#[tactic(auto, unfolding(crate::specs::Wire::name_bytes))]
fn put_name(out: &mut BytesMut, name: &[u8])
    requires short { length name.now ≤ 255 }
    requires room { 1 + length name.now ≤ out.old.spare }
    ensures items { out.new.items ≡ out.old.items ++ name_bytes name.now }
    ensures spare { out.new.spare + (1 + length name.now) ≡ out.old.spare }
{
    put_u8(out, name.len() as u8);
    out.extend_reserved(name);
}

/// Appends the body that says the message.
#[tactic(auto, unfolding(crate::specs::Wire::body, crate::specs::Wire::IsInRange, crate::specs::Sizes::body_size))]
pub(crate) fn put_body(out: &mut BytesMut, message: &Message)
    requires fits { IsInRange message.now }
    requires room { body_size message.now ≤ out.old.spare }
    ensures items { out.new.items ≡ out.old.items ++ body message.now }
    ensures spare { out.new.spare + body_size message.now ≡ out.old.spare }
{
    match message {
        Message::Hello {
            version,
            space,
            digest,
        } => {
            put_u8(out, 1);
            put_u8(out, *version);
            out.extend_reserved(space.as_bytes());
            out.extend_reserved(digest);
        }
        Message::Call {
            number,
            object,
            method,
            fuel,
            arguments,
        } => {
            put_u8(out, 2);
            put_u64(out, *number);
            put_id(out, *object);
            put_u32(out, *method);
            put_u64(out, *fuel);
            put_arguments(out, arguments.as_slice());
        }
        Message::Returned {
            number,
            fuel,
            value,
        } => {
            put_u8(out, 3);
            put_u64(out, *number);
            put_u64(out, *fuel);
            put_result(out, value);
        }
        Message::Threw { number, class } => {
            put_u8(out, 4);
            put_u64(out, *number);
            put_class(out, *class);
        }
        Message::Spent { number } => {
            put_u8(out, 5);
            put_u64(out, *number);
        }
        Message::Ack { number } => {
            put_u8(out, 6);
            put_u64(out, *number);
        }
        Message::Dirty {
            sequence,
            period,
            objects,
        } => {
            put_u8(out, 7);
            put_u64(out, *sequence);
            put_u64(out, *period);
            put_objects(out, objects.as_slice());
        }
        Message::Lease { sequence, period } => {
            put_u8(out, 8);
            put_u64(out, *sequence);
            put_u64(out, *period);
        }
        Message::Clean {
            sequence,
            strong,
            objects,
        } => {
            put_u8(out, 9);
            put_u64(out, *sequence);
            put_flag(out, *strong);
            put_objects(out, objects.as_slice());
        }
        Message::Cleaned { sequence } => {
            put_u8(out, 10);
            put_u64(out, *sequence);
        }
        Message::Lookup { number, name } => {
            put_u8(out, 11);
            put_u64(out, *number);
            put_name(out, name.as_slice());
        }
    }
}

/// Appends the frame that says the message. Its body has `len` bytes.
pub(crate) fn put_frame(out: &mut BytesMut, len: u32, message: &Message)
    requires fits { IsInRange message.now }
    requires len { len ≡ length (body message.now) }
    requires room { 4 + length (body message.now) ≤ out.old.spare }
    ensures items { out.new.items ≡ out.old.items ++ wire.frame message.now }
    ensures spare { out.new.spare + (4 + length (body message.now)) ≡ out.old.spare }
{
    put_u32(out, len);
    put_body(out, message);
}
