//! Whether values, operations and replies are the same.

ghost use Rattle.std.specs.Prelude.{◌≡◌, map};
ghost use Rattle.std.specs.Cmp.Lexicographic.{pointwise};
ghost use Rattle.sp_rules.specs.References.{is_same_value};
ghost use Rattle.sp_rules.specs.Refusals.{is_same_op};
ghost use Rattle.sp_tasks.specs.Behaviours.{op_of, reply_of};
ghost use Rattle.sp_tasks.specs.Records.{given_of};
ghost use Rattle.sp_tasks.specs.Same.{is_given, is_reply, is_result};

use crate::record::Given;
use crate::{Op, Reply};
use space_ids::Value;

fn same_value(value: &Value, other: &Value) -> bool
    ensures { result ≡ is_same_value value.now other.now }
{
    match (value, other) {
        (Value::Null, Value::Null) => true,
        (Value::Int(number), Value::Int(another)) => number == another,
        (Value::Ints(elements), Value::Ints(others)) => elements.as_slice() == others.as_slice(),
        (Value::Ref(reference), Value::Ref(another)) => {
            reference.space == another.space
                && (reference.id == another.id && reference.class == another.class)
        }
        _ => false,
    }
}

// Whether both are the same operation on the store.
pub(crate) fn same_op(op: &Op, other: &Op) -> bool
    ensures { result ≡ is_same_op (op_of op.now) (op_of other.now) }
{
    match (op, other) {
        (Op::Create(class), Op::Create(another)) => class == another,
        (
            Op::Get { object, slot },
            Op::Get {
                object: another,
                slot: place,
            },
        ) => object == another && slot == place,
        (
            Op::Put {
                object,
                slot,
                value,
            },
            Op::Put {
                object: another,
                slot: place,
                value: written,
            },
        ) => object == another && (slot == place && same_value(value, written)),
        _ => false,
    }
}

fn same_result(value: &Option<Value>, other: &Option<Value>) -> bool
    ensures { result ≡ is_result value.now other.now }
{
    match (value, other) {
        (None, None) => true,
        (Some(value), Some(other)) => same_value(value, other),
        _ => false,
    }
}

fn same_reply(reply: &Reply, other: &Reply) -> bool
    ensures { result ≡ is_reply (reply_of reply.now) (reply_of other.now) }
{
    match (reply, other) {
        (Reply::Gives(value), Reply::Gives(another)) => same_result(value, another),
        (
            Reply::GivesBack { value, fuel },
            Reply::GivesBack {
                value: another,
                fuel: left,
            },
        ) => same_result(value, another) && fuel == left,
        (Reply::Throws(class), Reply::Throws(another)) => class == another,
        (Reply::RunsOut, Reply::RunsOut) => true,
        _ => false,
    }
}

fn same_given(given: &Given, other: &Given) -> bool
    ensures { result ≡ is_given (given_of given.now) (given_of other.now) }
{
    given.steps == other.steps
        && (given.lent == other.lent && same_reply(&given.reply, &other.reply))
}

// Whether the values are the same, one by one.
pub(crate) fn same_values(values: &[Value], others: &[Value]) -> bool
    ensures { result ≡ pointwise is_same_value values.now others.now }
{
    if values.len() != others.len() {
        return false;
    }
    for index in 0..values.len() {
        if !same_value(&values[index], &others[index]) {
            return false;
        }
    }
    true
}

// Whether the replies are the same, one by one.
pub(crate) fn same_givens(givens: &[Given], others: &[Given]) -> bool
    ensures { result ≡ pointwise is_given (map given_of givens.now) (map given_of others.now) }
{
    if givens.len() != others.len() {
        return false;
    }
    for index in 0..givens.len() {
        if !same_given(&givens[index], &others[index]) {
            return false;
        }
    }
    true
}
