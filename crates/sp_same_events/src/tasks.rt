//! What tasks ask, and what they are given.

ghost use Rattle.std.specs.Prelude.{◌≡◌, true};

use crate::values::{same_reference, same_result, same_value, same_values};
use sp_tasks::{Op, Reply};

/// Whether two operations are the same.
pub fn same_op(op: &Op, other: &Op) -> bool
    ensures { result ≡ true → op.now ≡ other.now }
{
    match op {
        Op::Create(class) => match other {
            Op::Create(another) => class == another,
            _ => false,
        },
        Op::Get { object, slot } => match other {
            Op::Get { object: o, slot: s } => object == o && slot == s,
            _ => false,
        },
        Op::Put {
            object,
            slot,
            value,
        } => match other {
            Op::Put {
                object: o,
                slot: s,
                value: v,
            } => object == o && slot == s && same_value(value, v),
            _ => false,
        },
        Op::Call {
            target,
            method,
            arguments,
        } => match other {
            Op::Call {
                target: t,
                method: m,
                arguments: a,
            } => {
                same_reference(target, t)
                    && method == m
                    && same_values(arguments.as_slice(), a.as_slice())
            }
            _ => false,
        },
    }
}

/// Whether two replies are the same.
pub fn same_reply(reply: &Reply, other: &Reply) -> bool
    ensures { result ≡ true → reply.now ≡ other.now }
{
    match reply {
        Reply::Gives(value) => match other {
            Reply::Gives(another) => same_result(value, another),
            _ => false,
        },
        Reply::GivesBack { value, fuel } => match other {
            Reply::GivesBack { value: v, fuel: f } => same_result(value, v) && fuel == f,
            _ => false,
        },
        Reply::Throws(class) => match other {
            Reply::Throws(another) => class == another,
            _ => false,
        },
        Reply::RunsOut => matches!(other, Reply::RunsOut),
    }
}
