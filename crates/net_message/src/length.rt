//! How many bytes a frame's body has.

ghost use Rattle.std.specs.Prelude.{◌≡◌, ◌*◌, ◌≤◌, length, IfSome};
ghost use Rattle.std.specs.List.{AllByRecursion};
ghost use Rattle.net_message.specs.Sizes.{value_size, values_size, result_size, body_size};
ghost use Rattle.net_message.specs.Wire.{IsValue, IsInRange};

use crate::message::Message;
use space_ids::Value;

#[tactic(auto, unfolding(crate::specs::Sizes::value_size, crate::specs::Wire::IsValue))]
fn value_len(value: &Value) -> usize
    requires { IsValue value.now }
    ensures len { result ≡ value_size value.now }
    ensures bound { result ≤ 32005 }
{
    match value {
        Value::Null => 1,
        Value::Int(_) => 5,
        Value::Ints(ints) => 5 + 4 * ints.as_slice().len(),
        Value::Ref(_) => 27,
    }
}

fn values_len(values: &[Value]) -> usize
    requires fits { AllByRecursion IsValue values.now }
    requires few { length values.now ≤ 255 }
    ensures len { result ≡ values_size values.now }
    ensures bound { result ≤ 32005 * 255 }
{
    let mut len = 0;
    for value in values {
        len += value_len(value);
    }
    len
}

#[tactic(auto, unfolding(crate::specs::Sizes::result_size))]
fn result_len(outcome: &Option<Value>) -> usize
    requires { IfSome outcome.now IsValue }
    ensures len { result ≡ result_size outcome.now }
    ensures bound { result ≤ 32006 }
{
    match outcome {
        None => 1,
        Some(value) => 1 + value_len(value),
    }
}

#[tactic(auto, unfolding(crate::specs::Sizes::body_size, crate::specs::Wire::IsInRange))]
pub(crate) fn body_len(message: &Message) -> usize
    requires { IsInRange message.now }
    ensures { result ≡ body_size message.now }
{
    match message {
        Message::Hello { .. } => 50,
        Message::Call { arguments, .. } => 30 + values_len(arguments.as_slice()),
        Message::Returned { value, .. } => 17 + result_len(value),
        Message::Threw { .. } => 11,
        Message::Spent { .. } | Message::Ack { .. } | Message::Cleaned { .. } => 9,
        Message::Dirty { objects, .. } => 19 + 8 * objects.as_slice().len(),
        Message::Lease { .. } => 17,
        Message::Clean { objects, .. } => 12 + 8 * objects.as_slice().len(),
        Message::Lookup { name, .. } => 10 + name.as_slice().len(),
    }
}
