//! The bytes inside an attribute, and the position of a fault in them.

ghost use Rattle.std.specs.Prelude.{◌≡◌, ◌-◌, ◌≤◌, IfOk, length, take};
ghost use Rattle.cf_text.specs.Reading.{Gives};
ghost use Rattle.cf_layout.specs.Layouts.{between};
ghost use Rattle.cf_layout.specs.Codes.{blamed};

use cf_pool::{ReadFault, Row, Rule};
use std::alloc::Global;

// The bytes up to an end.
pub(crate) fn up_to(bytes: &[u8], end: usize) -> &[u8]
    ensures { result.now ≡ take end bytes.now }
{
    if end < bytes.len() {
        &bytes[..end]
    } else {
        bytes
    }
}

/// Returns the bytes from `from` on that stand before `to`, up to the last of all. The only fault
/// is out of memory.
pub fn between(alloc: Global, bytes: &[u8], from: usize, to: usize) -> Result<Row<u8>, ReadFault>
    ensures exact { Gives (Ok (between bytes.now from to)) result }
    ensures within { IfOk result (λ part. length part ≤ to - from) }
{
    let front = up_to(bytes, to);
    let part = if from < front.len() {
        &front[from..]
    } else {
        &[]
    };
    Ok(Row::new(Vec::from_slice(alloc, part)?))
}

// A fault in a known attribute is one of its length, at its name index.
pub(crate) fn blame<T>(outcome: Result<T, ReadFault>, at: usize) -> Result<T, ReadFault>
    ensures { result ≡ blamed at outcome }
{
    match outcome {
        Ok(value) => Ok(value),
        Err(ReadFault::Broken { .. }) => Err(ReadFault::Broken {
            rule: Rule::AttributeLength,
            at,
        }),
        Err(ReadFault::Memory) => Err(ReadFault::Memory),
    }
}
