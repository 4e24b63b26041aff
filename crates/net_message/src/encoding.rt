//! The bytes of a frame.

ghost use Rattle.std.specs.Prelude.{◌≡◌, ◌≢◌, ◌+◌, ◌<◌, ◌≤◌, ◌↔◌, ◌++◌, length, IfOk, IfErr};
ghost use Rattle.net_message.specs.Wire as wire;
ghost use Rattle.net_message.specs.Wire.{body, IsInRange, IsWire};
ghost use Rattle.net_message.specs.declared.fault.WireError.TheVariants as errors;
ghost use Rattle.net_message.specs.declared.fault.WireFault.TheVariants as faults;

use crate::fault::{WireError, WireFault};
use crate::frame::Frame;
use crate::writing::put_frame;
use bytes::BytesMut;
use std::alloc::Global;

/// The most bytes that a frame's body may have.
pub const MAX_BODY: usize = 65_536;

impl Frame {
    /// Appends the frame's bytes. The caller owes that room for them is reserved. It takes no
    /// memory.
    pub fn append_to(&self, out: &mut BytesMut)
        requires short { length (body self.now) ≤ MAX_BODY }
        requires room { 4 + length (body self.now) ≤ out.old.spare }
        ensures in_range { IsInRange self.now }
        ensures items { out.new.items ≡ out.old.items ++ wire.frame self.now }
        ensures spare { out.new.spare + (4 + length (body self.now)) ≡ out.old.spare }
        ensures capacity { length out.new.items + out.new.spare
            ≡ length out.old.items + out.old.spare }
    {
        put_frame(out, self.body_len() as u32, self.message());
    }
}

/// Returns the bytes of the frame. Fault 70 exactly if its body is over the limit.
pub fn encode(alloc: Global, frame: &Frame) -> Result<Vec<u8>, WireError>
    ensures ok { IfOk result (λ bytes. IsWire bytes.items frame.now) }
    ensures long { (result ≡ Err (errors.Fault faults.Length))
        ↔ (MAX_BODY < length (body frame.now)) }
    ensures other { IfErr result (λ error. error ≢ errors.Fault faults.Length
        → error ≡ errors.Memory) }
{
    let length = frame.body_len();
    if length > MAX_BODY {
        return Err(WireError::Fault(WireFault::Length));
    }
    let mut out = BytesMut::with_capacity(alloc, 4 + length)?;
    frame.append_to(&mut out);
    Ok(Vec::from_slice(alloc, out.as_slice())?)
}
