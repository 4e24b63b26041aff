//! A sink into memory, all of whose bytes are known: for tests, and for contracts on what a device
//! takes.

ghost use Rattle.std.specs.Prelude.{◌≡◌, ◌<◌, [], IfOk};

use super::{Calls, Failed, Sink};
use std::alloc::{AllocError, Global};
use std::marker::Model;

/// A sink into memory, with room that is reserved as it is made. A call takes `step` bytes, or the
/// fewer that are left or fit. One that fits none of some bytes fails.
#[derive(Drop)]
pub struct MemSink {
    bytes: Vec<u8>,
    room: usize,
    step: usize,
    calls: Calls,
}

impl Model for MemSink {
    ghost use Rattle.std.specs.Prelude.{◌<◌, ◌≤◌, vec_len, vec_capacity};
    ghost use Rattle.dev_io.specs.Devices.{Store};

    ghost Value = { Store };

    ghost view = { λ s. record { bytes = s.bytes.items; room = s.room; step = s.step; calls = s.calls } };

    ghost invariant = { λ s. (vec_len s.bytes ≤ s.room) × (s.room ≤ vec_capacity s.bytes)
        × (0 < s.step) };
}

impl MemSink {
    ghost use Rattle.dev_io.specs.declared.calls.Calls.TheVariants.{Unlimited};
    ghost use Rattle.dev_io.specs.Calls.{failing_at};

    /// Returns an empty sink that holds at most `room` bytes, and takes at most `step` a call. No
    /// call fails before it is full.
    pub fn new(alloc: Global, room: usize, step: usize) -> Result<MemSink, AllocError>
        requires { 0 < step }
        ensures { IfOk result (λ sink. sink ≡ record
            { bytes = []; room = room; step = step; calls = Unlimited }) }
    {
        Ok(MemSink {
            bytes: Vec::with_capacity(alloc, room)?,
            room,
            step,
            calls: Calls::Unlimited,
        })
    }

    /// Returns the same sink, whose `call`-th call from here on fails, counted from 1. A sink that
    /// has failed stays failed.
    pub fn failing_at(self, call: u64) -> MemSink
        requires { 0 < call }
        ensures { result ≡ record self { calls = failing_at call self.calls } }
    {
        MemSink {
            calls: self.calls.failing_at(call),
            ..self
        }
    }

    /// Returns the bytes that the sink has taken.
    pub fn bytes(&self) -> &[u8]
        ensures { result.now ≡ self.now.bytes }
    {
        &self.bytes
    }
}

impl Sink for MemSink {
    ghost use Rattle.std.specs.Prelude.{◌≡◌, ◌-◌, ◌<◌, ◌≤◌, Some, length, min, take, drop, IsTrue, IsErr, IfOk, OnOk, OnErr, ◌↔◌, ◌⊎◌};
    ghost use Rattle.std.specs.Io.KnownBytes.{WriteAppends};
    ghost use Rattle.dev_io.specs.Calls.{after_call, is_failed};

    ghost contents = { λ s. Some s.bytes };

    ghost has_failed = { λ s. is_failed s.calls };

    fn write(&mut self, bytes: &[u8]) -> Result<usize, Failed>
        ensures within { IfOk result (λ count. count ≤ length bytes.now) }
        ensures some { IfOk result (λ count. 0 < length bytes.now → 0 < count) }
        ensures bytes { WriteAppends (Some self.old.bytes) (Some self.new.bytes) result bytes.now }
        ensures failed { IsErr result ↔ IsTrue (is_failed self.new.calls) }
        ensures for_good { IsTrue (is_failed self.old.calls) → IsErr result }

        // How many bytes a call takes, and what it leaves.
        ensures count { IfOk result (λ count. count
            ≡ min self.old.step (min (self.old.room - length self.old.bytes) (length bytes.now))) }
        ensures step { self.new.step ≡ self.old.step }
        ensures room { self.new.room ≡ self.old.room }
        ensures calls { OnOk result (self.new.calls ≡ after_call self.old.calls) }
        // A call fails because it has to fail, or because a byte comes and none fits.
        ensures full { IsErr result → IsTrue (is_failed (after_call self.old.calls))
            ⊎ ((self.old.room ≡ length self.old.bytes) × (0 < length bytes.now)) }
    {
        self.calls.count()?;
        let count = self.step.min(self.room - self.bytes.len()).min(bytes.len());
        if count == 0 && !bytes.is_empty() {
            self.calls = Calls::Failed;
            return Err(Failed);
        }
        match self.bytes.extend_from_slice(&bytes[..count]) {
            Ok(()) => Ok(count),
            Err(_) => unreachable!(),
        }
    }

    fn failed(&self) -> bool {
        self.calls.have_failed()
    }
}
