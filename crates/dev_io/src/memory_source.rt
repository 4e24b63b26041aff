//! A source over bytes in memory, all of which are known: for tests, and for contracts on what a
//! device gives.

ghost use Rattle.std.specs.Prelude.{◌≡◌, ◌-◌, ◌<◌, length, min, take};

use super::{Calls, Failed, Source};
use std::marker::Model;

/// A source over bytes in memory. A call gives `step` bytes, or the fewer that are left or asked.
#[derive(Drop)]
pub struct MemSource {
    bytes: Vec<u8>,
    position: usize,
    step: usize,
    calls: Calls,
}

impl Model for MemSource {
    ghost use Rattle.std.specs.Prelude.{◌<◌, ◌≤◌, drop, vec_len};
    ghost use Rattle.dev_io.specs.Devices.{Supply};

    ghost Value = { Supply };

    ghost view = { λ s. record { bytes = drop s.position s.bytes.items; step = s.step; calls = s.calls } };

    ghost invariant = { λ s. (s.position ≤ vec_len s.bytes) × (0 < s.step) };
}

impl MemSource {
    ghost use Rattle.dev_io.specs.declared.calls.Calls.TheVariants.{Unlimited};
    ghost use Rattle.dev_io.specs.Calls.{failing_at};

    /// Returns the source that gives these bytes, at most `step` a call. No call fails.
    pub fn new(bytes: Vec<u8>, step: usize) -> MemSource
        requires { 0 < step }
        ensures { result ≡ record { bytes = bytes.items; step = step; calls = Unlimited } }
    {
        MemSource {
            bytes,
            position: 0,
            step,
            calls: Calls::Unlimited,
        }
    }

    /// Returns the same source, whose `call`-th call from here on fails, counted from 1. A source
    /// that has failed stays failed.
    pub fn failing_at(self, call: u64) -> MemSource
        requires { 0 < call }
        ensures { result ≡ record self { calls = failing_at call self.calls } }
    {
        MemSource {
            calls: self.calls.failing_at(call),
            ..self
        }
    }
}

// Copies a front part, at most `most` bytes of it and no more than fit, and returns how many.
fn copy_front(from: &[u8], to: &mut [u8], most: usize) -> usize
    ensures count { result ≡ min most (min (length from.now) (length to.old)) }
    ensures bytes { take result to.new ≡ take result from.now }
{
    let count = most.min(from.len()).min(to.len());
    to[..count].copy_from_slice(&from[..count]);
    count
}

impl Source for MemSource {
    ghost use Rattle.std.specs.Prelude.{◌≡◌, ◌<◌, ◌≤◌, Some, length, min, take, drop, IsTrue, IsErr, IfOk, OnOk, OnErr, ◌↔◌};
    ghost use Rattle.std.specs.Io.KnownBytes.{ReadConsumes};
    ghost use Rattle.dev_io.specs.Calls.{after_call, is_failed};

    ghost remaining = { λ s. Some s.bytes };

    ghost has_failed = { λ s. is_failed s.calls };

    fn read(&mut self, buffer: &mut [u8]) -> Result<usize, Failed>
        ensures within { IfOk result (λ count. count ≤ length buffer.new) }
        ensures bytes { ReadConsumes (Some self.old.bytes) (Some self.new.bytes) result buffer.new }
        ensures failed { IsErr result ↔ IsTrue (is_failed self.new.calls) }
        ensures for_good { IsTrue (is_failed self.old.calls) → IsErr result }

        // How many bytes a call gives, and what it leaves.
        ensures count { IfOk result (λ count. count
            ≡ min self.old.step (min (length self.old.bytes) (length buffer.old))) }
        ensures step { self.new.step ≡ self.old.step }
        ensures calls { self.new.calls ≡ after_call self.old.calls }
    {
        self.calls.count()?;
        let (_, rest) = self.bytes.split_at(self.position);
        let count = copy_front(rest, buffer, self.step);
        self.position += count;
        Ok(count)
    }

    fn failed(&self) -> bool {
        self.calls.have_failed()
    }
}
