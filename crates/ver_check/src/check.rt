//! The check of one body, from its first instruction to its last.

ghost use Rattle.std.specs.Prelude.{◌≡◌};
ghost use Rattle.ver_check.specs.declared.check.BodyFault.TheVariants.{Memory};

use super::body::BodyView;
use super::stop::Stop;
use super::{CheckRule, LinkedInsn, TypeFrame};
use std::alloc::{AllocError, Global};

// Why a body is not type safe: the rule is broken at this offset.
#[derive(Clone, Copy, PartialEq, Eq)]
pub(crate) enum BodyFault {
    Broken { rule: CheckRule, at: usize },
    Memory,
}

impl From<AllocError> for BodyFault {
    ghost from_gives = { λ _ fault. fault ≡ Memory };

    fn from(_: AllocError) -> BodyFault {
        BodyFault::Memory
    }
}

impl BodyView<'_> {
    ghost use Rattle.std.specs.Prelude.{◌≡◌, ◌+◌, ◌<◌, ◌≤◌, [], Some, IfOk, ℕ, length, slice_index};
    ghost use Rattle.ver_check.specs.Bodies.{declared_at, insn_at};
    ghost use Rattle.ver_check.specs.Faults.{IsBodyFault};
    ghost use Rattle.ver_check.specs.Flow.{Reaches};
    ghost use Rattle.ver_check.specs.Settled.{SettlesBody, fault_of};
    ghost use Rattle.ver_check.specs.Typing.{IsTypeSafe, IsWithin};
    ghost use Rattle.ver_frames.specs.Frames.{Frame};

    // The offset of the instruction at an index.
    fn offset(&self, index: usize) -> usize
        ensures { result ≡ slice_index self.now.offsets index }
    {
        let method = self.method;
        match method.linked.offsets.as_slice().get(index) {
            Some(offset) => usize::from(*offset),
            None => 0,
        }
    }

    // The fault that the check stops with at an instruction.
    fn fault(&self, stop: Stop, index: usize) -> BodyFault
        ensures { result ≡ fault_of self.now.offsets index stop }
    {
        match stop {
            Stop::Broken(rule) => BodyFault::Broken {
                rule,
                at: self.offset(index),
            },
            Stop::Missing(index) => BodyFault::Broken {
                rule: CheckRule::NoFrame,
                at: self.offset(index),
            },
            Stop::Memory => BodyFault::Memory,
        }
    }

    // The frame in which the method begins.
    #[tactic(auto, using(crate::proofs::Links::opening_full), unfolding(ver_frames::specs::Method::opening))]
    fn opening(&self, alloc: Global) -> Result<TypeFrame, AllocError>
        ensures opening { IfOk result (λ frame. frame ≡ self.now.opening) }
        ensures empty { self.now.opening.stack ≡ [] }
        ensures full { self.now.max_locals ≤ length self.now.opening.locals }
    {
        let method = self.method;
        method.opening(alloc)
    }

    // How many local variables there are.
    fn max_locals(&self) -> usize
        ensures { result ≡ self.now.max_locals }
    {
        let method = self.method;
        usize::from(method.code.max_locals)
    }

    // The instruction at an index.
    fn insn(&self, index: usize) -> LinkedInsn
        requires { index < length self.now.insns }
        ensures { insn_at self.now index ≡ Some result }
    {
        let method = self.method;
        let insns = method.linked.insns.as_slice();
        insns[index]
    }

    // The frame with which the pass begins.
    fn begin(&self, alloc: Global) -> Result<TypeFrame, BodyFault>
        ensures { SettlesBody result
            (λ frame. Reaches self.now 0 frame × IsWithin self.now self.now.opening × (0 < length self.now.insns))
            (IsBodyFault self.now) }
    {
        let mut frame = self.opening(alloc)?;
        if frame.local_count() > self.max_locals() {
            return Err(self.fault(Stop::Broken(CheckRule::Local), 0));
        }
        if self.insn_count() == 0 {
            return Err(self.fault(Stop::Broken(CheckRule::FallsOff), 0));
        }
        match self.enter(&mut frame, 0) {
            Ok(()) => Ok(frame),
            Err(stop) => Err(self.fault(stop, 0)),
        }
    }

    // The pass comes through the instruction at an index, which it has reached with this frame.
    fn advance(&self, frame: &mut TypeFrame, index: usize) -> Result<(), BodyFault>
        requires arguments { length self.now.opening.locals ≤ self.now.max_locals }
        requires inside { index < length self.now.insns }
        requires reached { Reaches self.now index frame.old }
        ensures { SettlesBody result (λ _. Reaches self.now (index + 1) frame.new) (IsBodyFault self.now) }
    {
        match self.pass(frame, index, self.insn(index)) {
            Ok(()) => Ok(()),
            Err(stop) => Err(self.fault(stop, index)),
        }
    }

    // Whether the body is type safe.
    pub(crate) fn check(&self, alloc: Global) -> Result<(), BodyFault>
        requires listed { length self.now.offsets ≡ length self.now.insns }
        requires within { (index : ℕ) (declared : Frame) → declared_at self.now index ≡ Some declared → IsWithin self.now declared }
        ensures { SettlesBody result (λ _. IsTypeSafe self.now) (IsBodyFault self.now) }
    {
        let mut frame = self.begin(alloc)?;
        for index in 0..self.insn_count() {
            self.advance(&mut frame, index)?;
        }
        Ok(())
    }
}
