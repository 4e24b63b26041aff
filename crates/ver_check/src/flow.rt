//! The pass over the instructions of a body, with the frame at the current one.

ghost use Rattle.std.specs.Prelude.{◌≡◌, IfOk, false, length, replicate, slice_index_or, slice_set, true};
ghost use Rattle.cls_link.specs.declared.linked_code.LinkedInsn.TheVariants.{Switch};
ghost use Rattle.std.specs.Prelude.{◌∷◌};
ghost use Rattle.ver_check.specs.Effects.{falls_through};

use super::body::BodyView;
use super::stop::Stop;
use super::{CheckRule, LinkedInsn, LinkedSwitch, TypeFrame};
use std::alloc::{AllocError, Global};
use ver_frames::{DeclaredFrame, DeclaredFrames, frame_assignable};

// A mark for each of the frames: none is set.
fn no_marks(alloc: Global, frames: &DeclaredFrames) -> Result<Vec<bool>, AllocError>
    ensures { IfOk result (λ marks. marks.items ≡ replicate (length frames.now) false) }
{
    vec![in alloc; false; frames.len()]
}

// Whether the frame at an index is marked.
fn is_marked(marks: &[bool], index: usize) -> bool
    ensures { result ≡ slice_index_or marks.now index false }
{
    match marks.get(index) {
        Some(mark) => *mark,
        None => false,
    }
}

// Marks the frame at an index, if there is one.
fn mark(marks: &mut Vec<bool>, index: usize)
    ensures { marks.new.items ≡ slice_set marks.old.items index true }
{
    if index < marks.len() {
        marks[index] = true;
    }
}

// Whether the next instruction may come after it.
fn falls_through(insn: LinkedInsn) -> bool
    ensures { result ≡ falls_through insn }
{
    !matches!(
        insn,
        LinkedInsn::Goto { .. }
            | LinkedInsn::Switch(_)
            | LinkedInsn::ReturnValue(_)
            | LinkedInsn::Return
            | LinkedInsn::Throw
    )
}

impl BodyView<'_> {
    ghost use Rattle.std.specs.Prelude.{◌≡◌, ◌<◌, [], length, slice_get, ℕ};
    ghost use Rattle.std.specs.List.{AllByRecursion};
    ghost use Rattle.std.specs.Option.{option_map_or};
    ghost use Rattle.ver_check.specs.Bodies.{declared_at, offset_at};
    ghost use Rattle.ver_check.specs.Effects.{switch_targets, targets};
    ghost use Rattle.ver_check.specs.Faults.{IsWrongAmong, IsWrongAt, IsWrongEntry, IsWrongNext, IsWrongTarget};
    ghost use Rattle.ver_check.specs.Flow.{ComesIn, GoesTo, LandsOnAll, Passes, Settles};
    ghost use Rattle.ver_check.specs.Indices.{frame_of};
    ghost use Rattle.ver_check.specs.Landed.{LandsOnMarked};
    ghost use Rattle.ver_check.specs.Typing.{Lands};

    // How many instructions there are.
    pub(crate) fn insn_count(&self) -> usize
        ensures { result ≡ length self.now.insns }
    {
        let method = self.method;
        method.linked.insns.as_slice().len()
    }

    // The index of the frame that is declared at the instruction at an index, past the last if none
    // is.
    #[tactic(auto, unfolding(crate::specs::Bodies::declared_at))]
    fn index_at(&self, index: usize) -> usize
        ensures { frame_of self.now.declared result ≡ declared_at self.now index }
    {
        match self.indices.get(index) {
            Some(frame) => usize::from(*frame),
            None => {
                let declared = self.declared;
                declared.len()
            }
        }
    }

    // The frame that is declared at the instruction at an index.
    fn declared_at(&self, index: usize) -> Option<DeclaredFrame<'_>>
        ensures { result ≡ declared_at self.now index }
    {
        let declared = self.declared;
        declared.get(self.index_at(index))
    }

    // A frame comes in at an index, and becomes the one that is declared there, if one is.
    pub(crate) fn enter(&self, frame: &mut TypeFrame, index: usize) -> Result<(), Stop>
        ensures { (from : ℕ) → Settles from result (ComesIn self.now index frame.old frame.new) (IsWrongEntry self.now index frame.old from) }
    {
        let Some(declared) = self.declared_at(index) else {
            return Ok(());
        };
        let method = self.method;
        if !frame_assignable(method.classes, frame, &declared) {
            return Err(Stop::Broken(CheckRule::NotAssignable));
        }
        frame.copy_from(&declared)?;
        Ok(())
    }

    // A frame comes in at the target of a branch. A frame has to be declared there.
    fn land(&self, frame: &TypeFrame, target: u16) -> Result<(), Stop>
        ensures { (from : ℕ) → Settles from result (Lands self.now frame.now target) (IsWrongTarget self.now from frame.now target) }
    {
        let index = usize::from(target);
        let Some(declared) = self.declared_at(index) else {
            return Err(Stop::Missing(index));
        };
        let method = self.method;
        if !frame_assignable(method.classes, frame, &declared) {
            return Err(Stop::Broken(CheckRule::NotAssignable));
        }
        Ok(())
    }

    // A frame comes in at each of the targets.
    fn land_on_each(&self, frame: &TypeFrame, targets: &[u16]) -> Result<(), Stop>
        ensures { (from : ℕ) → Settles from result (AllByRecursion (Lands self.now frame.now) targets.now) (IsWrongAmong self.now from frame.now targets.now) }
    {
        for target in targets {
            self.land(frame, *target)?;
        }
        Ok(())
    }

    // A frame comes in at the target of a branch. The frame that is declared there is marked then,
    // and not looked at again.
    fn land_once(&self, frame: &TypeFrame, marks: &mut Vec<bool>, target: u16) -> Result<(), Stop>
        requires { LandsOnMarked self.now frame.now marks.old.items }
        ensures settles { (from : ℕ) → Settles from result (Lands self.now frame.now target)
            (IsWrongTarget self.now from frame.now target) }
        ensures marked { LandsOnMarked self.now frame.now marks.new.items }
    {
        let index = self.index_at(usize::from(target));
        if is_marked(marks, index) {
            Ok(())
        } else {
            self.land(frame, target)?;
            mark(marks, index);
            Ok(())
        }
    }

    // A frame comes in at each of the targets, of which many may be equal.
    fn land_on_many(&self, frame: &TypeFrame, targets: &[u16]) -> Result<(), Stop>
        ensures { (from : ℕ) → Settles from result
            (AllByRecursion (Lands self.now frame.now) targets.now)
            (IsWrongAmong self.now from frame.now targets.now) }
    {
        let mut marks = no_marks(self.alloc, self.declared)?;
        for target in targets {
            self.land_once(frame, &mut marks, *target)?;
        }
        Ok(())
    }

    // A frame comes in at the default target, and at each of the others.
    fn land_on_cases(&self, frame: &TypeFrame, default: u16, targets: &[u16]) -> Result<(), Stop>
        ensures { (from : ℕ) → Settles from result (AllByRecursion (Lands self.now frame.now) (default ∷ targets.now)) (IsWrongAmong self.now from frame.now (default ∷ targets.now)) }
    {
        self.land(frame, default)?;
        self.land_on_many(frame, targets)
    }

    // A frame comes in at each target of a switch.
    fn land_on_switch(&self, frame: &TypeFrame, index: u16) -> Result<(), Stop>
        ensures { (from : ℕ) → Settles from result (LandsOnAll self.now (Switch index) frame.now) (IsWrongAmong self.now from frame.now (targets self.now (Switch index))) }
    {
        let method = self.method;
        match method.linked.switches.as_slice().get(usize::from(index)) {
            Some(
                LinkedSwitch::Table {
                    default,
                    targets,
                    ..
                },
            ) => self.land_on_cases(frame, *default, targets.as_slice()),
            Some(
                LinkedSwitch::Lookup {
                    default,
                    targets,
                    ..
                },
            ) => self.land_on_cases(frame, *default, targets.as_slice()),
            None => Ok(()),
        }
    }

    // A frame comes in at each target of an instruction.
    fn land_on_all(&self, frame: &TypeFrame, insn: LinkedInsn) -> Result<(), Stop>
        ensures { (from : ℕ) → Settles from result (LandsOnAll self.now insn frame.now) (IsWrongAmong self.now from frame.now (targets self.now insn)) }
    {
        match insn {
            LinkedInsn::If { target, .. }
            | LinkedInsn::IfCompare { target, .. }
            | LinkedInsn::IfSame { target, .. }
            | LinkedInsn::IfNull { target, .. }
            | LinkedInsn::Goto { target } => self.land_on_each(frame, &[target]),
            LinkedInsn::Switch(index) => self.land_on_switch(frame, index),
            _ => Ok(()),
        }
    }

    // The pass goes on after an instruction, whose effect gave this frame.
    fn go_on(&self, frame: &mut TypeFrame, index: usize, insn: LinkedInsn) -> Result<(), Stop>
        requires { index < length self.now.insns }
        ensures { Settles index result (GoesTo self.now index insn frame.old frame.new) (IsWrongNext self.now index insn frame.old) }
    {
        let count = self.insn_count();
        let next = index + 1;
        let is_inside = next < count;
        if falls_through(insn) {
            if !is_inside {
                return Err(Stop::Broken(CheckRule::FallsOff));
            }
            return self.enter(frame, next);
        }
        if is_inside {
            let Some(declared) = self.declared_at(next) else {
                return Err(Stop::Missing(next));
            };
            frame.copy_from(&declared)?;
        }
        Ok(())
    }

    // The offset of the instruction at an index.
    fn offset_at(&self, index: usize) -> u16
        ensures { result ≡ offset_at self.now index }
    {
        let method = self.method;
        match method.linked.offsets.as_slice().get(index) {
            Some(offset) => *offset,
            None => 0,
        }
    }

    // The pass comes through an instruction.
    pub(crate) fn pass(
        &self,
        frame: &mut TypeFrame,
        index: usize,
        insn: LinkedInsn,
    ) -> Result<(), Stop>
        requires { index < length self.now.insns }
        ensures { Settles index result (Passes self.now index insn frame.old frame.new) (IsWrongAt self.now index insn frame.old) }
    {
        self.apply(frame, self.offset_at(index), insn)?;
        self.land_on_all(frame, insn)?;
        self.go_on(frame, index, insn)
    }
}
