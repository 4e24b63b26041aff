//! Type frames of the methods of a linked set.

ghost use Rattle.std.specs.Prelude.{IsTrue};
ghost use Rattle.std.specs.List.Sorted.{IsStrictlyIncreasing};

use super::links::{class_at, class_named, declared_method};
use cls_link::{ClassId, Linked, MethodId};
use std::alloc::Global;
use test_rows::{RowFault, put};
use ver_frames::{
    DeclaredFrame, DeclaredFrames, MethodView, TypeFrame, VType, declared, frame_assignable,
};

/// Prints the types of what a method is passed, the frame in which it begins, and those that it declares.
pub fn play(
    alloc: Global,
    said: &mut Vec<u8>,
    linked: &Linked,
    words: &[&str],
) -> Result<(), RowFault> {
    let [of, name, descriptor] = words else {
        return Err(RowFault::Bad);
    };
    let of = class_named(linked, of)?;
    let number = declared_method(linked, of, name, descriptor)?.ok_or(RowFault::Bad)?;
    put_method(alloc, said, linked, &view(linked, of, number)?)
}

fn put_method(
    alloc: Global,
    said: &mut Vec<u8>,
    linked: &Linked,
    method: &MethodView<'_>,
) -> Result<(), RowFault> {
    put(said, "passed", &arguments(alloc, method)?)?;
    put(said, "begins with", &opening(alloc, method)?)?;
    put_declared(alloc, said, linked, &frames_of(alloc, method)?)
}

fn view(linked: &Linked, class_id: ClassId, number: MethodId) -> Result<MethodView<'_>, RowFault> {
    if number.0 as usize >= linked.len() {
        return Err(RowFault::Bad);
    }
    let method = linked.declaration(number);
    let (Some(code), Some(linked_code)) = (&*method.code, &linked.linked_method(number).code) else {
        return Err(RowFault::Bad);
    };
    Ok(MethodView {
        classes: linked.set(),
        class_id,
        class: class_at(linked, class_id)?,
        method,
        code,
        linked: linked_code,
    })
}

fn are_rising(offsets: &[u16]) -> bool
    ensures { IsTrue result → IsStrictlyIncreasing offsets.now }
{
    for index in 1..offsets.len() {
        if offsets[index - 1] >= offsets[index] {
            return false;
        }
    }
    true
}

// What the calls answer. These functions promise nothing, so that a row is proved at once.
fn frames_of(alloc: Global, method: &MethodView<'_>) -> Result<DeclaredFrames, RowFault> {
    if !are_rising(method.linked.offsets.as_slice()) {
        return Err(RowFault::Bad);
    }
    declared(alloc, method).map_err(|_| RowFault::Bad)
}

fn arguments(alloc: Global, method: &MethodView<'_>) -> Result<Vec<VType>, RowFault> {
    Ok(method.argument_types(alloc)?)
}

fn opening(alloc: Global, method: &MethodView<'_>) -> Result<TypeFrame, RowFault> {
    Ok(method.opening(alloc)?)
}

fn frame_at(frames: &DeclaredFrames, index: usize) -> Result<DeclaredFrame<'_>, RowFault> {
    frames.get(index).ok_or(RowFault::Bad)
}

fn copy(frame: &mut TypeFrame, declared: &DeclaredFrame<'_>) -> Result<(), RowFault> {
    Ok(frame.copy_from(declared)?)
}

fn fits(linked: &Linked, frame: &TypeFrame, declared: &DeclaredFrame<'_>) -> bool {
    frame_assignable(linked.set(), frame, declared)
}

// Prints the offset of each frame, whether the frame before it may stand for it, what that becomes as it copies it, and
// whether it may stand for it then. Before the first stands one without local variables, in an <init> that has called none.
fn put_declared(
    alloc: Global,
    said: &mut Vec<u8>,
    linked: &Linked,
    frames: &DeclaredFrames,
) -> Result<(), RowFault> {
    put(said, "declares", &frames.len())?;
    put(said, "empty", &frames.is_empty())?;
    let mut frame = TypeFrame::new(0, Vec::new(alloc), Vec::new(alloc), true);
    for index in 0..frames.len() {
        put(said, "offset", &frames.offset(index))?;
        put_frame(said, linked, &mut frame, &frame_at(frames, index)?)?;
    }
    Ok(())
}

fn put_frame(
    said: &mut Vec<u8>,
    linked: &Linked,
    frame: &mut TypeFrame,
    declared: &DeclaredFrame<'_>,
) -> Result<(), RowFault> {
    put(said, "locals", &declared.local_count())?;
    put(said, "flag", &declared.flag_this_uninit())?;
    put(said, "stood for", &fits(linked, frame, declared))?;
    copy(frame, declared)?;
    put(said, "copied", frame)?;
    put(said, "fits", &fits(linked, frame, declared))
}
