//! Which declared frame stands at each instruction.

ghost use Rattle.std.specs.Prelude.{◌≡◌, ◌==◌, ◌<◌, ◌≤◌, false, IfOk, length, slice_get, true};
ghost use Rattle.std.specs.List.{AllByRecursion, list_any};
ghost use Rattle.std.specs.List.Sorted.{IsStrictlyIncreasing};
ghost use Rattle.std.specs.Option.{option_map_or};
ghost use Rattle.ver_check.specs.Indices.{AreIndices};
ghost use Rattle.ver_check.specs.Offsets.{declared_offsets};

use std::alloc::{AllocError, Global};
use ver_frames::DeclaredFrames;

// Whether the frame at an index is declared at an offset.
fn is_at(declared: &DeclaredFrames, index: usize, offset: u16) -> bool
    ensures test { result ≡ option_map_or (λ frame. frame.0 == offset) (slice_get declared.now index) false }
    ensures inside { result ≡ true → index < length declared.now }
{
    match declared.offset(index) {
        Some(declared_offset) => declared_offset == offset,
        None => false,
    }
}

// For each instruction, by its offset, the index of the frame that is declared there, past the last
// if none is. Each frame stands at an instruction, so one pass over both finds all.
pub(crate) fn find_frames(
    alloc: Global,
    offsets: &[u16],
    declared: &DeclaredFrames,
) -> Result<Vec<u16>, AllocError>
    requires offsets { IsStrictlyIncreasing offsets.now }
    requires declared { IsStrictlyIncreasing (declared_offsets declared.now) }
    requires starts { AllByRecursion (λ frame. list_any (λ start. start == frame.0) offsets.now ≡ true) declared.now }
    requires few { length declared.now ≤ 65535 }
    ensures { IfOk result (λ indices. AreIndices declared.now offsets.now indices.items) }
{
    let mut indices = Vec::with_capacity(alloc, offsets.len())?;
    let mut next = 0;
    for offset in offsets {
        if is_at(declared, next, *offset) {
            indices.push(next as u16)?;
            next += 1;
        } else {
            indices.push(declared.len() as u16)?;
        }
    }
    Ok(indices)
}
