//! What is checked of a method: the method and the frames that it declares.

use std::alloc::Global;
use std::marker::Model;
use ver_frames::{DeclaredFrames, MethodView};

// A method and the frames that it declares, each with its offset. A contract sees it as the body
// that is checked.
#[derive(Drop)]
pub(crate) struct BodyView<'a> {
    pub(crate) alloc: Global,
    pub(crate) method: &'a MethodView<'a>,
    pub(crate) declared: &'a DeclaredFrames,
    // For each instruction the index of the frame that is declared at it, past the last if none is.
    pub(crate) indices: &'a [u16],
}

impl<'a> Model for BodyView<'a> {
    ghost use Rattle.ver_check.specs.Bodies.{Body, body_of};

    ghost Value = { Body };

    ghost use Rattle.std.specs.List.Sorted.{IsStrictlyIncreasing};
    ghost use Rattle.ver_check.specs.Indices.{AreIndices};

    ghost view = { λ b. body_of b.method.now b.declared.now };

    ghost invariant = { λ b. AreIndices b.declared.now b.method.now.linked.offsets b.indices.now × IsStrictlyIncreasing b.method.now.linked.offsets };
}
