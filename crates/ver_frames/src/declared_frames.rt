//! The frames that a method declares.

use super::chain::{TypeChain, TypeNodes};
use super::raw_frame::RawFrame;
use std::marker::Model;

/// The frames that a method declares, each with its offset. A contract sees them as the list of
/// these pairs, in the order of the offsets.
///
/// They take memory for what the StackMapTable spells. Local variables that a frame keeps of the
/// one before it, or that are top up to `max_locals`, take none.
#[derive(Debug, Drop)]
pub struct DeclaredFrames {
    pub(crate) nodes: TypeNodes,
    pub(crate) frames: Vec<RawFrame>,
    pub(crate) max_locals: u16,
}

impl Model for DeclaredFrames {
    ghost use Rattle.std.specs.Prelude.{List, ℕ, map};
    ghost use Rattle.std.specs.List.{AllByRecursion};
    ghost use Rattle.ver_frames.specs.Frames.{Frame};
    ghost use Rattle.ver_frames.specs.Chains.{FrameStands, declared_in};

    ghost Value = { List (ℕ × Frame) };

    ghost view = { λ d. map (declared_in d.max_locals d.nodes) d.frames.items };

    ghost invariant = { λ d. AllByRecursion (FrameStands d.nodes) d.frames.items };
}

/// A frame that a method declares. A contract sees it as the record of the types of its local
/// variables and operands, the operand on top first.
#[derive(Drop)]
pub struct DeclaredFrame<'a> {
    pub(crate) nodes: &'a TypeNodes,
    pub(crate) max_locals: u16,
    pub(crate) locals: TypeChain,
    pub(crate) stack: TypeChain,
}

impl<'a> Model for DeclaredFrame<'a> {
    ghost use Rattle.ver_frames.specs.Frames.{Frame};
    ghost use Rattle.ver_frames.specs.Chains.{Stands, types_of};
    ghost use Rattle.ver_frames.specs.StackMapFormat.{declared_frame};

    ghost Value = { Frame };

    ghost view = { λ f. declared_frame f.max_locals (types_of f.nodes.now f.locals) (types_of f.nodes.now f.stack) };

    ghost invariant = { λ f. Stands f.nodes.now f.locals × Stands f.nodes.now f.stack };
}

impl DeclaredFrames {
    ghost use Rattle.std.specs.Prelude.{◌≡◌, ◌==◌, length, option_map, slice_get};

    /// Returns how many frames there are.
    pub fn len(&self) -> usize
        ensures { result ≡ length self.now }
    {
        self.frames.len()
    }

    /// Returns whether there are no frames.
    pub fn is_empty(&self) -> bool
        ensures { result ≡ (length self.now == 0) }
    {
        self.frames.len() == 0
    }

    /// Returns the offset of the frame at an index: `None` past the last.
    pub fn offset(&self, index: usize) -> Option<u16>
        ensures { result ≡ option_map (λ frame. frame.0) (slice_get self.now index) }
    {
        let frame = self.frames.get(index)?;
        Some(frame.offset)
    }

    /// Returns the frame at an index: `None` past the last. It takes no memory.
    pub fn get(&self, index: usize) -> Option<DeclaredFrame<'_>>
        ensures { result ≡ option_map (λ frame. frame.1) (slice_get self.now index) }
    {
        let frame = self.frames.get(index)?;
        Some(DeclaredFrame {
            nodes: &self.nodes,
            max_locals: self.max_locals,
            locals: frame.locals,
            stack: frame.stack,
        })
    }
}

impl DeclaredFrame<'_> {
    ghost use Rattle.std.specs.Prelude.{◌≡◌, length};

    /// Returns how many local variables there are.
    pub fn local_count(&self) -> usize
        ensures { result ≡ length self.now.locals }
    {
        let all = usize::from(self.max_locals);
        let spelled = self.locals.count;
        if spelled < all { all } else { spelled }
    }

    /// Returns whether a local variable is the receiver of an `<init>` that has called no other
    /// `<init>` yet.
    pub fn flag_this_uninit(&self) -> bool
        ensures { result ≡ self.now.flag_this_uninit }
    {
        let nodes = self.nodes;
        nodes.has_uninit_this(self.locals)
    }
}
