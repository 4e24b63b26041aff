//! Type frames (JVMS 4.10.1.4).

use super::changes::{any_made_at, change_all};
use super::{DeclaredFrame, TypeChange, VType};
use std::alloc::AllocError;
use std::marker::Model;

/// The types of the local variables and operands at an instruction. A contract sees it as the record
/// of them, the operand on top first.
///
/// It takes memory for the local variables up to the last that is not top, whatever `max_locals` is.
#[derive(Debug, Drop)]
pub struct TypeFrame {
    // By their numbers: those after them, up to max_locals, are top.
    locals: Vec<VType>,
    max_locals: u16,
    // The operand on top last.
    stack: Vec<VType>,
    // Whether this is an `<init>` that has called no other `<init>` yet.
    flag_this_uninit: bool,
}

impl Model for TypeFrame {
    ghost use Rattle.std.specs.Prelude.{reverse};
    ghost use Rattle.ver_frames.specs.Frames.{Frame, filled};

    ghost Value = { Frame };

    ghost view = { λ f. record { locals = filled f.max_locals f.locals.items; stack = reverse f.stack.items; flag_this_uninit = f.flag_this_uninit } };
}

impl TypeFrame {
    ghost use Rattle.std.specs.Prelude.{◌≡◌, ◌<◌, ◌∷◌, [], OnOk, OnErr, MatchOption, false, length, reverse, slice_get, slice_set};
    ghost use Rattle.std.specs.List.{list_any};
    ghost use Rattle.ver_frames.specs.Changes.{changed, is_made_at, map_locals, map_types};
    ghost use Rattle.ver_frames.specs.Frames.{filled};

    /// Returns the frame of these local variables by number, and of these operands, the one on top
    /// last. Local variables after them, up to `max_locals`, are top. It takes no memory.
    pub fn new(
        max_locals: u16,
        locals: Vec<VType>,
        stack: Vec<VType>,
        flag_this_uninit: bool,
    ) -> TypeFrame
        ensures { result ≡ record { locals = filled max_locals locals.items; stack = reverse stack.items; flag_this_uninit = flag_this_uninit } }
    {
        TypeFrame {
            locals,
            max_locals,
            stack,
            flag_this_uninit,
        }
    }

    /// Returns how many local variables there are.
    pub fn local_count(&self) -> usize
        ensures { result ≡ length self.now.locals }
    {
        let all = usize::from(self.max_locals);
        let stored = self.locals.len();
        if stored < all { all } else { stored }
    }

    /// Returns the type of a local variable: `None` if there is none of this number.
    pub fn local(&self, number: u16) -> Option<VType>
        ensures { result ≡ slice_get self.now.locals number }
    {
        match self.locals.get(usize::from(number)) {
            Some(kind) => Some(*kind),
            None if number < self.max_locals => Some(VType::Top),
            None => None,
        }
    }

    /// The types of the local variables by number, up to the last that is not top at least.
    pub(crate) fn stored_locals(&self) -> &[VType]
        ensures { self.now.locals ≡ filled (length self.now.locals) result.now }
    {
        &self.locals
    }

    /// Returns the types of the operands, the one on top last.
    pub fn stack(&self) -> &[VType]
        ensures { reverse result.now ≡ self.now.stack }
    {
        &self.stack
    }

    /// Returns how many operands there are.
    pub fn depth(&self) -> usize
        ensures { result ≡ length self.now.stack }
    {
        self.stack.len()
    }

    /// Returns whether this is an `<init>` that has called no other `<init>` yet.
    pub fn flag_this_uninit(&self) -> bool
        ensures { result ≡ self.now.flag_this_uninit }
    {
        self.flag_this_uninit
    }

    /// Puts an operand on top. If memory runs out, nothing changes.
    pub fn push(&mut self, operand: VType) -> Result<(), AllocError>
        ensures ok { OnOk result (self.new ≡ record self.old { stack = operand ∷ self.old.stack }) }
        ensures err { OnErr result (self.new ≡ self.old) }
    {
        self.stack.push(operand)?;
        Ok(())
    }

    /// Takes the operand on top off, and returns it: `None` if there is no operand.
    pub fn pop(&mut self) -> Option<VType>
        ensures { MatchOption result
            ((self.old.stack ≡ []) × (self.new ≡ self.old))
            (λ operand. self.old ≡ record self.new { stack = operand ∷ self.new.stack }) }
    {
        self.stack.pop()
    }

    /// Gives a local variable a type. If memory runs out, nothing changes.
    pub fn set_local(&mut self, number: u16, kind: VType) -> Result<(), AllocError>
        requires { number < length self.old.locals }
        ensures ok { OnOk result (self.new ≡ record self.old { locals = slice_set self.old.locals number kind }) }
        ensures err { OnErr result (self.new ≡ self.old) }
    {
        let index = usize::from(number);
        if index < self.locals.len() {
            self.locals[index] = kind;
            return Ok(());
        }
        self.locals.resize(index + 1, VType::Top)?;
        self.locals[index] = kind;
        Ok(())
    }

    /// Changes the types of the local variables.
    pub fn change_locals(&mut self, change: TypeChange)
        ensures { self.new ≡ map_locals (changed change) self.old }
    {
        change_all(change, &mut self.locals);
    }

    /// Changes the types of the local variables and operands.
    pub fn change(&mut self, change: TypeChange)
        ensures { self.new ≡ map_types (changed change) self.old }
    {
        change_all(change, &mut self.locals);
        change_all(change, &mut self.stack);
    }

    /// Clears the flag: this `<init>` has called another one.
    pub fn clear_flag(&mut self)
        ensures { self.new ≡ record self.old { flag_this_uninit = false } }
    {
        self.flag_this_uninit = false;
    }

    /// Returns whether an operand is what the `new` at this offset made.
    pub fn has_made_at(&self, offset: u16) -> bool
        ensures { result ≡ list_any (is_made_at offset) self.now.stack }
    {
        any_made_at(offset, &self.stack)
    }

    /// Becomes the declared frame. If memory runs out, nothing changes.
    pub fn copy_from(&mut self, declared: &DeclaredFrame) -> Result<(), AllocError>
        ensures ok { OnOk result (self.new ≡ declared.now) }
        ensures err { OnErr result (self.new ≡ self.old) }
    {
        let nodes = declared.nodes;
        let locals_missing = declared.locals.count.saturating_sub(self.locals.len());
        self.locals.reserve(locals_missing)?;
        let stack_missing = declared.stack.count.saturating_sub(self.stack.len());
        self.stack.reserve(stack_missing)?;
        // From here on there is room for all.
        self.locals.resize(declared.locals.count, VType::Top)?;
        nodes.write(declared.locals, &mut self.locals);
        self.stack.resize(declared.stack.count, VType::Top)?;
        nodes.write(declared.stack, &mut self.stack);
        self.max_locals = declared.max_locals;
        self.flag_this_uninit = nodes.has_uninit_this(declared.locals);
        Ok(())
    }
}
