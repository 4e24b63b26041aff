//! The frame before each instruction: the declared one, or what the instruction before leaves (JVMS 4.10.1.6).

use crate::stack_map::StackMapCursor;
use crate::wanted::{Signature, given_by, signature_of, words_taken};
use crate::{CodeFrame, HeldType, wanted_by};
use cf_insns::{Insn, InvokeKind, StackOperation};
use cf_pool::{Row, Text};
use cf_reader::{ClassFile, Code, Method};
use std::alloc::{AllocError, Global};

/// A walk over a method's code. Instructions that no frame reaches have none.
#[derive(Drop)]
pub struct CodeWalk<'a> {
    alloc: Global,
    class: &'a ClassFile,
    method: &'a Method,
    cursor: StackMapCursor<'a>,
    /// The frame where the walk stands, if there is one.
    pub frame: Option<CodeFrame>,
}

impl<'a> CodeWalk<'a> {
    /// Returns the walk that stands before the first instruction of a method of a class.
    pub fn new(
        alloc: Global,
        class: &'a ClassFile,
        method: &'a Method,
        code: &'a Code,
    ) -> Result<CodeWalk<'a>, AllocError> {
        let table = match &code.stack_map_table {
            Some(table) => table.as_slice(),
            None => &[],
        };
        let opening = CodeFrame::opening(alloc, class, method)?;
        let cursor = StackMapCursor::new(alloc, &class.pool, table, opening);
        let frame = Some(cursor.frame()?);
        Ok(CodeWalk {
            alloc,
            class,
            method,
            cursor,
            frame,
        })
    }

    /// Comes to the instruction at an offset: a frame that is declared there stands from now on.
    pub fn enter(&mut self, at: u16) -> Result<(), AllocError> {
        if let Some(offset) = self.cursor.next_offset()
            && offset <= at as u32
        {
            self.cursor.advance()?;
            self.frame = Some(self.cursor.frame()?);
        }
        Ok(())
    }

    /// Goes to the last frame that is declared at an offset or before it, and returns the offset of that. Nothing
    /// comes back if there is none.
    pub fn seek(&mut self, at: u16) -> Result<Option<u32>, AllocError> {
        let mut found = None;
        for _ in 0..=u16::MAX {
            match self.cursor.next_offset() {
                Some(offset) if offset <= at as u32 => {
                    self.cursor.advance()?;
                    found = Some(offset);
                }
                _ => break,
            }
        }
        self.frame = Some(self.cursor.frame()?);
        Ok(found)
    }

    /// Makes the effect of the instruction at an offset on the frame.
    pub fn change(&mut self, at: u16, insn: &Insn) -> Result<(), AllocError> {
        match &mut self.frame {
            Some(frame) => apply(self.alloc, self.class, self.method, frame, at, insn),
            None => Ok(()),
        }
    }

    /// Goes on after the instruction at an offset: no frame comes out of one that does not go on to the next.
    pub fn leave(&mut self, at: u16, insn: &Insn) -> Result<(), AllocError> {
        self.change(at, insn)?;
        if !falls_through(insn) {
            self.frame = None;
        }
        Ok(())
    }
}

/// Returns whether an instruction goes on to the next.
pub fn falls_through(insn: &Insn) -> bool {
    !matches!(
        insn,
        Insn::Goto { .. }
            | Insn::TableSwitch { .. }
            | Insn::LookupSwitch { .. }
            | Insn::ReturnValue(_)
            | Insn::Return
            | Insn::Throw
    )
}

/// Returns the offsets to which the instruction at an offset may branch, as it tells them.
pub fn targets(alloc: Global, at: u16, insn: &Insn) -> Result<Vec<i64>, AllocError> {
    let mut found = Vec::new(alloc);
    let from = at as i64;
    match insn {
        Insn::If { branch, .. } | Insn::IfCompare { branch, .. } => {
            found.push(from + *branch as i64)?
        }
        Insn::IfSame { branch, .. } | Insn::IfNull { branch, .. } => {
            found.push(from + *branch as i64)?
        }
        Insn::Goto { branch } => found.push(from + *branch as i64)?,
        Insn::TableSwitch {
            default,
            branches,
            ..
        } => {
            push_branches(&mut found, from, branches)?;
            found.push(from + *default as i64)?;
        }
        Insn::LookupSwitch { default, cases } => {
            for case in cases.as_slice() {
                found.push(from + case.branch as i64)?;
            }
            found.push(from + *default as i64)?;
        }
        _ => {}
    }
    Ok(found)
}

fn push_branches(found: &mut Vec<i64>, from: i64, branches: &Row<i32>) -> Result<(), AllocError> {
    for branch in branches.as_slice() {
        found.push(from.saturating_add(*branch as i64))?;
    }
    Ok(())
}

// What an instruction makes of a frame. Operands that are not there are passed over.
fn apply(
    alloc: Global,
    class: &ClassFile,
    method: &Method,
    frame: &mut CodeFrame,
    at: u16,
    insn: &Insn,
) -> Result<(), AllocError> {
    match insn {
        Insn::Load(_, local) => {
            let kind = frame.local(*local)?;
            frame.stack.push(kind)?;
            Ok(())
        }
        Insn::Store(_, local) => match frame.stack.pop() {
            Some(kind) => frame.set_local(*local, kind),
            None => Ok(()),
        },
        Insn::Stack(operation) => rearrange(alloc, &mut frame.stack, *operation),
        Insn::Invoke(InvokeKind::Special, index) => {
            match signature_of(alloc, &class.pool, *index)? {
                Some(signature) => call_special(class, frame, signature),
                None => Ok(()),
            }
        }
        _ => {
            let wanted = wanted_by(alloc, &class.pool, method, insn)?;
            let given = given_by(alloc, &class.pool, at, insn)?;
            replace_operands(frame, wanted.len(), given)
        }
    }
}

fn replace_operands(
    frame: &mut CodeFrame,
    taken: usize,
    given: Option<HeldType>,
) -> Result<(), AllocError> {
    frame
        .stack
        .truncate(frame.stack.len().saturating_sub(taken));
    if let Some(kind) = given {
        frame.stack.push(kind)?;
    }
    Ok(())
}

// An `<init>` makes what `new` made one of its class, and the receiver of an `<init>` one of the class of the code.
fn call_special(
    class: &ClassFile,
    frame: &mut CodeFrame,
    signature: Signature,
) -> Result<(), AllocError> {
    let taken = signature.parameters.len();
    frame
        .stack
        .truncate(frame.stack.len().saturating_sub(taken));
    let receiver = frame.stack.pop();
    if let Some(object) = receiver
        && signature.is_initializer
    {
        frame.initialize(&object, made_of(&object, &class.name, &signature.class))?;
    }
    replace_operands(frame, 0, signature.gives)
}

fn made_of<'a>(object: &HeldType, own: &'a Text, called: &'a Text) -> &'a Text {
    match object {
        HeldType::UninitializedThis => own,
        _ => called,
    }
}

// Which of the operands that an instruction takes, of which the top one is 0, it leaves, from below.
fn order_of(operation: StackOperation) -> &'static [usize] {
    match operation {
        StackOperation::Pop | StackOperation::Pop2 => &[],
        StackOperation::Dup => &[0, 0],
        StackOperation::DupX1 => &[0, 1, 0],
        StackOperation::DupX2 => &[0, 2, 1, 0],
        StackOperation::Dup2 => &[1, 0, 1, 0],
        StackOperation::Dup2X1 => &[1, 0, 2, 1, 0],
        StackOperation::Dup2X2 => &[1, 0, 3, 2, 1, 0],
        StackOperation::Swap => &[0, 1],
    }
}

fn rearrange(
    alloc: Global,
    stack: &mut Vec<HeldType>,
    operation: StackOperation,
) -> Result<(), AllocError> {
    let mut taken = Vec::new(alloc);
    for _ in 0..words_taken(operation) {
        if let Some(kind) = stack.pop() {
            taken.push(kind)?;
        }
    }
    for index in order_of(operation) {
        if let Some(kind) = taken.get(*index) {
            stack.push(kind.copy()?)?;
        }
    }
    Ok(())
}
