//! What instructions ask of operands, and what they give (JVMS 4.10.1.9), as texts tell it.

use crate::HeldType;
use cf_insns::{
    ArrayOperation, ClassOperation, FieldOperation, Insn, InvokeKind, StackOperation, ValueKind,
};
use cf_pool::{Descriptor, Pool, Text, descriptor};
use cf_reader::Method;
use std::alloc::{AllocError, Global};
use std::fmt;

/// What an instruction asks of an operand.
#[derive(Debug, Drop)]
pub enum Wanted {
    Int,
    /// Any value.
    Word,
    /// A reference, also to an object that is not initialized.
    Reference,
    /// A reference to what is initialized.
    Initialized,
    /// The receiver of an `<init>`.
    Uninitialized,
    /// What may stand for this type.
    Held(HeldType),
}

impl fmt::Display for Wanted {
    fn fmt<W: fmt::Write>(&self, f: &mut fmt::Formatter<W>) -> fmt::Result {
        match self {
            Wanted::Int => f.write_str("int"),
            Wanted::Word => f.write_str("any value"),
            Wanted::Reference => f.write_str("a reference"),
            Wanted::Initialized => f.write_str("an initialized object"),
            Wanted::Uninitialized => f.write_str("an object that is not initialized"),
            Wanted::Held(kind) => write!(f, "{kind}"),
        }
    }
}

/// What a method that code names takes and gives.
#[derive(Drop)]
pub(crate) struct Signature {
    pub class: Text,
    pub is_initializer: bool,
    pub parameters: Vec<HeldType>,
    pub gives: Option<HeldType>,
}

/// Returns what the method of an entry of the pool takes and gives, if the entry names one.
pub(crate) fn signature_of(
    alloc: Global,
    pool: &Pool,
    index: u16,
) -> Result<Option<Signature>, AllocError> {
    let Some(member) = pool.member(index) else {
        return Ok(None);
    };
    let Some(Descriptor::Method(types)) = descriptor(alloc, member.descriptor)? else {
        return Ok(None);
    };
    let mut parameters = Vec::new(alloc);
    for kind in types.parameters.iter() {
        parameters.push(HeldType::of_field(alloc, kind)?)?;
    }
    let gives = match &types.result {
        Some(kind) => Some(HeldType::of_field(alloc, kind)?),
        None => None,
    };
    Ok(Some(Signature {
        class: member.class.copy()?,
        is_initializer: member.name.is(b"<init>"),
        parameters,
        gives,
    }))
}

// The type of the field of an entry of the pool, if the entry names one.
fn field_type(alloc: Global, pool: &Pool, index: u16) -> Result<Option<HeldType>, AllocError> {
    let Some(member) = pool.member(index) else {
        return Ok(None);
    };
    match descriptor(alloc, member.descriptor)? {
        Some(Descriptor::Field(kind)) => Ok(Some(HeldType::of_field(alloc, &kind)?)),
        _ => Ok(None),
    }
}

fn named_class(pool: &Pool, index: u16) -> Result<Option<HeldType>, AllocError> {
    match pool.class(index) {
        Some(name) => Ok(Some(HeldType::Object(name.copy()?))),
        None => Ok(None),
    }
}

fn int_array(alloc: Global) -> Result<HeldType, AllocError> {
    named_object(alloc, b"[I")
}

fn named_object(alloc: Global, name: &[u8]) -> Result<HeldType, AllocError> {
    Ok(HeldType::Object(Text::new(alloc, Vec::from_slice(alloc, name)?)?))
}

/// Returns what an instruction of a method asks of its operands, the top one first.
pub fn wanted_by(
    alloc: Global,
    pool: &Pool,
    method: &Method,
    insn: &Insn,
) -> Result<Vec<Wanted>, AllocError> {
    let mut wanted = Vec::new(alloc);
    match insn {
        Insn::Nop | Insn::Null | Insn::Constant(_) | Insn::LoadConstant(_) | Insn::Load(..) => {}
        Insn::Increment { .. } | Insn::Goto { .. } | Insn::Return => {}
        Insn::Store(kind, _) => wanted.push(of_kind(*kind))?,
        Insn::Stack(operation) => push_words(&mut wanted, words_taken(*operation))?,
        Insn::Unary(_) | Insn::If { .. } => wanted.push(Wanted::Int)?,
        Insn::TableSwitch { .. } | Insn::LookupSwitch { .. } => wanted.push(Wanted::Int)?,
        Insn::Binary(_) | Insn::IfCompare { .. } => {
            wanted.push(Wanted::Int)?;
            wanted.push(Wanted::Int)?;
        }
        Insn::IfSame { .. } => {
            wanted.push(Wanted::Reference)?;
            wanted.push(Wanted::Reference)?;
        }
        Insn::IfNull { .. } => wanted.push(Wanted::Reference)?,
        Insn::Array(operation) => push_array(alloc, &mut wanted, *operation)?,
        Insn::ReturnValue(kind) => wanted.push(wanted_result(alloc, method, *kind)?)?,
        Insn::Throw => wanted.push(Wanted::Held(named_object(alloc, b"java/lang/Throwable")?))?,
        Insn::Field(operation, index) => {
            push_field(alloc, pool, &mut wanted, *operation, *index)?
        }
        Insn::Invoke(kind, index) => {
            push_call(
                alloc,
                pool,
                &mut wanted,
                *index,
                *kind != InvokeKind::Static,
            )?
        }
        Insn::InvokeInterface { index, .. } => {
            push_call(alloc, pool, &mut wanted, *index, true)?
        }
        Insn::Class(ClassOperation::New, _) => {}
        Insn::Class(_, _) => wanted.push(Wanted::Initialized)?,
    }
    Ok(wanted)
}

fn of_kind(kind: ValueKind) -> Wanted {
    match kind {
        ValueKind::Int => Wanted::Int,
        ValueKind::Reference => Wanted::Reference,
    }
}

fn push_words(wanted: &mut Vec<Wanted>, count: usize) -> Result<(), AllocError> {
    for _ in 0..count {
        wanted.push(Wanted::Word)?;
    }
    Ok(())
}

/// How many operands an instruction takes that moves them whatever their type.
pub(crate) fn words_taken(operation: StackOperation) -> usize {
    match operation {
        StackOperation::Pop | StackOperation::Dup => 1,
        StackOperation::Pop2 | StackOperation::DupX1 => 2,
        StackOperation::Dup2 | StackOperation::Swap => 2,
        StackOperation::DupX2 | StackOperation::Dup2X1 => 3,
        StackOperation::Dup2X2 => 4,
    }
}

fn push_array(
    alloc: Global,
    wanted: &mut Vec<Wanted>,
    operation: ArrayOperation,
) -> Result<(), AllocError> {
    match operation {
        ArrayOperation::New => wanted.push(Wanted::Int)?,
        ArrayOperation::Length => wanted.push(Wanted::Held(int_array(alloc)?))?,
        ArrayOperation::Load => {
            wanted.push(Wanted::Int)?;
            wanted.push(Wanted::Held(int_array(alloc)?))?;
        }
        ArrayOperation::Store => {
            wanted.push(Wanted::Int)?;
            wanted.push(Wanted::Int)?;
            wanted.push(Wanted::Held(int_array(alloc)?))?;
        }
    }
    Ok(())
}

// What a return asks: what may stand for the method's result.
fn wanted_result(alloc: Global, method: &Method, kind: ValueKind) -> Result<Wanted, AllocError> {
    match (&method.types.result, kind) {
        (Some(given), ValueKind::Reference) => {
            Ok(Wanted::Held(HeldType::of_field(alloc, given)?))
        }
        _ => Ok(of_kind(kind)),
    }
}

fn push_field(
    alloc: Global,
    pool: &Pool,
    wanted: &mut Vec<Wanted>,
    operation: FieldOperation,
    index: u16,
) -> Result<(), AllocError> {
    if operation == FieldOperation::PutField {
        push_held(wanted, field_type(alloc, pool, index)?)?;
    }
    if operation == FieldOperation::GetStatic {
        return Ok(());
    }
    match pool.member(index) {
        Some(member) => push_held(wanted, Some(HeldType::Object(member.class.copy()?))),
        None => Ok(()),
    }
}

fn push_held(wanted: &mut Vec<Wanted>, kind: Option<HeldType>) -> Result<(), AllocError> {
    if let Some(kind) = kind {
        wanted.push(Wanted::Held(kind))?;
    }
    Ok(())
}

fn push_call(
    alloc: Global,
    pool: &Pool,
    wanted: &mut Vec<Wanted>,
    index: u16,
    has_receiver: bool,
) -> Result<(), AllocError> {
    let Some(signature) = signature_of(alloc, pool, index)? else {
        return Ok(());
    };
    for kind in signature.parameters.iter().rev() {
        wanted.push(Wanted::Held(kind.copy()?))?;
    }
    if !has_receiver {
        return Ok(());
    }
    if signature.is_initializer {
        wanted.push(Wanted::Uninitialized)?;
    } else {
        wanted.push(Wanted::Held(HeldType::Object(signature.class)))?;
    }
    Ok(())
}

/// Returns what an instruction at an offset leaves on the stack in place of its operands, but for those that move
/// operands or load a local variable.
pub(crate) fn given_by(
    alloc: Global,
    pool: &Pool,
    at: u16,
    insn: &Insn,
) -> Result<Option<HeldType>, AllocError> {
    match insn {
        Insn::Null => Ok(Some(HeldType::Null)),
        Insn::Constant(_) | Insn::LoadConstant(_) | Insn::Unary(_) | Insn::Binary(_) => {
            Ok(Some(HeldType::Int))
        }
        Insn::Array(ArrayOperation::New) => Ok(Some(int_array(alloc)?)),
        Insn::Array(ArrayOperation::Load | ArrayOperation::Length) => Ok(Some(HeldType::Int)),
        Insn::Field(FieldOperation::GetStatic | FieldOperation::GetField, index) => {
            field_type(alloc, pool, *index)
        }
        Insn::Invoke(_, index) | Insn::InvokeInterface { index, .. } => {
            match signature_of(alloc, pool, *index)? {
                Some(signature) => Ok(signature.gives),
                None => Ok(None),
            }
        }
        Insn::Class(ClassOperation::New, _) => Ok(Some(HeldType::Uninitialized(at))),
        Insn::Class(ClassOperation::CheckCast, index) => named_class(pool, *index),
        Insn::Class(ClassOperation::InstanceOf, _) => Ok(Some(HeldType::Int)),
        _ => Ok(None),
    }
}
