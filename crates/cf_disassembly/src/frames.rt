//! The types that local variables and operands hold (JVMS 4.10.1.2), by names of classes.

use crate::Shown;
use cf_reader::{ClassFile, ElementType, FieldType, Flags, Method, Text};
use std::alloc::{AllocError, Global};
use std::fmt;

/// What a local variable or an operand holds.
#[derive(Debug, Drop)]
pub enum HeldType {
    /// Nothing that an instruction may use.
    Top,
    Int,
    Null,
    /// The receiver of an `<init>` that has called no other `<init>`.
    UninitializedThis,
    /// What the `new` at this offset made.
    Uninitialized(u16),
    /// An object of a class by its name, or an array by its descriptor.
    Object(Text),
    /// A float, double or long, which the profile leaves out.
    LeftOut,
}

impl HeldType {
    /// Returns a copy. It takes no memory.
    pub fn copy(&self) -> Result<HeldType, AllocError> {
        match self {
            HeldType::Top => Ok(HeldType::Top),
            HeldType::Int => Ok(HeldType::Int),
            HeldType::Null => Ok(HeldType::Null),
            HeldType::UninitializedThis => Ok(HeldType::UninitializedThis),
            HeldType::Uninitialized(at) => Ok(HeldType::Uninitialized(*at)),
            HeldType::Object(name) => Ok(HeldType::Object(name.copy()?)),
            HeldType::LeftOut => Ok(HeldType::LeftOut),
        }
    }

    /// Returns whether two types are the same.
    pub fn is(&self, other: &HeldType) -> bool {
        match (self, other) {
            (HeldType::Top, HeldType::Top) => true,
            (HeldType::Int, HeldType::Int) => true,
            (HeldType::Null, HeldType::Null) => true,
            (HeldType::UninitializedThis, HeldType::UninitializedThis) => true,
            (HeldType::Uninitialized(at), HeldType::Uninitialized(other)) => at == other,
            (HeldType::Object(name), HeldType::Object(other)) => name.is(other.as_bytes()),
            (HeldType::LeftOut, HeldType::LeftOut) => true,
            _ => false,
        }
    }

    /// Returns what a value of a field type is held as: a boolean is an int.
    pub fn of_field(alloc: Global, kind: &FieldType) -> Result<HeldType, AllocError> {
        if kind.dimensions > 0 {
            return array_type(alloc, kind);
        }
        match &kind.element {
            ElementType::Class(name) => Ok(HeldType::Object(name.copy()?)),
            ElementType::Double | ElementType::Float | ElementType::Long => Ok(HeldType::LeftOut),
            _ => Ok(HeldType::Int),
        }
    }
}

fn array_type(alloc: Global, kind: &FieldType) -> Result<HeldType, AllocError> {
    let mut descriptor = vec![in alloc; b'['; kind.dimensions as usize]?;
    match &kind.element {
        ElementType::Byte => descriptor.push(b'B')?,
        ElementType::Char => descriptor.push(b'C')?,
        ElementType::Double => descriptor.push(b'D')?,
        ElementType::Float => descriptor.push(b'F')?,
        ElementType::Int => descriptor.push(b'I')?,
        ElementType::Long => descriptor.push(b'J')?,
        ElementType::Short => descriptor.push(b'S')?,
        ElementType::Boolean => descriptor.push(b'Z')?,
        ElementType::Class(name) => {
            descriptor.push(b'L')?;
            descriptor.extend_from_slice(name.as_bytes())?;
            descriptor.push(b';')?;
        }
    }
    Ok(HeldType::Object(Text::new(alloc, descriptor)?))
}

impl fmt::Display for HeldType {
    fn fmt<W: fmt::Write>(&self, f: &mut fmt::Formatter<W>) -> fmt::Result {
        match self {
            HeldType::Top => f.write_str("-"),
            HeldType::Int => f.write_str("int"),
            HeldType::Null => f.write_str("null"),
            HeldType::UninitializedThis => f.write_str("this (not initialized)"),
            HeldType::Uninitialized(at) => write!(f, "new at {at} (not initialized)"),
            HeldType::Object(name) => write_class(f, name),
            HeldType::LeftOut => f.write_str("float, double or long"),
        }
    }
}

fn write_class<W: fmt::Write>(f: &mut fmt::Formatter<W>, name: &Text) -> fmt::Result {
    let bytes = name.as_bytes();
    if bytes == b"[I".as_slice() {
        f.write_str("int[]")
    } else {
        write!(f, "{}", Shown(bytes))
    }
}

/// What the local variables and the operands hold before an instruction.
#[derive(Debug, Drop)]
pub struct CodeFrame {
    pub locals: Vec<HeldType>,
    /// The operands, the top one last.
    pub stack: Vec<HeldType>,
}

impl CodeFrame {
    /// Returns the frame with which a method of a class begins: its receiver, if it has one, and its arguments.
    pub fn opening(
        alloc: Global,
        class: &ClassFile,
        method: &Method,
    ) -> Result<CodeFrame, AllocError> {
        let mut locals = Vec::new(alloc);
        if !method.flags.has(Flags::STATIC) {
            locals.push(receiver_of(class, method)?)?;
        }
        for kind in method.types.parameters.iter() {
            locals.push(HeldType::of_field(alloc, kind)?)?;
        }
        Ok(CodeFrame {
            locals,
            stack: Vec::new(alloc),
        })
    }

    /// Returns a copy.
    pub fn copy(&self, alloc: Global) -> Result<CodeFrame, AllocError> {
        Ok(CodeFrame {
            locals: copied(alloc, self.locals.as_slice())?,
            stack: copied(alloc, self.stack.as_slice())?,
        })
    }

    /// Sets a local variable. Those below it that were not there hold nothing.
    pub fn set_local(&mut self, number: u16, kind: HeldType) -> Result<(), AllocError> {
        for _ in self.locals.len()..(number as usize).saturating_add(1) {
            self.locals.push(HeldType::Top)?;
        }
        if let Some(local) = self.locals.get_mut(number as usize) {
            *local = kind;
        }
        Ok(())
    }

    /// Returns what a local variable holds.
    pub fn local(&self, number: u16) -> Result<HeldType, AllocError> {
        match self.locals.get(number as usize) {
            Some(kind) => kind.copy(),
            None => Ok(HeldType::Top),
        }
    }

    /// An object that was not initialized is one of its class from now on.
    pub fn initialize(&mut self, object: &HeldType, class: &Text) -> Result<(), AllocError> {
        initialize_each(&mut self.locals, object, class)?;
        initialize_each(&mut self.stack, object, class)
    }
}

fn initialize_each(
    kinds: &mut Vec<HeldType>,
    object: &HeldType,
    class: &Text,
) -> Result<(), AllocError> {
    for kind in kinds.iter_mut() {
        if kind.is(object) {
            *kind = HeldType::Object(class.copy()?);
        }
    }
    Ok(())
}

fn receiver_of(class: &ClassFile, method: &Method) -> Result<HeldType, AllocError> {
    if method.name.is(b"<init>") {
        Ok(HeldType::UninitializedThis)
    } else {
        Ok(HeldType::Object(class.name.copy()?))
    }
}

/// Returns copies of types.
pub(crate) fn copied(alloc: Global, kinds: &[HeldType]) -> Result<Vec<HeldType>, AllocError> {
    let mut copies = Vec::new(alloc);
    for kind in kinds {
        copies.push(kind.copy()?)?;
    }
    Ok(copies)
}

// How many types of a row are shown; of more only the number is told.
const MOST_SHOWN: usize = 32;

impl fmt::Display for CodeFrame {
    fn fmt<W: fmt::Write>(&self, f: &mut fmt::Formatter<W>) -> fmt::Result {
        f.write_str("locals [")?;
        write_types(f, self.locals.as_slice())?;
        f.write_str("] stack [")?;
        write_types(f, self.stack.as_slice())?;
        f.write_str("]")
    }
}

fn write_types<W: fmt::Write>(f: &mut fmt::Formatter<W>, kinds: &[HeldType]) -> fmt::Result {
    for (index, kind) in kinds.iter().take(MOST_SHOWN).enumerate() {
        if index > 0 {
            f.write_str(", ")?;
        }
        write!(f, "{kind}")?;
    }
    if kinds.len() > MOST_SHOWN {
        write!(f, " and {} more", kinds.len() - MOST_SHOWN)?;
    }
    Ok(())
}
