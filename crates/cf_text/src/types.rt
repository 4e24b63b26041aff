//! Descriptors (JVMS 4.3): the types of fields, and of methods' parameters and results.

ghost use Rattle.std.specs.Prelude.{◌≡◌, [], None, IfOk};

use super::interning::Interner;
use super::{Parameters, Row, Shared, Text};
use std::alloc::{AllocError, Global};
use std::marker::Model;

/// A field type (JVMS 4.3.2): an element type after 0 to 255 array dimensions.
#[derive(Drop)]
pub struct FieldType {
    pub dimensions: u8,
    pub element: ElementType,
}

/// A field type that is no array.
#[derive(Drop)]
pub enum ElementType {
    Byte,
    Char,
    Double,
    Float,
    Int,
    Long,
    Short,
    Boolean,
    /// A class or interface, by its name with `/` between its parts.
    Class(Text),
}

/// A method descriptor (JVMS 4.3.3). `result` is `None` for `V`. A type stands once in memory, also if
/// it is named again.
#[derive(Drop)]
pub struct MethodDescriptor {
    pub parameters: Parameters,
    pub result: Option<Shared<FieldType>>,
}

/// A method descriptor as it is read, each of its types by itself. A contract sees it as the method
/// descriptor.
#[derive(Drop)]
pub struct ReadDescriptor {
    pub parameters: Row<Shared<FieldType>>,
    pub result: Option<Shared<FieldType>>,
}

impl Model for ReadDescriptor {
    ghost use Rattle.cf_text.specs.declared.types.MethodDescriptor.{MethodDescriptor as Packed};

    ghost Value = { Packed };

    ghost view = { λ read. record { parameters = read.parameters; result = read.result } };
}

/// What a descriptor's text says.
#[derive(Drop)]
pub enum Descriptor {
    Field(FieldType),
    Method(MethodDescriptor),
}

impl FieldType {
    /// Returns a copy, whose class has the same bytes. It takes no memory.
    pub fn copy(&self) -> Result<FieldType, AllocError>
        ensures { IfOk result (λ copy. copy ≡ self.now) }
    {
        Ok(FieldType {
            dimensions: self.dimensions,
            element: self.element.copy()?,
        })
    }
}

impl ElementType {
    fn copy(&self) -> Result<ElementType, AllocError>
        ensures { IfOk result (λ copy. copy ≡ self.now) }
    {
        match self {
            ElementType::Byte => Ok(ElementType::Byte),
            ElementType::Char => Ok(ElementType::Char),
            ElementType::Double => Ok(ElementType::Double),
            ElementType::Float => Ok(ElementType::Float),
            ElementType::Int => Ok(ElementType::Int),
            ElementType::Long => Ok(ElementType::Long),
            ElementType::Short => Ok(ElementType::Short),
            ElementType::Boolean => Ok(ElementType::Boolean),
            ElementType::Class(name) => Ok(ElementType::Class(name.copy()?)),
        }
    }
}

impl MethodDescriptor {
    /// Returns the descriptor `()V`.
    #[tactic(auto, unfolding(crate::specs::TypesAt::types_at))]
    pub fn without_types(alloc: Global) -> Result<MethodDescriptor, AllocError>
        ensures { IfOk result (λ types. types ≡ record { parameters = []; result = None }) }
    {
        let types = Shared::new(alloc, Row::new(Vec::new(alloc)))?;
        Ok(MethodDescriptor {
            parameters: Parameters::new(types, Vec::new(alloc)),
            result: None,
        })
    }
}

impl ReadDescriptor {
    /// Returns the same with a table of types of its own.
    pub fn packed(&self, alloc: Global) -> Result<MethodDescriptor, AllocError>
        ensures { IfOk result (λ packed. packed ≡ self.now) }
    {
        let mut types = Interner::new(alloc);
        types.add(self)?;
        types.into_table()?.pack(alloc, self)
    }
}
