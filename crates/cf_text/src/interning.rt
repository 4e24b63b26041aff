//! The field types that the methods of a class name, each once in a table.

ghost use Rattle.std.specs.Prelude.{◌≡◌, Some, IfOk, IfSome, length, slice_get};
ghost use Rattle.cf_text.specs.TypesAt.{types_at};

use super::known::is_same;
use super::{ElementType, FieldType, MethodDescriptor, Parameters, ReadDescriptor, Row, Shared};
use std::alloc::{AllocError, Global};
use std::collections::BTreeMap;

/// Field types that are to stand once in the table of a class, and the index of each.
#[derive(Drop)]
pub struct Interner<'a> {
    alloc: Global,
    types: Vec<FieldType>,
    indices: TypeIndices<'a>,
}

/// A table of field types, and the index of each.
#[derive(Drop)]
pub struct TypeTable<'a> {
    types: Shared<Row<FieldType>>,
    indices: TypeIndices<'a>,
}

// Where types stand in a table. What it says is looked at in the table before it counts.
#[derive(Drop)]
struct TypeIndices<'a> {
    // Types of no class: few.
    plain: Vec<u32>,
    // Types of classes, by their dimensions and the names of the classes.
    classes: BTreeMap<(u8, &'a [u8]), u32>,
}

impl<'a> TypeIndices<'a> {
    // The index of a type in this table, if it is known.
    fn find(&self, types: &[FieldType], kind: &'a FieldType) -> Option<u32>
        ensures { IfSome result (λ index. slice_get types.now index ≡ Some kind.now) }
    {
        match &kind.element {
            ElementType::Class(name) => self.find_class(types, kind, name.as_bytes()),
            _ => self.find_plain(types, kind),
        }
    }

    fn find_class(&self, types: &[FieldType], kind: &'a FieldType, name: &'a [u8]) -> Option<u32>
        ensures { IfSome result (λ index. slice_get types.now index ≡ Some kind.now) }
    {
        match self.classes.get(&(kind.dimensions, name)) {
            Some(index) => if_same(types, kind, *index),
            None => None,
        }
    }

    fn find_plain(&self, types: &[FieldType], kind: &FieldType) -> Option<u32>
        ensures { IfSome result (λ index. slice_get types.now index ≡ Some kind.now) }
    {
        for index in self.plain.as_slice() {
            if let Some(found) = if_same(types, kind, *index) {
                return Some(found);
            }
        }
        None
    }

    // Notes the index of a type.
    fn note(&mut self, kind: &'a FieldType, index: u32) -> Result<(), AllocError> {
        match &kind.element {
            ElementType::Class(name) => {
                self.classes
                    .insert((kind.dimensions, name.as_bytes()), index)?;
            }
            _ => self.plain.push(index)?,
        }
        Ok(())
    }
}

// The index, if the type stands there.
fn if_same(types: &[FieldType], kind: &FieldType, index: u32) -> Option<u32>
    ensures { IfSome result (λ index. slice_get types.now index ≡ Some kind.now) }
{
    match types.get(index as usize) {
        Some(known) if is_same(known, kind) => Some(index),
        _ => None,
    }
}

impl<'a> Interner<'a> {
    /// Returns an empty one.
    pub fn new(alloc: Global) -> Interner<'a> {
        Interner {
            alloc,
            types: Vec::new(alloc),
            indices: TypeIndices {
                plain: Vec::new(alloc),
                classes: BTreeMap::new(alloc),
            },
        }
    }

    /// Enters the types of the parameters of a descriptor.
    pub fn add(&mut self, descriptor: &'a ReadDescriptor) -> Result<(), AllocError> {
        for kind in descriptor.parameters.as_slice() {
            self.add_type(kind)?;
        }
        Ok(())
    }

    fn add_type(&mut self, kind: &'a FieldType) -> Result<(), AllocError> {
        if self.indices.find(self.types.as_slice(), kind).is_some() {
            return Ok(());
        }
        let Ok(index) = u32::try_from(self.types.len()) else {
            return Err(AllocError);
        };
        self.types.push(kind.copy()?)?;
        self.indices.note(kind, index)
    }

    /// Returns the table of what was entered, in as much memory as it takes.
    pub fn into_table(self) -> Result<TypeTable<'a>, AllocError> {
        let Interner {
            alloc,
            types,
            indices,
        } = self;
        let mut exact = Vec::with_capacity(alloc, types.len())?;
        for kind in types {
            exact.push(kind)?;
        }
        Ok(TypeTable {
            types: Shared::new(alloc, Row::new(exact))?,
            indices,
        })
    }
}

impl<'a> TypeTable<'a> {
    /// Returns a descriptor whose parameters were entered, with indices of the table for their types.
    pub fn pack(
        &self,
        alloc: Global,
        descriptor: &'a ReadDescriptor,
    ) -> Result<MethodDescriptor, AllocError>
        ensures { IfOk result (λ packed. packed ≡ descriptor.now) }
    {
        let indices = self.indices_of(alloc, descriptor.parameters.as_slice())?;
        let result = match &descriptor.result {
            Some(kind) => Some(kind.share()?),
            None => None,
        };
        Ok(MethodDescriptor {
            parameters: Parameters::new(self.types.share()?, indices),
            result,
        })
    }

    // The indices of types. Each was entered, so that none is missing.
    #[tactic(auto, unfolding(crate::specs::TypesAt::types_at), using(crate::proofs::Indexed::types_push))]
    fn indices_of(
        &self,
        alloc: Global,
        kinds: &'a [Shared<FieldType>],
    ) -> Result<Vec<u32>, AllocError>
        ensures types { IfOk result (λ indices. types_at self.now.types indices.items ≡ kinds.now) }
        ensures all { IfOk result (λ indices. length indices.items ≡ length kinds.now) }
    {
        let mut indices = Vec::with_capacity(alloc, kinds.len())?;
        for kind in kinds {
            let Some(index) = self.indices.find(self.types.as_slice(), kind) else {
                return Err(AllocError);
            };
            indices.push(index)?;
        }
        Ok(indices)
    }
}
