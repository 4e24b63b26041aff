//! The field types that descriptors of one file name, each once in memory.

ghost use Rattle.std.specs.Prelude.{◌≡◌, IsTrue, IfOk};

use super::{ElementType, FieldType, Shared};
use std::alloc::{AllocError, Global};
use std::collections::BTreeMap;

// How many types of no class are kept: the letters, and arrays of them of one dimension.
const MOST_PLAIN: usize = 16;

/// Field types that were read, so that a type that is named again is shared.
#[derive(Drop)]
pub struct KnownTypes<'a> {
    // Types of no class.
    plain: Vec<Shared<FieldType>>,
    // Types of classes, by the texts that spell them.
    classes: BTreeMap<&'a [u8], Shared<FieldType>>,
}

fn is_same_element(one: &ElementType, other: &ElementType) -> bool
    ensures { IsTrue result → one.now ≡ other.now }
{
    match (one, other) {
        (ElementType::Byte, ElementType::Byte) => true,
        (ElementType::Char, ElementType::Char) => true,
        (ElementType::Double, ElementType::Double) => true,
        (ElementType::Float, ElementType::Float) => true,
        (ElementType::Int, ElementType::Int) => true,
        (ElementType::Long, ElementType::Long) => true,
        (ElementType::Short, ElementType::Short) => true,
        (ElementType::Boolean, ElementType::Boolean) => true,
        (ElementType::Class(name), ElementType::Class(other)) => name.is(other.as_bytes()),
        _ => false,
    }
}

pub(crate) fn is_same(one: &FieldType, other: &FieldType) -> bool
    ensures { IsTrue result → one.now ≡ other.now }
{
    one.dimensions == other.dimensions && is_same_element(&one.element, &other.element)
}

impl<'a> KnownTypes<'a> {
    /// Returns no types.
    pub fn new(alloc: Global) -> KnownTypes<'a> {
        KnownTypes {
            plain: Vec::new(alloc),
            classes: BTreeMap::new(alloc),
        }
    }

    /// Returns a type, which this text spells, with one owner more: it takes no memory if the type
    /// is among those that were read before.
    pub fn share(
        &mut self,
        alloc: Global,
        text: &'a [u8],
        kind: FieldType,
    ) -> Result<Shared<FieldType>, AllocError>
        ensures { IfOk result (λ shared. shared ≡ kind) }
    {
        match kind.element {
            ElementType::Class(_) => self.share_class(alloc, text, kind),
            _ => self.share_plain(alloc, kind),
        }
    }

    fn share_plain(
        &mut self,
        alloc: Global,
        kind: FieldType,
    ) -> Result<Shared<FieldType>, AllocError>
        ensures { IfOk result (λ shared. shared ≡ kind) }
    {
        for known in self.plain.as_slice() {
            if is_same(known, &kind) {
                return known.share();
            }
        }
        let shared = Shared::new(alloc, kind)?;
        if self.plain.len() < MOST_PLAIN {
            self.plain.push(shared.share()?)?;
        }
        Ok(shared)
    }

    fn share_class(
        &mut self,
        alloc: Global,
        text: &'a [u8],
        kind: FieldType,
    ) -> Result<Shared<FieldType>, AllocError>
        ensures { IfOk result (λ shared. shared ≡ kind) }
    {
        if let Some(known) = self.classes.get(&text) {
            if is_same(known, &kind) {
                return known.share();
            }
        }
        let shared = Shared::new(alloc, kind)?;
        self.classes.insert(text, shared.share()?)?;
        Ok(shared)
    }
}
