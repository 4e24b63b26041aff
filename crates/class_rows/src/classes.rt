//! Class files, from bytes and from sources.

use super::devices::source_of;
use super::pools::put_pool;
use super::spelling::plain;
use cf_load::{LoadFault, load};
use cf_reader::{ClassFile, Field, Method, ReadClass, read_class};
use cf_text::{
    Descriptor, ElementType, FieldType, MethodDescriptor, Numbered, ReadFault, Text, descriptor,
};
use dev_io::MemSource;
use std::alloc::{AllocError, Global};
use std::io::Write;
use test_rows::{RowFault, put};

/// Prints the class that bytes spell, or why they are refused.
pub fn play(alloc: Global, said: &mut Vec<u8>, bytes: &[u8]) -> Result<(), RowFault> {
    match class_of(alloc, bytes) {
        Ok(class) => put_class(said, class.file()),
        Err(fault) => put(said, "refused", &fault),
    }
}

// What the calls answer. These functions promise nothing, so that a row is proved at once.
fn class_of(alloc: Global, bytes: &[u8]) -> Result<ReadClass, ReadFault> {
    read_class(alloc, bytes)
}

fn loaded(alloc: Global, source: &mut MemSource) -> Result<ReadClass, LoadFault> {
    load(alloc, source)
}

fn described(alloc: Global, text: &Text) -> Result<Option<Descriptor>, AllocError> {
    descriptor(alloc, text)
}

fn put_class(said: &mut Vec<u8>, class: &ClassFile) -> Result<(), RowFault> {
    put(said, "class", &(class.flags, plain(&class.name)))?;
    if let Some(superclass) = &class.superclass {
        put(said, "extends", &plain(superclass))?;
    }
    for interface in class.interfaces.as_slice() {
        put(said, "implements", &plain(interface))?;
    }
    for field in class.fields.as_slice() {
        put_field(said, field)?;
    }
    for method in class.methods.as_slice() {
        put_method(said, method)?;
    }
    put_pool(said, &class.pool)
}

fn put_field(said: &mut Vec<u8>, field: &Field) -> Result<(), RowFault> {
    let (name, descriptor) = (plain(&field.name), plain(&field.descriptor));
    put(
        said,
        "field",
        &(field.flags, name, descriptor, field.constant),
    )?;
    put_type(said, "type", &field.kind)
}

fn put_method(said: &mut Vec<u8>, method: &Method) -> Result<(), RowFault> {
    let (name, descriptor) = (plain(&method.name), plain(&method.descriptor));
    put(said, "method", &(method.flags, name, descriptor))?;
    put_types(said, &method.types)?;
    put(said, "code", &*method.code)
}

/// Prints the name of the class that a source gives, or why it does not come.
pub fn put_loaded(
    alloc: Global,
    said: &mut Vec<u8>,
    source: &mut MemSource,
) -> Result<(), RowFault> {
    match loaded(alloc, source) {
        Ok(class) => put(said, "class", &plain(&class.file().name)),
        Err(fault) => put_fault(said, fault),
    }
}

fn put_fault(said: &mut Vec<u8>, fault: LoadFault) -> Result<(), RowFault> {
    put(said, "refused", &fault)?;
    writeln!(said, "{} {fault}", fault.number())?;
    Ok(())
}

/// Prints how many calls of a source that gives a byte a call lose the class if they fail, of two more than
/// it has bytes.
pub fn put_lost(alloc: Global, said: &mut Vec<u8>, bytes: &[u8]) -> Result<(), RowFault> {
    let mut lost: u64 = 0;
    for call in 0..=bytes.len() as u64 + 1 {
        let mut source = source_of(bytes.to_vec(alloc)?, 1, call + 1)?;
        if let Err(LoadFault::Device) = loaded(alloc, &mut source) {
            lost = lost.saturating_add(1);
        }
    }
    put(said, "lost", &lost)
}

/// Prints the types that a descriptor names, or `none` if the text is no descriptor.
pub fn put_descriptor(alloc: Global, said: &mut Vec<u8>, text: &str) -> Result<(), RowFault> {
    let text = Text::new(alloc, text.as_bytes().to_vec(alloc)?)?;
    match described(alloc, &text)? {
        Some(Descriptor::Method(method)) => put_types(said, &method),
        Some(Descriptor::Field(kind)) => put_type(said, "type", &kind),
        None => put(said, "none", &()),
    }
}

fn put_types(said: &mut Vec<u8>, method: &MethodDescriptor) -> Result<(), RowFault> {
    for parameter in method.parameters.iter() {
        put_type(said, "parameter", parameter)?;
    }
    match &method.result {
        Some(kind) => put_type(said, "result", kind),
        None => put(said, "result", &()),
    }
}

fn put_type(said: &mut Vec<u8>, word: &str, kind: &FieldType) -> Result<(), RowFault> {
    put(said, word, &(kind.dimensions, element_name(&kind.element)))
}

fn element_name(element: &ElementType) -> &str {
    match element {
        ElementType::Byte => "byte",
        ElementType::Char => "char",
        ElementType::Double => "double",
        ElementType::Float => "float",
        ElementType::Int => "int",
        ElementType::Long => "long",
        ElementType::Short => "short",
        ElementType::Boolean => "boolean",
        ElementType::Class(name) => plain(name),
    }
}
