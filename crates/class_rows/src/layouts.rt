//! The raw items of class files.

use super::spelling::plain;
use cf_layout::{
    Attribute, CodeLayout, Item, Layout, Member, between, check_table, read_code, read_constant,
    read_layout,
};
use cf_text::{FileBytes, ReadFault, Row, Text, read_row, read_text};
use std::alloc::Global;
use test_rows::{RowFault, put};

/// Prints the items of a class file, and what stands in attributes of fields, of methods and of code.
pub fn play(alloc: Global, said: &mut Vec<u8>, bytes: &[u8]) -> Result<(), RowFault> {
    match layout_of(alloc, bytes) {
        Ok(layout) => put_layout(alloc, said, bytes, &layout),
        Err(fault) => put(said, "refused", &fault),
    }
}

// What the calls answer. These functions promise nothing, so that a row is proved at once.
fn layout_of(alloc: Global, bytes: &[u8]) -> Result<Layout, ReadFault> {
    read_layout(alloc, bytes)
}

fn constant_in(bytes: &[u8], attribute: Attribute) -> Result<Item, ReadFault> {
    read_constant(bytes, attribute)
}

fn code_in(alloc: Global, bytes: &[u8], attribute: Attribute) -> Result<CodeLayout, ReadFault> {
    read_code(alloc, bytes, attribute)
}

fn table_in(bytes: &[u8], attribute: Attribute) -> Result<(), ReadFault> {
    check_table(bytes, attribute)
}

/// Returns the bytes from `from` on that stand before `to`.
pub fn bytes_between(
    alloc: Global,
    bytes: &[u8],
    from: usize,
    to: usize,
) -> Result<Row<u8>, ReadFault> {
    between(alloc, bytes, from, to)
}

/// Returns the next `length` bytes, and the position after them.
pub fn row_at(
    alloc: Global,
    bytes: &[u8],
    from: usize,
    length: usize,
) -> Result<(Row<u8>, usize), ReadFault> {
    read_row(alloc, bytes, from, length)
}

fn text_at(file: &FileBytes, from: usize, length: usize) -> Result<(Text, usize), ReadFault> {
    read_text(file, from, length)
}

fn put_layout(
    alloc: Global,
    said: &mut Vec<u8>,
    bytes: &[u8],
    layout: &Layout,
) -> Result<(), RowFault> {
    put_front(said, layout)?;
    put(said, "fields", &layout.field_count)?;
    for field in layout.fields.as_slice() {
        put_field(said, bytes, field)?;
    }
    put(said, "methods", &layout.method_count)?;
    for method in layout.methods.as_slice() {
        put_method(alloc, said, bytes, method)?;
    }
    put(said, "attributes", &layout.attributes)
}

// What stands before the fields.
fn put_front(said: &mut Vec<u8>, layout: &Layout) -> Result<(), RowFault> {
    put(said, "pool of", &layout.pool.positions.as_slice().len())?;
    put(said, "flags", &layout.flags)?;
    put(said, "this", &layout.this)?;
    put(said, "superclass", &layout.superclass)?;
    put(said, "interfaces", &layout.interface_count)?;
    put(said, "interfaces", &layout.interfaces)
}

fn put_field(said: &mut Vec<u8>, bytes: &[u8], field: &Member) -> Result<(), RowFault> {
    put(said, "field", field)?;
    for attribute in field.attributes.as_slice() {
        put(said, "constant", &constant_in(bytes, *attribute))?;
    }
    Ok(())
}

fn put_method(
    alloc: Global,
    said: &mut Vec<u8>,
    bytes: &[u8],
    method: &Member,
) -> Result<(), RowFault> {
    put(said, "method", method)?;
    for attribute in method.attributes.as_slice() {
        put_code(said, bytes, &code_in(alloc, bytes, *attribute))?;
    }
    Ok(())
}

fn put_code(
    said: &mut Vec<u8>,
    bytes: &[u8],
    answer: &Result<CodeLayout, ReadFault>,
) -> Result<(), RowFault> {
    put(said, "code", answer)?;
    if let Ok(code) = answer {
        for attribute in code.attributes.as_slice() {
            put(said, "table", &table_in(bytes, *attribute))?;
        }
    }
    Ok(())
}

/// Prints the next `length` bytes as a text, and the position after them.
pub fn put_text(
    said: &mut Vec<u8>,
    file: &FileBytes,
    from: usize,
    length: usize,
) -> Result<(), RowFault> {
    match text_at(file, from, length) {
        Ok((text, to)) => put(said, "text", &(plain(&text), to)),
        Err(fault) => put(said, "refused", &fault),
    }
}
