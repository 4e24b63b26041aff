//! The lines of the source from which code was made (JVMS 4.7.10, 4.7.12).

use cf_layout::{Attribute, Layout, Member, read_code, read_layout};
use cf_pool::{Pool, ReadFault, Table, Text, read_u16};
use std::alloc::{AllocError, Global};

/// Where a method's code stands in its source: the file's name, and from which offset on which line.
#[derive(Drop)]
pub struct SourceLines {
    /// The name of the source file, if the class tells it.
    pub file: Option<Text>,
    starts: Vec<(u16, u16)>,
}

impl SourceLines {
    /// Returns the line of the instruction at an offset, if the class tells it.
    pub fn line(&self, at: u16) -> Option<u16> {
        let mut found = None;
        let mut nearest = 0;
        for (start, line) in self.starts.iter() {
            if *start <= at && (found.is_none() || *start >= nearest) {
                nearest = *start;
                found = Some(*line);
            }
        }
        found
    }
}

/// Returns where the code of the method of this index stands in its source, by the bytes of the class file. A file that
/// cannot be read tells nothing.
pub fn source_lines(alloc: Global, bytes: &[u8], method: usize) -> Result<SourceLines, AllocError> {
    match read_layout(alloc, bytes) {
        Ok(layout) => lines_in(alloc, bytes, &layout, method),
        Err(ReadFault::Broken { .. }) => no_lines(alloc),
        Err(ReadFault::Memory) => Err(AllocError),
    }
}

fn no_lines(alloc: Global) -> Result<SourceLines, AllocError> {
    Ok(SourceLines {
        file: None,
        starts: Vec::new(alloc),
    })
}

fn lines_in(
    alloc: Global,
    bytes: &[u8],
    layout: &Layout,
    method: usize,
) -> Result<SourceLines, AllocError> {
    let pool = &layout.pool.pool;
    let file = file_in(bytes, pool, &layout.attributes)?;
    let mut starts = Vec::new(alloc);
    if let Some(member) = layout.methods.as_slice().get(method) {
        add_method(alloc, bytes, pool, member, &mut starts)?;
    }
    Ok(SourceLines { file, starts })
}

// The text that the class's SourceFile attribute names.
fn file_in(
    bytes: &[u8],
    pool: &Pool,
    attributes: &Table<Attribute>,
) -> Result<Option<Text>, AllocError> {
    let Some(attribute) = attribute_of(pool, attributes.as_slice(), b"SourceFile") else {
        return Ok(None);
    };
    let Ok((index, _)) = read_u16(bytes, attribute.body as usize) else {
        return Ok(None);
    };
    match pool.utf8(index) {
        Some(name) => Ok(Some(name.copy()?)),
        None => Ok(None),
    }
}

// The first attribute of this name.
fn attribute_of(pool: &Pool, attributes: &[Attribute], name: &[u8]) -> Option<Attribute> {
    for attribute in attributes {
        if is_named(pool, *attribute, name) {
            return Some(*attribute);
        }
    }
    None
}

fn is_named(pool: &Pool, attribute: Attribute, name: &[u8]) -> bool {
    match pool.utf8(attribute.name.value) {
        Some(text) => text.is(name),
        None => false,
    }
}

// Adds the rows of all LineNumberTables of a method's code.
fn add_method(
    alloc: Global,
    bytes: &[u8],
    pool: &Pool,
    member: &Member,
    starts: &mut Vec<(u16, u16)>,
) -> Result<(), AllocError> {
    let Some(code) = attribute_of(pool, member.attributes.as_slice(), b"Code") else {
        return Ok(());
    };
    let layout = match read_code(alloc, bytes, code) {
        Ok(layout) => layout,
        Err(ReadFault::Broken { .. }) => return Ok(()),
        Err(ReadFault::Memory) => return Err(AllocError),
    };
    for attribute in layout.attributes.as_slice() {
        if is_named(pool, *attribute, b"LineNumberTable") {
            add_table(bytes, *attribute, starts)?;
        }
    }
    Ok(())
}

// Adds the rows of a LineNumberTable, up to the attribute's end.
fn add_table(
    bytes: &[u8],
    attribute: Attribute,
    starts: &mut Vec<(u16, u16)>,
) -> Result<(), AllocError> {
    let Ok((count, mut at)) = read_u16(bytes, attribute.body as usize) else {
        return Ok(());
    };
    for _ in 0..count {
        if at >= attribute.end as usize {
            return Ok(());
        }
        let Ok((start, line_at)) = read_u16(bytes, at) else {
            return Ok(());
        };
        let Ok((line, next)) = read_u16(bytes, line_at) else {
            return Ok(());
        };
        starts.push((start, line))?;
        at = next;
    }
    Ok(())
}
