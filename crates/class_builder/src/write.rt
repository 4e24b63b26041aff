//! Class files from their parts.

ghost use Rattle.class_builder.specs.declared.write.BuildFault.TheVariants.{Memory};
ghost use Rattle.std.specs.Prelude.{◌≡◌, IfOk};
ghost use Rattle.std.specs.Io.{StartsWith};

use super::pool::PoolParts;
use super::{AttributeParts, ClassParts, CodeParts, FieldParts, MethodParts};
use std::alloc::{AllocError, AllocFailed, Global};
use thiserror::Error;

/// Why parts make no class file.
#[derive(Clone, Copy, Debug, PartialEq, Eq, Error)]
pub enum BuildFault {
    #[error("a part is too long for its count or length")]
    TooLong,
    #[error("memory ran out")]
    Memory,
}

impl From<AllocError> for BuildFault {
    ghost from_gives = { λ _ fault. fault ≡ Memory };

    fn from(_: AllocError) -> BuildFault {
        BuildFault::Memory
    }
}

impl<T: Drop> From<AllocFailed<T>> for BuildFault {
    ghost from_gives = { λ _ fault. fault ≡ Memory };

    fn from(_: AllocFailed<T>) -> BuildFault {
        BuildFault::Memory
    }
}

/// What each file begins with: the magic number and version 52.0.
pub const HEADER: [u8; 8] = [0xca, 0xfe, 0xba, 0xbe, 0, 0, 0, 52];

/// Returns the bytes of the class file that has these parts. Tests compare them with a known file;
/// the contract says only how a class file begins.
pub fn class_bytes(alloc: Global, class: &ClassParts) -> Result<Vec<u8>, BuildFault>
    ensures header { IfOk result (λ file. StartsWith file.items HEADER) }
{
    let mut pool = PoolParts::new(alloc);
    let mut rest = Vec::new(alloc);
    put_u16(&mut rest, class.flags)?;
    put_u16(&mut rest, pool.class(class.name)?)?;
    put_u16(&mut rest, pool.class(class.superclass)?)?;
    put_count(&mut rest, class.interfaces.len())?;
    for interface in class.interfaces {
        put_u16(&mut rest, pool.class(interface)?)?;
    }
    put_fields(&mut pool, &mut rest, class.fields)?;
    put_methods(alloc, &mut pool, &mut rest, class.methods)?;
    put_attributes(&mut pool, &mut rest, class.attributes)?;

    let mut file = Vec::from_slice(alloc, &HEADER)?;
    file.extend_from_slice(&pool.bytes()?)?;
    file.extend_from_slice(&rest)?;
    Ok(file)
}

fn put_fields(
    pool: &mut PoolParts,
    out: &mut Vec<u8>,
    fields: &[FieldParts],
) -> Result<(), BuildFault> {
    put_count(out, fields.len())?;
    for field in fields {
        put_field(pool, out, field)?;
    }
    Ok(())
}

fn put_field(
    pool: &mut PoolParts,
    out: &mut Vec<u8>,
    field: &FieldParts,
) -> Result<(), BuildFault> {
    put_u16(out, field.flags)?;
    put_u16(out, pool.utf8(field.name)?)?;
    put_u16(out, pool.utf8(field.descriptor)?)?;
    let Some(value) = field.constant else {
        return put_attributes(pool, out, field.attributes);
    };
    let name = pool.utf8("ConstantValue")?;
    let index = pool.integer(value)?;
    put_count(out, field.attributes.len().saturating_add(1))?;
    put_u16(out, name)?;
    put_sized(out, &index.to_be_bytes())?;
    for attribute in field.attributes {
        put_attribute(pool, out, attribute)?;
    }
    Ok(())
}

fn put_methods(
    alloc: Global,
    pool: &mut PoolParts,
    out: &mut Vec<u8>,
    methods: &[MethodParts],
) -> Result<(), BuildFault> {
    put_count(out, methods.len())?;
    for method in methods {
        put_method(alloc, pool, out, method)?;
    }
    Ok(())
}

fn put_method(
    alloc: Global,
    pool: &mut PoolParts,
    out: &mut Vec<u8>,
    method: &MethodParts,
) -> Result<(), BuildFault> {
    put_u16(out, method.flags)?;
    put_u16(out, pool.utf8(method.name)?)?;
    put_u16(out, pool.utf8(method.descriptor)?)?;
    let Some(code) = &method.code else {
        return put_attributes(pool, out, method.attributes);
    };
    let name = pool.utf8("Code")?;
    let code = code_bytes(alloc, pool, code)?;
    put_count(out, method.attributes.len().saturating_add(1))?;
    put_u16(out, name)?;
    put_sized(out, &code)?;
    for attribute in method.attributes {
        put_attribute(pool, out, attribute)?;
    }
    Ok(())
}

// The bytes of a Code attribute after its length.
fn code_bytes(
    alloc: Global,
    pool: &mut PoolParts,
    code: &CodeParts,
) -> Result<Vec<u8>, BuildFault> {
    let mut out = Vec::new(alloc);
    put_u16(&mut out, code.max_stack)?;
    put_u16(&mut out, code.max_locals)?;
    put_sized(&mut out, code.bytes)?;
    let no_handlers = 0;
    put_u16(&mut out, no_handlers)?;
    put_attributes(pool, &mut out, code.attributes)?;
    Ok(out)
}

fn put_attributes(
    pool: &mut PoolParts,
    out: &mut Vec<u8>,
    attributes: &[AttributeParts],
) -> Result<(), BuildFault> {
    put_count(out, attributes.len())?;
    for attribute in attributes {
        put_attribute(pool, out, attribute)?;
    }
    Ok(())
}

fn put_attribute(
    pool: &mut PoolParts,
    out: &mut Vec<u8>,
    attribute: &AttributeParts,
) -> Result<(), BuildFault> {
    put_u16(out, pool.utf8(attribute.name)?)?;
    put_sized(out, attribute.bytes)
}

// Writes bytes after their length of four bytes.
fn put_sized(out: &mut Vec<u8>, bytes: &[u8]) -> Result<(), BuildFault> {
    let length = u32::try_from(bytes.len()).map_err(|_| BuildFault::TooLong)?;
    out.extend_from_slice(&length.to_be_bytes())?;
    out.extend_from_slice(bytes)?;
    Ok(())
}

fn put_count(out: &mut Vec<u8>, count: usize) -> Result<(), BuildFault> {
    let count = u16::try_from(count).map_err(|_| BuildFault::TooLong)?;
    put_u16(out, count)
}

fn put_u16(out: &mut Vec<u8>, number: u16) -> Result<(), BuildFault> {
    out.extend_from_slice(&number.to_be_bytes())?;
    Ok(())
}
