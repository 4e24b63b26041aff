//! Items of a class file: big-endian numbers and runs of bytes, each read from a position on, with the
//! position after it. Positions count from the start of the file. An item that is cut is a fault at its
//! first byte.

ghost use Rattle.cf_text.specs.Reading.{Gives};
ghost use Rattle.cf_text.specs.Numbers.{bytes_at, number_at, signed_at, skip_at};

use super::{FileBytes, ReadFault, Row, Rule, Text};
use byteorder::{BigEndian, ByteOrder};
use std::alloc::Global;

/// Returns the position after the next `len` bytes.
pub fn skip(bytes: &[u8], at: usize, len: usize) -> Result<usize, ReadFault>
    ensures { Gives (skip_at len bytes.now at) result }
{
    if at > bytes.len() || bytes.len() - at < len {
        return Err(ReadFault::Broken {
            rule: Rule::Truncated,
            at,
        });
    }
    Ok(at + len)
}

/// Returns a number of one byte.
pub fn read_u8(bytes: &[u8], at: usize) -> Result<(u8, usize), ReadFault>
    ensures { Gives (number_at 1 bytes.now at) result }
{
    let to = skip(bytes, at, 1)?;
    Ok((bytes[at], to))
}

/// Returns a number of two bytes.
pub fn read_u16(bytes: &[u8], at: usize) -> Result<(u16, usize), ReadFault>
    ensures { Gives (number_at 2 bytes.now at) result }
{
    let to = skip(bytes, at, 2)?;
    Ok((BigEndian::read_u16(&bytes[at..]), to))
}

/// Returns a number of four bytes.
pub fn read_u32(bytes: &[u8], at: usize) -> Result<(u32, usize), ReadFault>
    ensures { Gives (number_at 4 bytes.now at) result }
{
    let to = skip(bytes, at, 4)?;
    Ok((BigEndian::read_u32(&bytes[at..]), to))
}

/// Returns a signed number of four bytes, in two's complement.
#[tactic(auto, unfolding(crate::specs::Numbers::signed_at))]
pub fn read_i32(bytes: &[u8], at: usize) -> Result<(i32, usize), ReadFault>
    ensures { Gives (signed_at bytes.now at) result }
{
    let (bits, to) = read_u32(bytes, at)?;
    Ok((bits.cast_signed(), to))
}

/// Returns the next `len` bytes, as a text that shares them. It takes no memory.
pub fn read_text(file: &FileBytes, at: usize, len: usize) -> Result<(Text, usize), ReadFault>
    ensures { Gives (bytes_at len file.now at) result }
{
    let to = skip(file.as_slice(), at, len)?;
    Ok((file.text(at, to)?, to))
}

/// Returns a position as a number of four bytes. A position that has more is out of memory: no
/// position of a class file of this project has more than three.
pub fn short_position(at: usize) -> Result<u32, ReadFault>
    ensures { Gives (Ok at) result }
{
    match u32::try_from(at) {
        Ok(position) => Ok(position),
        Err(_) => Err(ReadFault::Memory),
    }
}

/// Returns the next `len` bytes, as a row.
pub fn read_row(
    alloc: Global,
    bytes: &[u8],
    at: usize,
    len: usize,
) -> Result<(Row<u8>, usize), ReadFault>
    ensures { Gives (bytes_at len bytes.now at) result }
{
    let to = skip(bytes, at, len)?;
    let row = Vec::from_slice(alloc, &bytes[at..to])?;
    Ok((Row::new(row), to))
}
