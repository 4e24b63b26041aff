//! Reading a constant pool: its entries, and their positions.

ghost use Rattle.std.specs.Prelude.{◌≡◌, ℕ, true, List, IfOk, IfErr};
ghost use Rattle.cf_text.specs.Reading.{Gives};
ghost use Rattle.cf_text.specs.Formats.{FailsBy};
ghost use Rattle.cf_pool.specs.PoolFormat.{layout_format, pool_format};
ghost use Rattle.cf_pool.specs.Pools.{cell_from, cells_from, class_entry, entry_from, integer_entry, layout_from, member_entry, name_and_type_entry, pool_from, shape_of, shaped_entry, skipped_entry, tagged, text_entry};

use super::layout::{PlacedEntry, Shape};
use super::{Entry, MemberKind, Pool, PoolLayout};
use cf_text::{FileBytes, ReadFault, Row, Rule, read_i32, read_text, read_u8, read_u16, skip};
use std::alloc::Global;

#[tactic(auto, unfolding(crate::specs::Pools::shape_of))]
fn shape_of(tag: u8) -> Option<Shape>
    ensures { result ≡ shape_of tag }
{
    match tag {
        1 => Some(Shape::Utf8),
        3 => Some(Shape::Integer),
        5 | 6 => Some(Shape::Wide),
        7 => Some(Shape::Class),
        9 => Some(Shape::Member(MemberKind::Field)),
        10 => Some(Shape::Member(MemberKind::Method)),
        11 => Some(Shape::Member(MemberKind::InterfaceMethod)),
        12 => Some(Shape::NameAndType),
        8 | 16 => Some(Shape::Skipped(2)),
        15 => Some(Shape::Skipped(3)),
        4 | 18 => Some(Shape::Skipped(4)),
        _ => None,
    }
}

#[tactic(auto, unfolding(crate::specs::Pools::text_entry))]
fn text_entry(file: &FileBytes, at: usize) -> Result<(PlacedEntry, usize), ReadFault>
    ensures { Gives (text_entry file.now at) result }
{
    let (length, second) = read_u16(file.as_slice(), at)?;
    let (text, to) = read_text(file, second, length as usize)?;
    Ok((PlacedEntry::new(Entry::Utf8(text), at, second, false)?, to))
}

#[tactic(auto, unfolding(crate::specs::Pools::integer_entry))]
fn integer_entry(bytes: &[u8], at: usize) -> Result<(PlacedEntry, usize), ReadFault>
    ensures { Gives (integer_entry bytes.now at) result }
{
    let (value, to) = read_i32(bytes, at)?;
    Ok((PlacedEntry::new(Entry::Integer(value), at, to, false)?, to))
}

#[tactic(auto, unfolding(crate::specs::Pools::class_entry))]
fn class_entry(bytes: &[u8], at: usize) -> Result<(PlacedEntry, usize), ReadFault>
    ensures { Gives (class_entry bytes.now at) result }
{
    let (name, to) = read_u16(bytes, at)?;
    Ok((PlacedEntry::new(Entry::Class { name }, at, to, false)?, to))
}

#[tactic(auto, unfolding(crate::specs::Pools::member_entry))]
fn member_entry(
    kind: MemberKind,
    bytes: &[u8],
    at: usize,
) -> Result<(PlacedEntry, usize), ReadFault>
    ensures { Gives (member_entry kind bytes.now at) result }
{
    let (class, second) = read_u16(bytes, at)?;
    let (name_and_type, to) = read_u16(bytes, second)?;
    let entry = Entry::Member {
        kind,
        class,
        name_and_type,
    };
    Ok((PlacedEntry::new(entry, at, second, false)?, to))
}

#[tactic(auto, unfolding(crate::specs::Pools::name_and_type_entry))]
fn name_and_type_entry(bytes: &[u8], at: usize) -> Result<(PlacedEntry, usize), ReadFault>
    ensures { Gives (name_and_type_entry bytes.now at) result }
{
    let (name, second) = read_u16(bytes, at)?;
    let (descriptor, to) = read_u16(bytes, second)?;
    Ok((
        PlacedEntry::new(Entry::NameAndType { name, descriptor }, at, second, false)?,
        to,
    ))
}

#[tactic(auto, unfolding(crate::specs::Pools::skipped_entry))]
fn skipped_entry(
    len: usize,
    is_wide: bool,
    bytes: &[u8],
    at: usize,
) -> Result<(PlacedEntry, usize), ReadFault>
    ensures { Gives (skipped_entry len is_wide bytes.now at) result }
{
    let to = skip(bytes, at, len)?;
    Ok((PlacedEntry::new(Entry::Other, at, to, is_wide)?, to))
}

#[tactic(auto, unfolding(crate::specs::Pools::shaped_entry))]
fn shaped_entry(
    shape: Shape,
    file: &FileBytes,
    at: usize,
) -> Result<(PlacedEntry, usize), ReadFault>
    ensures { Gives (shaped_entry shape file.now at) result }
{
    let bytes = file.as_slice();
    match shape {
        Shape::Utf8 => text_entry(file, at),
        Shape::Integer => integer_entry(bytes, at),
        Shape::Class => class_entry(bytes, at),
        Shape::Member(kind) => member_entry(kind, bytes, at),
        Shape::NameAndType => name_and_type_entry(bytes, at),
        Shape::Skipped(len) => skipped_entry(len, false, bytes, at),
        Shape::Wide => skipped_entry(8, true, bytes, at),
    }
}

// A tag's shape. An entry of two indices does not stand last.
#[tactic(auto, unfolding(crate::specs::Pools::tagged))]
fn tagged(tag: u8, is_last: bool, at: usize) -> Result<Shape, ReadFault>
    ensures { result ≡ tagged is_last at (shape_of tag) }
{
    match shape_of(tag) {
        None => Err(ReadFault::Broken {
            rule: Rule::Tag,
            at,
        }),
        Some(Shape::Wide) if is_last => Err(ReadFault::Broken {
            rule: Rule::Index,
            at,
        }),
        Some(shape) => Ok(shape),
    }
}

#[tactic(auto, unfolding(crate::specs::Pools::entry_from))]
fn entry_from(is_last: bool, file: &FileBytes, at: usize) -> Result<(PlacedEntry, usize), ReadFault>
    ensures { Gives (entry_from is_last file.now at) result }
{
    let (tag, body) = read_u8(file.as_slice(), at)?;
    let shape = tagged(tag, is_last, at)?;
    shaped_entry(shape, file, body)
}

// What stands at an index: nothing at index 0, and after an entry of two indices.
#[tactic(auto, unfolding(crate::specs::Pools::cell_from))]
fn cell_from(
    is_taken: bool,
    is_last: bool,
    file: &FileBytes,
    at: usize,
) -> Result<(PlacedEntry, usize), ReadFault>
    ensures { Gives (cell_from is_taken is_last file.now at) result }
{
    if is_taken {
        return Ok((PlacedEntry::new(Entry::Unusable, at, at, false)?, at));
    }
    entry_from(is_last, file, at)
}

fn cells_from(
    alloc: Global,
    count: u16,
    file: &FileBytes,
    at: usize,
) -> Result<(PoolLayout, usize), ReadFault>
    ensures { Gives (cells_from count true file.now at) result }
{
    let mut entries = Vec::new(alloc);
    let mut positions = Vec::new(alloc);
    let mut position = at;
    let mut is_taken = true;
    for index in 0..count {
        let is_last = index == count - 1;
        let (cell, after) = cell_from(is_taken, is_last, file, position)?;
        entries.push(cell.entry)?;
        positions.push(cell.positions)?;
        is_taken = cell.is_wide;
        position = after;
    }
    Ok((
        PoolLayout {
            pool: Pool::new(entries),
            positions: Row::new(positions),
        },
        position,
    ))
}

// The reading after `read_layout`, with the first fault.
#[tactic(auto, unfolding(crate::specs::Pools::layout_from))]
fn layout_from(alloc: Global, bytes: &[u8], at: usize) -> Result<(PoolLayout, usize), ReadFault>
    ensures { Gives (layout_from bytes.now at) result }
{
    let (count, first) = read_u16(bytes, at)?;
    if count == 0 {
        return Err(ReadFault::Broken {
            rule: Rule::Index,
            at,
        });
    }
    // The texts of the pool share one copy of the bytes.
    let file = FileBytes::new(alloc, Vec::from_slice(alloc, bytes)?)?;
    cells_from(alloc, count, &file, first)
}

/// Returns the constant pool from its count at `at` on, with the positions of its entries, and the
/// position after it. A cut item is Truncated at its first byte, an unknown tag is Tag, and a count
/// of 0, or a Long or Double with no second index, is Index: the first of these in the order of
/// bytes. Texts and the entries' own indices are not looked at: that is for `check_pool`.
pub fn read_layout(alloc: Global, bytes: &[u8], at: usize) -> Result<(PoolLayout, usize), ReadFault>
    // What is read stands there, what stands there is read, and a fault is one of what stands there.
    ensures found { IfOk result (λ x. (layout_format bytes.now at).Stands at x.0 x.1) }
    ensures only { (x : PoolLayout × ℕ) → (layout_format bytes.now at).Stands at x.0 x.1
        → Gives (Ok x) result }
    ensures fault { IfErr result (FailsBy (layout_format bytes.now at) at) }
    // Which fault it is.
    ensures exact { Gives (layout_from bytes.now at) result }
{
    layout_from(alloc, bytes, at)
}

// The reading after `read_pool`, with the first fault.
#[tactic(auto, unfolding(crate::specs::Pools::pool_from))]
fn pool_from(alloc: Global, bytes: &[u8], at: usize) -> Result<(Pool, usize), ReadFault>
    ensures { Gives (pool_from bytes.now at) result }
{
    let (layout, to) = layout_from(alloc, bytes, at)?;
    Ok((layout.pool, to))
}

/// Returns the constant pool from its count at `at` on, and the position after it. The faults are
/// those of `read_layout`.
pub fn read_pool(alloc: Global, bytes: &[u8], at: usize) -> Result<(Pool, usize), ReadFault>
    // What is read stands there, what stands there is read, and a fault is one of what stands there.
    ensures found { IfOk result (λ x. (pool_format bytes.now at).Stands at x.0 x.1) }
    ensures only { (x : List Entry × ℕ) → (pool_format bytes.now at).Stands at x.0 x.1
        → Gives (Ok x) result }
    ensures fault { IfErr result (FailsBy (pool_format bytes.now at) at) }
{
    pool_from(alloc, bytes, at)
}

/// No bytes have two readings as a constant pool: what stands from a position on is one pool, up to one
/// position.
pub fn one_pool()
    ensures { (bytes : List ℕ) (at : ℕ) (x y : List Entry × ℕ) → (pool_format bytes at).Stands at x.0 x.1
        → (pool_format bytes at).Stands at y.0 y.1 → x ≡ y }
{}
