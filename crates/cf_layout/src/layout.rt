//! The layout of a class file: its raw items with their positions, skipped attributes and ignored
//! indices included. Reading it is the first pass, which enters no attribute.

ghost use Rattle.std.specs.Prelude.{◌≡◌, IfErr, IfOk};
ghost use Rattle.cf_text.specs.Formats.{FailsBy};
ghost use Rattle.cf_text.specs.Reading.{Gives, many};
ghost use Rattle.cf_layout.specs.FileFormat.{LaysOut, file_format};
ghost use Rattle.cf_layout.specs.Layouts.{attribute_at, attributes_at, body_at, front_at, header_at, item_at, layout_of, layout_with, member_at, members_at, rest_at};

use super::items::{Attribute, Item, Layout, Member};
use cf_pool::{
    PoolLayout, ReadFault, Rule, Table, demand, read_u16, read_u32, short_position, skip,
};
use std::alloc::Global;

/// The most bytes that a class file may have: 1 MiB, a limit of this project.
pub const MAX_LEN: usize = 1 << 20;

#[tactic(auto, unfolding(crate::specs::Layouts::item_at))]
pub(crate) fn read_item(bytes: &[u8], at: usize) -> Result<(Item, usize), ReadFault>
    ensures { Gives (item_at bytes.now at) result }
{
    let (value, to) = read_u16(bytes, at)?;
    let at = short_position(at)?;
    Ok((Item { at, value }, to))
}

fn read_items(
    alloc: Global,
    count: u16,
    bytes: &[u8],
    at: usize,
) -> Result<(Table<Item>, usize), ReadFault>
    ensures { Gives (many (item_at bytes.now) count at) result }
{
    let mut items = Vec::new(alloc);
    let mut position = at;
    for _ in 0..count {
        let (item, after) = read_item(bytes, position)?;
        items.push(item)?;
        position = after;
    }
    Ok((Table::new(items), position))
}

#[tactic(auto, unfolding(crate::specs::Layouts::attribute_at))]
fn read_attribute(bytes: &[u8], at: usize) -> Result<(Attribute, usize), ReadFault>
    ensures { Gives (attribute_at bytes.now at) result }
{
    let (name, after) = read_item(bytes, at)?;
    let (length, body) = read_u32(bytes, after)?;
    let end = skip(bytes, body, length as usize)?;
    let attribute = Attribute {
        name,
        body: short_position(body)?,
        end: short_position(end)?,
    };
    Ok((attribute, end))
}

fn read_many_attributes(
    alloc: Global,
    count: u16,
    bytes: &[u8],
    at: usize,
) -> Result<(Table<Attribute>, usize), ReadFault>
    ensures { Gives (many (attribute_at bytes.now) count at) result }
{
    let mut attributes = Vec::new(alloc);
    let mut position = at;
    for _ in 0..count {
        let (attribute, after) = read_attribute(bytes, position)?;
        attributes.push(attribute)?;
        position = after;
    }
    Ok((Table::new(attributes), position))
}

#[tactic(auto, unfolding(crate::specs::Layouts::attributes_at))]
pub(crate) fn read_attributes(
    alloc: Global,
    bytes: &[u8],
    at: usize,
) -> Result<(Table<Attribute>, usize), ReadFault>
    ensures { Gives (attributes_at bytes.now at) result }
{
    let (count, first) = read_u16(bytes, at)?;
    read_many_attributes(alloc, count, bytes, first)
}

#[tactic(auto, unfolding(crate::specs::Layouts::member_at))]
fn read_member(alloc: Global, bytes: &[u8], at: usize) -> Result<(Member, usize), ReadFault>
    ensures { Gives (member_at bytes.now at) result }
{
    let (flags, after) = read_item(bytes, at)?;
    let (name, after) = read_item(bytes, after)?;
    let (descriptor, after) = read_item(bytes, after)?;
    let (attributes, to) = read_attributes(alloc, bytes, after)?;
    Ok((
        Member {
            flags,
            name,
            descriptor,
            attributes,
        },
        to,
    ))
}

fn read_members(
    alloc: Global,
    count: u16,
    bytes: &[u8],
    at: usize,
) -> Result<(Table<Member>, usize), ReadFault>
    ensures { Gives (many (member_at bytes.now) count at) result }
{
    let mut members = Vec::new(alloc);
    let mut position = at;
    for _ in 0..count {
        let (member, after) = read_member(alloc, bytes, position)?;
        members.push(member)?;
        position = after;
    }
    Ok((Table::new(members), position))
}

// CAFEBABE, and a version of the profile: the major version, and the position after it.
#[tactic(auto, unfolding(crate::specs::Layouts::header_at, cf_text::specs::Demands::verdict))]
fn read_header(bytes: &[u8]) -> Result<(u16, usize), ReadFault>
    ensures { Gives (header_at bytes.now) result }
{
    let (magic, minor_at) = read_u32(bytes, 0)?;
    demand(magic == 0xcafe_babe, Rule::Magic, 0)?;
    let (minor, major_at) = read_u16(bytes, minor_at)?;
    demand(minor == 0, Rule::Version, minor_at)?;
    let (major, to) = read_u16(bytes, major_at)?;
    demand(50 <= major && major <= 52, Rule::Version, major_at)?;
    Ok((major, to))
}

// What stands between the constant pool and the superinterfaces.
#[derive(Clone, Copy)]
pub(crate) struct Front {
    pub(crate) flags: Item,
    pub(crate) this: Item,
    pub(crate) superclass: Item,
    pub(crate) interface_count: Item,
}

// What stands after the superinterfaces.
#[derive(Drop)]
pub(crate) struct Members {
    pub(crate) field_count: Item,
    pub(crate) fields: Table<Member>,
    pub(crate) method_count: Item,
    pub(crate) methods: Table<Member>,
    pub(crate) attributes: Table<Attribute>,
}

// What stands after the constant pool.
#[derive(Drop)]
pub(crate) struct Rest {
    pub(crate) front: Front,
    pub(crate) interfaces: Table<Item>,
    pub(crate) members: Members,
}

#[tactic(auto, unfolding(crate::specs::Layouts::front_at))]
fn read_front(bytes: &[u8], at: usize) -> Result<(Front, usize), ReadFault>
    ensures { Gives (front_at bytes.now at) result }
{
    let (flags, after) = read_item(bytes, at)?;
    let (this, after) = read_item(bytes, after)?;
    let (superclass, after) = read_item(bytes, after)?;
    let (interface_count, to) = read_item(bytes, after)?;
    let front = Front {
        flags,
        this,
        superclass,
        interface_count,
    };
    Ok((front, to))
}

#[tactic(auto, unfolding(crate::specs::Layouts::members_at))]
fn read_class_members(alloc: Global, bytes: &[u8], at: usize) -> Result<(Members, usize), ReadFault>
    ensures { Gives (members_at bytes.now at) result }
{
    let (field_count, after) = read_item(bytes, at)?;
    let (fields, after) = read_members(alloc, field_count.value, bytes, after)?;
    let (method_count, after) = read_item(bytes, after)?;
    let (methods, after) = read_members(alloc, method_count.value, bytes, after)?;
    let (attributes, to) = read_attributes(alloc, bytes, after)?;
    let members = Members {
        field_count,
        fields,
        method_count,
        methods,
        attributes,
    };
    Ok((members, to))
}

#[tactic(auto, unfolding(crate::specs::Layouts::rest_at))]
fn read_rest(alloc: Global, bytes: &[u8], at: usize) -> Result<(Rest, usize), ReadFault>
    ensures { Gives (rest_at bytes.now at) result }
{
    let (front, after) = read_front(bytes, at)?;
    let (interfaces, after) = read_items(alloc, front.interface_count.value, bytes, after)?;
    let (members, to) = read_class_members(alloc, bytes, after)?;
    let rest = Rest {
        front,
        interfaces,
        members,
    };
    Ok((rest, to))
}

fn layout_with(pool: PoolLayout, rest: Rest) -> Layout
    ensures { result ≡ layout_with pool rest }
{
    let Rest {
        front,
        interfaces,
        members,
    } = rest;
    Layout {
        pool,
        flags: front.flags,
        this: front.this,
        superclass: front.superclass,
        interface_count: front.interface_count,
        interfaces,
        field_count: members.field_count,
        fields: members.fields,
        method_count: members.method_count,
        methods: members.methods,
        attributes: members.attributes,
    }
}

// What follows the version. The pool stands by at one place alone that may fail: at each such place, all that
// a pool is made of is let go, and that is proved.
fn read_body(alloc: Global, bytes: &[u8], at: usize) -> Result<(Layout, usize), ReadFault>
    ensures { Gives (body_at bytes.now at) result }
{
    let (pool, after) = cf_pool::read_layout(alloc, bytes, at)?;
    let (rest, to) = read_rest(alloc, bytes, after)?;
    Ok((layout_with(pool, rest), to))
}

// The reading after `read_layout`, with the first fault.
#[tactic(auto, unfolding(crate::specs::Layouts::layout_of, crate::specs::Layouts::file_at, cf_text::specs::Demands::verdict))]
fn layout_of(alloc: Global, bytes: &[u8]) -> Result<Layout, ReadFault>
    ensures { Gives (layout_of bytes.now) result }
{
    demand(bytes.len() <= MAX_LEN, Rule::TooLarge, MAX_LEN)?;
    let (_, pool_at) = read_header(bytes)?;
    let (layout, to) = read_body(alloc, bytes, pool_at)?;
    demand(to == bytes.len(), Rule::Trailing, to)?;
    Ok(layout)
}

/// Returns the layout of a class file. A file of more than 1,048,576 bytes is TooLarge, at the
/// first byte too many. Else the first of these counts, in the order of bytes: a cut item is
/// Truncated at its first byte; Magic, Version, Tag; Index if the constant pool's count is 0 or its
/// last entry takes two indices; Trailing at the first byte after the class.
pub fn read_layout(alloc: Global, bytes: &[u8]) -> Result<Layout, ReadFault>
    // What is read the bytes lay out, what they lay out is read, and a fault is one of their format.
    ensures found { IfOk result (LaysOut bytes.now) }
    ensures only { (layout : Layout) → LaysOut bytes.now layout → Gives (Ok layout) result }
    ensures fault { IfErr result (FailsBy (file_format bytes.now) 0) }
    // Which fault it is.
    ensures exact { Gives (layout_of bytes.now) result }
{
    layout_of(alloc, bytes)
}
