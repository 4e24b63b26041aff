//! Where in a class file a position is (JVMS 4.1).

use cf_disassembly::Shown;
use cf_layout::{Attribute, Layout, Member, read_code};
use cf_pool::{Pool, PoolLayout};
use cf_text::ReadFault;
use std::alloc::{AllocError, Global};

/// The item of a class file that a position is in.
#[derive(Clone, Copy)]
pub(crate) enum Place<'a> {
    /// Magic and version.
    Header,
    /// The constant pool, or an entry of it.
    Pool(Option<usize>),
    ClassFlags,
    ThisClass,
    Superclass,
    Interface,
    Field(&'a Member, Part),
    Method(&'a Member, Part),
    ClassAttribute(Attribute),
    Elsewhere,
}

/// The part of a field or a method that a position is in.
#[derive(Clone, Copy)]
pub(crate) enum Part {
    Flags,
    Name,
    Descriptor,
    Attribute(Attribute),
    /// The table of exception handlers of its code.
    Handlers,
    Attributes,
}

/// Returns where in a file that is laid out a position is.
pub(crate) fn place_of<'a>(
    alloc: Global,
    bytes: &[u8],
    layout: &'a Layout,
    at: usize,
) -> Result<Place<'a>, AllocError> {
    if at < layout.flags.at as usize {
        return Ok(place_before_flags(&layout.pool, at));
    }
    if at < layout.this.at as usize {
        return Ok(Place::ClassFlags);
    }
    if at < layout.superclass.at as usize {
        return Ok(Place::ThisClass);
    }
    if at < layout.interface_count.at as usize {
        return Ok(Place::Superclass);
    }
    if at < layout.field_count.at as usize {
        return Ok(Place::Interface);
    }
    if let Some(member) = member_at(layout.fields.as_slice(), at) {
        return Ok(Place::Field(member, part_of(alloc, bytes, member, at)?));
    }
    if let Some(member) = member_at(layout.methods.as_slice(), at) {
        return Ok(Place::Method(member, part_of(alloc, bytes, member, at)?));
    }
    match attribute_at(layout.attributes.as_slice(), at) {
        Some(attribute) => Ok(Place::ClassAttribute(attribute)),
        None => Ok(Place::Elsewhere),
    }
}

/// Returns where a position is in the header or in a constant pool.
pub(crate) fn place_before_flags(pool: &PoolLayout, at: usize) -> Place<'static> {
    if at < 8 {
        return Place::Header;
    }
    let mut found = None;
    for (index, positions) in pool.positions.as_slice().iter().enumerate() {
        // An entry begins with its tag, the byte before its first item.
        if positions.first > 0 && (positions.first - 1) as usize <= at {
            found = Some(index);
        }
    }
    Place::Pool(found)
}

fn end_of(member: &Member) -> usize {
    match member.attributes.as_slice().last() {
        Some(attribute) => attribute.end as usize,
        None => (member.descriptor.at as usize).saturating_add(4),
    }
}

fn member_at(members: &[Member], at: usize) -> Option<&Member> {
    for member in members {
        if member.flags.at as usize <= at && at < end_of(member) {
            return Some(member);
        }
    }
    None
}

fn attribute_at(attributes: &[Attribute], at: usize) -> Option<Attribute> {
    for attribute in attributes {
        if attribute.name.at as usize <= at && at < attribute.end as usize {
            return Some(*attribute);
        }
    }
    None
}

fn part_of(alloc: Global, bytes: &[u8], member: &Member, at: usize) -> Result<Part, AllocError> {
    if at < member.name.at as usize {
        return Ok(Part::Flags);
    }
    if at < member.descriptor.at as usize {
        return Ok(Part::Name);
    }
    if at == member.descriptor.at as usize {
        return Ok(Part::Descriptor);
    }
    match attribute_at(member.attributes.as_slice(), at) {
        Some(attribute) if is_at_handlers(alloc, bytes, attribute, at)? => Ok(Part::Handlers),
        Some(attribute) => Ok(Part::Attribute(attribute)),
        None => Ok(Part::Attributes),
    }
}

// Whether the attribute is a Code whose handlers are counted at the position.
fn is_at_handlers(
    alloc: Global,
    bytes: &[u8],
    attribute: Attribute,
    at: usize,
) -> Result<bool, AllocError> {
    match read_code(alloc, bytes, attribute) {
        Ok(code) => Ok(code.handler_count.at as usize == at),
        Err(ReadFault::Broken { .. }) => Ok(false),
        Err(ReadFault::Memory) => Err(AllocError),
    }
}

/// Writes a place as a line.
pub(crate) fn write_place(
    page: &mut String,
    pool: &Pool,
    place: Place<'_>,
) -> Result<(), AllocError> {
    match place {
        Place::Header => page.push_str("  At fault: the first eight bytes, magic and version.\n"),
        Place::Pool(Some(index)) => {
            writeln!(page, "  At fault: the entry #{index} of the constant pool.")
        }
        Place::Pool(None) => page.push_str(
            "  At fault: the number of the constant pool's entries.\n",
        ),
        Place::ClassFlags => page.push_str("  At fault: the flags of the class.\n"),
        Place::ThisClass => page.push_str("  At fault: the index of the class's own name.\n"),
        Place::Superclass => page.push_str("  At fault: the index of the superclass.\n"),
        Place::Interface => page.push_str("  At fault: the list of superinterfaces.\n"),
        Place::Field(member, part) => write_member(page, pool, "field", " ", member, part),
        Place::Method(member, part) => write_member(page, pool, "method", "", member, part),
        Place::ClassAttribute(attribute) => {
            page.push_str("  At fault: the class's attribute ")?;
            write_text(page, pool, attribute.name.value)?;
            page.push_str(".\n")
        }
        Place::Elsewhere => page.push_str(
            "  At fault: a number of items, or what follows the class.\n",
        ),
    }
}

fn write_member(
    page: &mut String,
    pool: &Pool,
    kind: &str,
    gap: &str,
    member: &Member,
    part: Part,
) -> Result<(), AllocError> {
    write!(page, "  At fault: the {kind} ")?;
    write_text(page, pool, member.name.value)?;
    page.push_str(gap)?;
    write_text(page, pool, member.descriptor.value)?;
    match part {
        Part::Flags => page.push_str(": its flags.\n"),
        Part::Name => page.push_str(": its name.\n"),
        Part::Descriptor => page.push_str(": its descriptor.\n"),
        Part::Handlers => page.push_str(": the exception handlers of its code.\n"),
        Part::Attributes => page.push_str(": the number of its attributes.\n"),
        Part::Attribute(attribute) => {
            page.push_str(": its attribute ")?;
            write_text(page, pool, attribute.name.value)?;
            page.push_str(".\n")
        }
    }
}

// The text of an entry, or its index.
fn write_text(page: &mut String, pool: &Pool, index: u16) -> Result<(), AllocError> {
    match pool.utf8(index) {
        Some(text) => write!(page, "{}", Shown(text.as_bytes())),
        None => write!(page, "#{index}"),
    }
}
