//! Why a file is no class file of the profile.

use crate::places::{Place, place_before_flags, place_of, write_place};
use crate::profile::write_left_out;
use cf_layout::{Layout, read_layout};
use cf_text::{ReadFault, Rule, read_u16};
use std::alloc::{AllocError, Global};

/// Returns what a fault at a position of these bytes means, and what to change, in lines. `AllocError` if memory runs
/// out.
pub fn explain_reading(
    alloc: Global,
    bytes: &[u8],
    rule: Rule,
    at: usize,
) -> Result<String, AllocError> {
    let mut page = String::new(alloc);
    match read_layout(alloc, bytes) {
        Ok(layout) => write_in_layout(alloc, &mut page, bytes, &layout, rule, at)?,
        Err(ReadFault::Broken { .. }) => write_before_layout(alloc, &mut page, bytes, at)?,
        Err(ReadFault::Memory) => return Err(AllocError),
    }
    write_rule(&mut page, bytes, rule)?;
    Ok(page)
}

fn write_in_layout(
    alloc: Global,
    page: &mut String,
    bytes: &[u8],
    layout: &Layout,
    rule: Rule,
    at: usize,
) -> Result<(), AllocError> {
    let pool = &layout.pool.pool;
    let place = place_of(alloc, bytes, layout, at)?;
    write_place(page, pool, place)?;
    if rule == Rule::OutOfProfile {
        write_left_out(alloc, page, pool, layout.flags.value, place)?;
    }
    Ok(())
}

// The file as a whole has no layout: perhaps its constant pool has one.
fn write_before_layout(
    alloc: Global,
    page: &mut String,
    bytes: &[u8],
    at: usize,
) -> Result<(), AllocError> {
    if at < 8 {
        return Ok(());
    }
    match cf_pool::read_layout(alloc, bytes, 8) {
        Ok((pool, after)) if at < after => write_place(
            page,
            &pool.pool,
            place_before_flags(&pool, at),
        ),
        Ok((pool, _)) => write_place(page, &pool.pool, Place::Elsewhere),
        Err(ReadFault::Broken { .. }) => page.push_str("  At fault: the constant pool.\n"),
        Err(ReadFault::Memory) => Err(AllocError),
    }
}

// What each rule asks, in words.
fn write_rule(page: &mut String, bytes: &[u8], rule: Rule) -> Result<(), AllocError> {
    match rule {
        Rule::Version => write_version(page, bytes),
        Rule::OutOfProfile => Ok(()),
        _ => page.push_str(asked_by(rule)),
    }
}

fn asked_by(rule: Rule) -> &'static str {
    match rule {
        Rule::Magic =>
            "  A class file begins with the bytes CAFEBABE: this is none.\n  Change: leave the file out, or compile its source again.\n",
        Rule::Truncated =>
            "  The file ends inside this item.\n  Change: copy or compile it again.\n",
        Rule::Trailing =>
            "  Bytes follow the end of the class.\n  Change: copy or compile it again.\n",
        Rule::TooLarge =>
            "  A class file has at most 1,048,576 bytes.\n  Change: split the class.\n",
        Rule::Tag =>
            "  The tag of the entry is none of the standard's. Those of modules (19, 20) and of dynamic constants (17) come after version 52: compile with `javac --release 8`.\n",
        Rule::Utf8 =>
            "  The bytes are no modified UTF-8, or the text is used as a name and may be none: a name is not empty and has none of `. ; [ /`.\n",
        Rule::Index => "  The index names no entry of the kind that is asked there.\n",
        Rule::Descriptor =>
            "  The text is no descriptor, has more than 255 words of parameters, or is that of an `<init>` that is not void.\n",
        Rule::Flags =>
            "  These flags do not go together, a method has code and may have none, or has none and must have it, or an abstract method stands in a class that is not abstract.\n",
        Rule::CodeLength =>
            "  The code of a method has 1 to 65,535 bytes.\n  Change: split the method.\n",
        Rule::AttributeLength => "  The attribute does not fill its length exactly.\n",
        Rule::Duplicate =>
            "  It stands there a second time: a member of the same name and descriptor, or an attribute of a kind.\n",
        Rule::Version | Rule::OutOfProfile => "",
    }
}

// Java 8 has the version 52, and each release after it one more.
fn write_version(page: &mut String, bytes: &[u8]) -> Result<(), AllocError> {
    let major = match read_u16(bytes, 6) {
        Ok((major, _)) => major,
        Err(_) => 0,
    };
    if major > 52 {
        writeln!(
            page,
            "  The class file is of version {major}, that of Java {}.",
            major - 44
        )?;
    } else {
        writeln!(
            page,
            "  The class file is of major version {major}, or its minor version is not 0."
        )?;
    }
    page.push_str("  Change: compile with `javac --release 8`, which writes version 52.\n")
}
