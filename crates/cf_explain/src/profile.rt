//! What the profile leaves out of class files, in words, and what to write in its place.

use crate::advice::advice_on;
use crate::places::{Part, Place};
use cf_disassembly::{HeldType, Shown};
use cf_layout::Member;
use cf_pool::{Descriptor, Pool, descriptor};
use cf_reader::{ElementType, FieldType, Flags};
use std::alloc::{AllocError, Global};

/// Writes what the profile leaves out at a place of a class with these flags.
pub(crate) fn write_left_out(
    alloc: Global,
    page: &mut String,
    pool: &Pool,
    class_flags: u16,
    place: Place<'_>,
) -> Result<(), AllocError> {
    match place {
        Place::ClassFlags => page.push_str(of_class(class_flags)),
        Place::Field(member, Part::Flags) => page.push_str(of_field(pool, member)),
        Place::Method(member, Part::Flags) => page.push_str(of_method(class_flags, member)),
        Place::Method(_, Part::Name) => page.push_str(INITIALIZER),
        Place::Method(_, Part::Handlers) => page.push_str(HANDLERS),
        Place::Field(member, Part::Descriptor) | Place::Method(member, Part::Descriptor) => {
            write_types(alloc, page, pool, member)
        }
        _ => Ok(()),
    }
}

const INITIALIZER: &str =
    "  It is code that runs as the class is initialized: of a `static {}` block, of a static field whose value is computed, or of an enum.
  Change: give static fields constant values of type int or boolean, and compute the others in methods.
";

const HANDLERS: &str =
    "  The profile has no exception handlers: no try with catch or finally, no try with resources, no synchronized block.
  Change: test before what would throw, as `if (b == 0)`, and return an int that tells what went wrong. What is thrown ends the task.
";

fn of_class(flags: u16) -> &'static str {
    if flags & Flags::ENUM != 0 {
        "  It is an enum.
  Change: write a class of `static final int` constants in its place.
"
    } else {
        "  It is an annotation type.
  Change: leave it out of the folder; annotations that are used do no harm.
"
    }
}

fn of_field(pool: &Pool, member: &Member) -> &'static str {
    let flags = member.flags.value;
    if flags & Flags::PROTECTED != 0 {
        return "  The profile has no protected fields.
  Change: make it public, private, or leave `protected` out.
";
    }
    if flags & Flags::ENUM != 0 {
        return "  It is a constant of an enum.
  Change: write `static final int` constants in place of the enum.
";
    }
    if is_named(pool, member, b"$assertionsDisabled") {
        return "  javac adds this field for `assert`.
  Change: leave the assert out, or test and throw.
";
    }
    if is_named(pool, member, b"$VALUES") {
        return "  javac adds this field for an enum.
  Change: write `static final int` constants in place of the enum.
";
    }
    if !is_of_constants(pool, member) {
        return "  It is static, and of another type than int or boolean: static fields are constants of these types.
  Change: leave a text out; hold another value in a field of an object that methods are passed.
";
    }
    "  A static field has to be a constant: static, final, of type int or boolean, with a value that javac knows.
  Change: make it such a constant, or a field of an object that methods are passed. Each task would have a static field of its own.
"
}

fn is_named(pool: &Pool, member: &Member, name: &[u8]) -> bool {
    match pool.utf8(member.name.value) {
        Some(text) => text.is(name),
        None => false,
    }
}

// Whether the member's type is one of those that a static field may have.
fn is_of_constants(pool: &Pool, member: &Member) -> bool {
    match pool.utf8(member.descriptor.value) {
        Some(text) => text.is(b"I") || text.is(b"Z"),
        None => false,
    }
}

fn of_method(class_flags: u16, member: &Member) -> &'static str {
    let flags = member.flags.value;
    if flags & Flags::PROTECTED != 0 {
        return "  The profile has no protected methods.
  Change: make it public, private, or leave `protected` out.
";
    }
    if flags & Flags::SYNCHRONIZED != 0 {
        return "  The profile has no synchronized methods.
  Change: leave `synchronized` out. There are no locks: between two instructions of a call others may run, on the same object too.
";
    }
    if flags & Flags::NATIVE != 0 {
        return "  The profile has no native methods.
  Change: write it in Java.
";
    }
    if class_flags & Flags::INTERFACE != 0 {
        return "  An interface may have no default, static or private method.
  Change: move its code into a class; leave the interface's method abstract.
";
    }
    "  The profile leaves these flags out.
"
}

// Which types of a descriptor the profile leaves out.
fn write_types(
    alloc: Global,
    page: &mut String,
    pool: &Pool,
    member: &Member,
) -> Result<(), AllocError> {
    let Some(text) = pool.utf8(member.descriptor.value) else {
        return Ok(());
    };
    match descriptor(alloc, text)? {
        Some(Descriptor::Field(kind)) => write_type(alloc, page, &kind, "Its type")?,
        Some(Descriptor::Method(types)) => {
            for kind in types.parameters.iter() {
                write_type(alloc, page, kind, "A parameter's type")?;
            }
            if let Some(kind) = &types.result {
                write_type(alloc, page, kind, "Its result's type")?;
            }
        }
        None => {}
    }
    page.push_str("  The profile has int, boolean, int[], and classes and interfaces.\n")
}

fn write_type(
    alloc: Global,
    page: &mut String,
    kind: &FieldType,
    what: &str,
) -> Result<(), AllocError> {
    if kind.dimensions == 0 {
        return match name_of(&kind.element) {
            Some(name) => writeln!(page, "  {what} is {name}.\n  Change: use int in its place."),
            None => Ok(()),
        };
    }
    if kind.dimensions == 1 && matches!(kind.element, ElementType::Int) {
        return Ok(());
    }
    let array = HeldType::of_field(alloc, kind)?;
    writeln!(
        page,
        "  {what} is the array {array}; of arrays there is int[] alone."
    )?;
    match &kind.element {
        ElementType::Class(name) if name.is(b"java/lang/String") => {
            page.push_str("  Change: leave a `main` out: `run` starts any static method. ")?;
            page.push_str(advice_on(name.as_bytes()))?;
            page.push_str("\n")
        }
        ElementType::Class(name) => writeln!(
            page,
            "  Change: link objects of {} by fields, as a list does.",
            Shown(name.as_bytes())
        ),
        _ => page.push_str(
            "  Change: use an int[] in its place, with 0 and 1 for a boolean, and row by row for a table.\n",
        ),
    }
}

// The name of a type that the profile leaves out.
fn name_of(element: &ElementType) -> Option<&'static str> {
    match element {
        ElementType::Byte => Some("byte"),
        ElementType::Char => Some("char"),
        ElementType::Double => Some("double"),
        ElementType::Float => Some("float"),
        ElementType::Long => Some("long"),
        ElementType::Short => Some("short"),
        ElementType::Int | ElementType::Boolean | ElementType::Class(_) => None,
    }
}
