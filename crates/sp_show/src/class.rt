//! A class and its members.

use cf_disassembly::Shown;
use cf_reader::{ClassFile, Field, Flags};
use cls_explain::{KnownClasses, write_field, write_method};
use std::alloc::{AllocError, Global};

/// Writes what a class is and which its supertypes are, in one line that is not ended.
pub(crate) fn write_heading(
    alloc: Global,
    page: &mut String,
    known: &KnownClasses<'_>,
    class: &ClassFile,
) -> Result<(), AllocError> {
    let name = class.name.as_bytes();
    write!(page, "{}: ", Shown(name))?;
    if known.is_below(alloc, name, b"java/rmi/Remote")? {
        page.push_str("remote ")?;
    }
    if class.flags.has(Flags::INTERFACE) {
        page.push_str("interface")?;
    } else if class.flags.has(Flags::ABSTRACT) {
        page.push_str("abstract class")?;
    } else {
        page.push_str("class")?;
    }
    write_supertypes(page, class)
}

fn write_supertypes(page: &mut String, class: &ClassFile) -> Result<(), AllocError> {
    if let Some(superclass) = &class.superclass
        && !superclass.is(b"java/lang/Object")
    {
        write!(page, ", extends {}", Shown(superclass.as_bytes()))?;
    }
    let relation = if class.flags.has(Flags::INTERFACE) {
        "extends"
    } else {
        "implements"
    };
    for interface in class.interfaces.as_slice() {
        write!(page, ", {relation} {}", Shown(interface.as_bytes()))?;
    }
    Ok(())
}

/// Writes a class with its fields, inherited ones too, and its methods.
pub(crate) fn write_class(
    alloc: Global,
    page: &mut String,
    known: &KnownClasses<'_>,
    class: &ClassFile,
) -> Result<(), AllocError> {
    write_heading(alloc, page, known, class)?;
    page.push_str("\n")?;
    write_fields(alloc, page, known, class)?;
    for method in class.methods.as_slice() {
        page.push_str("  method ")?;
        write_method(page, method)?;
        page.push_str("\n")?;
    }
    Ok(())
}

// The classes from the highest superclass down to the class itself, as far as they are at hand.
fn line_of<'a>(
    alloc: Global,
    known: &'a KnownClasses<'_>,
    class: &'a ClassFile,
) -> Result<Vec<&'a ClassFile>, AllocError> {
    let mut line = vec![in alloc; class]?;
    let mut lowest = class;
    for _ in 0..known.classes.len() {
        let Some(superclass) = &lowest.superclass else {
            break;
        };
        let Some(next) = known.class(superclass.as_bytes()) else {
            break;
        };
        line.push(next)?;
        lowest = next;
    }
    line.reverse();
    Ok(line)
}

// The slots of instance fields count from 0, those of superclasses first.
fn write_fields(
    alloc: Global,
    page: &mut String,
    known: &KnownClasses<'_>,
    class: &ClassFile,
) -> Result<(), AllocError> {
    let mut slot: u32 = 0;
    for holder in line_of(alloc, known, class)? {
        for field in holder.fields.as_slice() {
            write_slot(page, field, slot)?;
            if !holder.name.is(class.name.as_bytes()) {
                write!(page, ", of {}", Shown(holder.name.as_bytes()))?;
            }
            page.push_str("\n")?;
            if !field.flags.has(Flags::STATIC) {
                slot = slot.saturating_add(1);
            }
        }
    }
    Ok(())
}

fn write_slot(page: &mut String, field: &Field, slot: u32) -> Result<(), AllocError> {
    page.push_str("  field ")?;
    write_field(page, field)?;
    match field.constant {
        Some(value) => write!(page, " = {value}"),
        None if field.flags.has(Flags::STATIC) => Ok(()),
        None => write!(page, ", slot {slot}"),
    }
}
