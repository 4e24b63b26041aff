//! Methods and fields as lines of text.

use cf_disassembly::Shown;
use cf_reader::{ClassFile, Field, Flags, Method};
use std::alloc::AllocError;

/// Writes a method's name and descriptor, with `static` or `abstract` before them.
pub fn write_method(page: &mut String, method: &Method) -> Result<(), AllocError> {
    if method.flags.has(Flags::STATIC) {
        page.push_str("static ")?;
    }
    if method.flags.has(Flags::ABSTRACT) {
        page.push_str("abstract ")?;
    }
    write!(
        page,
        "{}{}",
        Shown(method.name.as_bytes()),
        Shown(method.descriptor.as_bytes())
    )
}

/// Writes a field's name and descriptor, with `static` before them.
pub fn write_field(page: &mut String, field: &Field) -> Result<(), AllocError> {
    if field.flags.has(Flags::STATIC) {
        page.push_str("static ")?;
    }
    write!(
        page,
        "{} {}",
        Shown(field.name.as_bytes()),
        Shown(field.descriptor.as_bytes())
    )
}

/// Writes a line for each method of a class that has this name, and tells how many there are.
pub fn write_methods_named(
    page: &mut String,
    class: &ClassFile,
    name: &[u8],
) -> Result<usize, AllocError> {
    let mut count: usize = 0;
    for method in class.methods.as_slice() {
        if method.name.is(name) {
            page.push_str("    ")?;
            write_method(page, method)?;
            page.push_str("\n")?;
            count = count.saturating_add(1);
        }
    }
    Ok(count)
}
