//! The methods that make objects to be bound.

use std::alloc::{AllocError, Global};
use vm_step::Program;

/// The name and descriptor of the method `export` of a class that takes nothing and gives an object, if the class
/// declares one.
pub(crate) fn export_of(
    alloc: Global,
    program: &Program,
    class: &str,
) -> Result<Option<String>, AllocError> {
    let set = program.linked().set();
    let Some(number) = set.number(class.as_bytes()) else {
        return Ok(None);
    };
    for method in set.class(number).file.methods.as_slice() {
        let descriptor = method.descriptor.as_bytes();
        if method.name.as_bytes() == b"export".as_slice() && descriptor.starts_with(b"()L") {
            return named(alloc, descriptor);
        }
    }
    Ok(None)
}

fn named(alloc: Global, descriptor: &[u8]) -> Result<Option<String>, AllocError> {
    let mut text = String::from_str(alloc, "export")?;
    match str::from_utf8(descriptor) {
        Ok(descriptor) => {
            text.push_str(descriptor)?;
            Ok(Some(text))
        }
        Err(_) => Ok(None),
    }
}
