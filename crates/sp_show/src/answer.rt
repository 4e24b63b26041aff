//! Which of a class set is shown.

use crate::class::{write_class, write_heading};
use crate::code::write_code;
use cf_disassembly::Shown;
use cf_reader::{ClassFile, Method, Numbered, ReadFault};
use cls_explain::{
    ClassSource, KnownClass, KnownClasses, NearestNames, write_method, write_near_classes,
};
use std::alloc::{AllocError, Global};

/// What is shown, or why it is not there.
#[derive(Drop)]
pub enum ShowAnswer {
    Text(String),
    /// The set has no such class, or the class no such method.
    Absent(String),
}

/// Returns the classes of these class files, a line each in the order of their names, and the files that are none; or the members of a class; or the
/// code of the methods of it that have a name, or a name and descriptor.
pub fn show(
    alloc: Global,
    sources: &[ClassSource<'_>],
    class: Option<&str>,
    method: Option<&str>,
) -> Result<ShowAnswer, AllocError> {
    let known = KnownClasses::new(alloc, sources)?;
    let Some(name) = class else {
        return show_classes(alloc, &known);
    };
    let Some(found) = known.read_class(name.as_bytes()) else {
        return absent_class(alloc, &known, name);
    };
    match method {
        Some(method) => show_methods(alloc, found, method.as_bytes()),
        None => {
            let mut page = String::new(alloc);
            write_class(alloc, &mut page, &known, found.class.file())?;
            Ok(ShowAnswer::Text(page))
        }
    }
}

fn show_classes(alloc: Global, known: &KnownClasses<'_>) -> Result<ShowAnswer, AllocError> {
    let mut lines: Vec<String> = Vec::new(alloc);
    for found in &known.classes {
        let mut line = String::new(alloc);
        write_heading(alloc, &mut line, known, found.class.file())?;
        lines.push(line)?;
    }
    lines.sort()?;
    let mut page = String::new(alloc);
    for line in &lines {
        writeln!(page, "{line}")?;
    }
    write_unread(&mut page, known)?;
    Ok(ShowAnswer::Text(page))
}

fn write_unread(page: &mut String, known: &KnownClasses<'_>) -> Result<(), AllocError> {
    for file in &known.unread {
        let path = Shown(file.path.as_bytes());
        if let ReadFault::Broken { rule, at } = file.fault {
            writeln!(page, "{path}: refused at {at}: {} {rule}", rule.number())?;
        }
    }
    Ok(())
}

fn absent_class(
    alloc: Global,
    known: &KnownClasses<'_>,
    name: &str,
) -> Result<ShowAnswer, AllocError> {
    let mut page = format!(in alloc; "no class {}\n", Shown(name.as_bytes()))?;
    write_near_classes(alloc, &mut page, known, name.as_bytes())?;
    write_unread(&mut page, known)?;
    Ok(ShowAnswer::Absent(page))
}

// The code of each method that a text names.
fn show_methods(
    alloc: Global,
    found: &KnownClass<'_>,
    text: &[u8],
) -> Result<ShowAnswer, AllocError> {
    let class = found.class.file();
    let mut page = String::new(alloc);
    let mut is_there = false;
    for (index, method) in class.methods.as_slice().iter().enumerate() {
        if is_named(method, text) {
            is_there = true;
            write_method(&mut page, method)?;
            write_code(alloc, &mut page, found, method, index)?;
        }
    }
    if is_there {
        Ok(ShowAnswer::Text(page))
    } else {
        absent_method(alloc, class, text)
    }
}

// Whether a text is a method's name, or its name and descriptor, joined.
fn is_named(method: &Method, text: &[u8]) -> bool {
    let name = method.name.as_bytes();
    match text.strip_prefix(name) {
        Some(rest) => rest.is_empty() || method.descriptor.is(rest),
        None => false,
    }
}

fn absent_method(alloc: Global, class: &ClassFile, text: &[u8]) -> Result<ShowAnswer, AllocError> {
    let mut page = format!(in alloc; "no method {}\n", Shown(text))?;
    let mut nearest = NearestNames::new(alloc, text);
    for method in class.methods.as_slice() {
        nearest.add(method.name.as_bytes())?;
    }
    nearest.write(&mut page)?;
    Ok(ShowAnswer::Absent(page))
}
