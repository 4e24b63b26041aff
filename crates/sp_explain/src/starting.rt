//! Why a method does not start with the arguments that it is given.

ghost use Rattle.std.specs.Prelude.{◌≤◌, IfSome, length};

use cf_disassembly::{HeldType, Shown};
use cf_pool::{Descriptor, descriptor};
use cf_reader::{ClassFile, ElementType, FieldType, Flags, Method, MethodDescriptor, Text};
use cls_explain::{
    ClassSource, KnownClasses, NearestNames, declared_method, write_method, write_methods_named,
    write_near_classes,
};
use space_ids::Value;
use std::alloc::{AllocError, Global};

/// Returns why the method that a text names in a class of these class files does not start with these arguments, and
/// which methods could be meant, in lines. `AllocError` if memory runs out.
pub fn explain_start(
    alloc: Global,
    sources: &[ClassSource<'_>],
    class: &str,
    method: &str,
    arguments: &[Value],
) -> Result<String, AllocError> {
    let mut page = String::new(alloc);
    let known = KnownClasses::new(alloc, sources)?;
    match known.class(class.as_bytes()) {
        Some(holder) => write_method_fault(alloc, &mut page, &known, holder, method, arguments)?,
        None => write_no_class(alloc, &mut page, &known, class)?,
    }
    Ok(page)
}

// How many classes or methods are listed.
const MOST: usize = 20;

fn write_no_class(
    alloc: Global,
    page: &mut String,
    known: &KnownClasses<'_>,
    class: &str,
) -> Result<(), AllocError> {
    writeln!(page, "  The set has no class {}.", Shown(class.as_bytes()))?;
    if class.contains('.') {
        page.push_str(
            "  A class of a package is written with slashes and without `.class`, as a/b/C.\n",
        )?;
    }
    write_near_classes(alloc, page, known, class.as_bytes())?;
    page.push_str("  The classes of the set:\n")?;
    for other in known.classes.as_slice().iter().take(MOST) {
        writeln!(page, "    {}", Shown(other.class.file().name.as_bytes()))?;
    }
    write_more(page, known.classes.len())
}

fn write_more(page: &mut String, count: usize) -> Result<(), AllocError> {
    if count > MOST {
        writeln!(page, "    and {} more", count - MOST)
    } else {
        Ok(())
    }
}

fn write_method_fault(
    alloc: Global,
    page: &mut String,
    known: &KnownClasses<'_>,
    class: &ClassFile,
    method: &str,
    arguments: &[Value],
) -> Result<(), AllocError> {
    let text = method.as_bytes();
    let Some(split) = parenthesis_in(text) else {
        page.push_str(
            "  METHOD is a name and a descriptor, as f(I)I; `javap -s` prints descriptors.\n",
        )?;
        return write_candidates(alloc, page, class, text);
    };
    let (name, types) = text.split_at(split);
    if name == b"<init>".as_slice() {
        page.push_str(
            "  A constructor is not started: write a static method that makes the object.\n",
        )?;
        return write_static_methods(page, class);
    }
    if !is_method_descriptor(alloc, types)? {
        writeln!(
            page,
            "  {} is no descriptor of a method: it has the parameters' types in parentheses, then the result's, as (I[ILCounter;)V.",
            Shown(types)
        )?;
        return write_candidates(alloc, page, class, name);
    }
    for holder in known.supertypes(alloc, class.name.as_bytes())? {
        if let Some((_, found)) = declared_method(holder, name, types) {
            return write_unfit(alloc, page, known, found, arguments);
        }
    }
    writeln!(
        page,
        "  {} and what it inherits from have no method {}.",
        Shown(class.name.as_bytes()),
        Shown(text)
    )?;
    write_candidates(alloc, page, class, name)
}

// Where a text has its first parenthesis.
fn parenthesis_in(text: &[u8]) -> Option<usize>
    ensures { IfSome result (λ at. at ≤ length text.now) }
{
    for (index, byte) in text.iter().enumerate() {
        if *byte == b'(' {
            return Some(index);
        }
    }
    None
}

fn is_method_descriptor(alloc: Global, bytes: &[u8]) -> Result<bool, AllocError> {
    let text = Text::new(alloc, Vec::from_slice(alloc, bytes)?)?;
    match descriptor(alloc, &text)? {
        Some(Descriptor::Method(_)) => Ok(true),
        _ => Ok(false),
    }
}

// The methods of the class that have the name; or those whose names are near, and the static ones.
fn write_candidates(
    alloc: Global,
    page: &mut String,
    class: &ClassFile,
    name: &[u8],
) -> Result<(), AllocError> {
    let mut named = String::new(alloc);
    if write_methods_named(&mut named, class, name)? > 0 {
        page.push_str("  Of this name the class has:\n")?;
        return page.push_str(named.as_str());
    }
    let mut nearest = NearestNames::new(alloc, name);
    for method in class.methods.as_slice() {
        nearest.add(method.name.as_bytes())?;
    }
    nearest.write(page)?;
    write_static_methods(page, class)
}

fn write_static_methods(page: &mut String, class: &ClassFile) -> Result<(), AllocError> {
    writeln!(
        page,
        "  The static methods of {}:",
        Shown(class.name.as_bytes())
    )?;
    let mut count: usize = 0;
    for method in class.methods.as_slice() {
        if method.flags.has(Flags::STATIC) {
            if count < MOST {
                page.push_str("    ")?;
                write_method(page, method)?;
                page.push_str("\n")?;
            }
            count = count.saturating_add(1);
        }
    }
    if count == 0 {
        page.push_str("    none\n")?;
    }
    write_more(page, count)
}

// Why the method that is meant does not start.
fn write_unfit(
    alloc: Global,
    page: &mut String,
    known: &KnownClasses<'_>,
    method: &Method,
    arguments: &[Value],
) -> Result<(), AllocError> {
    if method.code.is_none() {
        return page.push_str("  The method is abstract: start a static method, which calls it.\n");
    }
    if write_strange_types(alloc, page, known, &method.types)? {
        return page.push_str(
            "  A method that is started takes and gives int, boolean, int[] and remote interfaces.\n  Change: write a static method that takes and gives these.\n",
        );
    }
    if !method.flags.has(Flags::STATIC) {
        return page.push_str(
            "  The method is not static.\n  Change: write a static method that takes the object's remote interface, or makes the object, and calls it.\n",
        );
    }
    write_arguments(alloc, page, method, arguments)
}

// Writes the types of which no value crosses, and tells whether there are any.
fn write_strange_types(
    alloc: Global,
    page: &mut String,
    known: &KnownClasses<'_>,
    types: &MethodDescriptor,
) -> Result<bool, AllocError> {
    let mut found = false;
    for kind in types.parameters.iter() {
        if !crosses(alloc, known, kind)? {
            write_strange(alloc, page, kind, "A parameter")?;
            found = true;
        }
    }
    if let Some(kind) = &types.result
        && !crosses(alloc, known, kind)?
    {
        write_strange(alloc, page, kind, "Its result")?;
        found = true;
    }
    Ok(found)
}

fn write_strange(
    alloc: Global,
    page: &mut String,
    kind: &FieldType,
    what: &str,
) -> Result<(), AllocError> {
    let held = HeldType::of_field(alloc, kind)?;
    writeln!(page, "  {what} is of the type {held}.")
}

fn crosses(alloc: Global, known: &KnownClasses<'_>, kind: &FieldType) -> Result<bool, AllocError> {
    match (&kind.element, kind.dimensions) {
        (ElementType::Int | ElementType::Boolean, 0) => Ok(true),
        (ElementType::Int, 1) => Ok(true),
        (ElementType::Class(name), 0) => known.is_remote_interface(alloc, name.as_bytes()),
        _ => Ok(false),
    }
}

fn write_arguments(
    alloc: Global,
    page: &mut String,
    method: &Method,
    arguments: &[Value],
) -> Result<(), AllocError> {
    let count = method.types.parameters.len();
    if count != arguments.len() {
        return writeln!(
            page,
            "  The method takes {count} arguments, and {} are given.",
            arguments.len()
        );
    }
    for (index, kind) in method.types.parameters.iter().enumerate() {
        if let Some(value) = arguments.get(index)
            && !is_of_type(kind, value)
        {
            let asked = HeldType::of_field(alloc, kind)?;
            writeln!(
                page,
                "  Argument {} is {}, and {asked} is asked.",
                index.saturating_add(1),
                kind_of(value)
            )?;
        }
    }
    Ok(())
}

fn is_of_type(kind: &FieldType, value: &Value) -> bool {
    let is_int = kind.dimensions == 0 && !matches!(kind.element, ElementType::Class(_));
    match value {
        Value::Null => !is_int,
        Value::Int(_) => is_int,
        Value::Ints(_) => kind.dimensions == 1,
        Value::Ref(_) => kind.dimensions == 0 && !is_int,
    }
}

fn kind_of(value: &Value) -> &'static str {
    match value {
        Value::Null => "null",
        Value::Int(_) => "a number",
        Value::Ints(_) => "an array",
        Value::Ref(_) => "a reference",
    }
}
