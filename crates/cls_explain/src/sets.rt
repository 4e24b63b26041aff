//! Why class files make no set.

use crate::known::{ClassSource, KnownClasses};
use crate::linking::write_near_classes;
use crate::members::{write_field, write_method};
use cf_disassembly::Shown;
use cf_explain::advice_on;
use cf_reader::{ClassFile, ElementType, FieldType, Flags, Method};
use cls_set::SetRule;
use std::alloc::{AllocError, Global};

/// Returns what it means that a class of these class files breaks a rule on sets, and what to change, in lines.
/// `AllocError` if memory runs out.
pub fn explain_set(
    alloc: Global,
    sources: &[ClassSource<'_>],
    rule: SetRule,
    class: &[u8],
) -> Result<String, AllocError> {
    let mut page = String::new(alloc);
    let known = KnownClasses::new(alloc, sources)?;
    match rule {
        SetRule::Duplicate => write_duplicates(&mut page, &known, class)?,
        SetRule::TooMany => page.push_str(
            "  A set has at most 4,096 classes, with the built-in ones.\n",
        )?,
        _ => {
            if let Some(holder) = known.read_class(class) {
                write_class_rule(alloc, &mut page, &known, holder.class.file(), rule)?;
            }
        }
    }
    Ok(page)
}

fn write_duplicates(
    page: &mut String,
    known: &KnownClasses<'_>,
    class: &[u8],
) -> Result<(), AllocError> {
    page.push_str("  Two classes have this name, or it is a built-in one's. It stands in:\n")?;
    for other in &known.classes {
        if other.class.file().name.is(class) {
            writeln!(page, "    {}", Shown(other.source.path.as_bytes()))?;
        }
    }
    page.push_str("  Change: keep one of them in the folder and in those below it.\n")
}

fn write_class_rule(
    alloc: Global,
    page: &mut String,
    known: &KnownClasses<'_>,
    class: &ClassFile,
    rule: SetRule,
) -> Result<(), AllocError> {
    match rule {
        SetRule::AbsentClass => write_absent(alloc, page, known, class),
        SetRule::Cycle => page.push_str(
            "  It is its own supertype, directly or through others: the classes are of different compilations.\n  Change: compile all sources together.\n",
        ),
        SetRule::BadSuper => write_supers(page, known, class),
        SetRule::FinalSuper => {
            write_superclass(page, class)?;
            page.push_str(
                "  That class is final, and has no subclasses.\n  Change: leave `final` out, and compile all sources together.\n",
            )
        }
        SetRule::RemoteField => write_remote_fields(alloc, page, known, class),
        SetRule::RemoteMethod => write_remote_methods(alloc, page, known, class),
        SetRule::Override => write_overrides(alloc, page, known, class),
        SetRule::Duplicate | SetRule::TooMany => Ok(()),
    }
}

// Each class that is absent, once for each item that names it.
fn write_absent(
    alloc: Global,
    page: &mut String,
    known: &KnownClasses<'_>,
    class: &ClassFile,
) -> Result<(), AllocError> {
    if let Some(superclass) = &class.superclass {
        write_if_absent(
            alloc,
            page,
            known,
            superclass.as_bytes(),
            "its superclass",
            b"",
        )?;
    }
    for interface in class.interfaces.as_slice() {
        write_if_absent(
            alloc,
            page,
            known,
            interface.as_bytes(),
            "its superinterface",
            b"",
        )?;
    }
    for field in class.fields.as_slice() {
        if let Some(name) = class_in(&field.kind) {
            write_if_absent(
                alloc,
                page,
                known,
                name,
                "its field ",
                field.name.as_bytes(),
            )?;
        }
    }
    for method in class.methods.as_slice() {
        write_absent_types(alloc, page, known, method)?;
    }
    Ok(())
}

fn write_absent_types(
    alloc: Global,
    page: &mut String,
    known: &KnownClasses<'_>,
    method: &Method,
) -> Result<(), AllocError> {
    let name = method.name.as_bytes();
    for kind in method.types.parameters.iter() {
        if let Some(class) = class_in(kind) {
            write_if_absent(
                alloc,
                page,
                known,
                class,
                "a parameter of its method ",
                name,
            )?;
        }
    }
    if let Some(kind) = &method.types.result
        && let Some(class) = class_in(kind)
    {
        write_if_absent(alloc, page, known, class, "the result of its method ", name)?;
    }
    Ok(())
}

fn class_in(kind: &FieldType) -> Option<&[u8]> {
    match &kind.element {
        ElementType::Class(name) => Some(name.as_bytes()),
        _ => None,
    }
}

fn write_if_absent(
    alloc: Global,
    page: &mut String,
    known: &KnownClasses<'_>,
    name: &[u8],
    who: &str,
    member: &[u8],
) -> Result<(), AllocError> {
    if known.class(name).is_some() {
        return Ok(());
    }
    writeln!(
        page,
        "  The set has no class {}, which {who}{} names.",
        Shown(name),
        Shown(member)
    )?;
    write_near_classes(alloc, page, known, name)?;
    writeln!(page, "  Change: {}", advice_on(name))
}

fn write_superclass(page: &mut String, class: &ClassFile) -> Result<(), AllocError> {
    match &class.superclass {
        Some(name) => writeln!(page, "  Its superclass is {}.", Shown(name.as_bytes())),
        None => page.push_str("  It has no superclass.\n"),
    }
}

fn write_supers(
    page: &mut String,
    known: &KnownClasses<'_>,
    class: &ClassFile,
) -> Result<(), AllocError> {
    write_superclass(page, class)?;
    if let Some(name) = &class.superclass
        && is_interface(known, name.as_bytes())
    {
        page.push_str("  That is an interface.\n")?;
    }
    for name in class.interfaces.as_slice() {
        if !is_interface(known, name.as_bytes()) {
            writeln!(
                page,
                "  Its superinterface {} is a class.",
                Shown(name.as_bytes())
            )?;
        }
    }
    page.push_str(
        "  The classes are of different compilations.\n  Change: compile all sources together.\n",
    )
}

fn is_interface(known: &KnownClasses<'_>, name: &[u8]) -> bool {
    match known.class(name) {
        Some(class) => class.flags.has(Flags::INTERFACE),
        None => false,
    }
}

// Whether a value of a type crosses between spaces, or may be held in a field of a remote object.
fn crosses(
    alloc: Global,
    known: &KnownClasses<'_>,
    kind: &FieldType,
    is_field: bool,
) -> Result<bool, AllocError> {
    match (&kind.element, kind.dimensions) {
        (ElementType::Int | ElementType::Boolean, 0) => Ok(true),
        (ElementType::Int, 1) => Ok(!is_field),
        (ElementType::Class(name), 0) => known.is_remote_interface(alloc, name.as_bytes()),
        _ => Ok(false),
    }
}

fn write_remote_fields(
    alloc: Global,
    page: &mut String,
    known: &KnownClasses<'_>,
    class: &ClassFile,
) -> Result<(), AllocError> {
    for holder in known.supertypes(alloc, class.name.as_bytes())? {
        for field in holder.fields.as_slice() {
            if !field.flags.has(Flags::STATIC) && !crosses(alloc, known, &field.kind, true)? {
                write!(
                    page,
                    "  At fault: the field of {}: ",
                    Shown(holder.name.as_bytes())
                )?;
                write_field(page, field)?;
                page.push_str("\n")?;
            }
        }
    }
    page.push_str(
        "  A remote object holds ints, booleans and references of remote interfaces: its fields are what a space keeps of it.\n  Change: give the field one of these types. Where it holds a remote object, declare it by the remote interface, not by the class. To keep several, let each object hold the next.\n",
    )
}

fn write_remote_methods(
    alloc: Global,
    page: &mut String,
    known: &KnownClasses<'_>,
    class: &ClassFile,
) -> Result<(), AllocError> {
    for holder in known.supertypes(alloc, class.name.as_bytes())? {
        if !holder.flags.has(Flags::INTERFACE) {
            continue;
        }
        for method in holder.methods.as_slice() {
            if !all_cross(alloc, known, method)? {
                write!(
                    page,
                    "  At fault: the method of {}: ",
                    Shown(holder.name.as_bytes())
                )?;
                write_method(page, method)?;
                page.push_str("\n")?;
            }
        }
    }
    page.push_str(
        "  A remote method takes and gives int, boolean, int[] and remote interfaces: what crosses between spaces.\n  Change: give its parameters and its result these types. A remote object is passed by its remote interface, not by its class.\n",
    )
}

fn all_cross(alloc: Global, known: &KnownClasses<'_>, method: &Method) -> Result<bool, AllocError> {
    for kind in method.types.parameters.iter() {
        if !crosses(alloc, known, kind, false)? {
            return Ok(false);
        }
    }
    match &method.types.result {
        Some(kind) => crosses(alloc, known, kind, false),
        None => Ok(true),
    }
}

fn write_overrides(
    alloc: Global,
    page: &mut String,
    known: &KnownClasses<'_>,
    class: &ClassFile,
) -> Result<(), AllocError> {
    for holder in known.supertypes(alloc, class.name.as_bytes())? {
        if holder.flags.has(Flags::INTERFACE) || holder.name.is(class.name.as_bytes()) {
            continue;
        }
        for method in class.methods.as_slice() {
            write_if_overridden(page, method, holder)?;
        }
    }
    page.push_str(
        "  A method may not take the place of one that is final, static or of another package without `public`; a static one not that of an instance one; a private one no other's.\n  Change: give one of the two another name.\n",
    )
}

fn write_if_overridden(
    page: &mut String,
    method: &Method,
    holder: &ClassFile,
) -> Result<(), AllocError> {
    if method.name.is(b"<init>") {
        return Ok(());
    }
    for other in holder.methods.as_slice() {
        let is_same = other.name.is(method.name.as_bytes())
            && other.descriptor.is(method.descriptor.as_bytes());
        if is_same && !other.flags.has(Flags::PRIVATE) {
            page.push_str("  Its method ")?;
            write_method(page, method)?;
            write!(page, " meets that of {}: ", Shown(holder.name.as_bytes()))?;
            write_method(page, other)?;
            page.push_str("\n")?;
        }
    }
    Ok(())
}
