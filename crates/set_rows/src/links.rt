//! Classes, methods and fields of a linked set.

use super::spelling::plain;
use cls_link::{Class, ClassId, FieldSlot, Linked, MethodId, Selection};
use test_rows::{RowFault, class, one_word, put};

/// Plays a question about a linked set.
pub fn play(
    linked: &Linked,
    said: &mut Vec<u8>,
    kind: &str,
    words: &[&str],
) -> Result<(), RowFault> {
    match kind {
        "number" => put_number(said, linked, words),
        "at" => put_class_at(said, linked, words),
        "below" => put_below(said, linked, words),
        "select" => put_selected(said, linked, words),
        "method" => put_method(said, linked, words),
        "slot" => put_slot(said, linked, words),
        _ => Err(RowFault::Bad),
    }
}

fn put_number(said: &mut Vec<u8>, linked: &Linked, words: &[&str]) -> Result<(), RowFault> {
    put(said, "number", &number(linked, one_word(words)?))
}

fn put_class_at(said: &mut Vec<u8>, linked: &Linked, words: &[&str]) -> Result<(), RowFault> {
    put_class(said, class_at(linked, class(one_word(words)?)?)?)
}

fn put_selected(said: &mut Vec<u8>, linked: &Linked, words: &[&str]) -> Result<(), RowFault> {
    let [of, called] = words else {
        return Err(RowFault::Bad);
    };
    let of = class_named(linked, of)?;
    put(said, "selects", &select(linked, of, number_of(called)?)?)
}

fn put_method(said: &mut Vec<u8>, linked: &Linked, words: &[&str]) -> Result<(), RowFault> {
    let [of, name, descriptor] = words else {
        return Err(RowFault::Bad);
    };
    let of = class_named(linked, of)?;
    put(said, "means", &method(linked, of, name, descriptor)?)?;
    let declared = declared_method(linked, of, name, descriptor)?;
    put(said, "declares", &declared)
}

fn put_slot(said: &mut Vec<u8>, linked: &Linked, words: &[&str]) -> Result<(), RowFault> {
    let [of, name, descriptor] = words else {
        return Err(RowFault::Bad);
    };
    let of = class_named(linked, of)?;
    put(said, "slot", &slot(linked, of, name, descriptor)?)
}

fn number_of(word: &str) -> Result<MethodId, RowFault> {
    let number = word.parse::<u32>().map_err(|_| RowFault::Bad)?;
    Ok(MethodId(number))
}

/// Returns the class of this name.
pub fn class_named(linked: &Linked, name: &str) -> Result<ClassId, RowFault> {
    number(linked, name).ok_or(RowFault::Bad)
}

// What the calls answer. These functions promise nothing, so that a row is proved at once.
fn number(linked: &Linked, name: &str) -> Option<ClassId> {
    linked.set().number(name.as_bytes())
}

/// Returns the class with this number.
pub fn class_at(linked: &Linked, id: ClassId) -> Result<&Class, RowFault> {
    let set = linked.set();
    if usize::from(id.0) >= set.len() {
        return Err(RowFault::Bad);
    }
    Ok(set.class(id))
}

fn is_subclass(linked: &Linked, sub: ClassId, sup: ClassId) -> Result<bool, RowFault> {
    let set = linked.set();
    if usize::from(sub.0) >= set.len() {
        return Err(RowFault::Bad);
    }
    Ok(set.is_subclass(sub, sup))
}

fn implements(linked: &Linked, sub: ClassId, sup: ClassId) -> Result<bool, RowFault> {
    let set = linked.set();
    if usize::from(sub.0) >= set.len() {
        return Err(RowFault::Bad);
    }
    Ok(set.implements(sub, sup))
}

fn is_remote(linked: &Linked, id: ClassId) -> Result<bool, RowFault> {
    let set = linked.set();
    if usize::from(id.0) >= set.len() {
        return Err(RowFault::Bad);
    }
    Ok(set.is_remote(id))
}

fn method(
    linked: &Linked,
    of: ClassId,
    name: &str,
    descriptor: &str,
) -> Result<Option<MethodId>, RowFault> {
    if usize::from(of.0) >= linked.set().len() {
        return Err(RowFault::Bad);
    }
    Ok(linked.method(of, name.as_bytes(), descriptor.as_bytes()))
}

/// Returns the number of the method of this name and descriptor that a class declares.
pub fn declared_method(
    linked: &Linked,
    of: ClassId,
    name: &str,
    descriptor: &str,
) -> Result<Option<MethodId>, RowFault> {
    if usize::from(of.0) >= linked.set().len() {
        return Err(RowFault::Bad);
    }
    Ok(linked.declared_method(of, name.as_bytes(), descriptor.as_bytes()))
}

fn select(linked: &Linked, of: ClassId, called: MethodId) -> Result<Selection, RowFault> {
    if usize::from(of.0) >= linked.set().len() || called.0 as usize >= linked.len() {
        return Err(RowFault::Bad);
    }
    Ok(linked.select(of, called))
}

fn slot(
    linked: &Linked,
    of: ClassId,
    name: &str,
    descriptor: &str,
) -> Result<Option<FieldSlot>, RowFault> {
    if usize::from(of.0) >= linked.set().len() {
        return Err(RowFault::Bad);
    }
    Ok(linked.field_slot(of, name.as_bytes(), descriptor.as_bytes()))
}

fn put_class(said: &mut Vec<u8>, class: &Class) -> Result<(), RowFault> {
    put(said, "name", &plain(&class.file.name))?;
    put(said, "built in", &class.is_built_in)?;
    put(said, "interface", &class.is_interface())?;
    put(said, "superclass", &class.superclass)?;
    put(said, "methods", &class.file.methods.as_slice().len())
}

fn put_below(said: &mut Vec<u8>, linked: &Linked, words: &[&str]) -> Result<(), RowFault> {
    let [sub, sup] = words else {
        return Err(RowFault::Bad);
    };
    let (sub, sup) = (class_named(linked, sub)?, class_named(linked, sup)?);
    put(said, "subclass", &is_subclass(linked, sub, sup)?)?;
    put(said, "subtype", &implements(linked, sub, sup)?)?;
    put(said, "remote", &is_remote(linked, sub)?)
}
