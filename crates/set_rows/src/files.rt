//! Sets of class files.

use super::parts::Made;
use super::spelling::plain;
use cf_reader::{Numbered, ReadClass, ReadFault, read_class};
use class_builder::BuildFault;
use cls_link::{LinkFault, Linked, link};
use cls_set::{ClassSet, SetFault};
use std::alloc::Global;
use std::io::Write;
use test_rows::{RowFault, put};
use ver_check::{Accepted, CheckFault, accept};
use vm_step::Program;

/// Links the set of class files, and prints how many classes and methods it has, or why there is none.
pub fn linked_set(
    alloc: Global,
    said: &mut Vec<u8>,
    files: &[Vec<u8>],
) -> Result<Option<Linked>, RowFault> {
    match set_of(alloc, files)? {
        Ok(set) => put_linked(said, linked(alloc, set)),
        Err(fault) => put_refused(said, &fault),
    }
}

/// Returns the program of the class files, and prints how many classes and methods it has. `RowFault::Bad` if
/// they make none.
pub fn program_of(
    alloc: Global,
    said: &mut Vec<u8>,
    files: &[Vec<u8>],
) -> Result<Program, RowFault> {
    match linked_set(alloc, said, files)? {
        Some(linked) => Ok(Program::of(alloc, accepted(alloc, linked)?)?),
        None => Err(RowFault::Bad),
    }
}

fn put_linked(
    said: &mut Vec<u8>,
    answer: Result<Linked, LinkFault>,
) -> Result<Option<Linked>, RowFault> {
    let linked = match answer {
        Ok(linked) => linked,
        Err(LinkFault::Memory) => return Err(RowFault::Memory),
        Err(_) => return Err(RowFault::Bad),
    };
    put_counts(said, &linked)?;
    Ok(Some(linked))
}

fn put_counts(said: &mut Vec<u8>, linked: &Linked) -> Result<(), RowFault> {
    put(said, "classes", &class_count(linked.set()))?;
    put(said, "methods", &method_count(linked))
}

// What the calls answer. These functions promise nothing, so that a row is proved at once.
fn read(alloc: Global, bytes: &[u8]) -> Result<ReadClass, RowFault> {
    match read_class(alloc, bytes) {
        Ok(class) => Ok(class),
        Err(ReadFault::Memory) => Err(RowFault::Memory),
        Err(_) => Err(RowFault::Bad),
    }
}

fn read_all(alloc: Global, files: &[Vec<u8>]) -> Result<Vec<ReadClass>, RowFault> {
    let mut classes = Vec::new(alloc);
    for bytes in files {
        classes.push(read(alloc, bytes)?)?;
    }
    Ok(classes)
}

fn set_of(alloc: Global, files: &[Vec<u8>]) -> Result<Result<ClassSet, SetFault>, RowFault> {
    let classes = read_all(alloc, files)?;
    Ok(ClassSet::build(alloc, classes))
}

fn linked(alloc: Global, set: ClassSet) -> Result<Linked, LinkFault> {
    link(alloc, set)
}

fn accepted(alloc: Global, linked: Linked) -> Result<Accepted, RowFault> {
    match accept(alloc, linked) {
        Ok(accepted) => Ok(accepted),
        Err(CheckFault::Memory) => Err(RowFault::Memory),
        Err(_) => Err(RowFault::Bad),
    }
}

fn class_count(set: &ClassSet) -> usize {
    set.len()
}

fn method_count(linked: &Linked) -> usize {
    linked.len()
}

// Prints why there is no set.
fn put_refused(said: &mut Vec<u8>, fault: &SetFault) -> Result<Option<Linked>, RowFault> {
    let SetFault::Broken { rule, class } = fault else {
        return Err(RowFault::Memory);
    };
    writeln!(said, "{} {rule} {}", rule.number(), plain(class))?;
    Ok(None)
}

/// Returns the class file. `RowFault::Bad` if the parts make none.
pub fn file_of(made: Made) -> Result<Vec<u8>, RowFault> {
    match made {
        Ok(bytes) => Ok(bytes),
        Err(BuildFault::Memory) => Err(RowFault::Memory),
        Err(_) => Err(RowFault::Bad),
    }
}
