//! From the parts of a class to its program.

use super::spelling::count;
use cf_reader::{ReadClass, ReadFault, read_class};
use class_builder::{BuildFault, ClassParts, CodeParts, MethodParts, SUM, class_bytes};
use cls_link::{LinkFault, Linked, link};
use cls_set::{ClassId, ClassSet, SetFault};
use std::alloc::Global;
use test_rows::RowFault;
use ver_check::{Accepted, CheckFault, accept};
use vm_step::{MethodId, Program};

/// Returns the program of the class of examples/sum.
pub fn sum(alloc: Global) -> Result<Program, RowFault> {
    program_of(alloc, SUM)
}

/// Returns the program of a class T that implements an interface, none for `-`, and has one method f with
/// these flags.
pub fn one_method(alloc: Global, flags: u16, words: &[&str]) -> Result<Program, RowFault> {
    let [interface, descriptor, max_stack, max_locals, code] = words else {
        return Err(RowFault::Bad);
    };
    let code = hex::decode(alloc, *code).map_err(|_| RowFault::Bad)?;
    let method = MethodParts {
        flags,
        name: "f",
        descriptor: *descriptor,
        code: Some(CodeParts {
            max_stack: count(max_stack)?,
            max_locals: count(max_locals)?,
            bytes: code.as_slice(),
            attributes: &[],
        }),
        attributes: &[],
    };
    program_of(alloc, &class_of(alloc, interface, &method)?)
}

fn class_of(alloc: Global, interface: &str, method: &MethodParts<'_>) -> Result<Vec<u8>, RowFault> {
    let named = [interface];
    let count = if interface == "-" { 0 } else { 1 };
    let class = ClassParts {
        flags: 0x0021,
        name: "T",
        superclass: "java/lang/Object",
        interfaces: &named[..count],
        fields: &[],
        methods: &[*method],
        attributes: &[],
    };
    match class_bytes(alloc, &class) {
        Ok(bytes) => Ok(bytes),
        Err(BuildFault::Memory) => Err(RowFault::Memory),
        Err(_) => Err(RowFault::Bad),
    }
}

// From the bytes of a class to its program. Each step stands in a function that promises no more than what the
// next one asks: what follows is proved without what a call promises.
fn program_of(alloc: Global, bytes: &[u8]) -> Result<Program, RowFault> {
    Ok(Program::of(alloc, accepted_of(alloc, bytes)?)?)
}

fn accepted_of(alloc: Global, bytes: &[u8]) -> Result<Accepted, RowFault> {
    match accept(alloc, linked_of(alloc, bytes)?) {
        Ok(accepted) => Ok(accepted),
        Err(CheckFault::Memory) => Err(RowFault::Memory),
        Err(_) => Err(RowFault::Bad),
    }
}

fn linked_of(alloc: Global, bytes: &[u8]) -> Result<Linked, RowFault> {
    match link(alloc, set_of(alloc, bytes)?) {
        Ok(linked) => Ok(linked),
        Err(LinkFault::Memory) => Err(RowFault::Memory),
        Err(_) => Err(RowFault::Bad),
    }
}

fn set_of(alloc: Global, bytes: &[u8]) -> Result<ClassSet, RowFault> {
    match ClassSet::build(alloc, files_of(alloc, bytes)?) {
        Ok(set) => Ok(set),
        Err(SetFault::Memory) => Err(RowFault::Memory),
        Err(_) => Err(RowFault::Bad),
    }
}

fn files_of(alloc: Global, bytes: &[u8]) -> Result<Vec<ReadClass>, RowFault> {
    let class = read(alloc, bytes)?;
    let mut files = Vec::new(alloc);
    files.push(class)?;
    Ok(files)
}

fn read(alloc: Global, bytes: &[u8]) -> Result<ReadClass, RowFault> {
    match read_class(alloc, bytes) {
        Ok(class) => Ok(class),
        Err(ReadFault::Memory) => Err(RowFault::Memory),
        Err(_) => Err(RowFault::Bad),
    }
}

/// Returns the number of a class of the program. This promises nothing, and so does what follows.
pub fn class_number(program: &Program, name: &str) -> Option<ClassId> {
    program.linked().set().number(name.as_bytes())
}

/// Returns the method of a number, or the method f of the class T with a descriptor.
pub fn method_of(program: &Program, word: &str) -> Result<MethodId, RowFault> {
    if let Ok(number) = word.parse::<u32>() {
        return Ok(MethodId(number));
    }
    declared(program, word).ok_or(RowFault::Bad)
}

fn declared(program: &Program, descriptor: &str) -> Option<MethodId> {
    let linked = program.linked();
    let class = linked.set().number(b"T")?;
    linked.method(class, b"f", descriptor.as_bytes())
}
