//! Class files with the names of their classes, and their digest.

ghost use Rattle.std.specs.Prelude.{All, IfOk};
ghost use Rattle.std.specs.List.{AllZip};
ghost use Rattle.sp_digest.specs.Digests.{IsShort};
ghost use Rattle.sp_class_digest.specs.ClassDigests.{HasName, IsClassDigest, IsClassFile, IsNamed, MakeAProgram, NamesClass, SpellsAClass};

use cf_reader::{ReadFault, Text, read_class};
use sp_digest::{NamedFile, digest_of};
use sp_files::{ClassBytes, Content};
use std::alloc::{AllocError, Global};

/// Returns the digest of class files that make a program: SHA-256 over them in the order of the names of their
/// classes, each with its length in four bytes before it. `AllocError` if memory runs out. (This project's own rule.)
pub fn class_digest(alloc: Global, files: &[ClassBytes]) -> Result<[u8; 32], AllocError>
    requires { MakeAProgram files.now }
    ensures { IfOk result (IsClassDigest files.now) }
{
    let names = names_of(alloc, files)?;
    let named = named_files(alloc, files, &names)?;
    digest_of(alloc, &named)
}

// The files, each with the name of its class.
fn named_files<'a>(
    alloc: Global,
    files: &'a [ClassBytes],
    names: &'a [Text],
) -> Result<Vec<NamedFile<'a>>, AllocError>
    requires { AllZip HasName files.now names.now }
    ensures short { IfOk result (λ named. All IsShort named.items) }
    ensures named { IfOk result (λ named. AllZip IsNamed files.now named.items) }
{
    let mut named = Vec::with_capacity(alloc, files.len())?;
    for (index, file) in files.iter().enumerate() {
        named.push(named_file(file, &names[index]))?;
    }
    Ok(named)
}

fn named_file<'a>(file: &'a ClassBytes, name: &'a Text) -> NamedFile<'a>
    requires { HasName file.now name.now }
    ensures short { IsShort result }
    ensures named { IsNamed file.now result }
{
    match &file.content {
        Content::Bytes(bytes) => NamedFile {
            name: name.as_bytes(),
            bytes,
        },
        Content::Unreadable => unreachable!(),
    }
}

// The names of the classes of these files.
fn names_of(alloc: Global, files: &[ClassBytes]) -> Result<Vec<Text>, AllocError>
    requires { All IsClassFile files.now }
    ensures { IfOk result (λ names. AllZip HasName files.now names.items) }
{
    let mut names = Vec::with_capacity(alloc, files.len())?;
    for file in files {
        names.push(name_of(alloc, file)?)?;
    }
    Ok(names)
}

// The name of the class of a file.
fn name_of(alloc: Global, file: &ClassBytes) -> Result<Text, AllocError>
    requires { IsClassFile file.now }
    ensures { IfOk result (HasName file.now) }
{
    match &file.content {
        Content::Bytes(bytes) => class_name(alloc, bytes),
        Content::Unreadable => unreachable!(),
    }
}

// The name of the class that bytes spell. What was read of them is let go here, and in one place.
fn class_name(alloc: Global, bytes: &[u8]) -> Result<Text, AllocError>
    requires { SpellsAClass bytes.now }
    ensures { IfOk result (NamesClass bytes.now) }
{
    match read_class(alloc, bytes) {
        Ok(class) => class.file().name.copy(),
        Err(ReadFault::Broken { .. }) => unreachable!(),
        Err(ReadFault::Memory) => Err(AllocError),
    }
}
