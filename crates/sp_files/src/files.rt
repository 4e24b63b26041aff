//! Class files as devices give them, and how they are read.

ghost use Rattle.std.specs.Prelude.{List, IfOk, IfErr};
ghost use Rattle.cf_reader.specs.declared.class_file.ClassFile.{ClassFile};
ghost use Rattle.sp_files.specs.Files.{AreSpelled, IsFileFault, IsSpelled, IsUnread};
ghost use Rattle.sp_files.specs.Only.{IsOutOfMemory, IsReadOut};

use crate::Refusal;
use cf_load::LoadFault;
use cf_reader::{ReadClass, read_class};
use std::alloc::Global;

/// A class file: its path, and what its device gave of it.
#[derive(Drop)]
pub struct ClassBytes {
    pub path: String,
    pub content: Content,
}

/// What a device gave of a file.
#[derive(Drop)]
pub enum Content {
    /// All of its bytes, or one more than a class file may have.
    Bytes(Vec<u8>),
    /// The device failed.
    Unreadable,
}

// The class files that files spell. The first that is refused counts.
pub(crate) fn read_files(alloc: Global, files: &[ClassBytes]) -> Result<Vec<ReadClass>, Refusal>
    ensures read { IfOk result (λ classes. AreSpelled files.now classes.items) }
    ensures refused { IfErr result (IsUnread files.now) }
    ensures only { (classes : List ClassFile)
        → AreSpelled files.now classes
        → IfErr result IsOutOfMemory }
{
    let mut classes = Vec::new(alloc);
    for (index, file) in files.iter().enumerate() {
        match read_file(alloc, file) {
            Ok(class) => classes.push(class)?,
            Err(fault) => return Err(Refusal::File { index, fault }),
        }
    }
    Ok(classes)
}

fn read_file(alloc: Global, file: &ClassBytes) -> Result<ReadClass, LoadFault>
    ensures read { IfOk result (IsSpelled file.now.content) }
    ensures fault { IfErr result (IsFileFault file.now.content) }
    ensures only { (class : ClassFile) → IsSpelled file.now.content class → IfErr result IsReadOut }
{
    match &file.content {
        Content::Bytes(bytes) => Ok(read_class(alloc, bytes)?),
        Content::Unreadable => Err(LoadFault::Device),
    }
}
