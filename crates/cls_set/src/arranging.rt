//! Arranging the classes of a set: by name, with their supertypes.

ghost use Rattle.std.specs.Prelude.{◌≡◌, All, IfOk, IfErr};
ghost use Rattle.cf_reader.specs.WellFormed.{IsWellFormed};
ghost use Rattle.cls_set.specs.ClassRules.{AreOf};
ghost use Rattle.cls_set.specs.Faults.{IsSetFault};

use super::SetFault;
use cf_reader::{ClassFile, ReadClass};
use cls_order::{Entry, gather, refuse_cycles, refuse_duplicates, resolve};
use std::alloc::{AllocError, Global};

// What files that were read say: each is well formed.
pub(crate) fn class_files(alloc: Global, read: Vec<ReadClass>) -> Result<Vec<ClassFile>, AllocError>
    ensures same { IfOk result (λ files. files.items ≡ read.items) }
    ensures well_formed { IfOk result (λ files. All IsWellFormed files.items) }
{
    let mut files = Vec::with_capacity(alloc, read.len())?;
    for class in read {
        files.push(class.into_file())?;
    }
    Ok(files)
}

// The classes of the files and the built-in ones, once their supertypes are known.
pub(crate) fn arrange(alloc: Global, files: Vec<ClassFile>) -> Result<Vec<Entry>, SetFault>
    ensures classes { IfOk result (λ entries. AreOf files.items entries.items) }
    ensures fault { IfErr result (IsSetFault files.items) }
{
    let mut entries = gather(alloc, files)?;
    refuse_duplicates(entries.as_slice())?;
    resolve(alloc, &mut entries)?;
    refuse_cycles(alloc, &mut entries)?;
    Ok(entries)
}
