//! From the bytes of class files to a program: reading, sets, linking and checking, without any input or output.

ghost use Rattle.std.specs.Prelude.{◌≡◌, ◌⊎◌, length, IfOk, IfErr};
ghost use Rattle.cls_link.specs.Links.{Links};
ghost use Rattle.sp_files.specs.Only.{IsOutOfMemory};
ghost use Rattle.sp_files.specs.Programs.{IsNoProgram, IsProgram};

use crate::files::read_files;
use crate::{ClassBytes, Refusal};
use cls_link::link;
use cls_set::ClassSet;
use std::alloc::Global;
use ver_check::{Accepted, accept};
use vm_step::Program;

/// Returns the program that the files make. The first refusal counts: files in order, then the set, links and
/// checks. It may be out of memory instead.
pub fn program_of(alloc: Global, files: &[ClassBytes]) -> Result<Program, Refusal>
    ensures program { IfOk result (λ program. IsProgram files.now program) }
    ensures refused { IfErr result (λ refusal. IsNoProgram files.now refusal ⊎ (refusal ≡ Refusal.Memory)) }
    ensures only { (program : Links) → IsProgram files.now program → IfErr result IsOutOfMemory }
{
    let accepted = accepted_of(alloc, files)?;
    Ok(Program::of(alloc, accepted)?)
}

/// Reads, links and checks the class set of the files, and returns how many files there are. The
/// first refusal counts: files in order, then the set, links and checks. Nothing of it runs.
pub fn check_classes(alloc: Global, files: &[ClassBytes]) -> Result<usize, Refusal>
    ensures accepted { IfOk result (λ count. count ≡ length files.now) }
    ensures program { IfOk result (λ _. (program : Links) × IsProgram files.now program) }
    ensures refused { IfErr result (IsNoProgram files.now) }
    // Files that make a program are accepted, unless memory runs out.
    ensures only { (program : Links) → IsProgram files.now program → IfErr result IsOutOfMemory }
{
    accepted_of(alloc, files)?;
    Ok(files.len())
}

// The files' class set, read, linked and checked.
fn accepted_of(alloc: Global, files: &[ClassBytes]) -> Result<Accepted, Refusal>
    ensures program { IfOk result (IsProgram files.now) }
    ensures refused { IfErr result (IsNoProgram files.now) }
    ensures only { (program : Links) → IsProgram files.now program → IfErr result IsOutOfMemory }
{
    let classes = read_files(alloc, files)?;
    let set = ClassSet::build(alloc, classes)?;
    let linked = link(alloc, set)?;
    Ok(accept(alloc, linked)?)
}
