//! From the bytes of class files to how a method ends, without any input or output.

ghost use Rattle.std.specs.Prelude.{List, IfOk, IfErr};
ghost use Rattle.sp_files.specs.Only.{IsOutOfMemory};
ghost use Rattle.sp_files.specs.Programs.{IsProgram};
ghost use Rattle.sp_runs.specs.OfProgram.{IsRefusedOf, IsRunOf};
ghost use Rattle.sp_runs.specs.Only.{OnlyGives};
ghost use Rattle.sp_runs.specs.Runs.{IsRefused, IsRun};

use crate::in_space::run_in_space;
use sp_files::{ClassBytes, Refusal, RunOutcome, program_of};
use sp_runs::{has_remote, method_named, run_method};
use space_ids::Value;
use std::alloc::Global;
use vm_step::{Limits, Program};

/// Runs the static method of this name and descriptor, as `f(I)I`, over the class set of the files,
/// and returns how it ended. Method resolution finds it, so the class may inherit it (JVMS 5.4.3.3). In a set
/// with remote classes it is the only root of a new space of id 0.
/// The first refusal counts: files in order, then the set, links, checks, and the start. It may be out of
/// memory instead of any answer. A heap of 2^32 - 2^16 words or more is out of memory.
pub fn run_classes(
    alloc: Global,
    files: &[ClassBytes],
    class: &[u8],
    method: &[u8],
    arguments: Vec<Value>,
    limits: Limits,
) -> Result<RunOutcome, Refusal>
    // From the bytes to the outcome: the classes that the bytes spell are type safe, and the tagged machine of
    // all instructions runs the method to this end, never stuck and within its bounds; in a set with remote
    // classes a space does, as the rules of spaces say.
    ensures run { IfOk result (IsRun files.now class.now method.now arguments.items limits) }
    // A refusal says what is wrong, and nothing before it is wrong.
    ensures refused { IfErr result (IsRefused files.now class.now method.now arguments.items limits) }
    // If the files make a program and its method runs to an outcome, no other is answered, and no refusal
    // but out of memory.
    ensures only { (outcome : RunOutcome)
        → IsRun files.now class.now method.now arguments.items limits outcome
        → OnlyGives outcome IsOutOfMemory result }
{
    let program = program_of(alloc, files)?;
    run_named(alloc, &program, class, method, arguments, limits)
}

// Runs the method of the program that is named so. The program is lent here, so that one function lets it go.
fn run_named(
    alloc: Global,
    program: &Program,
    class: &[u8],
    text: &[u8],
    arguments: Vec<Value>,
    limits: Limits,
) -> Result<RunOutcome, Refusal>
    requires program { (files : List ClassBytes) × IsProgram files program.now }
    ensures run { IfOk result (IsRunOf program.now class.now text.now arguments.items limits) }
    ensures refused { IfErr result (IsRefusedOf program.now class.now text.now arguments.items limits) }
    ensures only { (files : List ClassBytes) (outcome : RunOutcome)
        → IsProgram files program.now
        → IsRun files class.now text.now arguments.items limits outcome
        → OnlyGives outcome IsOutOfMemory result }
{
    let method = method_named(alloc, program, class, text)?;
    if has_remote(program) {
        return run_in_space(alloc, program, method, arguments, limits);
    }
    run_method(alloc, program, method, arguments, limits)
}
