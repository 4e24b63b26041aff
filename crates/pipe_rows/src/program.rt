//! The program of class files, and the plays over spaces of it.

ghost use Rattle.std.specs.Prelude.{IfOk};
ghost use Rattle.sp_behaviours.specs.Told.{AreRemoteRules};

use crate::table::{Plan, put_plan};
use sim_spaces::ProgramSpaces;
use sp_call_set::CallSet;
use sp_files::{ClassBytes, Refusal, program_of};
use std::alloc::Global;
use test_rows::RowFault;
use vm_step::Program;

// A program that files make keeps the rules on its remote classes.
fn made_program(alloc: Global, files: &[ClassBytes]) -> Result<Program, Refusal>
    ensures { IfOk result (λ program. AreRemoteRules program.classes) }
{
    program_of(alloc, files)
}

/// Prints what the plays of a plan come to, over spaces of these class files.
pub fn put_plays(
    alloc: Global,
    files: &[ClassBytes],
    said: &mut Vec<u8>,
    plan: Plan,
    step: usize,
) -> Result<(), RowFault> {
    match made_program(alloc, files) {
        Ok(program) => put_plays_of(alloc, &program, said, plan, step),
        Err(Refusal::Memory) => Err(RowFault::Memory),
        Err(_) => Err(RowFault::Bad),
    }
}

fn put_plays_of(
    alloc: Global,
    program: &Program,
    said: &mut Vec<u8>,
    plan: Plan,
    step: usize,
) -> Result<(), RowFault>
    requires { AreRemoteRules program.now.classes }
{
    let classes = CallSet::new(alloc, program)?;
    let spaces = ProgramSpaces::new(alloc, program, &classes, [0; 32]);
    put_plan(alloc, &spaces, said, plan, step)
}
