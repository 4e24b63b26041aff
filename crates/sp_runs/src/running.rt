//! A method of a program that runs alone.

ghost use Rattle.std.specs.Prelude.{◌≡◌, ◌<◌, Some, IfOk, IfErr};
ghost use Rattle.sp_files.specs.Names.{NamesMethod};
ghost use Rattle.sp_files.specs.Only.{IsOutOfMemory};
ghost use Rattle.sp_runs.specs.OfProgram.{IsEndOf, IsNotFound};
ghost use Rattle.sp_runs.specs.Only.{OnlyGives};
ghost use Rattle.sp_runs.specs.Outcomes.{IsNamed};
ghost use Rattle.sp_runs.specs.Runs.{IsNotRun, Runs};
ghost use Rattle.vm_step.specs.Run.{HasNoRemote, run};
ghost use Rattle.vm_step.specs.Task.{IsOfSet, fuel_left};

use sp_files::{Refusal, RunOutcome, find_named};
use space_ids::{Uuid, Value};
use std::alloc::{AllocError, Global};
use vm_step::{Limits, MethodId, Outcome, Program, StartFault, Task};

/// The method that a text names in the class of this name, or why it has none.
pub fn method_named(
    alloc: Global,
    program: &Program,
    class: &[u8],
    text: &[u8],
) -> Result<MethodId, Refusal>
    ensures found { IfOk result (λ method. NamesMethod program.now class.now text.now (Some method)) }
    ensures refused { IfErr result (IsNotFound program.now class.now text.now) }
{
    let found = find_named(alloc, program, class, text)?;
    match found {
        Some(method) => Ok(method),
        None => Err(Refusal::Start(StartFault::AbsentMethod)),
    }
}

/// Runs a method of a program without remote classes to its end, and returns how it ended. It may be out of
/// memory instead of any answer. A heap of 2^32 - 2^16 words or more is out of memory.
pub fn run_method(
    alloc: Global,
    program: &Program,
    method: MethodId,
    arguments: Vec<Value>,
    limits: Limits,
) -> Result<RunOutcome, Refusal>
    requires plain { HasNoRemote program.now.classes }
    ensures run { IfOk result (Runs program.now method arguments.items limits) }
    ensures refused { IfErr result (IsNotRun program.now method arguments.items limits) }
    ensures only { (outcome : RunOutcome)
        → Runs program.now method arguments.items limits outcome
        → OnlyGives outcome IsOutOfMemory result }
{
    let mut task = Task::start(alloc, program, Uuid::nil(), method, arguments, limits)?;
    run_task(alloc, program, &mut task)
}

// Runs a task to its end, and returns how it ended. The task is lent here, so that one function lets it go.
fn run_task(alloc: Global, program: &Program, task: &mut Task) -> Result<RunOutcome, Refusal>
    requires plain { HasNoRemote program.now.classes }
    requires program { task.old.program ≡ program.now }
    requires fuel { fuel_left task.old.state < 18446744073709551616 }
    ensures ended { IfOk result (IsEndOf program.now (run program.now 18446744073709551616 task.old.state)) }
    ensures refused { IfErr result (λ refusal. refusal ≡ Refusal.Memory) }
{
    // More instructions than there can be fuel for: the task ends, since without remote classes it asks
    // for nothing.
    let _ = task.run(program, u64::MAX);
    let _ = task.run(program, 1);
    let told = task.outcome(alloc)?;
    match told {
        Some(outcome) => Ok(named(program, outcome)?),
        None => unreachable!(),
    }
}

/// How a task ended, with the name of a class instead of its number.
pub fn named(program: &Program, outcome: Outcome) -> Result<RunOutcome, AllocError>
    requires { IsOfSet program.now.classes outcome }
    ensures { IfOk result (IsNamed program.now.classes outcome) }
{
    match outcome {
        Outcome::Returned(value) => Ok(RunOutcome::Returned(value)),
        Outcome::Spent => Ok(RunOutcome::Spent),
        Outcome::Threw(class) => {
            let set = program.linked().set();
            Ok(RunOutcome::Threw(set.name(class).copy()?))
        }
    }
}
