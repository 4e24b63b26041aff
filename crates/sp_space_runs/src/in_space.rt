//! A method that runs as the only root of a space.

ghost use Rattle.std.specs.Prelude.{◌≡◌, List, Option, IfOk, IfErr, map};
ghost use Rattle.cls_link.specs.Links.{Links};
ghost use Rattle.sp_behaviours.specs.Behaviours.{told as told_to_space};
ghost use Rattle.sp_space.specs.Spaces.{IsSpace};
ghost use Rattle.sp_files.specs.Only.{IsOutOfMemory};
ghost use Rattle.sp_files.specs.Programs.{IsProgram};
ghost use Rattle.sp_outputs.specs.Notes.{output_of};
ghost use Rattle.sp_rules.specs.Classes.{Setting};
ghost use Rattle.sp_rules.specs.Events.{Event};
ghost use Rattle.sp_rules.specs.State.{opening};
ghost use Rattle.sp_runs.specs.Going.{HasEnded, answer_of, setting_of};
ghost use Rattle.sp_runs.specs.InSpace.{RunsInSpace};
ghost use Rattle.sp_runs.specs.Only.{OnlyGives};
ghost use Rattle.sp_runs.specs.Runs.{IsNotRunInSpace};
ghost use Rattle.sp_tasks.specs.Behaviours.{outcome_of};
ghost use Rattle.uuid.specs.Parts.{zero_bytes};
ghost use Rattle.vm_step.specs.Run.{State};
ghost use Rattle.sp_space_runs.specs.Going.{Goes, IsGoing, IsRootFault, refusal_at};

use sp_call_set::CallSet;
use sp_events::CoreFault;
use sp_files::{ClassBytes, Refusal, RunOutcome};
use sp_outputs::Output;
use sp_runs::named;
use sp_space::Space;
use sp_world::WorldSpace;
use space_ids::{Uuid, Value};
use std::alloc::Global;
use vm_step::{Limits, MethodId, Outcome, Program, StartFault};

/// Runs the method as the only root of a new space of id 0, and returns how it ended. `Refusal::Start` if it
/// does not start with these arguments, and with `StartFault::BadArgument` if one of them is a reference: a
/// new space has no object. It may be out of memory instead of any answer. A heap of 2^32 - 2^16 words or more is
/// out of memory.
pub fn run_in_space(
    alloc: Global,
    program: &Program,
    method: MethodId,
    arguments: Vec<Value>,
    limits: Limits,
) -> Result<RunOutcome, Refusal>
    requires program { (files : List ClassBytes) × IsProgram files program.now }
    ensures run { IfOk result (RunsInSpace program.now method arguments.items limits) }
    ensures refused { IfErr result (IsNotRunInSpace program.now method arguments.items limits) }
    ensures only { (outcome : RunOutcome)
        → RunsInSpace program.now method arguments.items limits outcome
        → OnlyGives outcome IsOutOfMemory result }
{
    let classes = CallSet::new(alloc, program)?;
    run_in_set(alloc, program, &classes, method, &arguments, limits)
}

// The same in a space of the program's class set, which is lent here, so that one function lets it go.
fn run_in_set<'p>(
    alloc: Global,
    program: &'p Program,
    classes: &'p CallSet<'p>,
    method: MethodId,
    arguments: &[Value],
    limits: Limits,
) -> Result<RunOutcome, Refusal>
    requires program { (files : List ClassBytes) × IsProgram files program.now }
    requires classes { classes.now ≡ program.now }
    ensures run { IfOk result (RunsInSpace program.now method arguments.now limits) }
    ensures refused { IfErr result (IsNotRunInSpace program.now method arguments.now limits) }
    ensures only { (outcome : RunOutcome)
        → RunsInSpace program.now method arguments.now limits outcome
        → OnlyGives outcome IsOutOfMemory result }
{
    // No peer compares the digest or the version with its own.
    match Space::new(alloc, program, classes, [0; 32], Uuid::nil(), limits, 2) {
        Ok(space) => run_new(program, space, method, arguments, limits),
        Err(_) => Err(Refusal::Memory),
    }
}

// The same in a new space, which is let go here.
fn run_new(
    program: &Program,
    mut space: Space<'_>,
    method: MethodId,
    arguments: &[Value],
    limits: Limits,
) -> Result<RunOutcome, Refusal>
    requires program { (files : List ClassBytes) × IsProgram files program.now }
    requires space { IsSpace (setting_of program.now zero_bytes limits) opening space }
    ensures run { IfOk result (RunsInSpace program.now method arguments.now limits) }
    ensures refused { IfErr result (IsNotRunInSpace program.now method arguments.now limits) }
    ensures only { (outcome : RunOutcome)
        → RunsInSpace program.now method arguments.now limits outcome
        → OnlyGives outcome IsOutOfMemory result }
{
    let outcome = run_root(program, &mut space, method, arguments, limits);
    drop(space);
    outcome
}

// Runs the method as the first root of a space of id 0 with these limits. The space is lent here, so that one function
// lets it go.
fn run_root(
    program: &Program,
    space: &mut Space<'_>,
    method: MethodId,
    arguments: &[Value],
    limits: Limits,
) -> Result<RunOutcome, Refusal>
    requires program { (files : List ClassBytes) × IsProgram files program.now }
    requires space { IsSpace (setting_of program.now zero_bytes limits) opening space.old }
    ensures run { IfOk result (RunsInSpace program.now method arguments.now limits) }
    ensures refused { IfErr result (IsNotRunInSpace program.now method arguments.now limits) }
    ensures only { (outcome : RunOutcome)
        → RunsInSpace program.now method arguments.now limits outcome
        → OnlyGives outcome IsOutOfMemory result }
{
    match space.root(method.0, arguments, limits.fuel) {
        Ok(_) => {}
        Err(fault) => return Err(refusal_of(fault)),
    }
    let outcome = play(space, limits.fuel)?;
    Ok(named(program, outcome)?)
}

// Lets the only task of a space go on to its end, and returns how it ended. It has this fuel.
fn play(space: &mut Space<'_>, fuel: u64) -> Result<Outcome, Refusal>
    requires { IsGoing fuel space.old }
    ensures ended { IfOk result (λ outcome. (program : Links) (g : Setting) (first : Event) (start : State) → Goes program g first start fuel space.old → HasEnded program g first start outcome) }
    ensures refused { IfErr result (λ refusal. refusal ≡ Refusal.Memory) }
{
    let mut left = fuel;
    loop {
        let Ok(outputs) = space.step(1) else {
            return Err(Refusal::Memory);
        };
        if let Some(outcome) = ended(outputs) {
            return Ok(outcome);
        }
        // A step that does not end the task takes a unit of its fuel.
        left -= 1;
    }
}

// How the task has ended by a step that answers these outputs, if it has.
fn ended(outputs: Vec<Output>) -> Option<Outcome>
    ensures { (end : Option Outcome) → map output_of outputs.items ≡ answer_of end → result ≡ end }
{
    let mut outputs = outputs;
    match outputs.pop() {
        Some(Output::Ended(_, outcome)) => Some(told(outcome)),
        _ => None,
    }
}

fn told(outcome: sp_tasks::Outcome) -> Outcome
    ensures { told_to_space result ≡ outcome_of outcome }
{
    match outcome {
        sp_tasks::Outcome::Returned(value) => Outcome::Returned(value),
        sp_tasks::Outcome::Threw(class) => Outcome::Threw(class),
        sp_tasks::Outcome::Spent => Outcome::Spent,
    }
}

// Why a new space does not start the root. Beside the start itself it refuses references alone: the root has
// no more fuel than the limits say, no other task lives, and nothing has come to its last number.
fn refusal_of(fault: CoreFault) -> Refusal
    requires { IsRootFault fault }
    ensures { result ≡ refusal_at fault }
{
    match fault {
        CoreFault::Start(sp_events::StartFault::AbsentMethod) => {
            Refusal::Start(StartFault::AbsentMethod)
        }
        CoreFault::Start(sp_events::StartFault::BadSignature) => {
            Refusal::Start(StartFault::BadSignature)
        }
        CoreFault::Start(sp_events::StartFault::BadArgument) | CoreFault::NotHeld => {
            Refusal::Start(StartFault::BadArgument)
        }
        CoreFault::Memory => Refusal::Memory,
        _ => unreachable!(),
    }
}
