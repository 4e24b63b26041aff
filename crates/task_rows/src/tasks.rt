//! Tasks: how they start, run and end.

ghost use Rattle.std.specs.Prelude.{◌≡◌, IfOk};

use super::programs::method_of;
use super::spelling::{MOST_HEAP_WORDS, values};
use std::alloc::Global;
use std::io::Write;
use test_rows::{RowFault, number, put};
use vm_step::{Limits, MethodId, Numbered, Outcome, Pause, Program, StartFault, Task, Uuid, Value};

/// Prints the number and the name of each reason not to start.
pub fn put_faults(said: &mut Vec<u8>) -> Result<(), RowFault> {
    for fault in [
        StartFault::AbsentMethod,
        StartFault::BadSignature,
        StartFault::BadArgument,
        StartFault::Memory,
    ] {
        put_fault(said, fault)?;
    }
    Ok(())
}

fn put_fault(said: &mut Vec<u8>, fault: StartFault) -> Result<(), RowFault> {
    writeln!(said, "{} {fault}", fault.number())?;
    Ok(())
}

// Why a row has no task: it is bad, memory ran out, or the task does not start.
#[derive(Clone, Copy)]
enum Untold {
    Row(RowFault),
    Start(StartFault),
}

impl From<RowFault> for Untold {
    fn from(fault: RowFault) -> Untold {
        Untold::Row(fault)
    }
}

/// Starts a task, lets it run in pieces, and prints how it stands.
pub fn play(
    alloc: Global,
    said: &mut Vec<u8>,
    program: &Program,
    limits: Limits,
    kind: &str,
    words: &[&str],
) -> Result<(), RowFault> {
    let [pieces, method, arguments @ ..] = words else {
        return Err(RowFault::Bad);
    };
    match begin(alloc, program, limits, method, arguments) {
        Ok(mut task) => put_task(alloc, said, program, &mut task, kind, pieces),
        Err(Untold::Start(fault)) => put_fault(said, fault),
        Err(Untold::Row(fault)) => Err(fault),
    }
}

fn put_task(
    alloc: Global,
    said: &mut Vec<u8>,
    program: &Program,
    task: &mut Task,
    kind: &str,
    pieces: &str,
) -> Result<(), RowFault>
    requires { task.old.program ≡ program.now }
{
    match kind {
        "turns" => put_turns(alloc, said, program, task, number(pieces)?),
        _ => put_pieces(alloc, said, program, task, pieces),
    }
}

fn begin(
    alloc: Global,
    program: &Program,
    limits: Limits,
    method: &str,
    arguments: &[&str],
) -> Result<Task, Untold>
    ensures { IfOk result (λ task. task.program ≡ program.now) }
{
    let method = method_of(program, method)?;
    let arguments = values(alloc, arguments)?;
    start(alloc, program, limits, method, arguments)
}

fn start(
    alloc: Global,
    program: &Program,
    limits: Limits,
    method: MethodId,
    arguments: Vec<Value>,
) -> Result<Task, Untold>
    ensures { IfOk result (λ task. task.program ≡ program.now) }
{
    if limits.heap_words > MOST_HEAP_WORDS {
        return Err(Untold::Row(RowFault::Bad));
    }
    Task::begin(alloc, program, Uuid::nil(), method, arguments, limits).map_err(told_of)
}

fn told_of(fault: StartFault) -> Untold {
    match fault {
        StartFault::Memory => Untold::Row(RowFault::Memory),
        fault => Untold::Start(fault),
    }
}

// What the calls answer. These functions promise no more than which program the task has, so that a row is
// proved at once.
fn run(task: &mut Task, program: &Program, most: u64) -> Pause
    requires { task.old.program ≡ program.now }
    ensures { task.new.program ≡ program.now }
{
    task.run(program, most)
}

fn outcome(alloc: Global, task: &Task) -> Result<Option<Outcome>, RowFault> {
    Ok(task.outcome(alloc)?)
}

// How often the task turns, of a hundred pieces at most.
fn turns(task: &mut Task, program: &Program, most: u64) -> u32
    requires { task.old.program ≡ program.now }
{
    for made in 0..100 {
        if run(task, program, most) != Pause::Turn {
            return made;
        }
    }
    100
}

fn put_turns(
    alloc: Global,
    said: &mut Vec<u8>,
    program: &Program,
    task: &mut Task,
    most: u64,
) -> Result<(), RowFault>
    requires { task.old.program ≡ program.now }
{
    put(said, "turns", &turns(task, program, most))?;
    put(said, "stands", &outcome(alloc, task)?)
}

fn put_pieces(
    alloc: Global,
    said: &mut Vec<u8>,
    program: &Program,
    task: &mut Task,
    pieces: &str,
) -> Result<(), RowFault>
    requires { task.old.program ≡ program.now }
{
    put(said, "stands", &outcome(alloc, task)?)?;
    for piece in pieces.split(',') {
        put(said, "pause", &run(task, program, number(piece)?))?;
        put(said, "stands", &outcome(alloc, task)?)?;
    }
    Ok(())
}
