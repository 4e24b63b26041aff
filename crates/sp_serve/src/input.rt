//! Input lines, as those of scripts without the space's name.

use sim_script::{Command, read_line};
use sim_worlds::PlayFault;
use sp_board::{Board, Served};
use sp_hall::{Gate, Hall};
use sp_links::Host;
use sp_world::{CoreFault, Event};
use space_ids::{Row, Uuid};
use std::alloc::Global;
use std::io;
use std::io::{BufRead, ErrorKind};

// The name that a line of a script has for its space.
const HERE: &str = "here";

/// Why obeying ends.
#[derive(Clone, Copy)]
pub(crate) enum Ending {
    /// The input ended, or serving stopped.
    Done,
    /// The line of this number, from 1, is bad.
    BadLine(u64),
    /// An object that was to be bound was not made: what came of it was told.
    Unbound,
    /// A read of the input failed.
    Unreadable,
    /// Memory ran out.
    Memory,
}

// Why obeying ends where a line cannot be read.
fn ending_of(error: &io::Error) -> Ending {
    match error.kind() {
        ErrorKind::OutOfMemory => Ending::Memory,
        _ => Ending::Unreadable,
    }
}

/// Obeys the lines of an input, until it ends or cannot be read, a line is bad, or serving stops. What came of a line before a
/// read failed is no line. `fuel` is the most of a root.
pub(crate) fn obey_all<R: Host, S: Served + Drop, G: Gate, I: BufRead>(
    rt: &R,
    hall: &Hall<S, G>,
    fuel: u64,
    input: &mut I,
) -> Ending {
    let mut line = Vec::new(hall.alloc);
    for number in 1..u64::MAX {
        line.clear();
        match input.read_until(b'\n', &mut line) {
            Ok(0) => return Ending::Done,
            Ok(_) => {}
            Err(error) => return ending_of(&error),
        }
        if hall.board.lock(rt).is_stopped {
            return Ending::Done;
        }
        match obey(rt, hall, fuel, &line) {
            Ok(()) => {}
            Err(PlayFault::Bad) => return Ending::BadLine(number),
            Err(PlayFault::Memory) => return Ending::Memory,
        }
    }
    Ending::Done
}

// Obeys a line.
fn obey<R: Host, S: Served + Drop, G: Gate>(
    rt: &R,
    hall: &Hall<S, G>,
    fuel: u64,
    line: &[u8],
) -> Result<(), PlayFault> {
    let line = line.strip_suffix(b"\n").unwrap_or(line);
    let Ok(line) = str::from_utf8(line) else {
        return Err(PlayFault::Bad);
    };
    let said = said_here(hall.alloc, line)?;
    let Some(command) = read_line(hall.alloc, &said)? else {
        return Ok(());
    };
    let mut guard = hall.board.lock(rt);
    let board = &mut *guard;
    let obeyed = obey_command(rt, hall.alloc, board, fuel, &command);
    let due = board.take_due();
    drop(guard);
    hall.attend(rt, due);
    obeyed
}

// A line with the name of the space after its first word, as scripts have it.
fn said_here(alloc: Global, line: &str) -> Result<String, PlayFault> {
    let mut said = String::new(alloc);
    match line.split_once(' ') {
        Some((first, rest)) => {
            said.push_str(first)?;
            said.push(' ')?;
            said.push_str(HERE)?;
            said.push(' ')?;
            said.push_str(rest)?;
        }
        None => {
            said.push_str(line)?;
            if !line.is_empty() {
                said.push(' ')?;
                said.push_str(HERE)?;
            }
        }
    }
    Ok(said)
}

fn obey_command<R: Host, S: Served + Drop>(
    rt: &R,
    alloc: Global,
    board: &mut Board<S>,
    most: u64,
    command: &Command<'_>,
) -> Result<(), PlayFault> {
    match command {
        Command::Root {
            space: _,
            variable,
            fuel,
            class,
            method,
            arguments,
        } => root(
            rt,
            board,
            variable,
            fuel.units(most),
            class,
            method,
            arguments,
        ),
        Command::Lookup {
            space: _,
            peer,
            name,
            variable,
        } => look_up(rt, alloc, board, variable, peer, name),
        Command::Acknowledge { space: _, variable } => acknowledge(rt, board, variable),
        Command::Bind {
            space: _,
            name,
            variable,
        } => bind(rt, alloc, board, name, variable),
        Command::Rebind {
            space: _,
            name,
            variable,
        } => rebind(rt, alloc, board, name, variable),
        Command::Unbind { space: _, name } => unbind(rt, alloc, board, name),
        Command::Sweep(_) => happen(rt, board, &Event::Sweep),
        Command::Show(_) => board.show(HERE),
        _ => Err(PlayFault::Bad),
    }
}

// Lets the result of a variable go, if there is one, and the variable with it: so what a space keeps does not grow with
// the lines that it obeyed. One whose task goes on stays.
fn acknowledge<R: Host, S: Served + Drop>(
    rt: &R,
    board: &mut Board<S>,
    variable: &str,
) -> Result<(), PlayFault> {
    let Some(known) = board.variables.find(variable) else {
        return Err(PlayFault::Bad);
    };
    let task = known.key.task;
    let has_ended = known.outcome.is_some();
    happen(rt, board, &Event::RootAck(task))?;
    if has_ended {
        board.variables.forget(variable);
    }
    Ok(())
}

fn bind<R: Host, S: Served + Drop>(
    rt: &R,
    alloc: Global,
    board: &mut Board<S>,
    name: &str,
    variable: &str,
) -> Result<(), PlayFault> {
    let value = board.variables.reference(variable)?;
    let name = row(alloc, name)?;
    happen(rt, board, &Event::Bind { name, value })
}

fn rebind<R: Host, S: Served + Drop>(
    rt: &R,
    alloc: Global,
    board: &mut Board<S>,
    name: &str,
    variable: &str,
) -> Result<(), PlayFault> {
    let value = board.variables.reference(variable)?;
    let name = row(alloc, name)?;
    happen(rt, board, &Event::Rebind { name, value })
}

fn unbind<R: Host, S: Served + Drop>(
    rt: &R,
    alloc: Global,
    board: &mut Board<S>,
    name: &str,
) -> Result<(), PlayFault> {
    let name = row(alloc, name)?;
    happen(rt, board, &Event::Unbind { name })
}

fn row(alloc: Global, name: &str) -> Result<Row<u8>, PlayFault> {
    Ok(Row::new(name.as_bytes().to_vec(alloc)?))
}

// Lets an event of the space's own happen. One that is refused changes nothing.
fn happen<R: Host, S: Served + Drop>(
    rt: &R,
    board: &mut Board<S>,
    event: &Event,
) -> Result<(), PlayFault> {
    match board.on(rt, event) {
        Err(CoreFault::Memory) => Err(PlayFault::Memory),
        _ => Ok(()),
    }
}

fn root<R: Host, S: Served + Drop>(
    rt: &R,
    board: &mut Board<S>,
    variable: &str,
    fuel: u64,
    class: &str,
    method: &str,
    words: &[&str],
) -> Result<(), PlayFault> {
    if board.variables.find(variable).is_some() {
        return Err(PlayFault::Bad);
    }
    let arguments = board.variables.values(words)?;
    let number = match board.space.method(class, method) {
        Ok(number) => number,
        Err(fault) => return why_of_root(fault),
    };
    match board.root(rt, variable, number, &arguments, fuel) {
        Ok(()) => Ok(()),
        Err(fault) => why_of_root(fault),
    }
}

fn look_up<R: Host, S: Served + Drop>(
    rt: &R,
    alloc: Global,
    board: &mut Board<S>,
    variable: &str,
    peer: &str,
    name: &str,
) -> Result<(), PlayFault> {
    if board.variables.find(variable).is_some() {
        return Err(PlayFault::Bad);
    }
    let Ok(peer) = Uuid::parse_str(peer) else {
        return Err(PlayFault::Bad);
    };
    let name = row(alloc, name)?;
    match board.look_up(rt, variable, peer, name) {
        Ok(()) => Ok(()),
        Err(CoreFault::Memory) => Err(PlayFault::Memory),
        Err(CoreFault::Strange) => Err(PlayFault::Bad),
        Err(_) => Ok(()),
    }
}

// Whether a line is bad for why its root is refused.
fn why_of_root(fault: CoreFault) -> Result<(), PlayFault> {
    match fault {
        CoreFault::Start(_) | CoreFault::NotHeld | CoreFault::WrongKind | CoreFault::Busy => {
            Err(PlayFault::Bad)
        }
        CoreFault::Memory => Err(PlayFault::Memory),
        _ => Ok(()),
    }
}
