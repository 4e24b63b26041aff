//! Whole scripts.

ghost use Rattle.std.specs.Prelude.{All, IfOk};
ghost use Rattle.sp_promises.specs.WorldRuns.{IsNew};

use crate::names::Names;
use crate::script_run::ScriptRun;
use crate::{Origin, PlayFault, ScriptFault, ScriptSpace};
use sim_happenings::ScriptRecord;
use sim_script::{Command, read_line};
use std::alloc::{AllocError, Global};
use std::mem;

/// Plays a script over a world of spaces that `origin` makes, and returns the lines that it shows. Its
/// lines are parted by newlines. `ScriptFault::BadLine` for the first line that is bad.
pub fn play_script<S: ScriptSpace + Drop, O: Origin<S>>(
    alloc: Global,
    origin: &O,
    script: &[u8],
) -> Result<Vec<u8>, ScriptFault> {
    let lines = lines_of(alloc, script)?;
    let mut names = Names::new(alloc);
    let first = read_names(alloc, &lines, &mut names)?;
    let script_run = begin(alloc, origin, names)?;
    let mut none = ScriptRecord::new(alloc, false);
    play_lines(alloc, script_run, &lines, first, &mut none)
}

/// The same, and keeps in a record what happens, as far as that wants it, up to the first bad line if there is one.
pub fn play_recorded<S: ScriptSpace + Drop, O: Origin<S>>(
    alloc: Global,
    origin: &O,
    script: &[u8],
    record: &mut ScriptRecord,
) -> Result<Vec<u8>, ScriptFault> {
    let lines = lines_of(alloc, script)?;
    let mut names = Names::new(alloc);
    let first = read_names(alloc, &lines, &mut names)?;
    names.enter_all(record)?;
    let script_run = begin(alloc, origin, names)?;
    play_lines(alloc, script_run, &lines, first, record)
}

// Plays the lines from this index on, and returns what is shown. The record stands in the run until they are played.
fn play_lines<S: ScriptSpace + Drop>(
    alloc: Global,
    script_run: ScriptRun<S>,
    lines: &[&[u8]],
    first: usize,
    record: &mut ScriptRecord,
) -> Result<Vec<u8>, ScriptFault> {
    let mut script_run = script_run;
    mem::swap(&mut script_run.record, record);
    let played = play_each(alloc, &mut script_run, lines, first);
    script_run.count_standing();
    mem::swap(&mut script_run.record, record);
    shown(script_run, played)
}

// What is shown of a script that was played, if it was played to its end.
fn shown<S: ScriptSpace + Drop>(
    script_run: ScriptRun<S>,
    played: Result<(), ScriptFault>,
) -> Result<Vec<u8>, ScriptFault> {
    let text = script_run.finish();
    match (played, text) {
        (Ok(()), Ok(text)) => Ok(text),
        (Ok(()), Err(_)) => Err(ScriptFault::Memory),
        (Err(fault), _) => Err(fault),
    }
}

// The lines of a script, which newlines part.
fn lines_of(alloc: Global, script: &[u8]) -> Result<Vec<&[u8]>, AllocError> {
    Ok(script.split(|byte| *byte == b'\n').collect(alloc)?)
}

fn at_line(fault: PlayFault, line: usize) -> ScriptFault {
    match fault {
        PlayFault::Bad => ScriptFault::BadLine(line),
        PlayFault::Memory => ScriptFault::Memory,
    }
}

// Notes the spaces that the first lines name. Returns the index of the first line that names none.
fn read_names(alloc: Global, lines: &[&[u8]], names: &mut Names) -> Result<usize, ScriptFault> {
    for (index, line) in lines.iter().enumerate() {
        match read_name(alloc, line, names) {
            Ok(true) => {}
            Ok(false) => return Ok(index),
            Err(fault) => return Err(at_line(fault, index + 1)),
        }
    }
    Ok(lines.len())
}

// Notes the space that a line names, if it does. Returns whether the line is empty or names one.
fn read_name(alloc: Global, line: &[u8], names: &mut Names) -> Result<bool, PlayFault> {
    match read(alloc, line) {
        Ok(Some(Command::Space { name, version })) => {
            let _ = names.add(name, version)?;
            Ok(true)
        }
        Ok(None) => Ok(true),
        Err(PlayFault::Memory) => Err(PlayFault::Memory),
        _ => Ok(false),
    }
}

// Makes the spaces of these names.
fn begin<S: ScriptSpace + Drop, O: Origin<S>>(
    alloc: Global,
    origin: &O,
    names: Names,
) -> Result<ScriptRun<S>, ScriptFault> {
    let spaces = make_spaces(alloc, origin, &names)?;
    match ScriptRun::new(alloc, names, spaces) {
        Ok(script_run) => Ok(script_run),
        Err(_) => Err(ScriptFault::Memory),
    }
}

fn make_spaces<S: ScriptSpace + Drop, O: Origin<S>>(
    alloc: Global,
    origin: &O,
    names: &Names,
) -> Result<Vec<S>, ScriptFault>
    ensures new { IfOk result (λ spaces. All (IsNew S.is_space) spaces.items) }
{
    let mut spaces = Vec::new(alloc);
    for number in 0..names.len() {
        let (Ok(id), Ok(version)) = (names.id(number), names.version(number)) else {
            return Err(ScriptFault::Memory);
        };
        let space = origin.space(id, version)?;
        match spaces.push(space) {
            Ok(()) => {}
            Err(_) => return Err(ScriptFault::Memory),
        }
    }
    Ok(spaces)
}

// Plays the lines from this index on.
fn play_each<S: ScriptSpace + Drop>(
    alloc: Global,
    script_run: &mut ScriptRun<S>,
    lines: &[&[u8]],
    first: usize,
) -> Result<(), ScriptFault> {
    for (before, line) in lines.iter().enumerate().skip(first) {
        match play_line(alloc, script_run, line, before + 1) {
            Ok(()) => {}
            Err(fault) => return Err(at_line(fault, before + 1)),
        }
    }
    Ok(())
}

// What a line says. It is bad if it is no text in UTF-8.
fn read<'a>(alloc: Global, line: &'a [u8]) -> Result<Option<Command<'a>>, PlayFault> {
    let Ok(text) = str::from_utf8(line) else {
        return Err(PlayFault::Bad);
    };
    Ok(read_line(alloc, text)?)
}

// Plays the line of this number.
fn play_line<S: ScriptSpace + Drop>(
    alloc: Global,
    script_run: &mut ScriptRun<S>,
    line: &[u8],
    number: usize,
) -> Result<(), PlayFault> {
    let Ok(text) = str::from_utf8(line) else {
        return Err(PlayFault::Bad);
    };
    match read_line(alloc, text)? {
        Some(command) => {
            script_run.note_line(number, text)?;
            script_run.play(&command)
        }
        None => Ok(()),
    }
}
