//! Lines of a script.

use super::{Between, Command, LineFault, RootFuel};
use std::alloc::Global;

/// Returns what a line says, and `None` for an empty one. `LineFault::Bad` for a word that is none of a
/// script, as an empty one is, for too many or too few words, and for a number that is not digits alone, or out of range:
/// fuel and moments are below 2^63 and 2^64.
pub fn read_line<'a>(alloc: Global, line: &'a str) -> Result<Option<Command<'a>>, LineFault> {
    if line.is_empty() {
        return Ok(None);
    }
    let words: Vec<&'a str> = line.split(' ').collect(alloc)?;
    if words.iter().any(|word| word.is_empty()) {
        return Err(LineFault::Bad);
    }
    match words.as_slice() {
        ["settle"] => Ok(Some(Command::Settle)),
        [verb, space, rest @ ..] => Ok(Some(command_of(alloc, *verb, *space, rest)?)),
        _ => Err(LineFault::Bad),
    }
}

fn command_of<'a>(
    alloc: Global,
    verb: &'a str,
    space: &'a str,
    rest: &[&'a str],
) -> Result<Command<'a>, LineFault> {
    match verb {
        "root" => root_of(alloc, space, rest),
        "bind" | "rebind" | "unbind" | "lookup" | "ack" => named_of(verb, space, rest),
        "space" | "sweep" | "step" | "show" | "moment" => own_of(verb, space, rest),
        _ => match rest {
            [peer, rest @ ..] => Ok(Command::Between {
                space,
                peer: *peer,
                event: between_of(verb, rest)?,
            }),
            [] => Err(LineFault::Bad),
        },
    }
}

fn root_of<'a>(alloc: Global, space: &'a str, rest: &[&'a str]) -> Result<Command<'a>, LineFault> {
    let [variable, fuel, class, method, arguments @ ..] = rest else {
        return Err(LineFault::Bad);
    };
    let fuel = fuel_of(fuel)?;
    Ok(Command::Root {
        space,
        variable: *variable,
        fuel,
        class: *class,
        method: *method,
        arguments: arguments.to_vec(alloc)?,
    })
}

// The fuel that a word says: `-` is as much as there may be.
fn fuel_of(word: &str) -> Result<RootFuel, LineFault> {
    if word == "-" {
        return Ok(RootFuel::Most);
    }
    let units = number_of(word)?;
    if units > i64::MAX as u64 {
        return Err(LineFault::Bad);
    }
    Ok(RootFuel::Units(units))
}

// What names names or variables.
fn named_of<'a>(verb: &str, space: &'a str, rest: &[&'a str]) -> Result<Command<'a>, LineFault> {
    match (verb, rest) {
        ("ack", [variable]) => Ok(Command::Acknowledge {
            space,
            variable: *variable,
        }),
        ("bind", [name, variable]) => Ok(Command::Bind {
            space,
            name: *name,
            variable: *variable,
        }),
        ("rebind", [name, variable]) => Ok(Command::Rebind {
            space,
            name: *name,
            variable: *variable,
        }),
        ("unbind", [name]) => Ok(Command::Unbind { space, name: *name }),
        ("lookup", [peer, name, variable]) => Ok(Command::Lookup {
            space,
            peer: *peer,
            name: *name,
            variable: *variable,
        }),
        _ => Err(LineFault::Bad),
    }
}

// What a space does by itself.
fn own_of<'a>(verb: &str, space: &'a str, rest: &[&'a str]) -> Result<Command<'a>, LineFault> {
    match (verb, rest) {
        ("space", rest) => Ok(Command::Space {
            name: space,
            version: version_of(rest)?,
        }),
        ("sweep", []) => Ok(Command::Sweep(space)),
        ("step", []) => Ok(Command::Step(space)),
        ("show", []) => Ok(Command::Show(space)),
        ("moment", [moment]) => Ok(Command::Moment {
            space,
            moment: number_of(moment)?,
        }),
        _ => Err(LineFault::Bad),
    }
}

// The version that a space speaks at most: 2 if none is said.
fn version_of(words: &[&str]) -> Result<u8, LineFault> {
    match words {
        [] | ["2"] => Ok(2),
        ["1"] => Ok(1),
        _ => Err(LineFault::Bad),
    }
}

fn between_of(verb: &str, rest: &[&str]) -> Result<Between, LineFault> {
    match (verb, rest) {
        ("open", []) => Ok(Between::Open),
        ("refuse", []) => Ok(Between::Refuse),
        ("deliver", []) => Ok(Between::Deliver),
        ("reply", []) => Ok(Between::Reply),
        ("readfail", []) => Ok(Between::ReadFails),
        ("writefail", [unsent]) => Ok(Between::WriteFails(number_of(unsent)?)),
        _ => Err(LineFault::Bad),
    }
}

// A number of digits alone.
fn number_of(word: &str) -> Result<u64, LineFault> {
    if word.starts_with('+') {
        return Err(LineFault::Bad);
    }
    word.parse::<u64>().map_err(|_| LineFault::Bad)
}
