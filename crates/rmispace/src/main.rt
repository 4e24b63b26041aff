//! The program `rmispace`: hands its arguments, the file system and its standard streams to the
//! library, and ends with the status that the library returns.
#![tactic(auto)]

use crate::escaping::EscapingWriter;
use crate::front::{has_negative_fuel, take_explain, unknown_command, without_help};
use sp_links::Host;
use sp_main::{Disk, Status, command, explain_command, show_command};
use sp_serve_command::{explain_ended, explain_space, space_command};
use sp_sim_command::{asks_record, sim_command};
use std::io::{BufRead, ErrorKind, Write};
use std::net::{TcpListener, TcpStream};
use std::process::ExitCode;
use std::random::RandomSource;
use std::rt::{Env, Files};
use std::{env, io};

mod escaping;
mod front;

fn main(rt: HostRuntime) -> ExitCode {
    // The handle stands for these types too, and the borrow checker knows only those that a function names.
    let none: Option<(TcpListener, TcpStream)> = None;
    drop(none);
    let status = match words_of(&rt) {
        Ok(words) => obey(
            &rt,
            words,
            &mut rt.reader(),
            io::writer(&rt.stdout()),
            &mut EscapingWriter {
                inner: &mut io::writer(&rt.stderr()),
            },
        ),
        Err(error) => {
            let said = match error.kind() {
                ErrorKind::InvalidData => "a word of the command line is no UTF-8",
                _ => "no memory",
            };
            let _ = eprintln!(rt; "{said}");
            Status::Failed.code()
        }
    };
    ExitCode::from(status)
}

// Does what the command line asks for, and returns the status. What `--explain` adds comes below a refusal.
fn obey<
    R: Host + RandomSource + Files + Clone + Drop,
    I: BufRead,
    O: Write + Send + Drop,
    E: Write,
>(rt: &R, words: Vec<String>, input: &mut I, out: O, err: &mut E) -> u8 {
    let alloc = rt.alloc();
    let Ok(explained) = take_explain(alloc, words) else {
        return no_memory(err);
    };
    let Ok(words) = without_help(alloc, explained.words) else {
        return no_memory(err);
    };
    if has_negative_fuel(&words) {
        let _ = err.write_all(NO_FUEL);
        return Status::Failed.code();
    }
    match unknown_command(alloc, &words) {
        Ok(None) => run_command(rt, &words, explained.explains, input, out, err),
        Ok(Some(said)) => {
            let _ = err.write_all(said.as_bytes());
            Status::Failed.code()
        }
        Err(_) => no_memory(err),
    }
}

const NO_FUEL: &[u8] = b"error: the fuel is a whole number from 0 to 9223372036854775807\n";

fn no_memory<E: Write>(err: &mut E) -> u8 {
    let _ = err.write_all(b"no memory\n");
    Status::Failed.code()
}

// Runs the command that the words name, and explains what it refuses, if that was asked for.
fn run_command<
    R: Host + RandomSource + Files + Clone + Drop,
    I: BufRead,
    O: Write + Send + Drop,
    E: Write,
>(rt: &R, words: &[String], explains: bool, input: &mut I, out: O, err: &mut E) -> u8 {
    let disk = Disk { runtime: rt };
    if !is_space(words) {
        let mut out = out;
        let out = &mut EscapingWriter { inner: &mut out };
        let status = run_over_files(rt, words, input, out, err);
        if explains && status >= Status::Refused.code() {
            explain_command(rt.alloc(), words, &disk, err);
        }
        return status;
    }
    let Some((_, rest)) = words.split_first() else {
        return Status::Failed.code();
    };
    let status = space_command(rt, rest, &disk, input, out, err);
    if explains && status >= Status::Refused.code() {
        explain_space(rt.alloc(), rest, &disk, err);
    } else if explains && status == Status::Ended.code() {
        explain_ended(rt.alloc(), rest, err);
    }
    status
}

// Runs a command that takes neither threads nor sockets. `sim` with a record writes files.
fn run_over_files<R: Files + AllocGlobal + Clone + Drop, I: BufRead, O: Write, E: Write>(
    rt: &R,
    words: &[String],
    input: &mut I,
    out: &mut O,
    err: &mut E,
) -> u8 {
    let disk = Disk { runtime: rt };
    match words.split_first() {
        Some((_, rest)) if is_first(words, "show") => {
            show_command(rt.alloc(), rest, &disk, out, err)
        }
        Some((_, rest)) if asks_record(rest) => sim_command(rt, rest, &disk, out, err),
        _ => command(rt.alloc(), words, &disk, input, out, err),
    }
}

// Whether the command runs a space over TCP: `serve` and `call` take threads and sockets, which no other does.
fn is_space(words: &[String]) -> bool {
    is_first(words, "serve") || is_first(words, "call")
}

// Whether this is the command.
fn is_first(words: &[String], command: &str) -> bool {
    match words.get(1) {
        Some(word) => word.as_str() == command,
        None => false,
    }
}

// The arguments of the command line, the program's own name first.
fn words_of<R: Env + AllocGlobal>(rt: &R) -> io::Result<Vec<String>> {
    let mut words = Vec::new(rt.alloc());
    for word in env::args(rt)? {
        words.push(word)?;
    }
    Ok(words)
}
