//! Plays spaces that are served in one process, over 127.0.0.1, and prints what they told: two that talk, three of
//! which one passes a reference on, and one whose workers a gate holds back.
#![tactic(auto)]

ghost use Rattle.std.specs.Prelude.{◌≡◌};
ghost use Rattle.sp_behaviours.specs.Told.{AreRemoteRules};

use crate::journal::{Journal, tell_all};
use crate::plays::{hold, pass_on, talk};
use sp_call_set::CallSet;
use sp_files::program_of;
use sp_main::class_files;
use sp_serve::Host;
use sp_words::Disk;
use std::io;
use std::io::Write;
use std::net::{TcpListener, TcpStream};
use std::process::ExitCode;
use std::rt::Files;
use vm_step::Program;

mod gates;
mod journal;
mod lines;
mod parts;
mod plays;
mod spaces;

// What two spaces that talk have to print.
const TALKED: [&str; 4] = [
    "bound counter",
    "c returned ref 00000000-0000-0000-0000-00000000000a 1",
    "x returned 1",
    "here 1 Counter names=1 entries=1",
];

// What three have to print of which one passes references on. The owner of the last one is not known where it goes.
const PASSED: [&str; 6] = [
    "p returned",
    "here 1 Counter names=1 entries=2",
    "x returned 1",
    "m returned ref 00000000-0000-0000-0000-00000000000b 1",
    "q threw java/rmi/UnmarshalException",
    "y returned 2",
];

// What a space has to print one of whose tasks is held.
const HELD: [&str; 2] = [
    "first returned ref 00000000-0000-0000-0000-00000000000c 1",
    "held returned ref 00000000-0000-0000-0000-00000000000c 2",
];

fn main(rt: HostRuntime) -> ExitCode {
    // The handle stands for these types too, and the borrow checker knows only those that a function names.
    let none: Option<(TcpListener, TcpStream)> = None;
    drop(none);
    match play(&rt, &mut io::writer(&rt.stdout())) {
        Ok(()) => ExitCode::from(0),
        Err(_) => ExitCode::from(1),
    }
}

fn play<R: Host + Files + Clone + Drop, W: Write>(rt: &R, out: &mut W) -> io::Result<()> {
    let alloc = rt.alloc();
    let Ok(files) = class_files(alloc, &Disk { runtime: rt }, ".")? else {
        return Err(io::Error::from(io::ErrorKind::NotFound));
    };
    match program_of(alloc, &files) {
        Ok(program) => play_program(rt, &program, out),
        Err(_) => Err(io::Error::from(io::ErrorKind::InvalidData)),
    }
}

fn play_program<R: Host, W: Write>(rt: &R, program: &Program, out: &mut W) -> io::Result<()>
    requires rules { AreRemoteRules program.now.classes }
{
    let classes = CallSet::new(rt.alloc(), program)?;
    play_talk(rt, program, &classes, out)?;
    play_pass(rt, program, &classes, out)?;
    play_hold(rt, program, &classes, out)
}

fn play_talk<'p, R: Host, W: Write>(
    rt: &R,
    program: &'p Program,
    classes: &'p CallSet<'p>,
    out: &mut W,
) -> io::Result<()>
    requires classes { classes.now ≡ program.now }
    requires rules { AreRemoteRules program.now.classes }
{
    let journal = Journal::new(rt.alloc());
    let statuses = talk(rt, &journal, program, classes)?;
    writeln!(out, "two spaces that talk end with {statuses:?}")?;
    tell_all(rt, &journal, &TALKED, out)
}

fn play_pass<'p, R: Host, W: Write>(
    rt: &R,
    program: &'p Program,
    classes: &'p CallSet<'p>,
    out: &mut W,
) -> io::Result<()>
    requires classes { classes.now ≡ program.now }
    requires rules { AreRemoteRules program.now.classes }
{
    let journal = Journal::new(rt.alloc());
    let (owner, (passer, keeper)) = pass_on(rt, &journal, program, classes)?;
    let statuses = (owner, passer, keeper);
    writeln!(
        out,
        "three spaces of which one passes references on end with {statuses:?}"
    )?;
    tell_all(rt, &journal, &PASSED, out)
}

fn play_hold<'p, R: Host, W: Write>(
    rt: &R,
    program: &'p Program,
    classes: &'p CallSet<'p>,
    out: &mut W,
) -> io::Result<()>
    requires classes { classes.now ≡ program.now }
    requires rules { AreRemoteRules program.now.classes }
{
    let journal = Journal::new(rt.alloc());
    let (status, has_held) = hold(rt, &journal, program, classes)?;
    writeln!(
        out,
        "a space one of whose tasks is held ends with {status}, held: {has_held}"
    )?;
    tell_all(rt, &journal, &HELD, out)
}
