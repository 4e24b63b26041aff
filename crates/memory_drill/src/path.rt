//! The path from bytes to an outcome: command lines over folders in memory.

use super::Tally;
use super::remote::{ADDER, CELL, SCRIPT};
use cf_load::LoadFault;
use cf_reader::ReadFault;
use class_builder::SUM;
use cls_link::LinkFault;
use cls_set::SetFault;
use sp_files::{ClassBytes, Content, Refusal, RunOutcome};
use sp_main::{Folder, FolderFault, command};
use sp_space_runs::run_classes;
use std::alloc::{AllocError, Global};
use std::io;
use std::io::ErrorKind;
use ver_check::CheckFault;
use vm_heap::Value;
use vm_step::{Limits, StartFault};

const WANT: (u8, &str) = (3, "no memory\n");

// A folder with one class file, whose methods run alone; or with two of remote classes, and a script beside them. The folder
// `full` is out of memory whenever it is listed.
#[derive(Drop)]
struct Shelf {
    alloc: Global,
    is_remote: bool,
}

impl Folder for Shelf {
    type File = &'static [u8];

    fn paths(&self, folder: &str) -> Result<Vec<String>, FolderFault> {
        if folder == "full" {
            return Err(FolderFault::Memory);
        }
        let names: &[&str] = if self.is_remote {
            &["/Adder.class", "/Cell.class"]
        } else {
            &["/T.class"]
        };
        let mut paths = Vec::new(self.alloc);
        for name in names {
            let mut path = String::from_str(self.alloc, folder)?;
            path.push_str(name)?;
            paths.push(path)?;
        }
        Ok(paths)
    }

    fn open(&self, path: &str) -> io::Result<&'static [u8]> {
        match (self.is_remote, path) {
            (false, "box/T.class") => Ok(SUM.as_slice()),
            (true, "box/Adder.class") => Ok(ADDER.as_slice()),
            (true, "box/Cell.class") => Ok(CELL.as_slice()),
            (true, "box/script") => Ok(SCRIPT),
            _ => Err(io::Error::from(ErrorKind::NotFound)),
        }
    }
}

// What a command line came to.
#[derive(Drop)]
struct Said {
    status: u8,
    out: Vec<u8>,
    err: Vec<u8>,
}

impl Said {
    // This status, and this text on the output of the status alone.
    fn is(&self, status: u8, text: &str) -> bool {
        let (told, other) = if status < 2 {
            (&self.out, &self.err)
        } else {
            (&self.err, &self.out)
        };
        self.status == status && told.as_slice() == text.as_bytes() && other.is_empty()
    }
}

fn say(alloc: Global, is_remote: bool, line: &str) -> Result<Said, AllocError> {
    let mut words = Vec::new(alloc);
    words.push(String::from_str(alloc, "rmispace")?)?;
    for word in line.split(' ') {
        words.push(String::from_str(alloc, word)?)?;
    }
    // An output with room for every text, so that writing takes no memory.
    let mut out = Vec::with_capacity(alloc, 256)?;
    let mut err = Vec::with_capacity(alloc, 256)?;
    let status = command(
        alloc,
        &words,
        &Shelf { alloc, is_remote },
        &mut b"".as_slice(),
        &mut out,
        &mut err,
    );
    Ok(Said { status, out, err })
}

// Gives a line to the program, which owes this text.
fn play_line(
    alloc: Global,
    is_remote: bool,
    line: &str,
    text: &str,
    tally: &mut Tally,
) -> Result<(), AllocError> {
    let mut said = say(alloc, is_remote, line)?;
    if said.is(WANT.0, WANT.1) {
        tally.replace(&mut said, say(alloc, is_remote, line)?);
    }
    tally.answer(said.is(0, text));
    Ok(())
}

// Gives a line to the program of a folder that is out of memory each time.
fn play_full(alloc: Global, tally: &mut Tally) -> Result<(), AllocError> {
    let said = say(alloc, false, "run full T f(I)I 4")?;
    tally.answer(said.is(WANT.0, WANT.1));
    Ok(())
}

// A line whose method runs alone, one whose method runs in a space, and a script.
fn play_lines(alloc: Global, tally: &mut Tally) -> Result<(), AllocError> {
    let alone = "run box T f(I)I 4 --fuel 38";
    play_line(alloc, false, alone, "returned 10\n", tally)?;
    let in_space = "run box Cell make()LAdder;";
    play_line(alloc, true, in_space, "returned ref 0 1\n", tally)?;
    let shown = "A 1 Cell names=1 entries=0\nc returned ref A 1\n";
    play_line(alloc, true, "sim box box/script", shown, tally)?;
    play_full(alloc, tally)
}

type Answer = Result<RunOutcome, Refusal>;

// A run of the class: whole, cut, and by a name that it has not.
#[derive(Clone, Copy)]
enum Run {
    Whole,
    Cut,
    Absent,
}

impl Run {
    fn bytes(&self) -> &'static [u8] {
        match self {
            Run::Cut => &SUM[..143],
            _ => SUM,
        }
    }

    fn method(&self) -> &'static [u8] {
        match self {
            Run::Absent => b"g(I)I",
            _ => b"f(I)I",
        }
    }

    // Whether the run owes this answer.
    fn owes(&self, answer: &Answer) -> bool {
        match self {
            Run::Whole => matches!(answer, Ok(RunOutcome::Returned(Some(Value::Int(5050))))),
            Run::Cut => matches!(
                answer,
                Err(Refusal::File {
                    index: 0,
                    fault: LoadFault::Read(ReadFault::Broken { at: 142, .. })
                })
            ),
            Run::Absent => matches!(answer, Err(Refusal::Start(StartFault::AbsentMethod))),
        }
    }

    fn answer(&self, alloc: Global, files: &[ClassBytes], arguments: Vec<Value>) -> Answer {
        run_classes(
            alloc,
            files,
            b"T",
            self.method(),
            arguments,
            Limits::default(),
        )
    }
}

fn files_of(alloc: Global, bytes: &[u8]) -> Result<Vec<ClassBytes>, AllocError> {
    let content = Content::Bytes(bytes.to_vec(alloc)?);
    let mut files = Vec::new(alloc);
    files.push(ClassBytes {
        path: String::new(alloc),
        content,
    })?;
    Ok(files)
}

fn arguments(alloc: Global) -> Result<Vec<Value>, AllocError> {
    let mut arguments = Vec::new(alloc);
    arguments.push(Value::Int(100))?;
    Ok(arguments)
}

/// Whether a refusal is that of a call that was out of memory.
pub fn is_want(refusal: &Refusal) -> bool {
    match refusal {
        Refusal::Memory
        | Refusal::File {
            fault: LoadFault::Read(ReadFault::Memory),
            ..
        }
        | Refusal::Set(SetFault::Memory)
        | Refusal::Link(LinkFault::Memory)
        | Refusal::Check(CheckFault::Memory)
        | Refusal::Start(StartFault::Memory) => true,
        _ => false,
    }
}

fn play_run(alloc: Global, run: Run, tally: &mut Tally) -> Result<(), AllocError> {
    let files = files_of(alloc, run.bytes())?;
    let first = arguments(alloc)?;
    let second = arguments(alloc)?;
    let mut answer = run.answer(alloc, &files, first);
    if let Err(refusal) = &answer
        && is_want(refusal)
    {
        tally.replace(&mut answer, run.answer(alloc, &files, second));
    }
    tally.answer(run.owes(&answer));
    Ok(())
}

/// Gives lines to the program, and runs the class whole, cut, and by a name that it has not.
pub fn play(alloc: Global, tally: &mut Tally) -> Result<(), AllocError> {
    play_lines(alloc, tally)?;
    for run in [Run::Whole, Run::Cut, Run::Absent] {
        play_run(alloc, run, tally)?;
    }
    Ok(())
}
