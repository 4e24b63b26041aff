//! From the words of `sim` to a script that is played, and the record of it.

ghost use Rattle.std.specs.Prelude.{◌≡◌};
ghost use Rattle.sp_behaviours.specs.Told.{AreRemoteRules};
ghost use Rattle.sp_files.specs.Programs.{IsProgram};

use crate::words::{RecordRequest, SimAim, TraceFile, TraceForm, read_sim_words};
use dev_io::{ReadError, StdSource, read_bytes};
use net_message::Digest;
use sim_happenings::ScriptRecord;
use sim_spaces::ProgramSpaces;
use sim_trace::{put_counts, put_svg, put_text};
use sim_worlds::{ScriptFault, play_recorded};
use sp_call_set::CallSet;
use sp_class_digest::class_digest;
use sp_files::{ClassBytes, program_of};
use sp_main::class_files;
use sp_texts::{
    Report, Status, bad_line_report, folder_report, played_report, refusal_report, text_report,
    unreadable_report, write_text,
};
use sp_words::Folder;
use std::alloc::{AllocError, Global};
use std::fs;
use std::io::Write;
use std::rt::Files;
use vm_step::Program;

/// Does what the words ask for, of which the first is `sim`: plays a script, and writes what happens to files and what was counted to
/// standard output, after what the script shows. Returns the exit status, as [command](sp_main::command) does; it is 3 for a file that
/// cannot be written, too.
///
/// The files are written before anything is shown, up to the first bad line if there is one.
pub fn sim_command<R: Files + AllocGlobal, F: Folder, O: Write, E: Write>(
    rt: &R,
    words: &[String],
    folder: &F,
    out: &mut O,
    err: &mut E,
) -> u8 {
    match sim_report(rt, words, folder) {
        Ok(report) => report.write(out, err).code(),
        Err(AllocError) => write_text(Status::Failed, b"no memory\n", out, err).code(),
    }
}

fn sim_report<R: Files + AllocGlobal, F: Folder>(
    rt: &R,
    words: &[String],
    folder: &F,
) -> Result<Report, AllocError> {
    let alloc = rt.alloc();
    match read_sim_words(alloc, words)? {
        SimAim::Play(request) => over_folder(rt, &request, folder),
        SimAim::Tell(text) => text_report(alloc, &text, Status::Done),
        SimAim::Refuse(text) => text_report(alloc, &text, Status::Failed),
    }
}

// Plays the script over the class files of its folder.
fn over_folder<R: Files + AllocGlobal, F: Folder>(
    rt: &R,
    request: &RecordRequest<'_>,
    folder: &F,
) -> Result<Report, AllocError> {
    let alloc = rt.alloc();
    let files = match class_files(alloc, folder, request.folder)? {
        Ok(files) => files,
        Err(fault) => return folder_report(alloc, fault),
    };
    match program_of(alloc, &files) {
        Ok(program) => over_program(rt, request, &files, &program, folder),
        Err(refusal) => refusal_report(alloc, &files, &refusal),
    }
}

// Plays it over spaces of the program that these files make.
fn over_program<R: Files + AllocGlobal, F: Folder>(
    rt: &R,
    request: &RecordRequest<'_>,
    files: &[ClassBytes],
    program: &Program,
    folder: &F,
) -> Result<Report, AllocError>
    requires made { IsProgram files.now program.now }
    requires rules { AreRemoteRules program.now.classes }
{
    let alloc = rt.alloc();
    let digest = class_digest(alloc, files)?;
    match script_of(alloc, folder, request.script)? {
        Some(script) => over_spaces(rt, request, program, digest, &script),
        None => unreadable_report(alloc, request.script),
    }
}

// The bytes of a script, if its file can be read.
fn script_of<F: Folder>(
    alloc: Global,
    folder: &F,
    path: &str,
) -> Result<Option<Vec<u8>>, AllocError> {
    let Ok(file) = folder.open(path) else {
        return Ok(None);
    };
    match read_bytes(alloc, &mut StdSource::new(file), usize::MAX) {
        Ok(bytes) => Ok(Some(bytes)),
        Err(ReadError::Device) => Ok(None),
        Err(ReadError::Memory) => Err(AllocError),
    }
}

// Plays a script over spaces of the program, and writes its traces.
fn over_spaces<R: Files + AllocGlobal>(
    rt: &R,
    request: &RecordRequest<'_>,
    program: &Program,
    digest: Digest,
    script: &[u8],
) -> Result<Report, AllocError>
    requires rules { AreRemoteRules program.now.classes }
{
    let alloc = rt.alloc();
    let classes = CallSet::new(alloc, program)?;
    let origin = ProgramSpaces::new(alloc, program, &classes, digest);
    let mut record = ScriptRecord::new(alloc, !request.traces.is_empty());
    let played = play_recorded(alloc, &origin, script, &mut record);
    let unwritten = write_traces(rt, &request.traces, &record)?;
    match (played, unwritten) {
        (Err(ScriptFault::Memory), _) => Err(AllocError),
        (Err(ScriptFault::BadLine(number)), _) => bad_line_report(alloc, number),
        (Ok(_), Some(path)) => unwritten_report(alloc, path),
        (Ok(text), None) => shown_report(alloc, request, text, &record),
    }
}

// What is shown: the lines of the script, and what was counted if that is asked.
fn shown_report(
    alloc: Global,
    request: &RecordRequest<'_>,
    text: Vec<u8>,
    record: &ScriptRecord,
) -> Result<Report, AllocError> {
    let mut text = text;
    if request.has_stats {
        let counted = put_counts(alloc, record)?;
        text.extend_from_slice(counted.as_bytes())?;
    }
    Ok(played_report(text))
}

fn unwritten_report(alloc: Global, path: &str) -> Result<Report, AllocError> {
    let text = format!(in alloc; "cannot write {path}")?;
    text_report(alloc, &text, Status::Failed)
}

// Writes what happened to files, in their order. Returns the path of the first that cannot be written.
fn write_traces<'a, R: Files + AllocGlobal>(
    rt: &R,
    traces: &[TraceFile<'a>],
    record: &ScriptRecord,
) -> Result<Option<&'a str>, AllocError> {
    for trace in traces {
        if !write_trace(rt, *trace, record)? {
            return Ok(Some(trace.path));
        }
    }
    Ok(None)
}

// Writes what happened to a file. Returns whether that could be written.
fn write_trace<R: Files + AllocGlobal>(
    rt: &R,
    trace: TraceFile<'_>,
    record: &ScriptRecord,
) -> Result<bool, AllocError> {
    let text = match trace.form {
        TraceForm::Picture => put_svg(rt.alloc(), record)?,
        TraceForm::Lines => put_text(rt.alloc(), record)?,
    };
    Ok(fs::write(rt, trace.path, text).is_ok())
}
