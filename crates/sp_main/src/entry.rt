//! The program as a function of its arguments, a folder and its standard streams.

ghost use Rattle.std.specs.Prelude.{◌≡◌, ◌<◌, ◌≤◌, ◌^◌, ℕ, List, map, string_bytes, IfOk, IfSome};
ghost use Rattle.sp_behaviours.specs.Told.{AreRemoteRules};
ghost use Rattle.sp_files.specs.Programs.{IsProgram};
ghost use Rattle.sp_words.specs.CommandLine.{AsksCheck, AsksRun, AsksSim};
ghost use Rattle.sp_main.specs.Folders.{AreFilesOf, AreRead, IsContent, told_by};
ghost use Rattle.sp_main.specs.Replies.{Fails, IsPlayed, IsReply, Replies};
ghost use Rattle.sp_words.specs.Requests.{run_words, sim_words};

use cf_reader::MAX_LEN;
use dev_io::{ReadError, StdSource, read_bytes};
use net_message::Digest;
use sim_spaces::ProgramSpaces;
use sim_worlds::{ScriptFault, play_script};
use sp_call_set::CallSet;
use sp_class_digest::class_digest;
use sp_files::{ClassBytes, Content, check_classes, program_of};
use sp_space_runs::run_classes;
use sp_texts::{
    Report, Status, accepted_report, bad_line_report, folder_report, outcome_report, played_report,
    refusal_report, text_report, unreadable_report, write_text,
};
use sp_words::{Folder, FolderFault, Request, RunRequest, SimRequest, request_of};
use std::alloc::{AllocError, Global};
use std::io::{Read, Write};
use vm_step::{Limits, Program};

/// Does what the command line asks for, and returns the exit status. The first of `words` is the
/// program's own name. What it prints is complete before its first byte is written.
///
/// | Status | Says |
/// |---|---|
/// | 0 | a method returned, a class set is accepted, a script is done, or help was printed |
/// | 1 | the method threw, or its fuel was spent |
/// | 2 | the class set is refused |
/// | 3 | the command line, the device, the start or a line of a script are at fault, memory ran out, or an output failed |
pub fn command<F: Folder, I: Read, O: Write, E: Write>(
    alloc: Global,
    words: &[String],
    folder: &F,
    _input: &mut I,
    out: &mut O,
    err: &mut E,
) -> u8
    ensures statuses { result ≤ 3 }
    // What is printed is what the command line asks for: a text, or how the method ended, or why it
    // is not run.
    ensures replied { result < 3 → Replies
        (told_by (F.lists folder.now) (F.gives folder.now)) (map string_bytes words.now) result
        (O.contents out.old) (O.contents out.new) (E.contents err.old) (E.contents err.new) }

    // Answers go to standard output, faults to standard error.
    ensures answers { result < 2 → E.contents err.new ≡ E.contents err.old }
    ensures refused { result ≡ 2 → O.contents out.new ≡ O.contents out.old }
    // Status 3 says what failed. Nothing is printed on standard output but the front of an answer that was due there.
    ensures failed { result ≡ 3 → Fails
        (told_by (F.lists folder.now) (F.gives folder.now)) (map string_bytes words.now)
        (O.contents out.old) (O.contents out.new) (E.contents err.old) (E.contents err.new) }
{
    match report_of(alloc, words, folder) {
        Ok(report) => report.write(out, err).code(),
        Err(AllocError) => write_text(Status::Failed, b"no memory\n", out, err).code(),
    }
}

fn report_of<F: Folder>(alloc: Global, words: &[String], folder: &F) -> Result<Report, AllocError>
    ensures { IfOk result (λ report. IsReply
        (told_by (F.lists folder.now) (F.gives folder.now))
        (map string_bytes words.now) report.status report.text.items) }
{
    match request_of(alloc, words)? {
        Request::Tell(text) => text_report(alloc, &text, Status::Done),
        Request::Refuse(text) => text_report(alloc, &text, Status::Failed),
        Request::Run(request) => run_report(alloc, request, folder),
        Request::Check(path) => check_report(alloc, path, folder),
        Request::Sim(request) => sim_report(alloc, &request, folder),
    }
}

fn run_report<F: Folder>(
    alloc: Global,
    request: RunRequest,
    folder: &F,
) -> Result<Report, AllocError>
    requires { IfSome request.fuel (λ fuel. fuel < 2 ^ 63) }
    ensures { IfOk result (λ report. (words : List (List ℕ))
        → AsksRun words (run_words request.entry) → IsReply
        (told_by (F.lists folder.now) (F.gives folder.now)) words report.status report.text.items) }
{
    let files = match class_files(alloc, folder, request.folder)? {
        Ok(files) => files,
        Err(fault) => return folder_report(alloc, fault),
    };
    let mut limits = Limits::default();
    limits.fuel = request.fuel.unwrap_or(limits.fuel);
    let class = request.class.as_bytes();
    let method = request.method.as_bytes();
    match run_classes(alloc, &files, class, method, request.arguments, limits) {
        Ok(outcome) => outcome_report(alloc, &outcome),
        Err(refusal) => refusal_report(alloc, &files, &refusal),
    }
}

fn check_report<F: Folder>(alloc: Global, path: &str, folder: &F) -> Result<Report, AllocError>
    ensures { IfOk result (λ report. (words : List (List ℕ)) → AsksCheck words path.now
        → IsReply
        (told_by (F.lists folder.now) (F.gives folder.now)) words report.status report.text.items) }
{
    let files = match class_files(alloc, folder, path)? {
        Ok(files) => files,
        Err(fault) => return folder_report(alloc, fault),
    };
    match check_classes(alloc, &files) {
        Ok(count) => accepted_report(alloc, count),
        Err(refusal) => refusal_report(alloc, &files, &refusal),
    }
}

fn sim_report<F: Folder>(
    alloc: Global,
    request: &SimRequest,
    folder: &F,
) -> Result<Report, AllocError>
    ensures { IfOk result (λ report. (words : List (List ℕ))
        → AsksSim words (sim_words request.now) → IsReply
        (told_by (F.lists folder.now) (F.gives folder.now)) words report.status report.text.items) }
{
    let files = match class_files(alloc, folder, request.folder)? {
        Ok(files) => files,
        Err(fault) => return folder_report(alloc, fault),
    };
    match program_of(alloc, &files) {
        Ok(program) => program_report(alloc, program, &files, request.script, folder),
        Err(refusal) => refusal_report(alloc, &files, &refusal),
    }
}

// What the script at a path comes to, over spaces of the program that these files make. The program is let go here,
// and on one way out.
fn program_report<F: Folder>(
    alloc: Global,
    program: Program,
    files: &[ClassBytes],
    path: &str,
    folder: &F,
) -> Result<Report, AllocError>
    requires made { IsProgram files.now program }
    requires rules { AreRemoteRules program.classes }
    ensures { IfOk result (λ report. IsPlayed path.now report.status report.text.items) }
{
    match class_digest(alloc, files) {
        Ok(digest) => script_report(alloc, &program, digest, path, folder),
        Err(AllocError) => Err(AllocError),
    }
}

// What the script at a path comes to, over spaces of the program.
fn script_report<F: Folder>(
    alloc: Global,
    program: &Program,
    digest: Digest,
    path: &str,
    folder: &F,
) -> Result<Report, AllocError>
    requires { AreRemoteRules program.now.classes }
    ensures { IfOk result (λ report. IsPlayed path.now report.status report.text.items) }
{
    let script = match read_content(alloc, folder, path, usize::MAX)? {
        Content::Bytes(script) => script,
        Content::Unreadable => return unreadable_report(alloc, path),
    };
    match play(alloc, program, digest, &script) {
        Ok(text) => Ok(played_report(text)),
        Err(ScriptFault::BadLine(number)) => bad_line_report(alloc, number),
        Err(ScriptFault::Memory) => Err(AllocError),
    }
}

/// Plays a script over spaces of the program, which is that of the digest.
pub(crate) fn play(
    alloc: Global,
    program: &Program,
    digest: Digest,
    script: &[u8],
) -> Result<Vec<u8>, ScriptFault>
    requires { AreRemoteRules program.now.classes }
{
    let classes = CallSet::new(alloc, program)?;
    let origin = ProgramSpaces::new(alloc, program, &classes, digest);
    play_script(alloc, &origin, script)
}

/// The class files of a folder, or why they cannot be listed. The last may be one that cannot be read.
pub fn class_files<F: Folder>(
    alloc: Global,
    folder: &F,
    path: &str,
) -> Result<Result<Vec<ClassBytes>, FolderFault>, AllocError>
    ensures { IfOk result (λ told. IfOk told (λ files. AreFilesOf
        (told_by (F.lists folder.now) (F.gives folder.now)) path.now files.items)) }
{
    match folder.paths(path) {
        Ok(paths) => Ok(Ok(read_contents(alloc, folder, paths)?)),
        Err(fault) => Ok(Err(fault)),
    }
}

// What the devices of the files give, up to the first that fails.
fn read_contents<F: Folder>(
    alloc: Global,
    folder: &F,
    paths: Vec<String>,
) -> Result<Vec<ClassBytes>, AllocError>
    ensures { IfOk result (λ files. AreRead (F.gives folder.now) paths.items files.items) }
{
    let mut files = Vec::new(alloc);
    for path in paths {
        let content = read_content(alloc, folder, &path, MAX_LEN + 1)?;
        if let Content::Unreadable = content {
            files.push(ClassBytes { path, content })?;
            return Ok(files);
        }
        files.push(ClassBytes { path, content })?;
    }
    Ok(files)
}

/// What the device of a file gives: all of its bytes, or its first `most`.
pub(crate) fn read_content<F: Folder>(
    alloc: Global,
    folder: &F,
    path: &str,
    most: usize,
) -> Result<Content, AllocError>
    requires { 0 < most }
    ensures { IfOk result (IsContent most (F.gives folder.now path.now)) }
{
    let Ok(file) = folder.open(path) else {
        return Ok(Content::Unreadable);
    };
    match read_bytes(alloc, &mut StdSource::new(file), most) {
        Ok(bytes) => Ok(Content::Bytes(bytes)),
        Err(ReadError::Device) => Ok(Content::Unreadable),
        Err(ReadError::Memory) => Err(AllocError),
    }
}
