//! What `--explain` adds below a refusal, on standard error: what it means, and what to change. The texts promise nothing.

ghost use Rattle.sp_behaviours.specs.Told.{AreRemoteRules};
ghost use Rattle.sp_files.specs.Programs.{IsProgram};

use super::entry::{class_files, play, read_content};
use cf_explain::explain_reading;
use cf_load::LoadFault;
use cf_reader::ReadFault;
use cls_explain::{ClassSource, explain_link, explain_set};
use cls_set::SetFault;
use sim_explain::explain_bad_line;
use sim_worlds::ScriptFault;
use sp_class_digest::class_digest;
use sp_explain::{explain_check, explain_start};
use sp_files::{ClassBytes, Content, Refusal, check_classes, program_of};
use sp_words::{Folder, Request, SimRequest, request_of};
use space_ids::Value;
use std::alloc::{AllocError, Global};
use std::io::Write;
use vm_step::Program;

/// The method that was to be started, and with what.
#[derive(Clone, Copy)]
pub struct StartWords<'a> {
    pub class: &'a str,
    /// A name and a descriptor, as they are written.
    pub method: &'a str,
    pub arguments: &'a [Value],
}

/// Writes what the refusal of a command line means that `run`, `check` or `sim` refused. It reads the folder once more,
/// and writes nothing if it finds nothing wrong, or if memory runs out.
pub fn explain_command<F: Folder, E: Write>(
    alloc: Global,
    words: &[String],
    folder: &F,
    err: &mut E,
) {
    if let Ok(text) = explanation_of(alloc, words, folder) {
        let _ = err.write_all(text.as_bytes());
    }
}

fn explanation_of<F: Folder>(
    alloc: Global,
    words: &[String],
    folder: &F,
) -> Result<String, AllocError> {
    match request_of(alloc, words)? {
        Request::Run(request) => {
            let start = StartWords {
                class: request.class,
                method: request.method,
                arguments: request.arguments.as_slice(),
            };
            explain_folder(alloc, folder, request.folder, Some(start))
        }
        Request::Check(path) => explain_folder(alloc, folder, path, None),
        Request::Sim(request) => explain_sim(alloc, folder, &request),
        Request::Tell(_) | Request::Refuse(_) => Ok(String::new(alloc)),
    }
}

/// Returns why the class files of a folder are refused, or why the method does not start: nothing if neither is so.
pub fn explain_folder<F: Folder>(
    alloc: Global,
    folder: &F,
    path: &str,
    start: Option<StartWords<'_>>,
) -> Result<String, AllocError> {
    match class_files(alloc, folder, path)? {
        Ok(files) => explain_files(alloc, &files, start),
        Err(_) => Ok(String::new(alloc)),
    }
}

fn explain_files(
    alloc: Global,
    files: &[ClassBytes],
    start: Option<StartWords<'_>>,
) -> Result<String, AllocError> {
    let sources = sources_of(alloc, files)?;
    match (refusal_of(alloc, files), start) {
        (Some(refusal), _) => explain_refusal(alloc, &sources, &refusal),
        (None, Some(start)) => {
            explain_start(alloc, &sources, start.class, start.method, start.arguments)
        }
        (None, None) => Ok(String::new(alloc)),
    }
}

// Why the class files of a folder are refused, or else which line of the script is bad, and why.
fn explain_sim<F: Folder>(
    alloc: Global,
    folder: &F,
    request: &SimRequest<'_>,
) -> Result<String, AllocError> {
    let files = match class_files(alloc, folder, request.folder)? {
        Ok(files) => files,
        Err(_) => return Ok(String::new(alloc)),
    };
    match program_of(alloc, &files) {
        Ok(program) => explain_script(alloc, folder, &program, &files, request.script),
        Err(_) => explain_files(alloc, &files, None),
    }
}

// Which line of a script is bad over spaces of the program that the files make, and why.
fn explain_script<F: Folder>(
    alloc: Global,
    folder: &F,
    program: &Program,
    files: &[ClassBytes],
    path: &str,
) -> Result<String, AllocError>
    requires made { IsProgram files.now program.now }
    requires rules { AreRemoteRules program.now.classes }
{
    let digest = class_digest(alloc, files)?;
    let Content::Bytes(script) = read_content(alloc, folder, path, usize::MAX)? else {
        return Ok(String::new(alloc));
    };
    match play(alloc, program, digest, &script) {
        Ok(_) => Ok(String::new(alloc)),
        Err(ScriptFault::BadLine(number)) => explain_bad_line(alloc, &script, number),
        Err(ScriptFault::Memory) => Err(AllocError),
    }
}

// Why the files make no program.
fn refusal_of(alloc: Global, files: &[ClassBytes]) -> Option<Refusal> {
    check_classes(alloc, files).err()
}

/// Returns the files by their paths and bytes, each at its index; one that could not be read has none.
pub(crate) fn sources_of<'a>(
    alloc: Global,
    files: &'a [ClassBytes],
) -> Result<Vec<ClassSource<'a>>, AllocError> {
    let mut sources = Vec::new(alloc);
    for file in files {
        let bytes = match &file.content {
            Content::Bytes(bytes) => bytes.as_slice(),
            Content::Unreadable => &[],
        };
        let path = file.path.as_str();
        sources.push(ClassSource { path, bytes })?;
    }
    Ok(sources)
}

fn explain_refusal(
    alloc: Global,
    sources: &[ClassSource<'_>],
    refusal: &Refusal,
) -> Result<String, AllocError> {
    match refusal {
        Refusal::File { index, fault } => explain_file(alloc, sources.get(*index), *fault),
        Refusal::Set(SetFault::Broken { rule, class }) => {
            explain_set(alloc, sources, *rule, class.as_bytes())
        }
        Refusal::Link(fault) => explain_link(alloc, sources, fault),
        Refusal::Check(fault) => explain_check(alloc, sources, fault),
        Refusal::Set(SetFault::Memory) | Refusal::Start(_) | Refusal::Memory => {
            Ok(String::new(alloc))
        }
    }
}

fn explain_file(
    alloc: Global,
    source: Option<&ClassSource<'_>>,
    fault: LoadFault,
) -> Result<String, AllocError> {
    match (source, fault) {
        (Some(source), LoadFault::Read(ReadFault::Broken { rule, at })) => {
            explain_reading(alloc, source.bytes, rule, at)
        }
        _ => Ok(String::new(alloc)),
    }
}
