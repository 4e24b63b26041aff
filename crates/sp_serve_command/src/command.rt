//! From the words of `serve` and `call` to a space of the classes that they name.

ghost use Rattle.std.specs.Prelude.{◌≡◌};
ghost use Rattle.sp_behaviours.specs.Classes.{classes_of};
ghost use Rattle.sp_machines.specs.Limits.{AreLimits};
ghost use Rattle.sp_behaviours.specs.Told.{AreRemoteRules};
ghost use Rattle.sp_files.specs.Programs.{IsProgram};

use crate::exports::export_of;
use crate::serving::run_space;
use net_message::Digest;
use sp_call_set::CallSet;
use sp_class_digest::class_digest;
use sp_files::{ClassBytes, program_of};
use sp_history::Setup;
use sp_main::class_files;
use sp_serve::Host;
use sp_serve_words::{Aim, Invocation, ServeRequest, SpaceRequest, read_words};
use sp_served::ServedSpace;
use sp_texts::{Report, Status, folder_report, refusal_report, text_report, write_text};
use sp_words::Folder;
use space_ids::Uuid;
use std::alloc::{AllocError, Global};
use std::hash::RandomState;
use std::io::{BufRead, Write};
use std::marker::Brand;
use std::random::RandomSource;
use table_copies::PeerHashes;
use vm_step::{Limits, Program};

/// Does what the words ask for, of which the first is `serve` or `call`: serves a space until the input ends, or makes
/// one call. Returns the exit status:
///
/// - 0 at the end of the input, and of a call that returned;
/// - 1 for a call that threw or was spent;
/// - 2 if the class set is refused;
/// - 3 for a usage fault, a folder that cannot be read, an address that is in use, an object that cannot be made, a
///   call that cannot start, a bad line, memory, and an output that failed.
pub fn space_command<
    R: Host + RandomSource,
    F: Folder,
    I: BufRead,
    O: Write + Send + Drop,
    E: Write,
>(rt: &R, words: &[String], folder: &F, input: &mut I, mut out: O, err: &mut E) -> u8 {
    let alloc = rt.alloc();
    match read_words(alloc, words) {
        Ok(Invocation::Run(request)) => over_folder(rt, &request, folder, input, out, err),
        Ok(Invocation::Tell(text)) => say(text_report(alloc, &text, Status::Done), &mut out, err),
        Ok(Invocation::Refuse(text)) => say(
            text_report(alloc, &text, Status::Failed),
            &mut out,
            err,
        ),
        Err(AllocError) => no_memory(&mut out, err),
    }
}

fn say<O: Write, E: Write>(report: Result<Report, AllocError>, out: &mut O, err: &mut E) -> u8 {
    match report {
        Ok(report) => report.write(out, err).code(),
        Err(AllocError) => no_memory(out, err),
    }
}

/// Tells that memory ran out.
pub(crate) fn no_memory<O: Write, E: Write>(out: &mut O, err: &mut E) -> u8 {
    write_text(Status::Failed, b"no memory\n", out, err).code()
}

// Does what is asked for, over the class files of its folder.
fn over_folder<R: Host + RandomSource, F: Folder, I: BufRead, O: Write + Send + Drop, E: Write>(
    rt: &R,
    request: &SpaceRequest<'_>,
    folder: &F,
    input: &mut I,
    mut out: O,
    err: &mut E,
) -> u8 {
    let alloc = rt.alloc();
    let files = match class_files(alloc, folder, request.folder) {
        Ok(Ok(files)) => files,
        Ok(Err(fault)) => return say(folder_report(alloc, fault), &mut out, err),
        Err(AllocError) => return no_memory(&mut out, err),
    };
    match program_of(alloc, &files) {
        Ok(program) => over_program(rt, request, &files, &program, input, out, err),
        Err(refusal) => say(refusal_report(alloc, &files, &refusal), &mut out, err),
    }
}

// Does it with the program that these files make.
fn over_program<R: Host + RandomSource, I: BufRead, O: Write + Send + Drop, E: Write>(
    rt: &R,
    request: &SpaceRequest<'_>,
    files: &[ClassBytes],
    program: &Program,
    input: &mut I,
    mut out: O,
    err: &mut E,
) -> u8
    requires made { IsProgram files.now program.now }
    requires rules { AreRemoteRules program.now.classes }
{
    let alloc = rt.alloc();
    let Ok(digest) = class_digest(alloc, files) else {
        return no_memory(&mut out, err);
    };
    match exports_of(alloc, program, &request.aim) {
        Ok(Ok(methods)) => over_classes(rt, request, program, digest, &methods, input, out, err),
        Ok(Err(class)) => {
            let _ = writeln!(
                err,
                "error: {class} has no method export that makes an object"
            );
            Status::Failed.code()
        }
        Err(AllocError) => no_memory(&mut out, err),
    }
}

// The methods that make the objects that are to be bound, or the first class that has none.
fn exports_of<'a>(
    alloc: Global,
    program: &Program,
    aim: &Aim<'a>,
) -> Result<Result<Vec<String>, &'a str>, AllocError> {
    match aim {
        Aim::Serve(ServeRequest { bound, .. }) => methods_of(alloc, program, bound),
        Aim::Call(_) => Ok(Ok(Vec::new(alloc))),
    }
}

fn methods_of<'a>(
    alloc: Global,
    program: &Program,
    bound: &[(&'a str, &'a str)],
) -> Result<Result<Vec<String>, &'a str>, AllocError> {
    let mut methods = Vec::new(alloc);
    for (_, class) in bound {
        match export_of(alloc, program, class)? {
            Some(method) => methods.push(method)?,
            None => return Ok(Err(*class)),
        }
    }
    Ok(Ok(methods))
}

// Does it with a space of a class set.
fn over_classes<R: Host + RandomSource, I: BufRead, O: Write + Send + Drop, E: Write>(
    rt: &R,
    request: &SpaceRequest<'_>,
    program: &Program,
    digest: Digest,
    methods: &[String],
    input: &mut I,
    mut out: O,
    err: &mut E,
) -> u8
    requires rules { AreRemoteRules program.now.classes }
{
    let (Some(id), Ok(state)) = (id_of(rt, request), RandomState::new(rt)) else {
        let _ = writeln!(err, "error: the system has no random bytes");
        return Status::Failed.code();
    };
    // Strangers may pick the ids of objects, of spaces and of calls that come.
    let hashes = PeerHashes::Random(state);
    let Ok(classes) = CallSet::new(rt.alloc(), program) else {
        return no_memory(&mut out, err);
    };
    let limits = Limits {
        fuel: most_fuel(&request.aim),
        ..Limits::default()
    };
    let version = version_of(&request.aim);
    over_setting::<Brand, R, I, O, E>(
        rt, request, program, &classes, digest, id, limits, version, hashes, methods, input, out,
        err,
    )
}

// Does it with a space of this program, of a setting that the caller names.
fn over_setting<'p, N: Setup + Send, R: Host, I: BufRead, O: Write + Send + Drop, E: Write>(
    rt: &R,
    request: &SpaceRequest<'_>,
    program: &'p Program,
    classes: &'p CallSet<'p>,
    digest: Digest,
    id: Uuid,
    limits: Limits,
    version: u8,
    hashes: PeerHashes,
    methods: &[String],
    input: &mut I,
    mut out: O,
    err: &mut E,
) -> u8
    requires classes { classes.now ≡ program.now }
    requires rules { AreRemoteRules program.now.classes }
    requires set { N.setting.classes ≡ classes_of program.now }
    requires id { N.setting.id ≡ id }
    requires digest { N.setting.digest ≡ digest }
    requires limits { AreLimits N.setting limits }
    requires version { N.setting.version ≡ version }
{
    match ServedSpace::<'p, N>::new(
        rt.alloc(),
        program,
        classes,
        digest,
        id,
        limits,
        version,
        hashes,
    ) {
        Ok(space) => run_space(rt, &request.aim, methods, space, input, out, err),
        Err(_) => no_memory(&mut out, err),
    }
}

// The most fuel of a root.
fn most_fuel(aim: &Aim<'_>) -> u64 {
    match aim {
        Aim::Serve(request) => request.fuel,
        Aim::Call(request) => request.fuel,
    }
}

// The version of the protocol that the space speaks at most.
fn version_of(aim: &Aim<'_>) -> u8 {
    match aim {
        Aim::Serve(request) => request.version,
        Aim::Call(_) => 2,
    }
}

// The id that is said, or a random one.
fn id_of<R: RandomSource>(rt: &R, request: &SpaceRequest<'_>) -> Option<Uuid> {
    match request.id {
        Some(id) => Some(id),
        None => Uuid::try_new_v4(rt).ok(),
    }
}
