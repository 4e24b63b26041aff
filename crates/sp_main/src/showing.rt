//! The command `show`: what the class files of a folder have.

use super::entry::class_files;
use super::explaining::sources_of;
use clap::error::ErrorKind;
use clap::{Arg, ArgMatches, Command, Error};
use sp_show::{ShowAnswer, show};
use sp_texts::{Report, Status, folder_report, text_report, write_text};
use sp_words::Folder;
use std::alloc::{AllocError, Global};
use std::io::Write;

/// Does what the words from `show` on ask for: shows the classes of a folder, the members of one, or the code of its
/// methods of a name. Returns the exit status: 0, or 3 for a usage fault, a folder that cannot be read, a class or a
/// method that is not there, memory, and an output that failed.
pub fn show_command<F: Folder, O: Write, E: Write>(
    alloc: Global,
    words: &[String],
    folder: &F,
    out: &mut O,
    err: &mut E,
) -> u8 {
    match show_report(alloc, words, folder) {
        Ok(report) => report.write(out, err).code(),
        Err(AllocError) => write_text(Status::Failed, b"no memory\n", out, err).code(),
    }
}

fn show_report<F: Folder>(
    alloc: Global,
    words: &[String],
    folder: &F,
) -> Result<Report, AllocError> {
    match show_words(alloc)?.try_get_matches_from(words) {
        Ok(matches) => matches_report(alloc, &matches, folder),
        Err(error) => error_report(alloc, &error),
    }
}

fn show_words<'a>(alloc: Global) -> Result<Command<'a>, AllocError> {
    Command::new(alloc, "show")
        .bin_name("rmispace show")?
        .about("Shows the classes of a folder, the members of a class, or the code of its methods")
        .arg(
            Arg::new(alloc, "folder")
                .value_name("FOLDER")
                .required(true)
                .help("The folder whose files *.class, in it and below it, are the class set"),
        )?
        .arg(
            Arg::new(alloc, "class")
                .value_name("CLASS")
                .help("A class of it, as a/b/C: its fields and methods"),
        )?
        .arg(
            Arg::new(alloc, "method").value_name("METHOD").help(
                "A method's name, or its name and descriptor: its code, with the frame before each instruction",
            ),
        )
}

fn error_report(alloc: Global, error: &Error) -> Result<Report, AllocError> {
    match error.kind() {
        ErrorKind::OutOfMemory => Err(AllocError),
        ErrorKind::DisplayHelp | ErrorKind::DisplayVersion => {
            text_report(alloc, &error.to_string(alloc)?, Status::Done)
        }
        _ => text_report(alloc, &error.to_string(alloc)?, Status::Failed),
    }
}

fn matches_report<F: Folder>(
    alloc: Global,
    matches: &ArgMatches<'_>,
    folder: &F,
) -> Result<Report, AllocError> {
    let Some(path) = matches.get_str("folder") else {
        return text_report(alloc, "error: a word is missing", Status::Failed);
    };
    let files = match class_files(alloc, folder, path)? {
        Ok(files) => files,
        Err(fault) => return folder_report(alloc, fault),
    };
    let sources = sources_of(alloc, &files)?;
    match show(
        alloc,
        &sources,
        matches.get_str("class"),
        matches.get_str("method"),
    )? {
        ShowAnswer::Text(text) => text_report(alloc, &text, Status::Done),
        ShowAnswer::Absent(text) => text_report(alloc, &text, Status::Failed),
    }
}
