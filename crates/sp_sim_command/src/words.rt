//! The words after `sim`, if they ask for a record.

use clap::error::ErrorKind;
use clap::{Arg, ArgAction, ArgMatches, Command, Error};
use std::alloc::{AllocError, Global};

/// A script that is to be played with a record, over the class files of a folder.
#[derive(Drop)]
pub struct RecordRequest<'a> {
    pub folder: &'a str,
    /// The path of the script.
    pub script: &'a str,
    /// The files to which a trace is written.
    pub traces: Vec<TraceFile<'a>>,
    /// Whether it is told what was counted.
    pub has_stats: bool,
}

/// A file to which a trace is written.
#[derive(Clone, Copy)]
pub struct TraceFile<'a> {
    pub path: &'a str,
    pub form: TraceForm,
}

/// How a trace is written.
#[derive(Clone, Copy, PartialEq, Eq)]
pub enum TraceForm {
    /// As a picture, in a file whose name ends in `.svg`.
    Picture,
    /// As lines of text, in one whose name ends in `.txt`.
    Lines,
}

/// What the words ask for.
#[derive(Drop)]
pub enum SimAim<'a> {
    Play(RecordRequest<'a>),
    /// Help: for standard output.
    Tell(String),
    /// A usage fault, with its text for standard error.
    Refuse(String),
}

/// Whether words, of which the first is a command, are `sim` with a record, or ask for help on it.
pub fn asks_record(words: &[String]) -> bool {
    match words.split_first() {
        Some((first, rest)) if first.as_str() == "sim" => rest
            .iter()
            .any(|word| is_of_record(word.as_str())),
        _ => false,
    }
}

fn is_of_record(word: &str) -> bool {
    word == "--stats" || word == "--help" || word == "-h" || word.starts_with("--trace")
}

/// Returns what the words ask for, of which the first is `sim`.
pub fn read_sim_words<'a>(alloc: Global, words: &'a [String]) -> Result<SimAim<'a>, AllocError> {
    match sim_words(alloc)?.try_get_matches_from(words) {
        Ok(matches) => aim_of(alloc, &matches),
        Err(error) => refuse_words(alloc, &error),
    }
}

fn refuse_words<'a>(alloc: Global, error: &Error) -> Result<SimAim<'a>, AllocError> {
    match error.kind() {
        ErrorKind::OutOfMemory => Err(AllocError),
        ErrorKind::DisplayHelp | ErrorKind::DisplayVersion => {
            Ok(SimAim::Tell(error.to_string(alloc)?))
        }
        _ => Ok(SimAim::Refuse(error.to_string(alloc)?)),
    }
}

const FOLDER: &str = "The folder whose files *.class, in it and below it, are the class set";

const EXPLAIN_HELP: &str =
    "With --explain, lines below a refusal say what it means, and what to change.";

fn sim_words<'a>(alloc: Global) -> Result<Command<'a>, AllocError> {
    Command::new(alloc, "sim")
        .bin_name("rmispace sim")?
        .about("Plays a script over spaces and prints what it shows")
        .after_help(EXPLAIN_HELP)
        .arg(required_word(alloc, "folder", "FOLDER", FOLDER))?
        .arg(required_word(alloc, "script", "SCRIPT", "The file of the script"))?
        .arg(
            Arg::new(alloc, "trace")
                .long("trace")
                .value_name("FILE")
                .action(ArgAction::Append)
                .help("Writes what happens to a file: a picture to FILE.svg, lines to FILE.txt"),
        )?
        .arg(
            Arg::new(alloc, "stats")
                .long("stats")
                .action(ArgAction::SetTrue)
                .help("Prints after what the script shows what was counted in each space"),
        )
}

fn required_word<'a>(alloc: Global, id: &'a str, name: &'a str, help: &'a str) -> Arg<'a> {
    Arg::new(alloc, id)
        .value_name(name)
        .required(true)
        .help(help)
}

fn aim_of<'a>(alloc: Global, found: &ArgMatches<'a>) -> Result<SimAim<'a>, AllocError> {
    let (Some(folder), Some(script)) = (found.get_str("folder"), found.get_str("script")) else {
        return Ok(SimAim::Refuse(String::from_str(alloc, "error: a word is missing\n")?));
    };
    match traces_of(alloc, found.get_strs("trace").unwrap_or(&[]))? {
        Ok(traces) => Ok(SimAim::Play(RecordRequest {
            folder,
            script,
            traces,
            has_stats: found.get_flag("stats"),
        })),
        Err(word) => Ok(SimAim::Refuse(format!(in alloc;
            "error: a trace is a file .svg or .txt: {word}\n"
        )?)),
    }
}

// The files that words name, or the first that names none.
fn traces_of<'a>(
    alloc: Global,
    words: &[&'a str],
) -> Result<Result<Vec<TraceFile<'a>>, &'a str>, AllocError> {
    let mut traces = Vec::new(alloc);
    for word in words {
        match form_of(word) {
            Some(form) => traces.push(TraceFile { path: *word, form })?,
            None => return Ok(Err(*word)),
        }
    }
    Ok(Ok(traces))
}

fn form_of(path: &str) -> Option<TraceForm> {
    let name = path.as_bytes();
    if name.ends_with(b".svg") {
        Some(TraceForm::Picture)
    } else if name.ends_with(b".txt") {
        Some(TraceForm::Lines)
    } else {
        None
    }
}
