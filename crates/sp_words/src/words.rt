//! The arguments of a command line.

ghost use Rattle.std.specs.Prelude.{◌≡◌, ℕ, List, map, string_bytes, codes, Option, IfOk, MatchOption, MatchResult};
ghost use Rattle.std.specs.List.{AllZip};
ghost use Rattle.clap.specs.Matches.{found_of};
ghost use Rattle.clap.specs.Simple.{App, Shape, app_of, subcommand_rows_of, with_subcommand};
ghost use Rattle.clap.specs.Values.{kind_of};
ghost use Rattle.clap.specs.Walk.{first_of, rows_of};
ghost use Rattle.space_ids.specs.declared.value.Value.{Value};
ghost use Rattle.sp_arguments.specs.Arguments.{Spells};
ghost use Rattle.sp_words.specs.CommandLine.{IsFuel, IsSaidFuel, arguments_rule, check_shape, fuel_rule, program, run_shape, sim_shape, wanted_rule};
ghost use Rattle.sp_words.specs.Requests.{IsArgument, IsAsked, IsCheckRequest, IsCommand, IsCommandFound, IsRefusing, IsRequest, IsRunRequest, IsSimRequest, IsUnasked};

use clap::error::ErrorKind;
use clap::{Arg, ArgAction, ArgMatches, Command, Error};
use sp_arguments::argument_of;
use space_ids::Value;
use std::alloc::{AllocError, Global};

/// What a command line asks for.
#[derive(Drop)]
pub enum Request<'a> {
    /// To run a method.
    Run(RunRequest<'a>),
    /// To check the class files of this folder.
    Check(&'a str),
    /// To play a script.
    Sim(SimRequest<'a>),
    /// A text that was asked for, as help or the version: for standard output.
    Tell(String),
    /// A usage fault, with its text for standard error.
    Refuse(String),
}

/// `run FOLDER CLASS METHOD [ARGUMENT..] [--fuel N]`.
#[derive(Drop)]
pub struct RunRequest<'a> {
    pub folder: &'a str,
    pub class: &'a str,
    /// A method's name and descriptor, as they are written.
    pub method: &'a str,
    pub arguments: Vec<Value>,
    /// The fuel, if it is said.
    pub fuel: Option<u64>,
}

/// `sim FOLDER SCRIPT`.
#[derive(Drop)]
pub struct SimRequest<'a> {
    pub folder: &'a str,
    /// The path of the script.
    pub script: &'a str,
}

/// Returns what the arguments ask for; the first is the program's own name. A fault of usage is an answer too.
/// `AllocError` if memory runs out.
pub fn request_of<'a>(alloc: Global, words: &'a [String]) -> Result<Request<'a>, AllocError>
    ensures { IfOk result (IsRequest (map string_bytes words.now)) }
{
    match whole_command(alloc)?.try_get_matches_from(words) {
        Ok(matches) => asked(alloc, &matches),
        Err(error) => unasked(alloc, &error),
    }
}

// What arguments ask for that the parser does not take.
fn unasked<'a>(alloc: Global, error: &Error) -> Result<Request<'a>, AllocError>
    ensures { IfOk result (IsUnasked (kind_of error.now)) }
{
    match error.kind() {
        ErrorKind::OutOfMemory => Err(AllocError),
        ErrorKind::DisplayHelp | ErrorKind::DisplayVersion => {
            Ok(Request::Tell(error.to_string(alloc)?))
        }
        _ => Ok(Request::Refuse(error.to_string(alloc)?)),
    }
}

// What arguments ask for that the parser takes: it found a command then.
fn asked<'a>(alloc: Global, matches: &ArgMatches<'a>) -> Result<Request<'a>, AllocError>
    requires command { IsCommandFound (subcommand_rows_of matches.now) }
    ensures { IfOk result (IsAsked (subcommand_rows_of matches.now)) }
{
    match matches.subcommand() {
        Some(("run", found)) => asked_run(alloc, found),
        Some(("check", found)) => asked_check(alloc, found),
        Some(("sim", found)) => asked_sim(alloc, found),
        _ => unreachable!(),
    }
}

fn asked_check<'a>(alloc: Global, found: &ArgMatches<'a>) -> Result<Request<'a>, AllocError>
    ensures { IfOk result (IsCheckRequest (rows_of (found_of found.now))) }
{
    match found.get_str("folder") {
        Some(folder) => Ok(Request::Check(folder)),
        None => refuse(alloc, WORD_MISSING),
    }
}

fn asked_sim<'a>(alloc: Global, found: &ArgMatches<'a>) -> Result<Request<'a>, AllocError>
    ensures { IfOk result (IsSimRequest (rows_of (found_of found.now))) }
{
    match (found.get_str("folder"), found.get_str("script")) {
        (Some(folder), Some(script)) => Ok(Request::Sim(SimRequest { folder, script })),
        _ => refuse(alloc, WORD_MISSING),
    }
}

fn asked_run<'a>(alloc: Global, found: &ArgMatches<'a>) -> Result<Request<'a>, AllocError>
    ensures { IfOk result (IsRunRequest (rows_of (found_of found.now))) }
{
    let (Some(folder), Some(class), Some(method)) = (
        found.get_str("folder"),
        found.get_str("class"),
        found.get_str("method"),
    ) else {
        return refuse(alloc, WORD_MISSING);
    };
    let Some(fuel) = fuel_said(found) else {
        return refuse(alloc, NO_FUEL);
    };
    match values_of(alloc, found.get_strs("arguments").unwrap_or(&[]))? {
        Ok(arguments) => Ok(Request::Run(RunRequest {
            folder,
            class,
            method,
            arguments,
            fuel,
        })),
        Err(word) => Ok(Request::Refuse(format!(in alloc;
            "error: '{word}' is no number, array or null\n"
        )?)),
    }
}

const WORD_MISSING: &str = "error: a word is missing\n";

const NO_FUEL: &str = "error: the fuel is a whole number from 0 to 9223372036854775807\n";

// The fuel if it is said, and nothing if what is said is no fuel.
fn fuel_said(found: &ArgMatches) -> Option<Option<u64>>
    ensures { MatchOption result
        ((fuel : Option ℕ) → IsSaidFuel (first_of (codes "fuel") (rows_of (found_of found.now))) fuel → ⊥)
        (IsSaidFuel (first_of (codes "fuel") (rows_of (found_of found.now)))) }
{
    match found.get_str("fuel") {
        Some(word) => Some(Some(fuel_of(word)?)),
        None => Some(None),
    }
}

// The fuel that an argument stands for: digits alone, of a number below 2^63.
fn fuel_of(word: &str) -> Option<u64>
    ensures { MatchOption result ((n : ℕ) → IsFuel word.now n → ⊥) (IsFuel word.now) }
{
    if word.starts_with('+') {
        return None;
    }
    match word.parse::<u64>() {
        Ok(fuel) if fuel <= i64::MAX as u64 => Some(fuel),
        _ => None,
    }
}

// The values that the arguments stand for, or an argument that stands for none.
fn values_of<'a>(
    alloc: Global,
    words: &[&'a str],
) -> Result<Result<Vec<Value>, &'a str>, AllocError>
    ensures { IfOk result (λ spelled. MatchResult spelled
        (λ values. AllZip Spells (map (λ word. word.now) words.now) values.items)
        (λ word. (values : List Value) → AllZip Spells (map (λ word. word.now) words.now) values → ⊥)) }
{
    let mut values = Vec::new(alloc);
    for word in words {
        match argument_of(alloc, word)? {
            Some(value) => values.push(value)?,
            None => return Ok(Err(word)),
        }
    }
    Ok(Ok(values))
}

fn refuse<'a>(alloc: Global, text: &str) -> Result<Request<'a>, AllocError>
    ensures { IfOk result IsRefusing }
{
    Ok(Request::Refuse(String::from_str(alloc, text)?))
}

// What `--help` ends with.
const AFTER_HELP: &str = "Further commands:
  serve  Serves a space over TCP
  call   Calls an object of a space that is served
  show   Shows the classes of a folder, and their members and code
  help   Prints this help, or that of a command

With --explain, lines below a refusal say what it means, and what to change.

Example:
  rmispace run examples/sum T 'f(I)I' 4 --fuel 38

Exit status:
  0  the method returned, the classes are accepted, or the script is done
  1  the method threw, or its fuel was spent
  2  the classes are refused
  3  anything else: the words, a file, the start, a line of the script, memory, the output";

// What the help of a command ends with that reads class files.
const EXPLAIN_HELP: &str =
    "With --explain, lines below a refusal say what it means, and what to change.";

fn whole_command<'a>(alloc: Global) -> Result<Command<'a>, AllocError>
    ensures { IfOk result (λ command. app_of command ≡ program) }
{
    let command = Command::new(alloc, "rmispace")
        .version("0.1.0")
        .about("Checks Java class files, and runs their methods under fuel, alone or in a space")
        .after_help(AFTER_HELP)
        .subcommand_required(true)
        .disable_help_subcommand(true);
    let with_run = add(Ok(command), run_command(alloc));
    let with_check = add(with_run, check_command(alloc));
    add(with_check, sim_command(alloc))
}

// Adds a subcommand to a command, unless memory ran out for one of them. The other is let go here alone.
fn add<'a>(
    command: Result<Command<'a>, AllocError>,
    added: Result<Command<'a>, AllocError>,
) -> Result<Command<'a>, AllocError>
    ensures { (app : App) (shape : Shape) → IfOk command.entry (λ old. app_of old ≡ app) → IfOk added.entry (IsCommand shape) → IfOk result (λ new. app_of new ≡ with_subcommand app shape) }
{
    command?.subcommand(added?)
}

fn check_command<'a>(alloc: Global) -> Result<Command<'a>, AllocError>
    ensures { IfOk result (IsCommand check_shape) }
{
    Command::new(alloc, "check")
        .about("Checks the classes of a folder and prints how many they are")
        .after_help(EXPLAIN_HELP)
        .arg(folder_word(alloc))
}

fn sim_command<'a>(alloc: Global) -> Result<Command<'a>, AllocError>
    ensures { IfOk result (IsCommand sim_shape) }
{
    Command::new(alloc, "sim")
        .about("Plays a script over spaces and prints what it shows")
        .after_help(EXPLAIN_HELP)
        .arg(folder_word(alloc))?
        .arg(wanted(alloc, "script", "SCRIPT", "The file of the script"))
}

fn run_command<'a>(alloc: Global) -> Result<Command<'a>, AllocError>
    ensures { IfOk result (IsCommand run_shape) }
{
    Command::new(alloc, "run")
        .about("Runs a method and prints how it ended")
        .after_help(EXPLAIN_HELP)
        .arg(folder_word(alloc))?
        .arg(wanted(
            alloc,
            "class",
            "CLASS",
            "The class's name, as java/lang/Object",
        ))?
        .arg(wanted(
            alloc,
            "method",
            "METHOD",
            "A static method's name and descriptor, as 'f(I)I'",
        ))?
        .arg(arguments(alloc))?
        .arg(fuel(alloc))
}

// An argument that has to be there.
fn wanted<'a>(alloc: Global, id: &'a str, name: &'a str, help: &'a str) -> Arg<'a>
    ensures { IsArgument (wanted_rule id.now) result }
{
    Arg::new(alloc, id)
        .value_name(name)
        .required(true)
        .help(help)
}

// `FOLDER`.
fn folder_word<'a>(alloc: Global) -> Arg<'a>
    ensures { IsArgument (wanted_rule (codes "folder")) result }
{
    let help = "The folder whose files *.class, in it and below it, are the class set";
    wanted(alloc, "folder", "FOLDER", help)
}

// `[ARGUMENT..]`.
fn arguments<'a>(alloc: Global) -> Arg<'a>
    ensures { IsArgument arguments_rule result }
{
    Arg::new(alloc, "arguments")
        .value_name("ARGUMENT")
        .num_args(0..)
        .action(ArgAction::Append)
        .help("A number, [1,2], [] or null; negative numbers follow --")
}

// `[--fuel N]`.
fn fuel<'a>(alloc: Global) -> Arg<'a>
    ensures { IsArgument fuel_rule result }
{
    Arg::new(alloc, "fuel").long("fuel").value_name("N").help(
        "How many instructions may run (1000000 if it is not said)",
    )
}
