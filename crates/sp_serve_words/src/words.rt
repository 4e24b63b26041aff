//! The words after `serve` and `call`.

use clap::error::ErrorKind;
use clap::{Arg, ArgAction, ArgMatches, Command, Error};
use registry_names::is_name;
use sp_arguments::argument_of;
use sp_serve::Peer;
use space_ids::Uuid;
use std::alloc::{AllocError, Global};
use std::net::SocketAddr;
use vm_step::Limits;

/// A space that is wanted, over the class files of a folder, and what for.
#[derive(Drop)]
pub struct SpaceRequest<'a> {
    pub folder: &'a str,
    /// Its id, if that is said.
    pub id: Option<Uuid>,
    pub aim: Aim<'a>,
}

/// What a space is for.
#[derive(Drop)]
pub enum Aim<'a> {
    Serve(ServeRequest<'a>),
    Call(CallRequest<'a>),
}

/// What is to be served, and where.
#[derive(Drop)]
pub struct ServeRequest<'a> {
    /// The address to listen at.
    pub listen: &'a str,
    pub peers: Vec<Peer>,
    /// The names that are to be bound, each with the class that makes its object.
    pub bound: Vec<(&'a str, &'a str)>,
    pub workers: usize,
    /// The most fuel of a root.
    pub fuel: u64,
    /// The version of the protocol that the space speaks at most.
    pub version: u8,
}

/// What is to be called, and by which method.
#[derive(Drop)]
pub struct CallRequest<'a> {
    pub peer: Peer,
    /// What the peer has bound.
    pub name: &'a str,
    pub class: &'a str,
    /// The method's name and descriptor.
    pub method: &'a str,
    pub arguments: Vec<&'a str>,
    pub fuel: u64,
}

/// What the words after the program's name ask for.
#[derive(Drop)]
pub enum Invocation<'a> {
    Run(SpaceRequest<'a>),
    /// Help: for standard output.
    Tell(String),
    /// A usage fault, with its text for standard error.
    Refuse(String),
}

/// Returns what the words ask for, of which the first is `call`, or else `serve`.
pub fn read_words<'a>(alloc: Global, words: &'a [String]) -> Result<Invocation<'a>, AllocError> {
    if is_call(words) {
        match call_words(alloc)?.try_get_matches_from(words) {
            Ok(matches) => call_request(alloc, &matches),
            Err(error) => refuse_words(alloc, &error),
        }
    } else {
        match serve_words(alloc)?.try_get_matches_from(words) {
            Ok(matches) => serve_request(alloc, &matches),
            Err(error) => refuse_words(alloc, &error),
        }
    }
}

fn is_call(words: &[String]) -> bool {
    match words.first() {
        Some(first) => first.as_str() == "call",
        None => false,
    }
}

fn refuse_words<'a>(alloc: Global, error: &Error) -> Result<Invocation<'a>, AllocError> {
    match error.kind() {
        ErrorKind::OutOfMemory => Err(AllocError),
        ErrorKind::DisplayHelp | ErrorKind::DisplayVersion => {
            Ok(Invocation::Tell(error.to_string(alloc)?))
        }
        _ => Ok(Invocation::Refuse(error.to_string(alloc)?)),
    }
}

const FOLDER: &str = "The folder whose files *.class, in it and below it, are the class set";

const EXPLAIN_HELP: &str =
    "With --explain, lines below a refusal say what it means, and what to change.";

fn serve_words<'a>(alloc: Global) -> Result<Command<'a>, AllocError> {
    Command::new(alloc, "serve")
        .bin_name("rmispace serve")?
        .about("Serves a space over TCP, and obeys the lines of its input until that ends")
        .after_help(EXPLAIN_HELP)
        .arg(required_word(alloc, "folder", "FOLDER", FOLDER))?
        .arg(required_word(alloc, "id", "UUID", "The id of the space").long("id"))?
        .arg(required_word(
            alloc,
            "listen",
            "ADDR",
            "Where it listens, as 127.0.0.1:4000",
        )
        .long("listen"))?
        .arg(repeated_option(alloc, "peer", "UUID=ADDR", "Where another space listens"))?
        .arg(repeated_option(
            alloc,
            "bind",
            "NAME=CLASS",
            "Binds what the static method `export` of a class makes",
        ))?
        .arg(
            Arg::new(alloc, "workers")
                .long("workers")
                .value_name("N")
                .help("How many workers run tasks, 1 to 16 (2 if it is not said)"),
        )?
        .arg(option(
            alloc,
            "fuel",
            "N",
            "The most instructions of a root and of what it calls (1000000 if it is not said)",
        ))?
        .arg(option(
            alloc,
            "version",
            "N",
            "The version of the protocol that it speaks at most, 1 or 2 (2 if it is not said)",
        ))
}

fn call_words<'a>(alloc: Global) -> Result<Command<'a>, AllocError> {
    Command::new(alloc, "call")
        .bin_name("rmispace call")?
        .about("Calls an object of a space that is served: a space for one call")
        .after_help(EXPLAIN_HELP)
        .arg(required_word(alloc, "folder", "FOLDER", FOLDER))?
        .arg(required_word(
            alloc,
            "peer",
            "UUID=ADDR",
            "The space, and where it listens",
        ))?
        .arg(required_word(
            alloc,
            "name",
            "NAME",
            "What it has bound to this name is called",
        ))?
        .arg(required_word(alloc, "class", "CLASS", "The class that has the method"))?
        .arg(required_word(
            alloc,
            "method",
            "METHOD",
            "A static method, as f(LInc;)I, that gets the object first",
        ))?
        .arg(repeated_word(
            alloc,
            "argument",
            "ARGUMENT",
            "A number, [1,2], [] or null; negative numbers follow --",
        ))?
        .arg(option(
            alloc,
            "id",
            "UUID",
            "The id of the space that calls (random if it is not said)",
        ))?
        .arg(option(
            alloc,
            "fuel",
            "N",
            "How many instructions may run (1000000 if it is not said)",
        ))
}

fn required_word<'a>(alloc: Global, id: &'a str, name: &'a str, help: &'a str) -> Arg<'a> {
    Arg::new(alloc, id)
        .value_name(name)
        .required(true)
        .help(help)
}

fn repeated_word<'a>(alloc: Global, id: &'a str, name: &'a str, help: &'a str) -> Arg<'a> {
    Arg::new(alloc, id)
        .value_name(name)
        .num_args(0..)
        .action(ArgAction::Append)
        .help(help)
}

fn option<'a>(alloc: Global, id: &'a str, name: &'a str, help: &'a str) -> Arg<'a> {
    Arg::new(alloc, id).long(id).value_name(name).help(help)
}

fn repeated_option<'a>(alloc: Global, id: &'a str, name: &'a str, help: &'a str) -> Arg<'a> {
    option(alloc, id, name, help).action(ArgAction::Append)
}

fn serve_request<'a>(alloc: Global, found: &ArgMatches<'a>) -> Result<Invocation<'a>, AllocError> {
    let (Some(folder), Some(id), Some(listen)) = (
        found.get_str("folder"),
        found.get_str("id"),
        found.get_str("listen"),
    ) else {
        return refuse(alloc, WORD_MISSING, "");
    };
    let Ok(own) = Uuid::parse_str(id) else {
        return refuse(alloc, NO_UUID, id);
    };
    if listen.parse::<SocketAddr>().is_err() {
        return refuse(alloc, "this is no address", listen);
    }
    let Some(workers) = workers_of(found.get_str("workers")) else {
        return refuse(alloc, "workers are 1 to 16", "");
    };
    let Some(fuel) = fuel_of(found.get_str("fuel")) else {
        return refuse(alloc, NO_FUEL, "");
    };
    let Some(version) = version_of(found.get_str("version")) else {
        return refuse(alloc, "the version is 1 or 2", "");
    };
    let peers = match peers_of(alloc, &own, found.get_strs("peer").unwrap_or(&[]))? {
        Ok(peers) => peers,
        Err(Mistake { why, word }) => return refuse(alloc, why, word),
    };
    let bound = match bound_of(alloc, found.get_strs("bind").unwrap_or(&[]))? {
        Ok(bound) => bound,
        Err(Mistake { why, word }) => return refuse(alloc, why, word),
    };
    Ok(Invocation::Run(SpaceRequest {
        folder,
        id: Some(own),
        aim: Aim::Serve(ServeRequest {
            listen,
            peers,
            bound,
            workers,
            fuel,
            version,
        }),
    }))
}

fn call_request<'a>(alloc: Global, found: &ArgMatches<'a>) -> Result<Invocation<'a>, AllocError> {
    let (Some(folder), Some(peer), Some(name)) = (
        found.get_str("folder"),
        found.get_str("peer"),
        found.get_str("name"),
    ) else {
        return refuse(alloc, WORD_MISSING, "");
    };
    let (Some(class), Some(method)) = (found.get_str("class"), found.get_str("method")) else {
        return refuse(alloc, WORD_MISSING, "");
    };
    let Some(callee) = peer_of(peer) else {
        return refuse(alloc, NO_PEER, peer);
    };
    if !is_name(name.as_bytes()) {
        return refuse(alloc, NO_NAME, name);
    }
    let id = match id_of(&callee, found.get_str("id")) {
        Ok(id) => id,
        Err(Mistake { why, word }) => return refuse(alloc, why, word),
    };
    let Some(fuel) = fuel_of(found.get_str("fuel")) else {
        return refuse(alloc, NO_FUEL, "");
    };
    let arguments = match arguments_of(alloc, found.get_strs("argument").unwrap_or(&[]))? {
        Ok(arguments) => arguments,
        Err(word) => return refuse(alloc, "this is no number, array or null", word),
    };
    Ok(Invocation::Run(SpaceRequest {
        folder,
        id,
        aim: Aim::Call(CallRequest {
            peer: callee,
            name,
            class,
            method,
            arguments,
            fuel,
        }),
    }))
}

const WORD_MISSING: &str = "a word is missing";

const NO_UUID: &str = "this is no UUID";

const NO_PEER: &str = "this is no UUID=ADDR";

const NO_NAME: &str = "this is no name of 1 to 255 ASCII letters, digits, _ and .";

const NO_FUEL: &str = "the fuel is a whole number from 0 to 9223372036854775807";

// What is wrong with a word.
#[derive(Clone, Copy)]
struct Mistake<'a> {
    why: &'static str,
    word: &'a str,
}

fn refuse<'a>(alloc: Global, why: &str, word: &str) -> Result<Invocation<'a>, AllocError> {
    if word.is_empty() {
        Ok(Invocation::Refuse(format!(in alloc; "error: {why}\n")?))
    } else {
        Ok(Invocation::Refuse(format!(in alloc; "error: {why}: {word}\n")?))
    }
}

// How many workers there are, if the word says so many as there may be.
fn workers_of(word: Option<&str>) -> Option<usize> {
    match word {
        None => Some(2),
        Some(word) => match word.parse::<usize>() {
            Ok(count) if 1 <= count && count <= 16 => Some(count),
            _ => None,
        },
    }
}

// The version that a word says, or 2 if none is said.
fn version_of(word: Option<&str>) -> Option<u8> {
    match word {
        None | Some("2") => Some(2),
        Some("1") => Some(1),
        Some(_) => None,
    }
}

// The fuel that a word says, or that of a task of which none is said.
fn fuel_of(word: Option<&str>) -> Option<u64> {
    match word {
        None => Some(Limits::default().fuel),
        Some(word) => match word.parse::<u64>() {
            Ok(fuel) if fuel <= i64::MAX as u64 => Some(fuel),
            _ => None,
        },
    }
}

// The id that a word says, if one is said. It is not the peer's.
fn id_of<'a>(peer: &Peer, word: Option<&'a str>) -> Result<Option<Uuid>, Mistake<'a>> {
    match word {
        None => Ok(None),
        Some(word) => match Uuid::parse_str(word) {
            Ok(id) if id == peer.id => Err(Mistake {
                why: "the peer has this id",
                word,
            }),
            Ok(id) => Ok(Some(id)),
            Err(_) => Err(Mistake { why: NO_UUID, word }),
        },
    }
}

// The words of arguments, or the first that is none.
fn arguments_of<'a>(
    alloc: Global,
    words: &[&'a str],
) -> Result<Result<Vec<&'a str>, &'a str>, AllocError> {
    let mut arguments = Vec::new(alloc);
    for word in words {
        match argument_of(alloc, word)? {
            Some(_) => arguments.push(*word)?,
            None => return Ok(Err(word)),
        }
    }
    Ok(Ok(arguments))
}

// The peers that words name, or the first word at fault: one that names none, this space, or a peer once more.
fn peers_of<'a>(
    alloc: Global,
    own: &Uuid,
    words: &[&'a str],
) -> Result<Result<Vec<Peer>, Mistake<'a>>, AllocError> {
    let mut peers = Vec::new(alloc);
    for word in words {
        let Some(peer) = peer_of(word) else {
            return Ok(Err(Mistake { why: NO_PEER, word }));
        };
        if peer.id == *own || is_known(&peers, &peer.id) {
            let why = "a peer has one address, and another id than this space";
            return Ok(Err(Mistake { why, word }));
        }
        peers.push(peer)?;
    }
    Ok(Ok(peers))
}

fn is_known(peers: &[Peer], id: &Uuid) -> bool {
    peers.iter().any(|peer| peer.id == *id)
}

fn peer_of(word: &str) -> Option<Peer> {
    let (id, address) = word.split_once('=')?;
    match (Uuid::parse_str(id), address.parse::<SocketAddr>()) {
        (Ok(id), Ok(address)) => Some(Peer { id, address }),
        _ => None,
    }
}

// The names and classes of words, or the first word at fault: one that has none, or a name once more.
fn bound_of<'a>(
    alloc: Global,
    words: &[&'a str],
) -> Result<Result<Vec<(&'a str, &'a str)>, Mistake<'a>>, AllocError> {
    let mut bound = Vec::new(alloc);
    for word in words {
        let Some((name, class)) = word.split_once('=') else {
            let why = "this is no NAME=CLASS";
            return Ok(Err(Mistake { why, word }));
        };
        if !is_name(name.as_bytes()) {
            let word = name;
            return Ok(Err(Mistake { why: NO_NAME, word }));
        }
        if is_bound(&bound, name) {
            let why = "a name is bound once";
            return Ok(Err(Mistake { why, word }));
        }
        bound.push((name, class))?;
    }
    Ok(Ok(bound))
}

fn is_bound(bound: &[(&str, &str)], name: &str) -> bool {
    bound.iter().any(|(other, _)| *other == name)
}
