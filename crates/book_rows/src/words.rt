//! What the arguments ask for.

use crate::told::failed;
use std::rt::Env;
use std::{env, io};

// How often a short root goes round its loop.
const SHORT: i32 = 4;

// How often a root goes round its loop in a million instructions: each time takes 8.
const TURNS_IN_A_MILLION: i32 = 125_000;

/// What the arguments ask for.
#[derive(Clone, Copy)]
pub enum Request {
    /// The rows of which the stored run is the table.
    Rows,
    /// Roots of so many turns, run by workers.
    Load {
        roots: u64,
        turns: i32,
        workers: u64,
    },
    /// What so many entries take.
    Weigh(u64),
}

/// What the arguments ask for.
pub fn request_of<R: Env + AllocGlobal>(rt: &R) -> io::Result<Request> {
    let mut words = env::args(rt)?.skip(1);
    let Some(what) = words.next() else {
        return Ok(Request::Rows);
    };
    let first = number(words.next());
    let workers = number(words.next());
    let millions = i32::try_from(number(words.next())).unwrap_or(0);
    match what.as_str() {
        "tasks" => Ok(Request::Load {
            roots: first,
            turns: SHORT,
            workers,
        }),
        "long" => Ok(Request::Load {
            roots: first,
            turns: millions.saturating_mul(TURNS_IN_A_MILLION),
            workers,
        }),
        "weigh" => Ok(Request::Weigh(first)),
        _ => Err(failed()),
    }
}

fn number(word: Option<String>) -> u64 {
    match word {
        Some(word) => word.parse::<u64>().unwrap_or(0),
        None => 0,
    }
}
