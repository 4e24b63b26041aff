//! What is done with words before a command reads them: `--explain` and `help`, words that name no command, and negative
//! fuel.

use std::alloc::{AllocError, Global};
use strsim::levenshtein;

/// The commands of the program, as its help tells them.
const COMMANDS: [&str; 6] = ["run", "check", "sim", "serve", "call", "show"];

/// The words of a command line without `--explain`, and whether that was said before a `--`.
#[derive(Drop)]
pub struct ExplainedWords {
    pub words: Vec<String>,
    pub explains: bool,
}

/// Takes `--explain` out of words. What follows a `--` stays.
pub fn take_explain(alloc: Global, words: Vec<String>) -> Result<ExplainedWords, AllocError> {
    let mut kept = Vec::new(alloc);
    let mut explains = false;
    let mut has_ended = false;
    for word in words {
        let is_explain = !has_ended && word.as_str() == "--explain";
        has_ended = has_ended || word.as_str() == "--";
        explains = explains || is_explain;
        keep_if(&mut kept, word, !is_explain)?;
    }
    Ok(ExplainedWords {
        words: kept,
        explains,
    })
}

// Keeps a word, or lets it go.
fn keep_if(kept: &mut Vec<String>, word: String, keeps: bool) -> Result<(), AllocError> {
    if keeps {
        kept.push(word)?;
    } else {
        drop(word);
    }
    Ok(())
}

/// Returns the words that `help`, or `help COMMAND`, stands for: those with `--help` at their end. Other words stay.
pub fn without_help(alloc: Global, words: Vec<String>) -> Result<Vec<String>, AllocError> {
    let is_help = matches!(words.get(1), Some(word) if word.as_str() == "help");
    let mut kept = Vec::new(alloc);
    for (index, word) in words.into_iter().enumerate() {
        keep_if(&mut kept, word, !is_help || index == 0 || index == 2)?;
    }
    if is_help {
        kept.push(String::from_str(alloc, "--help")?)?;
    }
    Ok(kept)
}

/// Returns whether a `--fuel` before any `--` is followed by a negative number: the parser takes such a word for an option.
pub fn has_negative_fuel(words: &[String]) -> bool {
    let mut is_fuel = false;
    for word in words {
        if word.as_str() == "--" {
            return false;
        }
        if is_fuel && is_negative(word.as_bytes()) {
            return true;
        }
        is_fuel = word.as_str() == "--fuel";
    }
    false
}

fn is_negative(word: &[u8]) -> bool {
    match word {
        [b'-', first, ..] => first.is_ascii_digit(),
        _ => false,
    }
}

/// Returns what to say of a first word that names no command, and nothing of one that does, or that is an option.
pub fn unknown_command(alloc: Global, words: &[String]) -> Result<Option<String>, AllocError> {
    let Some(word) = words.get(1) else {
        return Ok(None);
    };
    if word.starts_with('-') || is_command(word.as_str()) {
        return Ok(None);
    }
    let mut said = format!(in alloc; "error: no command is named '{word}'")?;
    if let Some(near) = nearest_command(alloc, word.as_str())? {
        write!(said, "; there is '{near}'")?;
    }
    said.push_str("\n\nCommands: ")?;
    for command in COMMANDS {
        write!(said, "{command}, ")?;
    }
    said.push_str("help\n\nFor more information, try '--help'.\n")?;
    Ok(Some(said))
}

fn is_command(word: &str) -> bool {
    for command in COMMANDS {
        if command == word {
            return true;
        }
    }
    false
}

// A command whose name is fewer edits away than half the word's letters. Long words are far from all.
fn nearest_command(alloc: Global, word: &str) -> Result<Option<&'static str>, AllocError> {
    if word.len() > 16 {
        return Ok(None);
    }
    for command in COMMANDS {
        if levenshtein(alloc, word, command)? < (word.len() + 1) / 2 {
            return Ok(Some(command));
        }
    }
    Ok(None)
}
