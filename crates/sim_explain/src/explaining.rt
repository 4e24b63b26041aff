//! Why a line is bad.

use crate::forms::{FORMS, Form, Part, form_of};
use crate::known::KnownNames;
use registry_names::is_name;
use shown_text::Shown;
use std::alloc::{AllocError, Global};
use std::str;
use strsim::levenshtein;

/// Returns why the line of this number of a script, from 1, is bad, in lines: nothing if there is no such line.
/// `AllocError` if memory runs out.
pub fn explain_bad_line(alloc: Global, script: &[u8], number: usize) -> Result<String, AllocError> {
    let mut page = String::new(alloc);
    let lines: Vec<&[u8]> = script.split(|byte| *byte == b'\n').collect(alloc)?;
    let before = number.saturating_sub(1);
    let Some(line) = lines.get(before) else {
        return Ok(page);
    };
    writeln!(page, "  The line: {}", Shown(line))?;
    match str::from_utf8(line) {
        Ok(text) => {
            let known = KnownNames::of(alloc, &lines[..before])?;
            write_reason(alloc, &mut page, text, &known)?;
        }
        Err(_) => page.push_str("  It is no text in UTF-8.\n")?,
    }
    Ok(page)
}

fn write_reason(
    alloc: Global,
    page: &mut String,
    line: &str,
    known: &KnownNames<'_>,
) -> Result<(), AllocError> {
    if line.ends_with('\r') {
        return page.push_str(
            "  It ends with a carriage return: the lines of a script end with a newline alone.\n",
        );
    }
    if line.starts_with('#') {
        return page.push_str("  A script has no comments.\n");
    }
    let words: Vec<&str> = line.split(' ').collect(alloc)?;
    if words.iter().any(|word| word.is_empty()) {
        return page.push_str(
            "  One space parts two words: here two stand together, or one at an end of the line.\n",
        );
    }
    let Some((verb, rest)) = words.split_first() else {
        return Ok(());
    };
    match form_of(verb) {
        Some(form) => write_command_fault(page, form, rest, known),
        None => write_no_command(alloc, page, verb),
    }
}

fn write_no_command(alloc: Global, page: &mut String, verb: &str) -> Result<(), AllocError> {
    write!(page, "  No line begins with {}", Shown(verb.as_bytes()))?;
    if let Some(near) = nearest_verb(alloc, verb)? {
        write!(page, "; there is {near}")?;
    }
    page.push_str(".\n  The lines of a script:\n")?;
    for form in FORMS.iter() {
        writeln!(page, "    {}", form.text)?;
    }
    Ok(())
}

// A verb that is fewer edits away than half the word's letters. Long words are far from all.
fn nearest_verb(alloc: Global, word: &str) -> Result<Option<&'static str>, AllocError> {
    if word.len() > 16 {
        return Ok(None);
    }
    for form in FORMS.iter() {
        if levenshtein(alloc, word, form.verb)? < (word.len() + 1) / 2 {
            return Ok(Some(form.verb));
        }
    }
    Ok(None)
}

fn write_command_fault(
    page: &mut String,
    form: &Form,
    words: &[&str],
    known: &KnownNames<'_>,
) -> Result<(), AllocError> {
    if !form.has(words.len()) {
        return writeln!(page, "  Its form is: {}", form.text);
    }
    if form.verb == "space" {
        return write_space_fault(page, known);
    }
    for (index, word) in words.iter().enumerate() {
        if let Some(fault) = word_fault(form.parts.get(index), word, known) {
            return writeln!(page, "  {}: {fault}.", Shown(word.as_bytes()));
        }
    }
    page.push_str(played_fault(form, words))
}

fn write_space_fault(page: &mut String, known: &KnownNames<'_>) -> Result<(), AllocError> {
    page.push_str(if known.has_begun {
        "  Lines that name spaces come before all others.\n"
    } else {
        "  A line before names this space already.\n"
    })
}

// What is wrong with a word that is such a part of its command, if it can be told without playing the script. A word that
// is none of the parts is an argument.
fn word_fault(part: Option<&Part>, word: &str, known: &KnownNames<'_>) -> Option<&'static str> {
    match part {
        Some(Part::Space) if !known.has_space(word) => Some("no line before names such a space"),
        Some(Part::NewVariable) if known.has_variable(word) => {
            Some("a line before has named it, and VAR is a new word")
        }
        Some(Part::Variable) if !known.has_variable(word) => {
            Some("no root and no lookup before has named it")
        }
        Some(Part::Name) if !is_name(word.as_bytes()) => {
            Some("a name has 1 to 255 letters, digits, _ and dots")
        }
        Some(Part::Number) if !is_number(word) => {
            Some("a number has digits alone, and is below 2^64")
        }
        Some(Part::Fuel) if !is_fuel(word) => {
            Some("fuel is a number of digits alone, below 2^63, or -")
        }
        None if !is_argument(word, known) => {
            Some("no number, array or null, and no root and no lookup before has named it")
        }
        _ => None,
    }
}

fn is_number(word: &str) -> bool {
    !word.starts_with('+') && word.parse::<u64>().is_ok()
}

fn is_fuel(word: &str) -> bool {
    match word.parse::<u64>() {
        Ok(fuel) => fuel <= i64::MAX as u64 && !word.starts_with('+'),
        Err(_) => word == "-",
    }
}

// Whether a word can be an argument. Of numbers and arrays only the begin is looked at.
fn is_argument(word: &str, known: &KnownNames<'_>) -> bool {
    let is_literal = match word.as_bytes() {
        [b'-' | b'[' | b'0'..=b'9', ..] | b"null" => true,
        _ => false,
    };
    is_literal || known.has_variable(word)
}

// What may be wrong with a line of which each word fits, as it is played.
fn played_fault(form: &Form, words: &[&str]) -> &'static str {
    match (form.verb, words) {
        ("root", _) => ROOT_FAULTS,
        ("lookup", [space, peer, ..]) if space == peer => "  A space does not ask itself.\n",
        ("bind" | "rebind", _) => {
            "  VAR has returned no reference when the line is played: its task goes on, or ended otherwise.\n"
        }
        _ => "",
    }
}

const ROOT_FAULTS: &str = "  Each word has its form. When the line is played, one of these is so:
    - CLASS has no such static method, or it takes other arguments: rmispace show FOLDER CLASS lists its methods;
    - a VAR among the arguments has returned no value: its task goes on, or ended otherwise;
    - FUEL is over 1,000,000;
    - a reference among the arguments is of an object that no longer stands, or that the space does not hold;
    - 4,096 tasks live in the space.
";
