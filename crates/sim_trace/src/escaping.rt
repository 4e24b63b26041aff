//! Names and lines of scripts in texts of other forms.

use std::alloc::AllocError;

// Adds a letter to a text of XML: one that has a meaning there is spelled by its name, and for one that may not stand there stands a sign
// of its own.
pub(crate) fn put_letter(out: &mut String, letter: char) -> Result<(), AllocError> {
    match letter {
        '&' => out.push_str("&amp;"),
        '<' => out.push_str("&lt;"),
        '>' => out.push_str("&gt;"),
        '"' => out.push_str("&quot;"),
        '\u{fffe}' | '\u{ffff}' => out.push('\u{fffd}'),
        _ if letter.is_control() => out.push('\u{fffd}'),
        _ => out.push(letter),
    }
}

// Adds a text to a line: characters that would end it, or that a terminal obeys, are spelled by their numbers.
pub(crate) fn put_plain(out: &mut String, text: &str) -> Result<(), AllocError> {
    for letter in text.chars() {
        if letter.is_control() {
            let number = letter as u32;
            write!(out, "\\u{{{number:x}}}")?;
        } else {
            out.push(letter)?;
        }
    }
    Ok(())
}
