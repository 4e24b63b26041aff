//! Names and paths as they are shown: nothing of them acts on a terminal.

use std::{fmt, str};

/// Bytes of a name or a path, shown: as text if they are UTF-8, with control characters escaped as `\u{1b}`; else byte
/// by byte, those that are no printable ASCII escaped as `\xff`.
#[derive(Clone, Copy)]
pub struct Shown<'a>(pub &'a [u8]);

impl fmt::Display for Shown<'_> {
    fn fmt<W: fmt::Write>(&self, f: &mut fmt::Formatter<W>) -> fmt::Result {
        match str::from_utf8(self.0) {
            Ok(text) => write_text(f, text),
            Err(_) => write_bytes(f, self.0),
        }
    }
}

fn write_text<W: fmt::Write>(f: &mut fmt::Formatter<W>, text: &str) -> fmt::Result {
    for c in text.chars() {
        write_char(f, c)?;
    }
    Ok(())
}

fn write_char<W: fmt::Write>(f: &mut fmt::Formatter<W>, c: char) -> fmt::Result {
    if c.is_control() {
        write!(f, "\\u{{{:x}}}", c as u32)
    } else {
        f.write_char(c)
    }
}

fn write_bytes<W: fmt::Write>(f: &mut fmt::Formatter<W>, bytes: &[u8]) -> fmt::Result {
    for byte in bytes {
        write_byte(f, *byte)?;
    }
    Ok(())
}

fn write_byte<W: fmt::Write>(f: &mut fmt::Formatter<W>, byte: u8) -> fmt::Result {
    if byte == b' ' || byte.is_ascii_graphic() {
        f.write_char(byte as char)
    } else {
        write!(f, "\\x{byte:02x}")
    }
}
