//! Reads each line of the standard input as one of a script that plays spaces, and prints what it says:
//! `none` for an empty one, and `bad` for one that is no line of a script. A line that begins with `#` is
//! a heading. So a further test case is a line.
#![tactic(auto)]

use sim_script::{LineFault, read_line};
use std::io;
use std::io::{BufRead, BufReader, BufWriter, ErrorKind, Write};

fn main(rt: HostRuntime) -> io::Result<()> {
    let alloc = rt.alloc();
    let mut out = BufWriter::new(alloc, io::writer(&rt))?;
    for text in BufReader::new(alloc, rt.reader())?.lines(alloc) {
        let text = text?;
        writeln!(out, "{text}")?;
        if !text.starts_with('#') {
            match read_line(alloc, &text) {
                Ok(Some(command)) => writeln!(out, "{command:?}")?,
                Ok(None) => writeln!(out, "none")?,
                Err(LineFault::Bad) => writeln!(out, "bad")?,
                Err(LineFault::Memory) => return Err(io::Error::from(ErrorKind::OutOfMemory)),
            }
        }
    }
    out.flush()
}
