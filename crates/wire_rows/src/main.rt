//! Reads and sends frames of the wire as the rows on the standard input say, and prints what came of
//! each. So a further test case is a line.
//!
//! | A row | What it prints |
//! |---|---|
//! | an empty one, or `# TEXT` | itself |
//! | `read BYTES` | the frames of the bytes and the fault after them, fed whole, byte by byte, and in pieces of 7 and 1,000 bytes |
//! | `receive STEP FAIL BYTES` | what comes of a source of the bytes that gives at most STEP a call, and fails at call FAIL, if that is not 0 |
//! | `send ROOM STEP FAIL BYTES` | what a sink of that room takes of the frame of these bytes |
//! | `cut BYTES` | how many beginnings of the bytes, of which a frame does not come, end inside one |
//! | `fail BYTES` | how many calls of a source that gives a byte a call, and of a sink that takes one, lose the frame if they fail |
//! | `make hello VERSION`, `make call LENGTH ..`, `make returned LENGTH`, `make dirty N`, `make clean N`, `make lookup LENGTH` | the length of the body of a frame of these parts, and how many bytes it has; LENGTH is that of an array or a name, N a number of objects, and an argument may be `null` |
//!
//! BYTES are words in hex digits; `N*WORD` stands for N times that word. A row that is none of these is
//! printed after `bad row: `.
#![tactic(auto)]

use row::Frames;
use std::io;
use std::io::{BufReader, BufWriter};
use test_rows::play_rows;

mod devices;
mod fault;
mod making;
mod reading;
mod row;

fn main(rt: HostRuntime) -> io::Result<()> {
    let alloc = rt.alloc();
    let input = BufReader::new(alloc, rt.reader())?;
    let out = BufWriter::new(alloc, io::writer(&rt))?;
    play_rows(alloc, Frames { alloc }, input, out)
}
