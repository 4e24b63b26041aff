//! Reads class files and their parts as the rows on the standard input say, and prints what is read; and what
//! devices give and take, and digests of files. So a further test case is a row.
//!
//! | A row | What it prints |
//! |---|---|
//! | an empty one, or `# TEXT` | itself |
//! | `keep BYTES` | nothing: `kept` stands for these bytes from here on |
//! | `pool BYTES` | what each index of the constant pool names, up to 255 and the last, where the pool ends, and whether its entries go together |
//! | `layout BYTES` | the items of the class file with their positions, and what stands in attributes of fields, of methods and of code |
//! | `class BYTES` | the class that is read |
//! | `load STEP FAIL BYTES` | the class that comes of a source of the bytes that gives at most STEP a call, and fails at call FAIL, if that is not 0; or its fault, also by number and name |
//! | `fail BYTES` | how many calls of a source that gives a byte a call lose the class if they fail |
//! | `part FROM LENGTH BYTES` | these bytes as a row and as a text, and the position after them |
//! | `between FROM TO BYTES` | the bytes that stand there |
//! | `types TEXT` | the types that a descriptor names |
//! | `code BYTES` | each instruction of the code after its offset, or the rule that is broken and where |
//! | `text BYTES` | whether the bytes are modified UTF-8 |
//! | `name TEXT` | whether the text, or none, is a name, one of a method, and one of a class |
//! | `descriptor TEXT` | whether the text, or none, is the descriptor of a field or of a method |
//! | `dimensions N` | the same of an array of ints of N dimensions |
//! | `digest NAME WORD NAME WORD` | the digest of two class files of these classes |
//! | `source STEP FAIL LENGTHS WORD` | what a source of the bytes answers to reads of these lengths, whether it has failed, and the buffers |
//! | `reader LENGTHS WORD` | the same of a source over a reader of the bytes |
//! | `faulty-reader LENGTHS` | the same over a reader that is interrupted, gives two bytes and then has an error |
//! | `sink ROOM STEP FAIL WORD ..` | what a sink of that room answers to each word, whether it has failed, and what it holds |
//! | `writer WORD ..` | the same of a sink over a writer |
//! | `faulty-writer WORD ..` | the same over a writer that is interrupted, takes two bytes and then has an error |
//! | `stuck-writer WORD ..` | the same over a writer that takes nothing |
//!
//! BYTES are words: hex digits, `sum` for the class of examples/sum, `kept`, `N*WORD` for N times the one byte
//! of that word, `WORD/N` for its first N bytes, and `-` for no bytes. LENGTHS are parted by commas. A row that
//! is none of these is printed after `bad row: `.
#![tactic(auto)]

use stage::KeptBytes;
use std::io;
use std::io::{BufReader, BufWriter};
use test_rows::play_rows;

mod classes;
mod devices;
mod digests;
mod faulty;
mod layouts;
mod pools;
mod spelling;
mod stage;
mod texts;

fn main(rt: HostRuntime) -> io::Result<()> {
    let alloc = rt.alloc();
    let input = BufReader::new(alloc, rt.reader())?;
    let out = BufWriter::new(alloc, io::writer(&rt))?;
    play_rows(alloc, KeptBytes::new(alloc), input, out)
}
