//! Runs tasks, and fills heaps and lists of references, as the rows on the standard input say, and prints what
//! became of each. So a further test case is a row.
//!
//! | A row | What it prints |
//! |---|---|
//! | an empty one, or `# TEXT` | itself |
//! | `sizes` | how many bytes a word and a token take |
//! | `word N` | the int of a copy of the word of the int N |
//! | `heap WORDS` | nothing: begins a heap of this many words |
//! | `object CLASS KIND,..` | the address of a new object of the heap, with fields of these kinds, `int` or `reference` |
//! | `ints COUNT` | the address of a new array of the heap |
//! | `references LIMIT` | nothing: begins a list of references |
//! | `hold REFERENCE` | what the word of this reference stands for, and how many there are |
//! | `argument [TEXT]` | the value that the text, which may have spaces, spells as an argument |
//! | `faults` | the number and the name of each reason not to start |
//! | `sum` | nothing: begins the program of the class of examples/sum |
//! | `class INTERFACE DESCRIPTOR MAX_STACK MAX_LOCALS CODE` | nothing: begins the program of a class T with the static method f, whose code is in hex digits |
//! | `number NAME` | the number of a class of the program |
//! | `limits HEAP STACK REFERENCES FUEL` | nothing: the tasks that follow have these limits |
//! | `turns N METHOD ARGUMENT ..` | how often a new task turns in pieces of N instructions, 100 at most, and how it stands then |
//! | `pieces N,.. METHOD ARGUMENT ..` | how a new task stands, and what each piece of N instructions came to |
//!
//! A METHOD is the descriptor of `f` of the class T, or the number of a method. An ARGUMENT is as on the command
//! line, or a reference `SPACE:OBJECT:CLASS`; the task's own space is 0. Each row is printed, and below it the
//! answer; a row that is none of these, or that names what is not there, is printed after `bad row: `.
#![tactic(auto)]

use stage::Made;
use std::io;
use std::io::{BufReader, BufWriter};
use test_rows::play_rows;

mod memory;
mod programs;
mod spelling;
mod stage;
mod tasks;

fn main(rt: HostRuntime) -> io::Result<()> {
    let alloc = rt.alloc();
    let input = BufReader::new(alloc, rt.reader())?;
    let out = BufWriter::new(alloc, io::writer(&rt))?;
    play_rows(alloc, Made::new(alloc), input, out)
}
