//! Plays events and calls of lent tasks over cores of spaces, as the rows on the standard input say, and
//! prints what the core answered to each. So a further test case is a row.
//!
//! | A row | What it does |
//! |---|---|
//! | an empty one, or `# TEXT` | nothing |
//! | `core ID FUEL` | begins a new core of this id, without objects and tasks; its tasks start with at most this fuel |
//! | `moment MS`, `sweep`, `ack TASK` | an event |
//! | `bind NAME VALUE`, `rebind NAME VALUE`, `unbind NAME` | an event; a name of no byte is `-` |
//! | `root METHOD FUEL VALUE ..` | a root |
//! | `roots N METHOD FUEL` | the same root N times; the last answer counts |
//! | `refused 85 METHOD FUEL`, also 86 and 87 | a root at which the class set starts no task |
//! | `lend TASK` | takes a task in hand |
//! | `ran TASK N` | the machine of the task in hand made N instructions |
//! | `create TASK CLASS`, `get TASK OBJECT SLOT`, `put TASK OBJECT SLOT VALUE` | the task in hand asks for this |
//! | `creates TASK N CLASS` | it asks N times; the last answer counts |
//! | `commit TASK ASKED at STOOD` | the core is told to do this for the task in hand, which stands there: each an operation as above without its task, the second may be `runs` |
//! | `return TASK [VALUE]`, `throw TASK CLASS`, `spend TASK` | the task in hand has ended so |
//! | `give TASK` | gives back the task in hand |
//! | `park TASK`, `finish TASK` | parks or finishes the task in hand, which runs |
//! | `object INDEX`, `ready` | what the core shows |
//!
//! A value is `null`, an int, or a reference `SPACE:OBJECT:CLASS`. A task in hand stays there when another
//! core begins. The class 7 is remote, with a field of ints in slot 0 and one of references in slot 1;
//! 9 is java.lang.OutOfMemoryError. Each row is printed, and below it the answer; a row that is none of
//! these, or of a task that is not in hand, is printed after `bad row: `.
#![tactic(auto)]

use stage::CoreStage;
use std::io;
use std::io::{BufReader, BufWriter};
use test_rows::play_rows;

mod calls;
mod classes;
mod parts;
mod row;
mod stage;

fn main(rt: HostRuntime) -> io::Result<()> {
    let alloc = rt.alloc();
    let input = BufReader::new(alloc, rt.reader())?;
    let out = BufWriter::new(alloc, io::writer(&rt))?;
    play_rows(alloc, CoreStage::new(alloc)?, input, out)
}
