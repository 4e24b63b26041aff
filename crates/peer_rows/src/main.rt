//! Plays a peer that writes its frames by hand: bytes come on the connections of a core, as the rows on the standard
//! input say, and each frame, each end and each fault among them is an event. Other events and lent tasks come
//! between them, and what the core answered is printed. So a further lie of a peer is a row.
//!
//! | A row | What it does |
//! |---|---|
//! | an empty one, or `# TEXT` | nothing |
//! | `core ID FUEL` | begins a new core of this id, whose class files have a digest of 32 zeros; its tasks start with at most this fuel |
//! | `open CONN`, `open CONN PEER` | a peer made this connection, or this peer that was dialled took it |
//! | `refused PEER` | this peer that was dialled could not be reached |
//! | `hand CONN STEP BYTES` | these bytes come after the earlier ones of the connection, at most STEP a read |
//! | `end CONN STEP BYTES` | the same, and then the end of the connection |
//! | `fail CONN STEP CALL BYTES` | the same, but of the reads of all bytes of the connection this one fails |
//! | `broken CONN UNSENT` | a write fails, and so many of the last frames were not sent whole |
//! | `moment MS`, `sweep`, `ack TASK`, `bind NAME VALUE`, `unbind NAME`, `lookup PEER NAME` | an event |
//! | `root METHOD FUEL VALUE ..` | a root |
//! | `lend TASK` | takes a task in hand |
//! | `create TASK CLASS`, `put TASK OBJECT SLOT VALUE` | the task in hand asks for this, and gets it |
//! | `call TASK FUEL TARGET METHOD VALUE ..` | the task in hand waits for a call, and has this fuel before it |
//! | `return TASK FUEL [VALUE]`, `throw TASK FUEL CLASS`, `spend TASK` | the task in hand has ended so, with this fuel |
//! | `object INDEX`, `ready` | what the core shows |
//!
//! BYTES are words in hex digits; `N*WORD` stands for N times that word. A value is `null`, an int, or a reference
//! `SPACE:OBJECT:CLASS`. The classes and methods of all spaces are those of [`RowClasses`](classes::RowClasses).
//! Each row is printed, and below it what came and what the core answered to that; a row that is none of these, or of
//! a connection or a task that is not there, is printed after `bad row: `.
#![tactic(auto)]

use stage::PeerStage;
use std::io;
use std::io::{BufReader, BufWriter};
use test_rows::play_rows;

mod arriving;
mod calls;
mod classes;
mod device;
mod parts;
mod row;
mod showing;
mod stage;
mod tasks;

fn main(rt: HostRuntime) -> io::Result<()> {
    let alloc = rt.alloc();
    let input = BufReader::new(alloc, rt.reader())?;
    let out = BufWriter::new(alloc, io::writer(&rt))?;
    play_rows(alloc, PeerStage::new(alloc)?, input, out)
}
