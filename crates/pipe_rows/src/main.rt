//! Plays two spaces whose frames go through pipes in memory, the engine at both ends of each, and lets one read or
//! write after another fail, as the rows on the standard input say.
//!
//! The space A makes an object that counts, and binds it to a name. B looks the name up, and a root of B calls the
//! object. Then A takes the name away and sweeps, B lets go what it has and A sweeps again, a moment of B comes and A
//! sweeps, and last the moments of A at which an entry still stands and at which it is over.
//!
//! | A row | What it does |
//! |---|---|
//! | an empty one, or `# TEXT` | nothing |
//! | `class BYTES` | adds a class file of these bytes, in hex digits |
//! | `whole STEP` | plays over devices that never fail, and give and take at most STEP bytes a call |
//! | `reads SPACE STEP`, `writes SPACE STEP` | plays so once for each read or write that this space makes on the first connection, which fails, up to the first that is not made |
//!
//! Below a row stands how the look-up and the root ended, and what became of the object: how many entries keep it, or
//! that it is gone. `from N to M` says that the plays whose calls N to M failed came to the same.
#![tactic(auto)]

use stage::PipeStage;
use std::io;
use std::io::{BufReader, BufWriter};
use test_rows::play_rows;

mod calls;
mod device;
mod line;
mod pair;
mod pipe;
mod play;
mod program;
mod settling;
mod stage;
mod table;

fn main(rt: HostRuntime) -> io::Result<()> {
    let alloc = rt.alloc();
    let input = BufReader::new(alloc, rt.reader())?;
    let out = BufWriter::new(alloc, io::writer(&rt))?;
    play_rows(alloc, PipeStage::new(alloc), input, out)
}
