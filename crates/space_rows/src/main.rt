//! Plays calls of the parts of a space as the rows on the standard input say: a client's lease, all leases of
//! a client, an owner's reference lists, its names, its objects and the results that it holds. So a further
//! test case is a row.
//!
//! | A row | What it does |
//! |---|---|
//! | an empty one, or `# TEXT` | nothing |
//! | `new` | begins all parts again, of space 1, at moment 0 |
//! | `lease hold`, `lease drop`, `lease moment MS` | a holder of one reference comes or goes; time passes |
//! | `lease dirty N made`, also `sent`, `answered MS` and `failed` | its dirty call N |
//! | `lease clean N made`, also `answered` and `failed` | its clean call N |
//! | `client hold SPACE ID`, `client drop SPACE ID`, `client moment MS` | the same of many references |
//! | `client many N` | holds the objects 0 to N - 1 of space 7 |
//! | `client due` | the groups of calls that are due |
//! | `client settle MS`, `client settle MS N` | makes, sends in parts of 1,024, or of N, and answers all that is due, dirty calls for this period |
//! | `client fail INDEX N` | makes the due group of this index as call N, which fails |
//! | `client renewals MS`, `client lapsed MS`, `client lease SPACE ID`, `client last` | what is asked of them |
//! | `list dirty CLIENT IDS N MS`, `list clean CLIENT IDS N [strong]` | a call of a client |
//! | `list moment MS`, `list forget ID`, `list entries ID`, `list until CLIENT ID`, `list clients ID` | |
//! | `list compare N` | N calls of 100 clients, compared with a plain body |
//! | `name bind NAME OBJECT`, `name rebind NAME OBJECT`, `name unbind NAME`, `name lookup NAME`, `name list`, `name count OBJECT` | |
//! | `object create CLASS VALUE ..`, `object put ID SLOT VALUE`, `object get ID SLOT`, `object at INDEX` | |
//! | `object hold ID`, `object release ID`, `object idle IDS`, `object sweep IDS`, `object count` | |
//! | `result hold TASK VALUE`, `result release TASK`, `result has TASK`, `result own ID` | |
//!
//! A name is its text, `-` for none, or `N*` for N bytes `n`; the object of a name is its id, or `-` for none
//! of its own. IDS are numbers that commas part, or `-` for none. A value is `null`, an int, or a reference
//! `SPACE:OBJECT:CLASS`. Each row is printed, and below it the answer; a row that is none of these is printed
//! after `bad row: `.
#![tactic(auto)]

use stage::Parts;
use std::io;
use std::io::{BufReader, BufWriter};
use test_rows::play_rows;

mod clients;
mod leases;
mod lists;
mod names;
mod objects;
mod parts;
mod plain;
mod results;
mod stage;

fn main(rt: HostRuntime) -> io::Result<()> {
    let alloc = rt.alloc();
    let input = BufReader::new(alloc, rt.reader())?;
    let out = BufWriter::new(alloc, io::writer(&rt))?;
    play_rows(alloc, Parts::new(alloc)?, input, out)
}
