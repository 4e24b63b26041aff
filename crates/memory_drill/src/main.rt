//! Plays calls that take memory, of each layer, while one allocation of the process fails, and says
//! whether each answer was the right one.
//!
//! A call may be out of memory instead of any answer, and then changes nothing: so the drill makes
//! that call again, which now owes its answer. `.ci/fail-alloc` runs the program once for each
//! allocation, and refuses that one.
#![tactic(auto)]

use std::alloc::{AllocError, Global};
use std::process::ExitCode;
use tally::Tally;

mod path;
mod records;
mod remote;
mod tally;
mod wire;
mod worlds;

fn main(rt: HostRuntime) -> ExitCode {
    // The drill's own allocations are made again too.
    let tally = match played(rt.alloc()) {
        Ok(tally) => Ok(tally),
        Err(AllocError) => played(rt.alloc()),
    };
    let told = match tally {
        Ok(tally) => println!(rt;
            "right {} wrong {} wants {}",
            tally.right, tally.wrong, tally.wants
        ),
        Err(AllocError) => println!(rt; "no memory twice"),
    };
    match told {
        Ok(()) => ExitCode::SUCCESS,
        Err(_) => ExitCode::FAILURE,
    }
}

fn played(alloc: Global) -> Result<Tally, AllocError> {
    let mut tally = Tally::default();
    path::play(alloc, &mut tally)?;
    wire::play(alloc, &mut tally)?;
    records::play(alloc, &mut tally)?;
    worlds::play(alloc, &mut tally)?;
    Ok(tally)
}
