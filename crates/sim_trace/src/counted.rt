//! What was counted, as lines.

use crate::escaping::put_plain;
use sim_happenings::{KINDS, ScriptRecord, SpaceCounts};
use std::alloc::{AllocError, Global};

/// Returns a line for each space: `stats S events=E instructions=I made=M withdrawn=W frames=F`, and after it `KIND=N` for each kind of
/// frame that it sent.
pub fn put_counts(alloc: Global, record: &ScriptRecord) -> Result<String, AllocError> {
    let mut out = String::new(alloc);
    for (name, counts) in record.names().iter().zip(record.counts()) {
        put_space(&mut out, name, counts)?;
    }
    Ok(out)
}

fn put_space(out: &mut String, name: &str, counts: &SpaceCounts) -> Result<(), AllocError> {
    out.push_str("stats ")?;
    put_plain(out, name)?;
    let (events, instructions) = (counts.events, counts.instructions);
    let (made, withdrawn, frames) = (counts.made(), counts.withdrawn, counts.all_frames());
    write!(
        out,
        " events={events} instructions={instructions} made={made} withdrawn={withdrawn} frames={frames}"
    )?;
    for kind in KINDS {
        let sent = counts.frames(kind);
        if sent > 0 {
            write!(out, " {kind}={sent}")?;
        }
    }
    out.push('\n')
}
