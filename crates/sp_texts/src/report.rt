//! What the program says in the end.

ghost use Rattle.std.specs.Prelude.{IfErr, OnOk};
ghost use Rattle.std.specs.Io.KnownBytes.{Appends};
ghost use Rattle.sp_texts.specs.Reports.{IsCutOff, IsTold, LeavesOther};

use crate::Status;
use dev_io::{Failed, write_part};
use std::io::Write;

/// A text, which is complete before its first byte is written, and the status with which the
/// program then ends. Answers (`Done`, `Ended`) are for standard output, faults (`Refused`,
/// `Failed`) for standard error.
#[derive(Debug, Drop)]
pub struct Report {
    pub text: Vec<u8>,
    pub status: Status,
}

impl Report {
    /// Writes the text to its output, leaves the other alone, and returns the status. If that
    /// output fails, the status is `Failed`, and the output has taken a front part of the text and
    /// not all of it.
    pub fn write<O: Write, E: Write>(&self, out: &mut O, err: &mut E) -> Status
        ensures other { LeavesOther self.now.status (O.contents out.old) (O.contents out.new) (E.contents err.old) (E.contents err.new) }
        ensures told { IsTold self.now.status self.now.text.items result (O.contents out.old) (O.contents out.new) (E.contents err.old) (E.contents err.new) }
    {
        write_text(self.status, &self.text, out, err)
    }
}

/// Writes a text to the output of a status, leaves the other alone, and returns that status, or `Failed` if the
/// output fails: it has taken a front part of the text then, and not all of it.
pub fn write_text<O: Write, E: Write>(
    status: Status,
    text: &[u8],
    out: &mut O,
    err: &mut E,
) -> Status
    ensures other { LeavesOther status (O.contents out.old) (O.contents out.new) (E.contents err.old) (E.contents err.new) }
    ensures told { IsTold status text.now result (O.contents out.old) (O.contents out.new) (E.contents err.old) (E.contents err.new) }
{
    let written = match status {
        Status::Done | Status::Ended => write_whole(out, text),
        Status::Refused | Status::Failed => write_whole(err, text),
    };
    match written {
        Ok(()) => status,
        Err(_) => Status::Failed,
    }
}

// The writer is not flushed: that is left to its owner.
fn write_whole<W: Write>(to: &mut W, text: &[u8]) -> Result<(), Failed>
    ensures whole { OnOk result (Appends (W.contents to.old) (W.contents to.new) text.now) }
    ensures cut { IfErr result (λ _. IsCutOff (W.contents to.old) (W.contents to.new) text.now) }
{
    let mut taken = 0;
    while taken < text.len() {
        let (_, rest) = text.split_at(taken);
        taken += write_part(to, rest)?;
    }
    Ok(())
}
