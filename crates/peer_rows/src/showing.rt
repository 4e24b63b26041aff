//! What comes on connections and what a core answers, as they are printed.

use crate::calls::Answer;
use net_message::Message;
use sp_core::{CoreFault, Output, Shown};
use sp_inflow::Arrival;
use std::io::Write;
use test_rows::RowFault;

/// Prints what came on a connection.
pub fn put_arrival(said: &mut Vec<u8>, arrival: &Arrival) -> Result<(), RowFault> {
    match arrival {
        Arrival::Received(message) => {
            write!(said, "came ")?;
            put_message(said, message)
        }
        Arrival::Closed => put_word(said, "came the end"),
        Arrival::ReadFailed => put_word(said, "came no more: a read failed"),
        Arrival::Bad => put_word(said, "came no frame"),
    }
}

/// Prints a word on a line.
pub fn put_word(said: &mut Vec<u8>, word: &str) -> Result<(), RowFault> {
    writeln!(said, "{word}")?;
    Ok(())
}

/// Prints what a core answered to an event.
pub fn put_answer(said: &mut Vec<u8>, answer: &Answer) -> Result<(), RowFault> {
    match answer {
        Ok(outputs) => put_outputs(said, outputs),
        Err(fault) => put_fault(said, *fault),
    }
}

/// Prints outputs, each on a line, or `done` if there is none.
pub fn put_outputs(said: &mut Vec<u8>, outputs: &[Output]) -> Result<(), RowFault> {
    if outputs.is_empty() {
        put_word(said, "done")?;
    }
    for output in outputs {
        put_output(said, output)?;
    }
    Ok(())
}

/// Prints why a core refused something.
pub fn put_fault(said: &mut Vec<u8>, fault: CoreFault) -> Result<(), RowFault> {
    writeln!(said, "refused: {fault}")?;
    Ok(())
}

/// Prints an object that stands, or `None`.
pub fn put_shown(said: &mut Vec<u8>, shown: &Option<Shown>) -> Result<(), RowFault> {
    match shown {
        Some(
            Shown {
                id,
                class,
                names,
                entries,
            },
        ) => writeln!(
            said,
            "{id:?} of {class:?}, names {names}, entries {entries}"
        )?,
        None => writeln!(said, "None")?,
    }
    Ok(())
}

fn put_output(said: &mut Vec<u8>, output: &Output) -> Result<(), RowFault> {
    match output {
        Output::Started(task) => writeln!(said, "Started({task})")?,
        Output::Ended(task, outcome) => writeln!(said, "Ended({task}, {outcome:?})")?,
        Output::Withdrawn(ids) => writeln!(said, "Withdrawn({ids:?})")?,
        Output::Denied(fault) => writeln!(said, "Denied({fault:?})")?,
        Output::Send { conn, message } => {
            write!(said, "Send {conn} ")?;
            put_message(said, message)?
        }
        Output::Dial(peer) => writeln!(said, "Dial({peer})")?,
        Output::Close(conn) => writeln!(said, "Close({conn})")?,
        Output::Ready(task) => writeln!(said, "Ready({task})")?,
    }
    Ok(())
}

// Prints what a frame says. The digest of a Hello is printed in hex digits.
fn put_message(said: &mut Vec<u8>, message: &Message) -> Result<(), RowFault> {
    match message {
        Message::Hello {
            version,
            space,
            digest,
        } => {
            write!(said, "Hello {version} {space} ")?;
            put_digest(said, digest)
        }
        message => {
            writeln!(said, "{message:?}")?;
            Ok(())
        }
    }
}

fn put_digest(said: &mut Vec<u8>, digest: &[u8]) -> Result<(), RowFault> {
    for byte in digest {
        write!(said, "{byte:02x}")?;
    }
    put_word(said, "")
}
