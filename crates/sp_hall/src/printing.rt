//! The thread that prints.

use crate::Gate;
use crate::hall::Hall;
use sp_board::{Fault, Served};
use sp_links::Host;
use std::io::Write;
use std::sync::Mutex;

/// Prints the lines that are told, as they are told, until serving stops and all are printed. A pipe that is full
/// stops this thread alone.
pub(crate) fn print_all<R: Host, S: Served + Drop, G: Gate, O: Write>(
    rt: &R,
    hall: &Hall<S, G>,
    out: &Mutex<O>,
) {
    for _ in rt.forever() {
        let guard = hall.board.lock(rt);
        let mut guard = hall.print.wait_while(rt, guard, |board| {
            !board.has_text() && !board.is_stopped
        });
        let text = guard.take_text();
        drop(guard);
        if text.is_empty() {
            return;
        }
        let mut out = out.lock(rt);
        if out.write_all(&text).is_err() || out.flush().is_err() {
            hall.fail(rt, Fault::Output);
            return;
        }
    }
}
