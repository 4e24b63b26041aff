//! The clock of a served space.

use crate::Gate;
use crate::hall::Hall;
use sp_board::Served;
use sp_links::Host;
use sp_world::Event;
use std::sync::CondvarTimeouts;
use std::time::{Duration, Instant};

/// Lets a moment pass, sweeps, and ends silent connections, each second, until serving stops.
pub(crate) fn tick<R: Host, S: Served + Drop, G: Gate>(rt: &R, hall: &Hall<S, G>) {
    let Ok(start) = Instant::now(rt) else {
        return;
    };
    for _ in rt.forever() {
        let guard = hall.board.lock(rt);
        let (guard, _) = hall.tick.wait_timeout_while(
            rt,
            guard,
            Duration::from_secs(1),
            |board| !board.is_stopped,
        );
        let is_stopped = guard.is_stopped;
        drop(guard);
        if is_stopped {
            return;
        }
        if let Ok(passed) = start.elapsed(rt) {
            let _ = hall.on(rt, &Event::Moment(milliseconds(passed)));
        }
        let _ = hall.on(rt, &Event::Sweep);
        end_silent(rt, hall);
    }
}

// Ends the connections on which nothing has come for too long.
fn end_silent<R: Host, S: Served + Drop, G: Gate>(rt: &R, hall: &Hall<S, G>) {
    let guard = hall.board.lock(rt);
    let links = guard.links.all();
    drop(guard);
    let Ok(links) = links else {
        return;
    };
    for link in links {
        if link.pass_second(rt) && link.end(rt) {
            let _ = hall.on(rt, &Event::ReadFailed { conn: link.conn });
        }
    }
}

// How many milliseconds have passed.
fn milliseconds(passed: Duration) -> u64 {
    let seconds = passed.as_secs().saturating_mul(1000);
    seconds.saturating_add(u64::from(passed.subsec_millis()))
}
