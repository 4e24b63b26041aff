//! Workers, which run the tasks that may go on.

use crate::Gate;
use crate::hall::Hall;
use sp_board::{Advance, Served};
use sp_links::Host;

// How many instructions a task makes at most apart from its space before who runs it looks at the space again.
const MOST_APART: u64 = 65_536;

// How often a worker lets a task compute before others come to their turn.
const ROUNDS: usize = 4;

/// Runs tasks that may go on, for a while each in turn, until serving stops.
pub(crate) fn work<R: Host, S: Served + Drop, G: Gate>(rt: &R, hall: &Hall<S, G>) {
    for _ in rt.forever() {
        let Some(task) = next_task(rt, hall) else {
            return;
        };
        for turn in 0..u64::MAX {
            if hall.gate.before_slice(task, turn) {
                break;
            }
        }
        if run_task(rt, hall, task, ROUNDS) {
            hall.gate.after_end(task);
        }
    }
}

// The task that has waited longest to go on, once there is one. None at the stop.
fn next_task<R: Host, S: Served + Drop, G: Gate>(rt: &R, hall: &Hall<S, G>) -> Option<u64> {
    let guard = hall.board.lock(rt);
    let mut guard = hall.work.wait_while(rt, guard, |board| {
        board.ready.is_empty() && !board.is_stopped
    });
    if guard.is_stopped {
        return None;
    }
    guard.ready.pop_front()
}

/// Runs a task for a while: it computes so many times at most. Returns whether it has come to where it may not go on.
pub(crate) fn run_task<R: Host, S: Served + Drop, G: Gate>(
    rt: &R,
    hall: &Hall<S, G>,
    task: u64,
    rounds: usize,
) -> bool {
    for _ in 0..rounds {
        match advance(rt, hall, task) {
            Advance::Rests => return true,
            Advance::Waits => return false,
            Advance::Computes(apart) => compute(rt, hall, apart),
        }
    }
    wait_for_turn(rt, hall, task);
    false
}

// Lets a task have some turns.
fn advance<R: Host, S: Served + Drop, G: Gate>(
    rt: &R,
    hall: &Hall<S, G>,
    task: u64,
) -> Advance<S::Apart> {
    let mut guard = hall.lock(rt);
    let board = &mut *guard;
    let advanced = board.advance(rt, task);
    let due = board.take_due();
    drop(guard);
    hall.attend(rt, due);
    advanced
}

/// Lets a task compute without the lock, and gives it back to its space.
pub(crate) fn compute<R: Host, S: Served + Drop, G: Gate>(
    rt: &R,
    hall: &Hall<S, G>,
    mut apart: S::Apart,
) {
    let _ = S::compute(&mut apart, MOST_APART);
    hall.lock(rt).space.give_back(apart);
}

// Has a task that may go on wait for its turn, after all others.
fn wait_for_turn<R: Host, S: Served + Drop, G: Gate>(rt: &R, hall: &Hall<S, G>, task: u64) {
    let mut guard = hall.board.lock(rt);
    let board = &mut *guard;
    board.put_back(task);
    let due = board.take_due();
    drop(guard);
    hall.attend(rt, due);
}
