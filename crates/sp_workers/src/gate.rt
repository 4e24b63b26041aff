//! What holds workers up, and stops them.

use std::thread;

/// What holds workers up, and stops them. It is asked without the lock of the book.
pub trait Gate {
    /// Whether a task may make its next slice. It is asked with `turn` rising from 0, until it is so or the
    /// worker is to stop.
    fn before_slice(&self, task: u64, turn: u64) -> bool;

    /// A task has ended.
    fn after_end(&self, task: u64);

    /// Whether workers are to stop. Who makes it so rings the book's bell, for workers that sleep.
    fn stop(&self) -> bool;
}

// Waits until the task may make its next slice, and answers whether it may.
pub(crate) fn may_go_on<G: Gate>(gate: &G, task: u64) -> bool {
    for turn in 0..u64::MAX {
        if gate.stop() {
            return false;
        }
        if gate.before_slice(task, turn) {
            return true;
        }
        thread::yield_now();
    }
    false
}
