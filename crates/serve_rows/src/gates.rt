//! Gates that hold workers back.

use sp_serve::Gate;
use std::sync::Wait;
use std::sync::atomic::{AtomicU64, Ordering};
use std::thread::sleep;
use std::time::{Clock, Duration};

// How often a worker is held back, for a millisecond each, before it is let go on.
const TURNS: u64 = 10_000;

/// Holds a task back before its first slice until another has ended.
#[derive(Drop)]
pub struct Holding<'a, R> {
    pub rt: &'a R,
    pub held: u64,
    pub first: u64,
    /// Is 1 once the other has ended.
    pub ended: &'a AtomicU64,
    /// Is 1 if the task was let go on before.
    pub gave_up: &'a AtomicU64,
}

impl<'a, R: Wait + Clock> Gate for Holding<'a, R> {
    fn before_slice(&self, task: u64, turn: u64) -> bool {
        if task != self.held || self.ended.load(Ordering::SeqCst) == 1 {
            return true;
        }
        if turn >= TURNS {
            self.gave_up.store(1, Ordering::SeqCst);
            return true;
        }
        sleep(self.rt, Duration::from_millis(1));
        false
    }

    fn after_end(&self, task: u64) {
        if task == self.first {
            self.ended.store(1, Ordering::SeqCst);
        }
    }
}
