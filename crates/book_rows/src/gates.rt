//! Gates of workers.

use sp_workers::Gate;
use std::sync::Wait;
use std::sync::atomic::{AtomicU64, Ordering};
use std::thread::sleep;
use std::time::{Clock, Duration};

// How often a task is held back, for a millisecond each, before it is let go on.
const TURNS: u64 = 10_000;

/// Lets workers run until so many tasks have ended.
#[derive(Drop)]
pub struct Until {
    pub count: u64,
    /// How many have ended. It rises in one step, so that of two that end at once both are counted, and one that ends
    /// after the last is one more.
    pub ended: AtomicU64,
}

impl Gate for Until {
    fn before_slice(&self, _task: u64, _turn: u64) -> bool {
        true
    }

    fn after_end(&self, _task: u64) {
        self.ended.fetch_add(1, Ordering::SeqCst);
    }

    fn stop(&self) -> bool {
        self.ended.load(Ordering::SeqCst) >= self.count
    }
}

/// Holds task 1 back before its first slice until task 2 has ended, and stops workers once both have.
#[derive(Drop)]
pub struct Holding<'a, R> {
    pub rt: &'a R,
    /// Is 1 once task 1 has ended.
    pub first: AtomicU64,
    /// Is 1 once task 2 has ended.
    pub second: AtomicU64,
    /// Is 1 if task 1 was let go on before.
    pub gave_up: AtomicU64,
}

impl<'a, R: Wait + Clock> Gate for Holding<'a, R> {
    fn before_slice(&self, task: u64, turn: u64) -> bool {
        if task != 1 || self.second.load(Ordering::SeqCst) == 1 {
            return true;
        }
        if turn >= TURNS {
            self.gave_up.store(1, Ordering::SeqCst);
            return true;
        }
        sleep(self.rt, Duration::from_millis(1));
        false
    }

    fn after_end(&self, task: u64) {
        if task == 1 {
            self.first.store(1, Ordering::SeqCst);
        } else {
            self.second.store(1, Ordering::SeqCst);
        }
    }

    fn stop(&self) -> bool {
        self.first.load(Ordering::SeqCst) == 1 && self.second.load(Ordering::SeqCst) == 1
    }
}

/// Lets workers run until it is turned off.
#[derive(Drop)]
pub struct Switch {
    /// Is 1 once it is turned off.
    pub is_off: AtomicU64,
}

impl Switch {
    pub fn turn_off(&self) {
        self.is_off.store(1, Ordering::SeqCst);
    }
}

impl Gate for Switch {
    fn before_slice(&self, _task: u64, _turn: u64) -> bool {
        true
    }

    fn after_end(&self, _task: u64) {}

    fn stop(&self) -> bool {
        self.is_off.load(Ordering::SeqCst) == 1
    }
}
