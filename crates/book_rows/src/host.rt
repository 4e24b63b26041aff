//! What playing asks of its runtime.

use std::rt::{Env, Files};
use std::sync::Wait;
use std::thread::Threads;
use std::time::Clock;

/// What playing asks of its runtime: threads, locks, a clock, arguments and files.
pub trait Host: Threads + Wait + Clock + Env + Files + AllocGlobal + Sync + Clone + Drop {}

impl<R> Host for R
where
    R: Threads + Wait + Clock + Env + Files + AllocGlobal + Sync + Clone + Drop,
{}
