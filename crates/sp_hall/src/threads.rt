//! The threads round a space.
//!
//! Each start has a function of its own, so that what a thread shares is shown to be fit to share by itself.

use crate::Gate;
use crate::clock::tick;
use crate::connecting::{accept_all, dial_all};
use crate::hall::Hall;
use crate::printing::print_all;
use crate::working::work;
use sp_board::{Fault, Served};
use sp_links::Host;
use std::io::Write;
use std::sync::Mutex;
use std::thread::Scope;

/// Starts the clock's thread. Serving ends for want of memory if it cannot start.
pub fn start_clock<'s, E, R: Host, S: Served + Drop + Send, G: Gate + Drop + Sync>(
    rt: &'s R,
    scope: &'s Scope<'s, E>,
    hall: &'s Hall<S, G>,
)
where
    S::Apart: Send,
{
    let is_started = scope.spawn(move || tick(rt, hall)).is_ok();
    fail_unless(rt, hall, is_started);
}

/// Starts the thread that accepts connections. Serving ends for want of memory if it cannot start.
pub fn start_acceptor<'s, E, R: Host, S: Served + Drop + Send, G: Gate + Drop + Sync>(
    rt: &'s R,
    scope: &'s Scope<'s, E>,
    hall: &'s Hall<S, G>,
)
where
    S::Apart: Send,
{
    let is_started = scope.spawn(move || accept_all(rt, scope, hall)).is_ok();
    fail_unless(rt, hall, is_started);
}

/// Starts the thread that dials. Serving ends for want of memory if it cannot start.
pub fn start_dialler<'s, E, R: Host, S: Served + Drop + Send, G: Gate + Drop + Sync>(
    rt: &'s R,
    scope: &'s Scope<'s, E>,
    hall: &'s Hall<S, G>,
)
where
    S::Apart: Send,
{
    let is_started = scope.spawn(move || dial_all(rt, scope, hall)).is_ok();
    fail_unless(rt, hall, is_started);
}

/// Starts a worker. Serving ends for want of memory if it cannot start.
pub fn start_worker<'s, E, R: Host, S: Served + Drop + Send, G: Gate + Drop + Sync>(
    rt: &'s R,
    scope: &'s Scope<'s, E>,
    hall: &'s Hall<S, G>,
)
where
    S::Apart: Send,
{
    let is_started = scope.spawn(move || work(rt, hall)).is_ok();
    fail_unless(rt, hall, is_started);
}

/// Starts the thread that prints. Serving ends for want of memory if it cannot start.
pub fn start_printer<
    's,
    E,
    R: Host,
    S: Served + Drop + Send,
    G: Gate + Drop + Sync,
    O: Write + Send + Drop,
>(rt: &'s R, scope: &'s Scope<'s, E>, hall: &'s Hall<S, G>, out: &'s Mutex<O>)
where
    S::Apart: Send,
{
    let is_started = scope.spawn(move || print_all(rt, hall, out)).is_ok();
    fail_unless(rt, hall, is_started);
}

// Serving ends for want of memory unless a thread was started.
fn fail_unless<R: Host, S: Served + Drop, G: Gate>(rt: &R, hall: &Hall<S, G>, is_started: bool) {
    if !is_started {
        hall.fail(rt, Fault::Memory);
    }
}
