//! Many roots by several workers, and how long they take.

use crate::gates::Switch;
use crate::told::failed;
use sp_book::{Book, Input, Lender, Naming, Pass};
use sp_outputs::Output;
use sp_tasks::Outcome;
use sp_workers::work;
use space_ids::{Row, Value};
use std::alloc::Global;
use std::io::Write;
use std::sync::Wait;
use std::sync::atomic::AtomicU64;
use std::thread::{Scope, Threads, sleep};
use std::time::{Clock, Duration, Instant};
use std::{io, thread};

// How many roots live at a time.
const MOST_LIVING: u64 = 2_000;

// The fuel of a root.
const FUEL: u64 = 1 << 40;

/// Roots that workers are to run: each calls a method with one number.
#[derive(Clone, Copy)]
pub struct Load {
    pub method: u32,
    pub turns: i32,
    pub roots: u64,
    pub workers: u64,
}

/// How roots ended.
#[derive(Clone, Copy)]
struct Ends {
    count: u64,
    // What the first one returned.
    first: Option<i32>,
    are_alike: bool,
}

impl Ends {
    fn note_all(&mut self, batches: &[Vec<Output>]) {
        for batch in batches {
            self.note_batch(batch.as_slice());
        }
    }

    fn note_batch(&mut self, outputs: &[Output]) {
        for output in outputs {
            if let Output::Ended(_, outcome) = output {
                self.note(outcome);
            }
        }
    }

    fn note(&mut self, outcome: &Outcome) {
        let number = match outcome {
            Outcome::Returned(Some(Value::Int(number))) => Some(*number),
            _ => None,
        };
        if self.count == 0 {
            self.first = number;
        }
        if number.is_none() || number != self.first {
            self.are_alike = false;
        }
        self.count = self.count.saturating_add(1);
    }
}

/// Runs roots by workers, each on a thread of its own, and prints the seconds that it takes, and whether all roots
/// ended alike.
pub fn run_load<
    N: Naming + Send + Sync,
    S: Lender + Drop + Send,
    R: Wait + Threads + Clock + Sync,
    W: Write,
>(rt: &R, alloc: Global, book: &Book<N, S>, load: Load, out: &mut W) -> io::Result<()>
where
    S::Task: Send,
    S::Rest: Send,
    S::Base: Send,
{
    let switch = Switch {
        is_off: AtomicU64::new(0),
    };
    let gate = &switch;
    let begun = Instant::now(rt)?;
    let ends = thread::scope(thread::scope_env(), rt, |scope| {
        let ends = start_and_feed(rt, alloc, scope, book, gate, load);
        gate.turn_off();
        book.ring();
        ends
    })?;
    let took = begun.elapsed(rt)?;
    let alike = if ends.are_alike { "alike" } else { "not alike" };
    let (seconds, micros) = (took.as_secs(), took.subsec_micros());
    let Load { roots, workers, .. } = load;
    writeln!(
        out,
        "{roots} roots by {workers} workers: {seconds}.{micros:06} s, {alike}: {:?}",
        ends.first
    )
}

// Starts the workers, and enters all roots. Returns how they ended.
fn start_and_feed<
    's,
    E,
    N: Naming + Send + Sync,
    S: Lender + Drop + Send,
    R: Wait + Threads + Clock + Sync,
>(
    rt: &'s R,
    alloc: Global,
    scope: &'s Scope<'s, E>,
    book: &'s Book<N, S>,
    gate: &'s Switch,
    load: Load,
) -> io::Result<Ends>
where
    S::Task: Send,
    S::Rest: Send,
    S::Base: Send,
{
    for _ in 0..load.workers {
        let Some(pass) = book.pass(rt, alloc) else {
            return Err(failed());
        };
        let started = scope.spawn(move || drop(work(rt, alloc, book, pass, gate)));
        if started.is_err() {
            return Err(failed());
        }
    }
    feed(rt, alloc, book, load)
}

// Enters roots until all have ended, and returns how they did.
fn feed<N: Naming, S: Lender + Drop, R: Wait + Clock>(
    rt: &R,
    alloc: Global,
    book: &Book<N, S>,
    load: Load,
) -> io::Result<Ends> {
    let Some(mut pass) = book.pass(rt, alloc) else {
        return Err(failed());
    };
    let mut ends = Ends {
        count: 0,
        first: None,
        are_alike: true,
    };
    let mut entered: u64 = 0;
    for _ in rt.forever() {
        if ends.count >= load.roots {
            break;
        }
        let before = ends.count;
        let most = load.roots.min(before.saturating_add(MOST_LIVING));
        enter_up_to(rt, alloc, book, &mut pass, load, entered, most)?;
        entered = most;
        ends.note_all(book.outputs(rt, alloc)?.as_slice());
        if ends.count == before {
            sleep(rt, Duration::from_millis(1));
        }
    }
    Ok(ends)
}

// Enters roots, of which so many were entered before, until they are so many.
fn enter_up_to<N: Naming, S: Lender + Drop, R: Wait>(
    rt: &R,
    alloc: Global,
    book: &Book<N, S>,
    pass: &mut Pass<N>,
    load: Load,
    entered: u64,
    most: u64,
) -> io::Result<()> {
    for _ in entered..most {
        let mut arguments = Vec::new(alloc);
        arguments.push(Value::Int(load.turns))?;
        let root = Input::Root {
            method: load.method,
            arguments: Row::new(arguments),
            fuel: FUEL,
        };
        if book.on(rt, alloc, pass, root).is_err() {
            return Err(failed());
        }
    }
    Ok(())
}
