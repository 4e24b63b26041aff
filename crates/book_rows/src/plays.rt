//! What is played on books.

ghost use Rattle.std.specs.Prelude.{◌≡◌};

use crate::gates::Holding;
use crate::standing::{Standing, gather_all};
use crate::told::{failed, put_all, put_answer};
use sp_book::{Book, Input, Lender, Naming, Pass};
use sp_events::Event;
use sp_workers::work;
use space_ids::{Row, Value};
use std::alloc::Global;
use std::io::Write;
use std::sync::Wait;
use std::sync::atomic::{AtomicU64, Ordering};
use std::thread::Threads;
use std::time::Clock;
use std::{io, thread};

// The fuel of roots.
const FUEL: u64 = 1_000;

/// A moment of the space's clock.
pub fn moment(at: u64) -> Input {
    Input::Event(Event::Moment(at))
}

/// A root of a method.
pub fn root(method: u32, arguments: Vec<Value>) -> Input {
    Input::Root {
        method,
        arguments: Row::new(arguments),
        fuel: FUEL,
    }
}

/// Enters an input, and prints what comes of it.
pub fn enter<N: Naming, S: Lender + Drop, R: Wait, W: Write>(
    rt: &R,
    alloc: Global,
    book: &Book<N, S>,
    pass: &mut Pass<N>,
    input: Input,
    out: &mut W,
) -> io::Result<()> {
    put_answer(out, book.on(rt, alloc, pass, input))
}

/// Enters a root of a method without arguments, and prints what comes of it.
pub fn start<N: Naming, S: Lender + Drop, R: Wait, W: Write>(
    rt: &R,
    alloc: Global,
    book: &Book<N, S>,
    pass: &mut Pass<N>,
    method: u32,
    out: &mut W,
) -> io::Result<()> {
    enter(rt, alloc, book, pass, root(method, Vec::new(alloc)), out)
}

/// A book of three entries: three moments are taken, and the fourth finds it full. Returns its two passes.
pub fn fill<N: Naming, S: Lender + Drop, R: Wait, W: Write>(
    rt: &R,
    alloc: Global,
    book: &Book<N, S>,
    out: &mut W,
) -> io::Result<(Pass<N>, Pass<N>)> {
    let (Some(mut one), Some(mut other)) = (book.pass(rt, alloc), book.pass(rt, alloc)) else {
        return Err(failed());
    };
    enter(rt, alloc, book, &mut one, moment(1), out)?;
    enter(rt, alloc, book, &mut other, moment(2), out)?;
    enter(rt, alloc, book, &mut one, moment(3), out)?;
    enter(rt, alloc, book, &mut other, moment(4), out)?;
    writeln!(out, "calls {} and {}", one.calls(), other.calls())?;
    Ok((one, other))
}

/// Takes a book apart with one pass, which cannot be, and then with both.
pub fn gather_late<N: Naming, S: Standing + Drop, W: Write>(
    alloc: Global,
    book: Book<N, S>,
    one: Pass<N>,
    other: Pass<N>,
    out: &mut W,
) -> io::Result<()>
    requires { N.all ≡ N.parts }
{
    let mut passes = Vec::new(alloc);
    passes.push(one)?;
    match book.gather(passes) {
        Ok(_) => Err(failed()),
        Err((stray, book, mut passes)) => {
            writeln!(out, "{stray}")?;
            passes.push(other)?;
            gather_all(book, passes, out)
        }
    }
}

/// A queue with room for one notice, and two tasks: the notice of the second waits, and goes first at the next call.
pub fn queue<N: Naming, S: Lender + Drop, R: Wait, W: Write>(
    rt: &R,
    alloc: Global,
    book: &Book<N, S>,
    make: u32,
    out: &mut W,
) -> io::Result<()> {
    let Some(mut pass) = book.pass(rt, alloc) else {
        return Err(failed());
    };
    start(rt, alloc, book, &mut pass, make, out)?;
    start(rt, alloc, book, &mut pass, make, out)?;
    writeln!(out, "next {:?}", book.next(rt, &mut pass))?;
    writeln!(out, "next {:?}", book.next(rt, &mut pass))?;
    enter(rt, alloc, book, &mut pass, moment(1), out)?;
    writeln!(out, "next {:?}", book.next(rt, &mut pass))
}

/// Two workers, and two tasks, of which the first is held back until the second has ended.
pub fn hold<
    N: Naming + Send + Sync,
    S: Lender + Drop + Send,
    R: Wait + Threads + Clock + Sync,
    W: Write,
>(rt: &R, alloc: Global, book: &Book<N, S>, make: u32, out: &mut W) -> io::Result<()>
where
    S::Task: Send,
    S::Rest: Send,
    S::Base: Send,
{
    let (Some(mut pass), Some(one), Some(other)) = (
        book.pass(rt, alloc),
        book.pass(rt, alloc),
        book.pass(rt, alloc),
    ) else {
        return Err(failed());
    };
    start(rt, alloc, book, &mut pass, make, out)?;
    start(rt, alloc, book, &mut pass, make, out)?;
    let gate = Holding {
        rt,
        first: AtomicU64::new(0),
        second: AtomicU64::new(0),
        gave_up: AtomicU64::new(0),
    };
    let gate = &gate;
    let (one, other) = thread::join(
        rt,
        move || work(rt, alloc, book, one, gate),
        move || work(rt, alloc, book, other, gate),
    );
    let calls = one.calls().saturating_add(other.calls());
    let held = gate.gave_up.load(Ordering::SeqCst) == 0;
    writeln!(out, "two workers made {calls} calls, held: {held}")?;
    put_all(out, book.outputs(rt, alloc)?)
}
