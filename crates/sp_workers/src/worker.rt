//! What a worker does.

ghost use Rattle.std.specs.Prelude.{◌≡◌, true, IfOk};
ghost use Rattle.sp_book.specs.Passes.{has};
ghost use Rattle.sp_workers.specs.Going.{GoesOn};

use crate::gate::{Gate, may_go_on};
use sp_book::{Book, BookFault, Lender, Lent, Naming, Pass, Pause, Twice, Unlent};
use sp_tasks::Op;
use std::alloc::Global;
use std::sync::Wait;

// How many instructions a slice has at most: so many that what a slice costs beside them, where the gate is asked and
// the machine is moved, is little.
const SLICE: u64 = 65_536;

// What a worker does once a task is no more in hand.
#[derive(Clone, Copy)]
enum Next {
    GoOn,
    Stop,
}

/// Takes notices and runs their tasks, until the gate says stop or the book is full. It sleeps while there
/// is no notice. A task that is in hand then is given back, and so is one for which memory ran out. It hands
/// the pass back, with the calls that it made and the notices that it took behind those of before.
pub fn work<N: Naming, S: Lender + Drop, G: Gate, R: Wait>(
    rt: &R,
    alloc: Global,
    book: &Book<N, S>,
    mut pass: Pass<N>,
    gate: &G,
) -> Pass<N>
    ensures { GoesOn pass result }
{
    for _ in rt.forever() {
        if !turn(rt, alloc, book, &mut pass, gate) {
            break;
        }
    }
    book.ring();
    pass
}

// Runs the task of one notice, and answers whether the worker goes on.
fn turn<N: Naming, S: Lender + Drop, G: Gate, R: Wait>(
    rt: &R,
    alloc: Global,
    book: &Book<N, S>,
    pass: &mut Pass<N>,
    gate: &G,
) -> bool
    ensures { GoesOn pass.old pass.new }
{
    if gate.stop() {
        return false;
    }
    let Some(task) = next_task(rt, book, pass, gate) else {
        return true;
    };
    match book.lend(rt, pass, task) {
        Ok(lent) => run(rt, alloc, book, pass, gate, lent),
        Err(why) => !matches!(why, Unlent::BookFull),
    }
}

// The oldest notice. If there is none, it sleeps until one comes or the bell is rung, and then answers none.
fn next_task<N: Naming, S: Lender + Drop, G: Gate, R: Wait>(
    rt: &R,
    book: &Book<N, S>,
    pass: &mut Pass<N>,
    gate: &G,
) -> Option<u64>
    ensures { GoesOn pass.old pass.new }
{
    let key = book.watch();
    if let Some(task) = book.next(rt, pass) {
        return Some(task);
    }
    if !gate.stop() {
        key.wait(rt);
    }
    None
}

// Runs a task as far as it goes, and answers whether the worker goes on.
fn run<N: Naming, S: Lender + Drop, G: Gate, R: Wait>(
    rt: &R,
    alloc: Global,
    book: &Book<N, S>,
    pass: &mut Pass<N>,
    gate: &G,
    mut lent: Lent<N, S>,
) -> bool
    requires { has lent.id pass.old.hand ≡ true }
    ensures { GoesOn pass.old pass.new }
{
    for _ in rt.forever() {
        match slice(rt, alloc, book, pass, gate, lent) {
            Ok(next) => lent = next,
            Err(next) => return matches!(next, Next::GoOn),
        }
    }
    unreachable!()
}

// One slice of a task, and what it asks.
fn slice<N: Naming, S: Lender + Drop, G: Gate, R: Wait>(
    rt: &R,
    alloc: Global,
    book: &Book<N, S>,
    pass: &mut Pass<N>,
    gate: &G,
    mut lent: Lent<N, S>,
) -> Result<Lent<N, S>, Next>
    requires { has lent.id pass.old.hand ≡ true }
    ensures hand { IfOk result (λ next. has next.id pass.new.hand ≡ true) }
    ensures pass { GoesOn pass.old pass.new }
{
    if !may_go_on(gate, lent.id()) {
        give_back(rt, book, pass, lent);
        return Err(Next::Stop);
    }
    match lent.run(SLICE) {
        Pause::Turn => Ok(lent),
        Pause::Asks(op) => ask(rt, alloc, book, pass, lent, op),
        Pause::Ended => finish(rt, book, pass, gate, lent),
        Pause::Memory => {
            give_back(rt, book, pass, lent);
            Err(Next::GoOn)
        }
    }
}

// Does what a task asks of its store, or lets it wait for the reply to its call.
fn ask<N: Naming, S: Lender + Drop, R: Wait>(
    rt: &R,
    alloc: Global,
    book: &Book<N, S>,
    pass: &mut Pass<N>,
    mut lent: Lent<N, S>,
    op: Op,
) -> Result<Lent<N, S>, Next>
    requires { has lent.id pass.old.hand ≡ true }
    ensures hand { IfOk result (λ next. has next.id pass.new.hand ≡ true) }
    ensures pass { GoesOn pass.old pass.new }
{
    let is_call = matches!(op, Op::Call { .. });
    let Ok(op) = Twice::new(alloc, op) else {
        give_back(rt, book, pass, lent);
        return Err(Next::GoOn);
    };
    if is_call {
        return match book.park(rt, pass, lent, op) {
            Ok(()) => Err(Next::GoOn),
            Err((lent, fault)) => {
                give_back(rt, book, pass, lent);
                Err(after(fault))
            }
        };
    }
    match book.commit(rt, pass, &mut lent, op) {
        Ok(()) => Ok(lent),
        Err(fault) => {
            give_back(rt, book, pass, lent);
            Err(after(fault))
        }
    }
}

// Lets a task go that has ended.
fn finish<N: Naming, S: Lender + Drop, G: Gate, R: Wait>(
    rt: &R,
    book: &Book<N, S>,
    pass: &mut Pass<N>,
    gate: &G,
    lent: Lent<N, S>,
) -> Result<Lent<N, S>, Next>
    requires { has lent.id pass.old.hand ≡ true }
    ensures hand { IfOk result (λ next. has next.id pass.new.hand ≡ true) }
    ensures pass { GoesOn pass.old pass.new }
{
    let task = lent.id();
    match book.finish(rt, pass, lent) {
        Ok(()) => {
            gate.after_end(task);
            Err(Next::GoOn)
        }
        Err((lent, fault)) => {
            give_back(rt, book, pass, lent);
            Err(after(fault))
        }
    }
}

// Gives a task back, which may go on.
fn give_back<N: Naming, S: Lender + Drop, R: Wait>(
    rt: &R,
    book: &Book<N, S>,
    pass: &mut Pass<N>,
    lent: Lent<N, S>,
)
    requires { has lent.id pass.old.hand ≡ true }
    ensures { GoesOn pass.old pass.new }
{
    let _ = book.give_back(rt, pass, lent);
}

// After a task was given back that was refused for this: at want of memory a worker goes on with others.
fn after(fault: BookFault) -> Next {
    match fault {
        BookFault::Memory => Next::GoOn,
        BookFault::BookFull | BookFault::InHand(_) | BookFault::Core(_) => Next::Stop,
    }
}
