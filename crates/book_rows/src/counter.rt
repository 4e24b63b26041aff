//! A counter, from its making to its end.

use crate::gates::Until;
use crate::plays::{enter, root, start};
use crate::told::{failed, put_all};
use sim_spaces::method_of;
use sp_book::{Book, Input, Lender, Naming, Pass};
use sp_events::Event;
use sp_workers::work;
use space_ids::{ObjId, Ref, Row, Uuid, Value};
use std::alloc::Global;
use std::io;
use std::io::Write;
use std::sync::Wait;
use std::sync::atomic::AtomicU64;
use vm_step::Program;

/// What the script of a counter names: the methods that make one and have it count, and the one that is made.
#[derive(Clone, Copy)]
pub struct Counting {
    pub make: u32,
    bump: u32,
    counter: Ref,
}

/// What the script of a counter names, in a space of this id.
pub fn counting_of(alloc: Global, program: &Program, id: Uuid) -> io::Result<Counting> {
    let Some(class) = program.linked().set().number(b"Counter") else {
        return Err(failed());
    };
    let make = method_of(alloc, program, "Counter", "make()LInc;");
    let bump = method_of(alloc, program, "Counter", "bump(LInc;)I");
    let (Ok(make), Ok(bump)) = (make, bump) else {
        return Err(failed());
    };
    let counter = Ref {
        space: id,
        id: ObjId(1),
        class,
    };
    Ok(Counting {
        make,
        bump,
        counter,
    })
}

/// A counter is made and bound, counts three times, and is withdrawn once nothing keeps it: all by one worker. Returns
/// the one pass of the book.
pub fn count<N: Naming, S: Lender + Drop, R: Wait, W: Write>(
    rt: &R,
    alloc: Global,
    book: &Book<N, S>,
    counting: Counting,
    out: &mut W,
) -> io::Result<Vec<Pass<N>>> {
    let Some(mut pass) = book.pass(rt, alloc) else {
        return Err(failed());
    };
    start(rt, alloc, book, &mut pass, counting.make, out)?;
    let mut pass = run(rt, alloc, book, pass, 1, out)?;
    bind(rt, alloc, book, &mut pass, counting.counter, out)?;
    bump_thrice(rt, alloc, book, &mut pass, counting, out)?;
    let mut pass = run(rt, alloc, book, pass, 3, out)?;
    withdraw(rt, alloc, book, &mut pass, out)?;
    put_all(out, book.outputs(rt, alloc)?)?;
    writeln!(out, "calls {}", pass.calls())?;
    let mut passes = Vec::new(alloc);
    passes.push(pass)?;
    Ok(passes)
}

// Runs tasks until so many have ended, and prints what the book answered.
fn run<N: Naming, S: Lender + Drop, R: Wait, W: Write>(
    rt: &R,
    alloc: Global,
    book: &Book<N, S>,
    pass: Pass<N>,
    count: u64,
    out: &mut W,
) -> io::Result<Pass<N>> {
    let gate = Until {
        count,
        ended: AtomicU64::new(0),
    };
    let pass = work(rt, alloc, book, pass, &gate);
    put_all(out, book.outputs(rt, alloc)?)?;
    Ok(pass)
}

fn bind<N: Naming, S: Lender + Drop, R: Wait, W: Write>(
    rt: &R,
    alloc: Global,
    book: &Book<N, S>,
    pass: &mut Pass<N>,
    counter: Ref,
    out: &mut W,
) -> io::Result<()> {
    let bound = Event::Bind {
        name: Row::new(b"counter".to_vec(alloc)?),
        value: Value::Ref(counter),
    };
    enter(rt, alloc, book, pass, Input::Event(bound), out)
}

fn bump_thrice<N: Naming, S: Lender + Drop, R: Wait, W: Write>(
    rt: &R,
    alloc: Global,
    book: &Book<N, S>,
    pass: &mut Pass<N>,
    counting: Counting,
    out: &mut W,
) -> io::Result<()> {
    for _ in 0..3 {
        let mut arguments = Vec::new(alloc);
        arguments.push(Value::Ref(counting.counter))?;
        enter(rt, alloc, book, pass, root(counting.bump, arguments), out)?;
    }
    Ok(())
}

// The name and the result of the root that made it are let go, and a sweep follows.
fn withdraw<N: Naming, S: Lender + Drop, R: Wait, W: Write>(
    rt: &R,
    alloc: Global,
    book: &Book<N, S>,
    pass: &mut Pass<N>,
    out: &mut W,
) -> io::Result<()> {
    let unbound = Event::Unbind {
        name: Row::new(b"counter".to_vec(alloc)?),
    };
    for event in [unbound, Event::RootAck(1), Event::Sweep] {
        enter(rt, alloc, book, pass, Input::Event(event), out)?;
    }
    Ok(())
}
