//! What a space does: it is served, or makes one call.

use crate::command::no_memory;
use sp_board::Served;
use sp_serve::{
    Bound, Called, Caller, Host, OneCall, OpenGate, Plan, Station, call_on, open, serve_on,
};
use sp_serve_words::{Aim, CallRequest, ServeRequest};
use sp_texts::{Status, write_text};
use sp_world::CoreFault;
use std::alloc::{AllocError, Global};
use std::io::{BufRead, Write};

/// Runs a space for what it is asked for. `methods` make the objects that are to be bound. Returns the status.
pub(crate) fn run_space<
    R: Host,
    S: Served + Drop + Send,
    I: BufRead,
    O: Write + Send + Drop,
    E: Write,
>(rt: &R, aim: &Aim<'_>, methods: &[String], space: S, input: &mut I, mut out: O, err: &mut E) -> u8
where
    S::Apart: Send,
{
    match aim {
        Aim::Serve(request) => serve_space(rt, request, methods, space, input, out, err),
        Aim::Call(request) => call_once(rt, request, space, &mut out, err),
    }
}

// Serves a space at the address that is asked for.
fn serve_space<R: Host, S: Served + Drop + Send, I: BufRead, O: Write + Send + Drop, E: Write>(
    rt: &R,
    request: &ServeRequest<'_>,
    methods: &[String],
    space: S,
    input: &mut I,
    mut out: O,
    err: &mut E,
) -> u8
where
    S::Apart: Send,
{
    let Ok(plan) = plan_of(rt.alloc(), request, methods) else {
        return no_memory(&mut out, err);
    };
    match open(rt, request.listen) {
        Ok(listener) => {
            let station = Station::new(rt.alloc(), listener, space, plan, OpenGate, out);
            serve_on(rt, &station, input, err)
        }
        Err(_) => {
            let _ = writeln!(err, "error: cannot listen at {}", request.listen);
            Status::Failed.code()
        }
    }
}

// What the space is served with.
fn plan_of(
    alloc: Global,
    request: &ServeRequest<'_>,
    methods: &[String],
) -> Result<Plan, AllocError> {
    let mut bound = Vec::new(alloc);
    for ((name, class), method) in request.bound.iter().zip(methods) {
        bound.push(Bound {
            name: String::from_str(alloc, name)?,
            class: String::from_str(alloc, class)?,
            method: String::from_str(alloc, method)?,
        })?;
    }
    Ok(Plan {
        bound,
        peers: request.peers.to_vec(alloc)?,
        workers: request.workers,
        fuel: request.fuel,
    })
}

// Makes the call that is asked for, and tells how it ended.
fn call_once<R: Host, S: Served + Drop + Send, O: Write, E: Write>(
    rt: &R,
    request: &CallRequest<'_>,
    space: S,
    out: &mut O,
    err: &mut E,
) -> u8
where
    S::Apart: Send,
{
    let alloc = rt.alloc();
    let Ok(call) = call_of(alloc, request) else {
        return no_memory(out, err);
    };
    match Caller::new(alloc, space, request.peer, call) {
        Ok(caller) => tell(call_on(rt, &caller), out, err),
        Err(AllocError) => no_memory(out, err),
    }
}

fn call_of(alloc: Global, request: &CallRequest<'_>) -> Result<OneCall, AllocError> {
    let mut arguments = Vec::new(alloc);
    for word in &request.arguments {
        arguments.push(String::from_str(alloc, word)?)?;
    }
    Ok(OneCall {
        name: String::from_str(alloc, request.name)?,
        class: String::from_str(alloc, request.class)?,
        method: String::from_str(alloc, request.method)?,
        arguments,
        fuel: request.fuel,
    })
}

// Tells how a call ended. Returns the status.
fn tell<O: Write, E: Write>(called: Called, out: &mut O, err: &mut E) -> u8 {
    match called {
        Called::Ended(line, has_returned) => {
            let status = if has_returned {
                Status::Done
            } else {
                Status::Ended
            };
            write_text(status, &line, out, err).code()
        }
        Called::Refused(CoreFault::Start(fault)) => {
            let _ = writeln!(err, "refused start: {} {fault}", fault as u8);
            Status::Failed.code()
        }
        Called::Refused(fault) => {
            let _ = writeln!(err, "refused: {fault}");
            Status::Failed.code()
        }
        Called::Memory => no_memory(out, err),
    }
}
