//! The calls of spaces and of engines, each in a function that promises nothing: so what follows a call is proved
//! without what the call promises.

use dev_io::{MemSink, MemSource};
use net_engine::{Frame, Outbound};
use net_message::Message;
use sim_worlds::{Origin, ScriptSpace};
use sp_events::{CoreFault, Event};
use sp_inflow::{Arrival, Arrivals};
use sp_links::frame_of;
use sp_outputs::Output;
use space_ids::{ClassId, ObjId, Uuid, Value};
use std::alloc::Global;
use test_rows::RowFault;

/// What a space answers. One that refuses what comes is a fault of the play.
pub type Answer = Result<Vec<Output>, RowFault>;

fn refused(fault: CoreFault) -> RowFault {
    match fault {
        CoreFault::Memory => RowFault::Memory,
        _ => RowFault::Bad,
    }
}

pub fn space<S: ScriptSpace, O: Origin<S>>(origin: &O, id: Uuid) -> Result<S, RowFault> {
    Ok(origin.space(id, 1)?)
}

pub fn event<S: ScriptSpace>(space: &mut S, event: &Event) -> Answer {
    space.on(event).map_err(refused)
}

pub fn root<S: ScriptSpace>(space: &mut S, method: u32, arguments: &[Value], fuel: u64) -> Answer {
    space.root(method, arguments, fuel).map_err(refused)
}

pub fn step<S: ScriptSpace>(space: &mut S, task: u64) -> Answer {
    space.step(task).map_err(refused)
}

pub fn ready<S: ScriptSpace>(space: &S) -> Option<u64> {
    space.ready()
}

/// Returns the number of a method of the class Counter.
pub fn method<S: ScriptSpace>(space: &S, method: &str) -> Result<u32, RowFault> {
    space.method("Counter", method).map_err(refused)
}

/// Returns the first object of a space that stands, its class, and how many entries keep it.
pub fn object<S: ScriptSpace>(space: &S) -> Option<(ObjId, ClassId, usize)> {
    let shown = space.object(0)?;
    Some((shown.id, shown.class, shown.entries))
}

/// Returns the name of a class.
pub fn class_name<S: ScriptSpace>(space: &S, class: ClassId) -> &[u8] {
    space.class_name(class)
}

/// Returns what comes of bytes of which at most `step` come a read, and the read `fail` fails, if that is not 0.
pub fn arrivals(
    alloc: Global,
    bytes: &[u8],
    step: usize,
    fail: u64,
) -> Result<Arrivals<MemSource>, RowFault> {
    if step == 0 {
        return Err(RowFault::Bad);
    }
    let mut source = MemSource::new(bytes.to_vec(alloc)?, step);
    if fail > 0 {
        source = source.failing_at(fail);
    }
    Ok(Arrivals::new(alloc, source)?)
}

pub fn next(arrivals: &mut Arrivals<MemSource>) -> Result<Option<Arrival>, RowFault> {
    Ok(arrivals.next()?)
}

/// Returns what sends into a sink that takes at most `step` bytes a write, and whose write `fail` fails, if that is
/// not 0.
pub fn outbound(
    alloc: Global,
    room: usize,
    step: usize,
    fail: u64,
) -> Result<Outbound<MemSink>, RowFault> {
    if step == 0 {
        return Err(RowFault::Bad);
    }
    let mut sink = MemSink::new(alloc, room, step)?;
    if fail > 0 {
        sink = sink.failing_at(fail);
    }
    Ok(Outbound::new(alloc, sink)?)
}

/// Sends what a frame says, and returns whether it went out whole.
pub fn send(outbound: &mut Outbound<MemSink>, message: Message) -> Result<bool, RowFault> {
    match frame_of(message) {
        Ok(frame) => send_frame(outbound, &frame),
        Err(_) => Err(RowFault::Bad),
    }
}

fn send_frame(outbound: &mut Outbound<MemSink>, frame: &Frame) -> Result<bool, RowFault> {
    if frame.body_len() > 65_536 {
        return Err(RowFault::Bad);
    }
    Ok(outbound.send(frame).is_ok())
}

/// Returns the bytes that went out.
pub fn bytes(outbound: &Outbound<MemSink>) -> &[u8] {
    outbound.sink().bytes()
}
