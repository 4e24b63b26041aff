//! Frames from a source.

ghost use Rattle.std.specs.Prelude.{◌≡◌, [], None, ◌+◌, ◌<◌, ◌≤◌, length, vec_len, take, IfOk, IfErr, OnErr, IsTrue};
ghost use Rattle.std.specs.Io.KnownBytes.{prepend_known, Keeps, IsAtEnd};
ghost use Rattle.net_engine.specs.Engine.{known, Sees, Comes, Receives, IsWithinFirst};

use crate::MAX_FRAME;
use dev_io::{Failed, Source};
use net_frames::{Frame, Front, WireError, WireFault, read_front};
use std::alloc::{AllocError, Global};
use std::marker::Model;

/// What comes next from a source.
#[derive(Drop)]
pub enum Inflow {
    /// A frame.
    Frame(Frame),
    /// The source has ended: within a frame or not.
    Closed { inside: bool },
    /// The source has failed. What was read of a frame stays.
    ReadFailed,
    /// The bytes are no frames from here on.
    Bad(WireFault),
}

/// Receives frames from a source. The room for a frame's bytes is reserved as it is made.
#[derive(Drop)]
pub struct Inbound<S: Source> {
    source: S,
    buffer: Vec<u8>,
    filled: usize,
    fault: Option<WireFault>,
    alloc: Global,
}

impl<S: Source> Model for Inbound<S> {
    ghost use Rattle.std.specs.Prelude.{◌≡◌, ◌≤◌, take, vec_len};
    ghost use Rattle.net_engine.specs.Engine.{Receiver, IsWithinFirst};

    ghost Value = { Receiver S };

    ghost view = { λ inbound. record { source = inbound.source; held = take inbound.filled inbound.buffer.items; fault = inbound.fault; room = vec_len inbound.buffer } };

    ghost invariant = { λ inbound. (vec_len inbound.buffer ≡ 65540) × (inbound.filled ≤ 65540)
        × IsWithinFirst (take inbound.filled inbound.buffer.items) };
}

// Reads at most `missing` bytes after the `filled` that are there, and returns how many.
fn read_more<S: Source>(
    source: &mut S,
    buffer: &mut [u8],
    filled: usize,
    missing: usize,
) -> Result<usize, Failed>
    requires { filled + missing ≤ length buffer.old }
    ensures within { IfOk result (λ count. count ≤ missing) }
    ensures front { take filled buffer.new ≡ take filled buffer.old }
    ensures bytes { IfOk result (λ count. Keeps
        (known S.remaining (take filled buffer.old) source.old)
        (known S.remaining (take (filled + count) buffer.new) source.new)) }
    ensures end { IfOk result (λ count. count ≡ 0 → 0 < missing
        → IsAtEnd (S.remaining source.new)) }
    ensures kept { OnErr result (Keeps (S.remaining source.old) (S.remaining source.new)) }
    ensures failed { OnErr result (IsTrue (S.has_failed source.new)) }
{
    match source.read(&mut buffer[filled..filled + missing]) {
        Ok(count) => Ok(count),
        Err(Failed) => Err(Failed),
    }
}

// What the bytes that were read say: what has come, or how many more bytes of a frame are missing.
#[derive(Drop)]
enum Look {
    Come { inflow: Inflow },
    Missing { count: usize },
}

fn look_at(alloc: Global, held: &[u8]) -> Result<Look, AllocError>
    requires { IsWithinFirst held.now }
    ensures { IfOk result (λ look. Sees held.now look) }
{
    match read_front(alloc, held) {
        Ok(Front::Whole { frame, .. }) => Ok(Look::Come {
            inflow: Inflow::Frame(frame),
        }),
        Ok(Front::Missing { count }) => Ok(Look::Missing { count }),
        Err(WireError::Fault(fault)) => Ok(Look::Come {
            inflow: Inflow::Bad(fault),
        }),
        Err(WireError::Memory) => Err(AllocError),
    }
}

// Reads on until a frame is whole, or nothing more comes.
fn fill<S: Source>(
    alloc: Global,
    source: &mut S,
    buffer: &mut [u8],
    filled: &mut usize,
) -> Result<Inflow, AllocError>
    requires room { length buffer.old ≡ MAX_FRAME }
    requires within { filled.old ≤ MAX_FRAME }
    requires first { IsWithinFirst (take filled.old buffer.old) }
    ensures within { filled.new ≤ MAX_FRAME }
    ensures first { IsWithinFirst (take filled.new buffer.new) }
    ensures kept { Keeps (known S.remaining (take filled.old buffer.old) source.old)
        (known S.remaining (take filled.new buffer.new) source.new) }
    ensures comes { Comes S.remaining S.has_failed result (take filled.new buffer.new) source.new }
{
    loop {
        let (held, _) = buffer.split_at(*filled);
        let look = look_at(alloc, held)?;
        let missing = match look {
            Look::Come { inflow } => return Ok(inflow),
            Look::Missing { count } => count,
        };
        let Ok(count) = read_more(source, buffer, *filled, missing) else {
            return Ok(Inflow::ReadFailed);
        };
        if count == 0 {
            let inside = *filled > 0;
            return Ok(Inflow::Closed { inside });
        }
        *filled += count;
    }
}

// Room for the longest frame.
fn room_for_a_frame(alloc: Global) -> Result<Vec<u8>, AllocError>
    ensures { IfOk result (λ room. vec_len room ≡ MAX_FRAME) }
{
    vec![in alloc; 0; MAX_FRAME]
}

impl<S: Source + Drop> Inbound<S> {
    /// Returns a receiver from the source. It reserves the room for a frame of any kind; if it is
    /// out of memory, the source is dropped.
    pub fn new(alloc: Global, source: S) -> Result<Inbound<S>, AllocError>
        ensures { IfOk result (λ inbound. inbound
            ≡ record { source = source; held = []; fault = None; room = MAX_FRAME }) }
    {
        Ok(Inbound {
            buffer: room_for_a_frame(alloc)?,
            source,
            filled: 0,
            fault: None,
            alloc,
        })
    }
}

impl<S: Source> Inbound<S> {
    /// Returns what comes next. A frame takes exactly its bytes off the stream. After `Bad` each
    /// call answers it. If memory runs out, no byte that was read is lost: the next call goes on
    /// from there.
    pub fn next(&mut self) -> Result<Inflow, AllocError>
        ensures next { Receives S.remaining S.has_failed self.old result self.new }
        ensures room { self.new.room ≡ self.old.room }
    {
        if let Some(fault) = self.fault {
            return Ok(Inflow::Bad(fault));
        }
        let inflow = fill(
            self.alloc,
            &mut self.source,
            &mut self.buffer,
            &mut self.filled,
        )?;
        match inflow {
            Inflow::Frame(_) => self.filled = 0,
            Inflow::Bad(fault) => self.fault = Some(fault),
            Inflow::Closed { .. } | Inflow::ReadFailed => {}
        }
        Ok(inflow)
    }
}
