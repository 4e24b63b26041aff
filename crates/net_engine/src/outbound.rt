//! Frames into a sink.

ghost use Rattle.std.specs.Prelude.{◌≡◌, ◌<◌, ◌≤◌, length, take, IfOk, IfErr, OnOk, IsTrue};
ghost use Rattle.std.specs.Io.KnownBytes.{Appends};
ghost use Rattle.net_message.specs.Wire as wire;
ghost use Rattle.net_message.specs.Wire.{body};

use crate::MAX_FRAME;
use bytes::BytesMut;
use dev_io::{Cut, Sink, write_all};
use net_frames::Frame;
use std::alloc::{AllocError, Global};
use std::marker::Model;
use thiserror::Error;

/// The sink failed in the middle of a frame, of which the first `sent` bytes went out.
#[derive(Clone, Copy, Debug, PartialEq, Eq, Error)]
#[error("the frame was cut after {sent} bytes")]
pub struct WriteFailed {
    pub sent: usize,
}

/// Sends frames into a sink. The room for a frame's bytes is reserved as it is made, so that sending
/// takes no memory.
#[derive(Drop)]
pub struct Outbound<K: Sink> {
    sink: K,
    buffer: BytesMut,
}

impl<K: Sink> Model for Outbound<K> {
    ghost use Rattle.std.specs.Prelude.{◌+◌, ◌≤◌, length};
    ghost use Rattle.net_engine.specs.Engine.{Sender};

    ghost Value = { Sender K };

    ghost view = { λ outbound. record { sink = outbound.sink; room = length outbound.buffer.items + outbound.buffer.spare } };

    ghost invariant = { λ outbound. 65540 ≤ length outbound.buffer.items + outbound.buffer.spare };
}

impl<K: Sink + Drop> Outbound<K> {
    /// Returns a sender into the sink. It reserves the room for a frame of any kind; if it is out
    /// of memory, the sink is dropped.
    pub fn new(alloc: Global, sink: K) -> Result<Outbound<K>, AllocError>
        ensures sink { IfOk result (λ outbound. outbound.sink ≡ sink) }
        ensures room { IfOk result (λ outbound. MAX_FRAME ≤ outbound.room) }
    {
        Ok(Outbound {
            buffer: BytesMut::with_capacity(alloc, MAX_FRAME)?,
            sink,
        })
    }
}

impl<K: Sink> Outbound<K> {
    /// Returns the sink.
    pub fn sink(&self) -> &K
        ensures { result.now ≡ self.now.sink }
    {
        &self.sink
    }

    /// Sends the frame, whose body has at most 65,536 bytes (`Frame::body_len`): all of its bytes,
    /// or the first `sent` of them if the sink fails. It takes no memory.
    pub fn send(&mut self, frame: &Frame) -> Result<(), WriteFailed>
        requires { length (body frame.now) ≤ 65536 }
        ensures all { OnOk result (Appends (K.contents self.old.sink) (K.contents self.new.sink)
            (wire.frame frame.now)) }
        ensures cut { IfErr result (λ error. error.sent < length (wire.frame frame.now)) }
        ensures part { IfErr result (λ error. Appends (K.contents self.old.sink)
            (K.contents self.new.sink) (take error.sent (wire.frame frame.now))) }
        ensures failed { IfErr result (λ _. IsTrue (K.has_failed self.new.sink)) }
        ensures room { MAX_FRAME ≤ self.new.room }
    {
        self.buffer.clear();
        frame.append_to(&mut self.buffer);
        match write_all(&mut self.sink, self.buffer.as_slice()) {
            Ok(()) => Ok(()),
            Err(Cut { taken }) => Err(WriteFailed { sent: taken }),
        }
    }
}
