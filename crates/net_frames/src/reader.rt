//! Reading a stream of frames that comes in pieces.

ghost use Rattle.std.specs.Prelude.{◌≡◌, IfOk, IfErr, List, ℕ};
ghost use Rattle.net_frames.specs.Stream.{IsNext, IsSplit};

use crate::front::{Front, read_front};
use bytes::BytesMut;
use net_message::{Frame, WireError, WireFault};
use std::alloc::{AllocError, Global};
use std::marker::Model;

/// Reads frames from the pieces of a stream. It holds the bytes of the frame that has begun, fewer
/// than 65,540, or the fault that ended the stream, and then answers that fault for good.
#[derive(Drop)]
pub struct FrameReader {
    buffer: BytesMut,
    fault: Option<WireFault>,
    alloc: Global,
}

impl Model for FrameReader {
    ghost use Rattle.net_frames.specs.Stream.{Held, held};

    ghost Value = { Held };

    ghost view = { λ reader. held reader.buffer.items reader.fault };
}

// What comes next in some bytes: a frame, or no more, with the fault that is there.
#[derive(Drop)]
enum Next {
    Frame { frame: Frame, length: usize },
    End { fault: Option<WireFault> },
}

fn next_of(alloc: Global, bytes: &[u8]) -> Result<Next, AllocError>
    ensures { IfOk result (λ next. IsNext bytes.now next) }
{
    match read_front(alloc, bytes) {
        Ok(Front::Whole { frame, length }) => Ok(Next::Frame { frame, length }),
        Ok(Front::Missing { .. }) => Ok(Next::End { fault: None }),
        Err(WireError::Fault(fault)) => Ok(Next::End { fault: Some(fault) }),
        Err(WireError::Memory) => Err(AllocError),
    }
}

// The frames of some bytes, how many bytes they take, and the fault after them, if one is there.
#[derive(Drop)]
struct Split {
    frames: Vec<Frame>,
    taken: usize,
    fault: Option<WireFault>,
}

impl Split {
    ghost use Rattle.net_frames.specs.Stream.{StopsAtOnce, Tells, held};

    // The frames, or if there are none the fault after them.
    fn answer(self) -> Result<Vec<Frame>, WireError>
        ensures frames { IfOk result (λ frames. frames ≡ self.frames) }
        ensures goes_on { IfOk result (λ frames. (bytes : List ℕ)
            → ¬ (StopsAtOnce frames.items (held bytes self.fault))) }
        ensures fault { IfErr result (λ error. Tells self.frames.items self.fault error) }
    {
        match self.fault {
            Some(fault) if self.frames.is_empty() => Err(WireError::Fault(fault)),
            _ => Ok(self.frames),
        }
    }
}

fn split_off_frames(alloc: Global, bytes: &[u8]) -> Result<Split, AllocError>
    ensures { IfOk result (λ split. IsSplit bytes.now split.frames.items split.taken split.fault) }
{
    let mut frames = Vec::new(alloc);
    let mut taken = 0;
    loop {
        let (_, rest) = bytes.split_at(taken);
        let next = next_of(alloc, rest)?;
        match next {
            Next::Frame { frame, length } => {
                frames.push(frame)?;
                taken += length;
            }
            Next::End { fault } => {
                return Ok(Split {
                    frames,
                    taken,
                    fault,
                });
            }
        }
    }
}

impl FrameReader {
    ghost use Rattle.std.specs.Prelude.{[]};
    ghost use Rattle.net_frames.specs.Stream.{Rest, Feeds, Refuses};

    /// Returns a reader at the beginning of a stream. It takes no memory.
    pub fn new(alloc: Global) -> FrameReader
        ensures { result ≡ Rest [] }
    {
        FrameReader {
            buffer: BytesMut::new(alloc),
            fault: None,
            alloc,
        }
    }

    /// Returns the frames that the next piece of the stream completes. If a fault stands after
    /// them, the next call answers it; if there are none, this call does, and so does each later
    /// one. If memory runs out, the piece counts as not fed.
    pub fn feed(&mut self, piece: &[u8]) -> Result<Vec<Frame>, WireError>
        ensures frames { IfOk result (λ frames. Feeds self.old piece.now frames.items self.new) }
        ensures error { IfErr result (λ error. Refuses self.old piece.now error self.new) }
    {
        if let Some(fault) = self.fault {
            return Err(WireError::Fault(fault));
        }
        let before = self.buffer.len();
        self.buffer.extend_from_slice(piece)?;
        let Ok(split) = split_off_frames(self.alloc, self.buffer.as_slice()) else {
            self.buffer.truncate(before);
            return Err(WireError::Memory);
        };
        self.buffer.advance(split.taken);
        self.fault = split.fault;
        split.answer()
    }
}
