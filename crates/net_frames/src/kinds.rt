//! The kinds of frames, by number.

ghost use Rattle.std.specs.Prelude.{◌≡◌};
ghost use Rattle.net_frames.specs.Reading.{Gives, kind_at};

use net_message::{WireError, WireFault};

/// The kind of a frame, by the first byte of its body.
#[derive(Clone, Copy)]
pub(crate) enum FrameKind {
    Hello = 1,
    Call = 2,
    Returned = 3,
    Threw = 4,
    Spent = 5,
    Ack = 6,
    Dirty = 7,
    Lease = 8,
    Clean = 9,
    Cleaned = 10,
    Lookup = 11,
}

pub(crate) fn kind_of(bytes: &[u8]) -> Result<(FrameKind, &[u8]), WireError>
    ensures { Gives (λ x. (x.0, x.1.now)) result (kind_at bytes.now) }
{
    let [first, rest @ ..] = bytes else {
        return Err(WireError::Fault(WireFault::Kind));
    };
    let kind = match *first {
        1 => FrameKind::Hello,
        2 => FrameKind::Call,
        3 => FrameKind::Returned,
        4 => FrameKind::Threw,
        5 => FrameKind::Spent,
        6 => FrameKind::Ack,
        7 => FrameKind::Dirty,
        8 => FrameKind::Lease,
        9 => FrameKind::Clean,
        10 => FrameKind::Cleaned,
        11 => FrameKind::Lookup,
        _ => return Err(WireError::Fault(WireFault::Kind)),
    };
    Ok((kind, rest))
}
