//! Why a space refuses an event.

ghost use Rattle.std.specs.Prelude.{◌≡◌};
ghost use Rattle.sp_events.specs.declared.fault.CoreFault.TheVariants.{Memory};

use std::alloc::AllocError;
use thiserror::Error;

/// Why no task starts at a method, as the class set says.
#[derive(Clone, Copy, Debug, PartialEq, Eq, Error)]
pub enum StartFault {
    /// There is no such method that a task may start at.
    #[error("AbsentMethod")]
    AbsentMethod = 85,
    /// Its signature does not cross.
    #[error("BadSignature")]
    BadSignature = 86,
    /// An argument is missing, or does not fit.
    #[error("BadArgument")]
    BadArgument = 87,
}

/// Why an event is refused. It has then changed nothing.
#[derive(Clone, Copy, Debug, PartialEq, Eq, Error)]
pub enum CoreFault {
    /// 85 to 87: no task starts at the method with these arguments.
    #[error("{0}")]
    Start(StartFault),
    /// 90: no result of this task is held.
    #[error("UnknownTask")]
    UnknownTask,
    /// 91: a task that is not lent, or whose record is not that of the history.
    #[error("NotLent")]
    NotLent,
    /// 92: a reference that the task does not hold; of a root one that is neither of a standing own
    /// object nor held with a lease.
    #[error("NotHeld")]
    NotHeld,
    /// 93: a class, field or value that does not fit; a task that does not stand at what the call is for;
    /// fuel over the limit.
    #[error("WrongKind")]
    WrongKind,
    /// 94: an event of no open connection, an Opened of an open one, a dialled Opened or a Refused that no
    /// Dial asked for, a lookup whose peer is the space itself.
    #[error("Strange")]
    Strange,
    /// 98: a moment from 2^63 on, or any event once a number has come to that.
    #[error("WornOut")]
    WornOut,
    /// 99: too many tasks live.
    #[error("Busy")]
    Busy,
    /// Memory ran out.
    #[error("Memory")]
    Memory,
}

impl From<AllocError> for CoreFault {
    ghost from_gives = { λ _ fault. fault ≡ Memory };

    fn from(_: AllocError) -> CoreFault {
        CoreFault::Memory
    }
}
