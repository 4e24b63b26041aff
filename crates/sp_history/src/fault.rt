//! Why calls of a book are refused.

ghost use Rattle.std.specs.Prelude.{◌≡◌};
ghost use Rattle.sp_history.specs.Faults.{book_fault};

use sp_events::CoreFault;
use thiserror::Error;

/// Why a call of a book is refused. It has then changed nothing.
#[derive(Clone, Copy, Debug, PartialEq, Eq, Error)]
pub enum BookFault {
    /// The space refuses it.
    #[error("{0}")]
    Core(CoreFault),
    /// 95: the entries and the tasks in hand are as many as the book takes.
    #[error("BookFull")]
    BookFull,
    /// 96: while this many tasks are in hand, no entries are cut.
    #[error("InHand({0})")]
    InHand(u64),
    /// Memory ran out.
    #[error("Memory")]
    Memory,
}

/// Why a task is not lent.
#[derive(Clone, Copy, Debug, PartialEq, Eq)]
pub enum Unlent {
    /// It does not live, waits for a reply, or is lent.
    NotReady,
    /// The book is full. A notice of the task waits.
    BookFull,
    /// Memory ran out. A notice of the task waits.
    Memory,
}

impl BookFault {
    // Why a call is refused that the space refuses.
    pub(crate) fn of(fault: CoreFault) -> BookFault
        ensures { result ≡ book_fault fault }
    {
        match fault {
            CoreFault::Memory => BookFault::Memory,
            fault => BookFault::Core(fault),
        }
    }
}
