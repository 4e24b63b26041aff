//! Why a command, or a script, is not played.

use sim_script::LineFault;
use sp_promises::Interrupted;
use sp_world::CoreFault;
use std::alloc::{AllocError, AllocFailed};
use std::io;

/// Why a command is not played.
#[derive(Clone, Copy, PartialEq, Eq)]
pub enum PlayFault {
    /// It names what is not there, or the space refuses its root or look-up.
    Bad,
    /// Memory ran out.
    Memory,
}

impl From<AllocError> for PlayFault {
    fn from(_: AllocError) -> PlayFault {
        PlayFault::Memory
    }
}

impl<T: Drop> From<AllocFailed<T>> for PlayFault {
    fn from(_: AllocFailed<T>) -> PlayFault {
        PlayFault::Memory
    }
}

impl From<Interrupted> for PlayFault {
    fn from(_: Interrupted) -> PlayFault {
        PlayFault::Memory
    }
}

// A writer in memory fails only if it has no room.
impl From<io::Error> for PlayFault {
    fn from(_: io::Error) -> PlayFault {
        PlayFault::Memory
    }
}

impl From<LineFault> for PlayFault {
    fn from(fault: LineFault) -> PlayFault {
        match fault {
            LineFault::Bad => PlayFault::Bad,
            LineFault::Memory => PlayFault::Memory,
        }
    }
}

impl PlayFault {
    /// Why a root that the space refuses is not played, if the line is bad for it: no task starts at its
    /// method with its arguments, a reference is of no standing object or has no lease, its fuel is over the
    /// limit, or too many tasks live.
    pub fn of_root(fault: CoreFault) -> Option<PlayFault> {
        match fault {
            CoreFault::Start(_) | CoreFault::NotHeld | CoreFault::WrongKind | CoreFault::Busy => {
                Some(PlayFault::Bad)
            }
            CoreFault::Memory => Some(PlayFault::Memory),
            CoreFault::UnknownTask | CoreFault::NotLent | CoreFault::Strange | CoreFault::WornOut =>
                None,
        }
    }

    /// Why a look-up that the space refuses is not played, if the line is bad for it: its peer is the space
    /// itself.
    pub fn of_lookup(fault: CoreFault) -> Option<PlayFault> {
        match fault {
            CoreFault::Strange => Some(PlayFault::Bad),
            CoreFault::Memory => Some(PlayFault::Memory),
            _ => None,
        }
    }
}

/// Why a script is not played to its end.
#[derive(Clone, Copy, PartialEq, Eq)]
pub enum ScriptFault {
    /// The line of this number, from 1, is bad.
    BadLine(usize),
    /// Memory ran out.
    Memory,
}

impl From<AllocError> for ScriptFault {
    fn from(_: AllocError) -> ScriptFault {
        ScriptFault::Memory
    }
}
