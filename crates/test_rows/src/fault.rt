//! Why a row is not played.

use std::alloc::{AllocError, AllocFailed};
use std::io;

/// Why a row is not played.
#[derive(Clone, Copy, Debug)]
pub enum RowFault {
    /// It is no row of its program, or names what is not there.
    Bad,
    /// Memory ran out.
    Memory,
}

impl From<AllocError> for RowFault {
    fn from(_: AllocError) -> RowFault {
        RowFault::Memory
    }
}

impl<T: Drop> From<AllocFailed<T>> for RowFault {
    fn from(_: AllocFailed<T>) -> RowFault {
        RowFault::Memory
    }
}

// A writer in memory fails only if it has no room.
impl From<io::Error> for RowFault {
    fn from(_: io::Error) -> RowFault {
        RowFault::Memory
    }
}
