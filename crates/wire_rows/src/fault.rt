//! Bytes of rows that are no frame.

use net_frames::{WireError, WireFault};
use test_rows::RowFault;

/// Returns the fault of a row whose bytes break a rule of the wire.
pub fn no_frame(_: WireFault) -> RowFault {
    RowFault::Bad
}

/// Returns the fault of a row whose bytes are no frame, or for which memory ran out.
pub fn of_wire(error: WireError) -> RowFault {
    match error {
        WireError::Fault(_) => RowFault::Bad,
        WireError::Memory => RowFault::Memory,
    }
}
