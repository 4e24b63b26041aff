//! Why bytes are no frames, or a frame has no bytes.

ghost use Rattle.std.specs.Prelude.{◌≡◌};
ghost use Rattle.net_message.specs.declared.fault.WireError.TheVariants.{Memory};
ghost use Rattle.net_message.specs.FaultNames.{wire_fault_number};

use base_types::Numbered;
use std::alloc::{AllocError, AllocFailed};
use thiserror::Error;

/// A rule of the wire format that is broken. On a stream it is the first one from the left.
#[derive(Clone, Copy, Debug, PartialEq, Eq, Error)]
pub enum WireFault {
    /// A body of no byte, or of more than 65,536.
    #[error("Length")]
    Length = 70,
    /// A body that begins with no known kind.
    #[error("Kind")]
    Kind = 71,
    /// A field that is cut or out of its range.
    #[error("Body")]
    Body = 72,
    /// Bytes of the body that are left after the fields.
    #[error("Trailing")]
    Trailing = 73,
}

impl Numbered for WireFault {
    ghost number = { wire_fault_number };

    fn number(&self) -> u8 {
        *self as u8
    }
}

/// Why a call that takes memory has no answer.
#[derive(Clone, Copy, Debug, PartialEq, Eq, Error)]
pub enum WireError {
    /// A rule of the wire format is broken.
    #[error("{0}")]
    Fault(WireFault),
    /// Memory ran out.
    #[error("Memory")]
    Memory,
}

impl From<AllocError> for WireError {
    ghost from_gives = { λ _ error. error ≡ Memory };

    fn from(_: AllocError) -> WireError {
        WireError::Memory
    }
}

impl<T: Drop> From<AllocFailed<T>> for WireError {
    ghost from_gives = { λ _ error. error ≡ Memory };

    fn from(_: AllocFailed<T>) -> WireError {
        WireError::Memory
    }
}
