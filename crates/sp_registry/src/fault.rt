//! Why the registry refuses a change.

ghost use Rattle.std.specs.Prelude.{◌≡◌};
ghost use Rattle.sp_registry.specs.declared.fault.BindFault.TheVariants.{Memory, Denied};
ghost use Rattle.sp_registry.specs.FaultNames.{registry_fault_number};

use base_types::Numbered;
use std::alloc::{AllocError, AllocFailed};
use thiserror::Error;

/// A denial of the registry. Of several that fit, a bad name counts first, then an object that is
/// not its own.
#[derive(Clone, Copy, Debug, PartialEq, Eq, Error)]
pub enum RegistryFault {
    /// The name is bound already.
    #[error("AlreadyBound")]
    AlreadyBound = 80,
    /// The name is not bound.
    #[error("NotBound")]
    NotBound = 81,
    /// The name is not 1 to 255 bytes of ASCII letters, digits, `_` and `.`.
    #[error("BadName")]
    BadName = 82,
    /// The reference is no own standing object.
    #[error("NotOwn")]
    NotOwn = 83,
}

impl Numbered for RegistryFault {
    ghost number = { registry_fault_number };

    fn number(&self) -> u8 {
        *self as u8
    }
}

/// Why a name is not bound. The registry is then as it was.
#[derive(Clone, Copy, Debug, PartialEq, Eq, Error)]
pub enum BindFault {
    /// The registry denies it.
    #[error("{0}")]
    Denied(RegistryFault),
    /// Memory ran out.
    #[error("Memory")]
    Memory,
}

impl From<RegistryFault> for BindFault {
    ghost from_gives = { λ denied fault. fault ≡ Denied denied };

    fn from(fault: RegistryFault) -> BindFault {
        BindFault::Denied(fault)
    }
}

impl From<AllocError> for BindFault {
    ghost from_gives = { λ _ fault. fault ≡ Memory };

    fn from(_: AllocError) -> BindFault {
        BindFault::Memory
    }
}

impl<T: Drop> From<AllocFailed<T>> for BindFault {
    ghost from_gives = { λ _ fault. fault ≡ Memory };

    fn from(_: AllocFailed<T>) -> BindFault {
        BindFault::Memory
    }
}
