//! Why a class file could not be loaded.

ghost use Rattle.std.specs.Prelude.{◌≡◌};
ghost use Rattle.cf_load.specs.declared.load_fault.LoadFault.TheVariants.{Read};
ghost use Rattle.cf_load.specs.FaultNames.{load_fault_number};

use cf_reader::{Numbered, ReadFault};
use thiserror::Error;

/// Why a class file could not be loaded.
#[derive(Clone, Copy, Debug, PartialEq, Eq, Error)]
pub enum LoadFault {
    /// The bytes are refused.
    #[error("{0}")]
    Read(ReadFault),
    /// The source failed.
    #[error("Device")]
    Device,
}

impl Numbered for LoadFault {
    ghost number = { load_fault_number };

    fn number(&self) -> u8 {
        match self {
            LoadFault::Read(fault) => fault.number(),
            LoadFault::Device => 16,
        }
    }
}

impl From<ReadFault> for LoadFault {
    ghost from_gives = { λ fault load_fault. load_fault ≡ Read fault };

    fn from(fault: ReadFault) -> LoadFault {
        LoadFault::Read(fault)
    }
}
