//! Why the check of a method stops.

ghost use Rattle.std.specs.Prelude.{◌≡◌};
ghost use Rattle.ver_check.specs.declared.stop.Stop.TheVariants.{Memory};

use super::CheckRule;
use std::alloc::{AllocError, AllocFailed};

// Why the check of an instruction stops.
#[derive(Clone, Copy, PartialEq, Eq)]
pub(crate) enum Stop {
    // At the instruction that is checked.
    Broken(CheckRule),
    // No frame is declared at this index.
    Missing(usize),
    Memory,
}

impl From<AllocError> for Stop {
    ghost from_gives = { λ _ stop. stop ≡ Memory };

    fn from(_: AllocError) -> Stop {
        Stop::Memory
    }
}

impl<T: Drop> From<AllocFailed<T>> for Stop {
    ghost from_gives = { λ _ stop. stop ≡ Memory };

    fn from(_: AllocFailed<T>) -> Stop {
        Stop::Memory
    }
}
