//! Why a task does not start.
ghost use Rattle.std.specs.Prelude.{◌≡◌, Some};
ghost use Rattle.vm_step.specs.declared.fault.StartFault.TheVariants.{Memory};
ghost use Rattle.vm_step.specs.FaultNames.{start_fault_number, start_fault_name};

use cf_text::Numbered;
use std::alloc::AllocError;
use std::fmt;
use thiserror::Error;

/// Why a task does not start (rules of this project). Of several the first is told, in the order in
/// which they stand here; out of memory may come in place of any.
#[derive(Clone, Copy, Debug, PartialEq, Eq, Error)]
pub enum StartFault {
    /// There is no such method, or one without code, or it is an `<init>`.
    AbsentMethod = 85,
    /// It has a parameter or a result of a type whose values are not passed.
    BadSignature = 86,
    /// The values are not one for each parameter and of its type, or the receiver is missing.
    BadArgument = 87,
    /// Memory ran out.
    Memory = 15,
}

impl fmt::Display for StartFault {
    ghost output = { λ fault. Some (start_fault_name fault) };

    fn fmt<W: fmt::Write>(&self, f: &mut fmt::Formatter<W>) -> fmt::Result {
        f.write_str(match self {
            StartFault::AbsentMethod => "AbsentMethod",
            StartFault::BadSignature => "BadSignature",
            StartFault::BadArgument => "BadArgument",
            StartFault::Memory => "Memory",
        })
    }
}

impl Numbered for StartFault {
    ghost number = { start_fault_number };

    fn number(&self) -> u8 {
        *self as u8
    }
}

impl From<AllocError> for StartFault {
    ghost from_gives = { λ _ fault. fault ≡ Memory };

    fn from(_: AllocError) -> StartFault {
        StartFault::Memory
    }
}
