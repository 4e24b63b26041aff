//! Why a class set is not run.

ghost use Rattle.std.specs.Prelude.{◌≡◌};
ghost use Rattle.sp_files.specs.declared.refusal.Refusal.TheVariants as refusal;

use cf_load::LoadFault;
use cls_link::LinkFault;
use cls_set::SetFault;
use std::alloc::{AllocError, AllocFailed};
use ver_check::CheckFault;
use vm_step::StartFault;

/// Why a class set is not run. Nothing of it has run then.
#[derive(Debug, Drop)]
pub enum Refusal {
    /// The file at this index of the list is refused, or its device failed.
    File { index: usize, fault: LoadFault },
    /// The files make no class set.
    Set(SetFault),
    /// A method's code does not link.
    Link(LinkFault),
    /// A method is not type safe.
    Check(CheckFault),
    /// The method does not start with these arguments.
    Start(StartFault),
    /// Memory ran out.
    Memory,
}

impl From<SetFault> for Refusal {
    ghost from_gives = { λ fault told. told ≡ refusal.Set fault };

    fn from(fault: SetFault) -> Refusal {
        Refusal::Set(fault)
    }
}

impl From<LinkFault> for Refusal {
    ghost from_gives = { λ fault told. told ≡ refusal.Link fault };

    fn from(fault: LinkFault) -> Refusal {
        Refusal::Link(fault)
    }
}

impl From<CheckFault> for Refusal {
    ghost from_gives = { λ fault told. told ≡ refusal.Check fault };

    fn from(fault: CheckFault) -> Refusal {
        Refusal::Check(fault)
    }
}

impl From<StartFault> for Refusal {
    ghost from_gives = { λ fault told. told ≡ refusal.Start fault };

    fn from(fault: StartFault) -> Refusal {
        Refusal::Start(fault)
    }
}

impl From<AllocError> for Refusal {
    ghost from_gives = { λ _ told. told ≡ refusal.Memory };

    fn from(_: AllocError) -> Refusal {
        Refusal::Memory
    }
}

impl<T: Drop> From<AllocFailed<T>> for Refusal {
    ghost from_gives = { λ _ told. told ≡ refusal.Memory };

    fn from(_: AllocFailed<T>) -> Refusal {
        Refusal::Memory
    }
}
