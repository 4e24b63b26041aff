//! Why the code of a method is not linked.

ghost use Rattle.std.specs.Prelude.{◌≡◌};
ghost use Rattle.cls_link.specs.LinkFaults.{stop_of};
ghost use Rattle.cls_link.specs.declared.stop.Stop.TheVariants.{Memory};

use super::LinkRule;
use cf_insns::CodeFault;
use std::alloc::{AllocError, AllocFailed};

// Why code is not linked: the broken rule, and the offset of the instruction that breaks it.
#[derive(Clone, Copy)]
pub(crate) enum Stop {
    Broken { rule: LinkRule, at: u16 },
    Memory,
}

impl From<CodeFault> for Stop {
    ghost from_gives = { λ fault stop. stop ≡ stop_of fault };

    fn from(fault: CodeFault) -> Stop {
        match fault {
            CodeFault::Broken { rule, at } => Stop::Broken {
                rule: LinkRule::Code(rule),
                at,
            },
            CodeFault::Memory => Stop::Memory,
        }
    }
}

impl From<AllocError> for Stop {
    ghost from_gives = { λ _ stop. stop ≡ Memory };

    fn from(_: AllocError) -> Stop {
        Stop::Memory
    }
}

impl<T: Drop> From<AllocFailed<T>> for Stop {
    ghost from_gives = { λ _ stop. stop ≡ Memory };

    fn from(_: AllocFailed<T>) -> Stop {
        Stop::Memory
    }
}
