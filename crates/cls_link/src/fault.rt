//! Faults of linking: the broken rule, and the instruction that breaks it.

ghost use Rattle.std.specs.Prelude.{◌≡◌};
ghost use Rattle.cls_link.specs.declared.fault.LinkFault.TheVariants.{Memory};
ghost use Rattle.cls_link.specs.FaultNames.{link_fault_number};

use cls_resolve::LinkRule;
use cls_set::{Numbered, Text};
use std::alloc::{AllocError, AllocFailed};
use thiserror::Error;

/// Why a class set is not linked.
#[derive(Debug, Drop, Error)]
pub enum LinkFault {
    /// The instruction at this offset of the method's code breaks the rule. It is the first method at
    /// fault, by class number and then as declared.
    #[error("{rule}")]
    Broken {
        rule: LinkRule,
        class: Text,
        method: Text,
        descriptor: Text,
        at: u16,
    },
    /// Memory ran out.
    #[error("Memory")]
    Memory,
}

impl Numbered for LinkFault {
    ghost number = { link_fault_number };

    fn number(&self) -> u8 {
        match self {
            LinkFault::Broken { rule, .. } => rule.number(),
            LinkFault::Memory => 15,
        }
    }
}

impl From<AllocError> for LinkFault {
    ghost from_gives = { λ _ fault. fault ≡ Memory };

    fn from(_: AllocError) -> LinkFault {
        LinkFault::Memory
    }
}

impl<T: Drop> From<AllocFailed<T>> for LinkFault {
    ghost from_gives = { λ _ fault. fault ≡ Memory };

    fn from(_: AllocFailed<T>) -> LinkFault {
        LinkFault::Memory
    }
}
