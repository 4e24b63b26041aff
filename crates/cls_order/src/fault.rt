//! Faults of class sets: the broken rule, and the class that breaks it.

ghost use Rattle.std.specs.Prelude.{◌≡◌, Some};
ghost use Rattle.cls_order.specs.declared.fault.SetFault.TheVariants.{Memory};
ghost use Rattle.cls_order.specs.FaultNames.{set_rule_number, set_rule_name, set_fault_number};

use cf_reader::{Numbered, Text};
use std::alloc::{AllocError, AllocFailed};
use std::fmt;
use thiserror::Error;

/// A rule on the classes of a set (JVMS 4.10, 5.3.5, 8.4.8 of the language; Java RMI specification,
/// 2.4) or of this project's profile.
#[derive(Clone, Copy, Debug, PartialEq, Eq, Error)]
pub enum SetRule {
    /// Two classes have one name, or a file has the name of a built-in class.
    Duplicate = 30,
    /// A superclass, a superinterface or a class in a member's descriptor is not in the set.
    AbsentClass = 31,
    /// A class is among its own supertypes.
    Cycle = 32,
    /// An interface as superclass, a class as superinterface, or an interface whose superclass is not
    /// java/lang/Object.
    BadSuper = 33,
    /// The superclass is final.
    FinalSuper = 34,
    /// A remote class has or inherits an instance field that is no `I`, `Z` or remote interface.
    RemoteField = 35,
    /// A remote interface has or inherits a method with a parameter or a result that cannot cross.
    RemoteMethod = 36,
    /// A method overrides or hides a superclass's method that it may not.
    Override = 37,
    /// The set has more classes than this project's profile takes.
    TooMany = 38,
}

impl fmt::Display for SetRule {
    ghost output = { λ rule. Some (set_rule_name rule) };

    fn fmt<W: fmt::Write>(&self, f: &mut fmt::Formatter<W>) -> fmt::Result {
        f.write_str(match self {
            SetRule::Duplicate => "Duplicate",
            SetRule::AbsentClass => "AbsentClass",
            SetRule::Cycle => "Cycle",
            SetRule::BadSuper => "BadSuper",
            SetRule::FinalSuper => "FinalSuper",
            SetRule::RemoteField => "RemoteField",
            SetRule::RemoteMethod => "RemoteMethod",
            SetRule::Override => "Override",
            SetRule::TooMany => "TooMany",
        })
    }
}

impl Numbered for SetRule {
    ghost number = { set_rule_number };

    fn number(&self) -> u8 {
        *self as u8
    }
}

/// Why files make no class set.
#[derive(Debug, Drop, Error)]
pub enum SetFault {
    /// The class of this name breaks the rule: of several the first by name, but for `TooMany` that of
    /// the last file handed in.
    #[error("{rule}")]
    Broken { rule: SetRule, class: Text },
    /// Memory ran out.
    #[error("Memory")]
    Memory,
}

impl Numbered for SetFault {
    ghost number = { set_fault_number };

    fn number(&self) -> u8 {
        match self {
            SetFault::Broken { rule, .. } => rule.number(),
            SetFault::Memory => 15,
        }
    }
}

impl From<AllocError> for SetFault {
    ghost from_gives = { λ _ fault. fault ≡ Memory };

    fn from(_: AllocError) -> SetFault {
        SetFault::Memory
    }
}

impl<T: Drop> From<AllocFailed<T>> for SetFault {
    ghost from_gives = { λ _ fault. fault ≡ Memory };

    fn from(_: AllocFailed<T>) -> SetFault {
        SetFault::Memory
    }
}
