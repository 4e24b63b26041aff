//! Faults of checking: the broken rule, and the instruction that breaks it.

ghost use Rattle.std.specs.Prelude.{◌≡◌, Some};
ghost use Rattle.ver_rules.specs.declared.fault.CheckFault.TheVariants.{Memory};
ghost use Rattle.ver_rules.specs.FaultNames.{check_rule_number, check_rule_name, check_fault_number};

use std::alloc::{AllocError, AllocFailed};
use std::fmt;
use thiserror::Error;
use ver_frames::{Numbered, StackMapRule, Text};

/// A rule of type checking (JVMS 4.10.1).
#[derive(Clone, Copy, Debug, PartialEq, Eq, Error)]
pub enum CheckRule {
    /// The StackMapTable declares no frames.
    StackMap(StackMapRule),
    /// There is no operand to take.
    Underflow,
    /// There is no room for one more operand.
    Overflow,
    /// An operand is of another type.
    Mismatch,
    /// An object is used before it is initialized, or an `<init>` returns without having called
    /// another `<init>`.
    Uninitialized,
    /// No frame is declared at the target of a branch, or after an instruction that does not fall
    /// through to the next.
    NoFrame,
    /// What comes in at a declared frame is not assignable to it.
    NotAssignable,
    /// The code ends after an instruction that falls through to the next, or has no instruction.
    FallsOff,
    /// A local variable is of another type, or there is none of this number.
    Local,
    /// The result of the method is of another type.
    Return,
}

impl fmt::Display for CheckRule {
    ghost output = { λ rule. Some (check_rule_name rule) };

    fn fmt<W: fmt::Write>(&self, f: &mut fmt::Formatter<W>) -> fmt::Result {
        match self {
            CheckRule::StackMap(rule) => rule.fmt(f),
            CheckRule::Underflow => f.write_str("Underflow"),
            CheckRule::Overflow => f.write_str("Overflow"),
            CheckRule::Mismatch => f.write_str("Mismatch"),
            CheckRule::Uninitialized => f.write_str("Uninitialized"),
            CheckRule::NoFrame => f.write_str("NoFrame"),
            CheckRule::NotAssignable => f.write_str("NotAssignable"),
            CheckRule::FallsOff => f.write_str("FallsOff"),
            CheckRule::Local => f.write_str("Local"),
            CheckRule::Return => f.write_str("Return"),
        }
    }
}

impl Numbered for CheckRule {
    ghost number = { check_rule_number };

    fn number(&self) -> u8 {
        match self {
            CheckRule::StackMap(rule) => rule.number(),
            CheckRule::Underflow => 60,
            CheckRule::Overflow => 61,
            CheckRule::Mismatch => 62,
            CheckRule::Uninitialized => 63,
            CheckRule::NoFrame => 64,
            CheckRule::NotAssignable => 65,
            CheckRule::FallsOff => 66,
            CheckRule::Local => 67,
            CheckRule::Return => 68,
        }
    }
}

/// Why a class set is not accepted.
#[derive(Debug, Drop, Error)]
pub enum CheckFault {
    /// The rule is broken at this offset of the method's code. It is the first method at fault, by
    /// class number and then as declared.
    #[error("{rule}")]
    Broken {
        rule: CheckRule,
        class: Text,
        method: Text,
        descriptor: Text,
        at: usize,
    },
    /// Memory ran out.
    #[error("Memory")]
    Memory,
}

impl Numbered for CheckFault {
    ghost number = { check_fault_number };

    fn number(&self) -> u8 {
        match self {
            CheckFault::Broken { rule, .. } => rule.number(),
            CheckFault::Memory => 15,
        }
    }
}

impl From<AllocError> for CheckFault {
    ghost from_gives = { λ _ fault. fault ≡ Memory };

    fn from(_: AllocError) -> CheckFault {
        CheckFault::Memory
    }
}

impl<T: Drop> From<AllocFailed<T>> for CheckFault {
    ghost from_gives = { λ _ fault. fault ≡ Memory };

    fn from(_: AllocFailed<T>) -> CheckFault {
        CheckFault::Memory
    }
}
