//! Faults of a StackMapTable: the broken rule, and the offset.

ghost use Rattle.std.specs.Prelude.{◌≡◌, Some};
ghost use Rattle.ver_frames.specs.declared.fault.StackMapFault.TheVariants.{Memory};
ghost use Rattle.ver_frames.specs.FaultNames.{stack_map_rule_number, stack_map_rule_name, stack_map_fault_number};

use cls_link::Numbered;
use std::alloc::{AllocError, AllocFailed};
use std::fmt;
use thiserror::Error;

/// A rule of the StackMapTable attribute (JVMS 4.7.4).
#[derive(Clone, Copy, Debug, PartialEq, Eq, Error)]
pub enum StackMapRule {
    /// The tag of a frame is one of the reserved ones, 128 to 246.
    Reserved = 50,
    /// A frame takes away more local variables than there are.
    Chop = 51,
    /// A frame has more local variables or operands than the method.
    Locals = 52,
    /// The offset of a frame is not the start of an instruction.
    Offset = 53,
    /// The type of a local variable or operand is not of this project's profile, or names no class
    /// of the class set, or no `new`.
    Kind = 54,
}

impl fmt::Display for StackMapRule {
    ghost output = { λ rule. Some (stack_map_rule_name rule) };

    fn fmt<W: fmt::Write>(&self, f: &mut fmt::Formatter<W>) -> fmt::Result {
        f.write_str(match self {
            StackMapRule::Reserved => "Reserved",
            StackMapRule::Chop => "Chop",
            StackMapRule::Locals => "Locals",
            StackMapRule::Offset => "Offset",
            StackMapRule::Kind => "Kind",
        })
    }
}

impl Numbered for StackMapRule {
    ghost number = { stack_map_rule_number };

    fn number(&self) -> u8 {
        *self as u8
    }
}

/// Why a StackMapTable declares no frames.
#[derive(Clone, Copy, Debug, PartialEq, Eq, Error)]
pub enum StackMapFault {
    /// The rule is broken by the frame at this offset of the code. If the frame's own offset cannot
    /// be known, it is that of the frame before, or 0 for the first.
    #[error("{rule}")]
    Broken { rule: StackMapRule, at: usize },
    /// Memory ran out.
    #[error("Memory")]
    Memory,
}

impl Numbered for StackMapFault {
    ghost number = { stack_map_fault_number };

    fn number(&self) -> u8 {
        match self {
            StackMapFault::Broken { rule, .. } => rule.number(),
            StackMapFault::Memory => 15,
        }
    }
}

impl From<AllocError> for StackMapFault {
    ghost from_gives = { λ _ fault. fault ≡ Memory };

    fn from(_: AllocError) -> StackMapFault {
        StackMapFault::Memory
    }
}

impl<T: Drop> From<AllocFailed<T>> for StackMapFault {
    ghost from_gives = { λ _ fault. fault ≡ Memory };

    fn from(_: AllocFailed<T>) -> StackMapFault {
        StackMapFault::Memory
    }
}
