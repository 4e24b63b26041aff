//! Faults of decoding: the broken rule, and the instruction that breaks it.

ghost use Rattle.std.specs.Prelude.{◌≡◌, Some};
ghost use Rattle.cf_insns.specs.declared.fault.CodeFault.TheVariants.{Memory};
ghost use Rattle.cf_insns.specs.FaultNames.{code_rule_number, code_rule_name, code_fault_number};

use cf_text::Numbered;
use std::alloc::{AllocError, AllocFailed};
use std::fmt;
use thiserror::Error;

/// A rule on the bytes of a method's code (JVMS 4.9.1, 6.5) or of this project's profile.
#[derive(Clone, Copy, Debug, PartialEq, Eq, Error)]
pub enum CodeRule {
    /// The byte is no opcode of the standard: 202 to 255.
    Opcode = 20,
    /// The code ends inside the instruction.
    Cut = 21,
    /// The fourth operand of invokeinterface is not 0.
    Padding = 22,
    /// A tableswitch has its lowest key above its highest, or a lookupswitch a negative number of
    /// cases or keys that do not rise.
    Keys = 23,
    /// A branch goes to an offset that is not the first byte of an instruction.
    Target = 24,
    /// The instruction is not in this project's profile.
    OutOfProfile = 25,
}

impl fmt::Display for CodeRule {
    ghost output = { λ rule. Some (code_rule_name rule) };

    fn fmt<W: fmt::Write>(&self, f: &mut fmt::Formatter<W>) -> fmt::Result {
        f.write_str(match self {
            CodeRule::Opcode => "Opcode",
            CodeRule::Cut => "Cut",
            CodeRule::Padding => "Padding",
            CodeRule::Keys => "Keys",
            CodeRule::Target => "Target",
            CodeRule::OutOfProfile => "OutOfProfile",
        })
    }
}

impl Numbered for CodeRule {
    ghost number = { code_rule_number };

    fn number(&self) -> u8 {
        *self as u8
    }
}

/// Why code is refused.
#[derive(Clone, Copy, Debug, PartialEq, Eq, Error)]
pub enum CodeFault {
    /// The instruction at this offset breaks the rule.
    #[error("{rule}")]
    Broken { rule: CodeRule, at: u16 },
    /// Memory ran out.
    #[error("Memory")]
    Memory,
}

impl Numbered for CodeFault {
    ghost number = { code_fault_number };

    fn number(&self) -> u8 {
        match self {
            CodeFault::Broken { rule, .. } => rule.number(),
            CodeFault::Memory => 15,
        }
    }
}

impl From<AllocError> for CodeFault {
    ghost from_gives = { λ _ fault. fault ≡ Memory };

    fn from(_: AllocError) -> CodeFault {
        CodeFault::Memory
    }
}

impl<T: Drop> From<AllocFailed<T>> for CodeFault {
    ghost from_gives = { λ _ fault. fault ≡ Memory };

    fn from(_: AllocFailed<T>) -> CodeFault {
        CodeFault::Memory
    }
}
