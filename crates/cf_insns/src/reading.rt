//! One instruction with its operands.

ghost use Rattle.std.specs.Prelude.{◌≡◌, ◌≤◌, length, IfOk, MatchResult};
ghost use Rattle.cf_insns.specs.Reading as spec;
ghost use Rattle.cf_insns.specs.Stops.{Stops};

use super::control::{comparison, control, extended};
use super::members::member;
use super::switches::{lookup_switch, table_switch};
use super::values::{constant, conversion, load, math, stack_operation, store};
use super::{CodeRule, Insn, opcode as op};
use std::alloc::{AllocError, AllocFailed, Global};

// An instruction, and how many bytes of its spelling stand after the opcode.
#[derive(Debug, Drop)]
pub(crate) struct Spelled {
    pub(crate) insn: Insn,
    pub(crate) operands: usize,
}

impl Spelled {
    pub(crate) fn new(insn: Insn, operands: usize) -> Spelled
        ensures { result ≡ record { insn = insn; operands = operands } }
    {
        Spelled { insn, operands }
    }
}

// Why an instruction is not read.
#[derive(Clone, Copy, Debug, PartialEq, Eq)]
pub(crate) enum Stop {
    Broken(CodeRule),
    Memory,
}

impl From<CodeRule> for Stop {
    ghost use Rattle.std.specs.Prelude.{◌≡◌};
    ghost use Rattle.cf_insns.specs.declared.reading.Stop.TheVariants.{Broken};

    ghost from_gives = { λ rule stop. stop ≡ Broken rule };

    fn from(rule: CodeRule) -> Stop {
        Stop::Broken(rule)
    }
}

impl From<AllocError> for Stop {
    ghost use Rattle.std.specs.Prelude.{◌≡◌};
    ghost use Rattle.cf_insns.specs.declared.reading.Stop.TheVariants.{Memory};

    ghost from_gives = { λ _ stop. stop ≡ Memory };

    fn from(_: AllocError) -> Stop {
        Stop::Memory
    }
}

impl<T: Drop> From<AllocFailed<T>> for Stop {
    ghost use Rattle.std.specs.Prelude.{◌≡◌};
    ghost use Rattle.cf_insns.specs.declared.reading.Stop.TheVariants.{Memory};

    ghost from_gives = { λ _ stop. stop ≡ Memory };

    fn from(_: AllocFailed<T>) -> Stop {
        Stop::Memory
    }
}

// An instruction that is no switch. Its opcode decides first whether it is one of the profile, then
// the end of the code, then the values of its operands.
#[tactic(auto, unfolding(crate::specs::Reading::plain))]
fn plain(opcode: u8, operands: &[u8]) -> Result<Spelled, CodeRule>
    ensures exact { result ≡ spec.plain opcode operands.now }
    ensures within { IfOk result (λ spelled. spelled.operands ≤ length operands.now) }
{
    match opcode {
        ..=op::LDC2_W => constant(opcode, operands),
        ..=op::SALOAD => load(opcode, operands),
        ..=op::SASTORE => store(opcode, operands),
        ..=op::SWAP => stack_operation(opcode),
        ..=op::IINC => math(opcode, operands),
        ..=op::I2S => conversion(opcode),
        ..=op::IF_ACMPNE => comparison(opcode, operands),
        ..=op::RETURN => control(opcode, operands),
        ..=op::INSTANCEOF => member(opcode, operands),
        ..=op::JSR_W => extended(opcode, operands),
        _ => Err(CodeRule::Opcode),
    }
}

// The instruction at an offset, of its opcode and the bytes after it, or the first rule that they
// break.
#[tactic(auto, unfolding(crate::specs::Reading::instruction))]
pub(crate) fn instruction(
    alloc: Global,
    offset: u16,
    opcode: u8,
    operands: &[u8],
) -> Result<Spelled, Stop>
    ensures exact { MatchResult result (λ spelled. spec.instruction offset opcode operands.now
        ≡ Ok spelled) (λ stop. Stops stop (spec.instruction offset opcode operands.now)) }
    ensures within { IfOk result (λ spelled. spelled.operands ≤ length operands.now) }
{
    match opcode {
        op::TABLESWITCH => table_switch(alloc, offset, operands),
        op::LOOKUPSWITCH => lookup_switch(alloc, offset, operands),
        _ => Ok(plain(opcode, operands)?),
    }
}
