//! Comparisons, branches, returns, and instructions with a wide operand.

ghost use Rattle.std.specs.Prelude.{◌≡◌, ◌≤◌, length, IfOk};
ghost use Rattle.cf_insns.specs.Reading as spec;

use super::operands::{byte, short, signed_int, signed_short};
use super::reading::Spelled;
use super::{CodeRule, Condition, Equality, Insn, ValueKind, opcode as op};

// A branch of two bytes.
fn branch(operands: &[u8]) -> Result<i32, CodeRule>
    ensures exact { result ≡ spec.branch operands.now }
    ensures within { IfOk result (λ _. 2 ≤ length operands.now) }
{
    Ok(i32::from(signed_short(operands, 0)?))
}

// The condition of ifeq to ifle and of if_icmpeq to if_icmple, by its index among them.
#[tactic(auto, unfolding(crate::specs::Reading::condition))]
fn condition(index: u8) -> Condition
    ensures { result ≡ spec.condition index }
{
    match index {
        0 => Condition::Equal,
        1 => Condition::NotEqual,
        2 => Condition::Less,
        3 => Condition::GreaterOrEqual,
        4 => Condition::Greater,
        _ => Condition::LessOrEqual,
    }
}

// Comparisons: lcmp to if_acmpne.
#[tactic(auto, unfolding(crate::specs::Reading::comparison))]
pub(crate) fn comparison(opcode: u8, operands: &[u8]) -> Result<Spelled, CodeRule>
    ensures exact { result ≡ spec.comparison opcode operands.now }
    ensures within { IfOk result (λ spelled. spelled.operands ≤ length operands.now) }
{
    match opcode {
        op::IFEQ..=op::IFLE => {
            let condition = condition(opcode - op::IFEQ);
            let branch = branch(operands)?;
            Ok(Spelled::new(Insn::If { condition, branch }, 2))
        }
        op::IF_ICMPEQ..=op::IF_ICMPLE => {
            let condition = condition(opcode - op::IF_ICMPEQ);
            let branch = branch(operands)?;
            Ok(Spelled::new(Insn::IfCompare { condition, branch }, 2))
        }
        op::IF_ACMPEQ => {
            let (equality, branch) = (Equality::Equal, branch(operands)?);
            Ok(Spelled::new(Insn::IfSame { equality, branch }, 2))
        }
        op::IF_ACMPNE => {
            let (equality, branch) = (Equality::NotEqual, branch(operands)?);
            Ok(Spelled::new(Insn::IfSame { equality, branch }, 2))
        }
        _ => Err(CodeRule::OutOfProfile),
    }
}

// Control: goto to return, but for the switches.
#[tactic(auto, unfolding(crate::specs::Reading::control))]
pub(crate) fn control(opcode: u8, operands: &[u8]) -> Result<Spelled, CodeRule>
    ensures exact { result ≡ spec.control opcode operands.now }
    ensures within { IfOk result (λ spelled. spelled.operands ≤ length operands.now) }
{
    match opcode {
        op::GOTO => {
            let branch = branch(operands)?;
            Ok(Spelled::new(Insn::Goto { branch }, 2))
        }
        op::IRETURN => Ok(Spelled::new(Insn::ReturnValue(ValueKind::Int), 0)),
        op::ARETURN => Ok(Spelled::new(Insn::ReturnValue(ValueKind::Reference), 0)),
        op::RETURN => Ok(Spelled::new(Insn::Return, 0)),
        _ => Err(CodeRule::OutOfProfile),
    }
}

// What wide makes of an opcode and its operands: the first of wide's operands is that opcode.
#[tactic(auto, unfolding(crate::specs::Reading::wide))]
fn wide(operands: &[u8]) -> Result<Spelled, CodeRule>
    ensures exact { result ≡ spec.wide operands.now }
    ensures within { IfOk result (λ spelled. spelled.operands ≤ length operands.now) }
{
    let widened = byte(operands, 0)?;
    match widened {
        op::ILOAD => Ok(Spelled::new(Insn::Load(ValueKind::Int, short(operands, 1)?), 3)),
        op::ALOAD => Ok(Spelled::new(Insn::Load(ValueKind::Reference, short(operands, 1)?), 3)),
        op::ISTORE => Ok(Spelled::new(Insn::Store(ValueKind::Int, short(operands, 1)?), 3)),
        op::ASTORE => Ok(Spelled::new(Insn::Store(ValueKind::Reference, short(operands, 1)?), 3)),
        op::IINC => {
            let local = short(operands, 1)?;
            let by = signed_short(operands, 3)?;
            Ok(Spelled::new(Insn::Increment { local, by }, 5))
        }
        _ => Err(CodeRule::OutOfProfile),
    }
}

// Extended: wide to jsr_w.
#[tactic(auto, unfolding(crate::specs::Reading::extended))]
pub(crate) fn extended(opcode: u8, operands: &[u8]) -> Result<Spelled, CodeRule>
    ensures exact { result ≡ spec.extended opcode operands.now }
    ensures within { IfOk result (λ spelled. spelled.operands ≤ length operands.now) }
{
    match opcode {
        op::WIDE => wide(operands),
        op::IFNULL => {
            let (equality, branch) = (Equality::Equal, branch(operands)?);
            Ok(Spelled::new(Insn::IfNull { equality, branch }, 2))
        }
        op::IFNONNULL => {
            let (equality, branch) = (Equality::NotEqual, branch(operands)?);
            Ok(Spelled::new(Insn::IfNull { equality, branch }, 2))
        }
        op::GOTO_W => {
            let branch = signed_int(operands, 0)?;
            Ok(Spelled::new(Insn::Goto { branch }, 4))
        }
        _ => Err(CodeRule::OutOfProfile),
    }
}
