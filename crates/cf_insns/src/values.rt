//! Constants, local variables, the operand stack, arithmetic.

ghost use Rattle.std.specs.Prelude.{◌≡◌, ◌≤◌, length, IfOk};
ghost use Rattle.cf_insns.specs.Reading as spec;

use super::operands::{byte, short, signed_byte, signed_short};
use super::reading::Spelled;
use super::{
    ArrayOperation, BinaryOperator, CodeRule, Insn, StackOperation, UnaryOperator, ValueKind,
    opcode as op,
};

// Constants: nop to ldc2_w.
#[tactic(auto, unfolding(crate::specs::Reading::constant))]
pub(crate) fn constant(opcode: u8, operands: &[u8]) -> Result<Spelled, CodeRule>
    ensures exact { result ≡ spec.constant opcode operands.now }
    ensures within { IfOk result (λ spelled. spelled.operands ≤ length operands.now) }
{
    match opcode {
        op::NOP => Ok(Spelled::new(Insn::Nop, 0)),
        op::ACONST_NULL => Ok(Spelled::new(Insn::Null, 0)),
        op::ICONST_M1..=op::ICONST_5 => {
            Ok(Spelled::new(Insn::Constant(i32::from(opcode) - 3), 0))
        }
        op::BIPUSH => {
            let value = signed_byte(operands, 0)?;
            Ok(Spelled::new(Insn::Constant(i32::from(value)), 1))
        }
        op::SIPUSH => {
            let value = signed_short(operands, 0)?;
            Ok(Spelled::new(Insn::Constant(i32::from(value)), 2))
        }
        op::LDC => {
            let index = byte(operands, 0)?;
            Ok(Spelled::new(Insn::LoadConstant(u16::from(index)), 1))
        }
        op::LDC_W => {
            let index = short(operands, 0)?;
            Ok(Spelled::new(Insn::LoadConstant(index), 2))
        }
        _ => Err(CodeRule::OutOfProfile),
    }
}

// A local variable that one byte tells.
fn local(operands: &[u8]) -> Result<u16, CodeRule>
    ensures exact { result ≡ spec.local operands.now }
    ensures within { IfOk result (λ _. 1 ≤ length operands.now) }
{
    Ok(u16::from(byte(operands, 0)?))
}

// Loads: iload to saload.
#[tactic(auto, unfolding(crate::specs::Reading::load))]
pub(crate) fn load(opcode: u8, operands: &[u8]) -> Result<Spelled, CodeRule>
    ensures exact { result ≡ spec.load opcode operands.now }
    ensures within { IfOk result (λ spelled. spelled.operands ≤ length operands.now) }
{
    match opcode {
        op::ILOAD => Ok(Spelled::new(Insn::Load(ValueKind::Int, local(operands)?), 1)),
        op::ALOAD => Ok(Spelled::new(Insn::Load(ValueKind::Reference, local(operands)?), 1)),
        op::ILOAD_0..=op::ILOAD_3 => {
            let local = u16::from(opcode - op::ILOAD_0);
            Ok(Spelled::new(Insn::Load(ValueKind::Int, local), 0))
        }
        op::ALOAD_0..=op::ALOAD_3 => {
            let local = u16::from(opcode - op::ALOAD_0);
            Ok(Spelled::new(Insn::Load(ValueKind::Reference, local), 0))
        }
        op::IALOAD => Ok(Spelled::new(Insn::Array(ArrayOperation::Load), 0)),
        _ => Err(CodeRule::OutOfProfile),
    }
}

// Stores: istore to sastore.
#[tactic(auto, unfolding(crate::specs::Reading::store))]
pub(crate) fn store(opcode: u8, operands: &[u8]) -> Result<Spelled, CodeRule>
    ensures exact { result ≡ spec.store opcode operands.now }
    ensures within { IfOk result (λ spelled. spelled.operands ≤ length operands.now) }
{
    match opcode {
        op::ISTORE => Ok(Spelled::new(Insn::Store(ValueKind::Int, local(operands)?), 1)),
        op::ASTORE => Ok(Spelled::new(Insn::Store(ValueKind::Reference, local(operands)?), 1)),
        op::ISTORE_0..=op::ISTORE_3 => {
            let local = u16::from(opcode - op::ISTORE_0);
            Ok(Spelled::new(Insn::Store(ValueKind::Int, local), 0))
        }
        op::ASTORE_0..=op::ASTORE_3 => {
            let local = u16::from(opcode - op::ASTORE_0);
            Ok(Spelled::new(Insn::Store(ValueKind::Reference, local), 0))
        }
        op::IASTORE => Ok(Spelled::new(Insn::Array(ArrayOperation::Store), 0)),
        _ => Err(CodeRule::OutOfProfile),
    }
}

#[tactic(auto, unfolding(crate::specs::Reading::stack_operator))]
fn stack_operator(opcode: u8) -> Option<StackOperation>
    ensures { result ≡ spec.stack_operator opcode }
{
    match opcode {
        op::POP => Some(StackOperation::Pop),
        op::POP2 => Some(StackOperation::Pop2),
        op::DUP => Some(StackOperation::Dup),
        op::DUP_X1 => Some(StackOperation::DupX1),
        op::DUP_X2 => Some(StackOperation::DupX2),
        op::DUP2 => Some(StackOperation::Dup2),
        op::DUP2_X1 => Some(StackOperation::Dup2X1),
        op::DUP2_X2 => Some(StackOperation::Dup2X2),
        op::SWAP => Some(StackOperation::Swap),
        _ => None,
    }
}

// Stack: pop to swap.
pub(crate) fn stack_operation(opcode: u8) -> Result<Spelled, CodeRule>
    ensures exact { result ≡ spec.stack_operation opcode }
    ensures within { IfOk result (λ spelled. spelled.operands ≡ 0) }
{
    let operation = stack_operator(opcode).ok_or(CodeRule::OutOfProfile)?;
    Ok(Spelled::new(Insn::Stack(operation), 0))
}

#[tactic(auto, unfolding(crate::specs::Reading::binary_operator))]
fn binary_operator(opcode: u8) -> Option<BinaryOperator>
    ensures { result ≡ spec.binary_operator opcode }
{
    match opcode {
        op::IADD => Some(BinaryOperator::Add),
        op::ISUB => Some(BinaryOperator::Subtract),
        op::IMUL => Some(BinaryOperator::Multiply),
        op::IDIV => Some(BinaryOperator::Divide),
        op::IREM => Some(BinaryOperator::Remainder),
        op::ISHL => Some(BinaryOperator::ShiftLeft),
        op::ISHR => Some(BinaryOperator::ShiftRight),
        op::IUSHR => Some(BinaryOperator::ShiftRightUnsigned),
        op::IAND => Some(BinaryOperator::And),
        op::IOR => Some(BinaryOperator::Or),
        op::IXOR => Some(BinaryOperator::Xor),
        _ => None,
    }
}

// Math: iadd to iinc.
#[tactic(auto, unfolding(crate::specs::Reading::math))]
pub(crate) fn math(opcode: u8, operands: &[u8]) -> Result<Spelled, CodeRule>
    ensures exact { result ≡ spec.math opcode operands.now }
    ensures within { IfOk result (λ spelled. spelled.operands ≤ length operands.now) }
{
    match opcode {
        op::INEG => Ok(Spelled::new(Insn::Unary(UnaryOperator::Negate), 0)),
        op::IINC => {
            let local = u16::from(byte(operands, 0)?);
            let by = i16::from(signed_byte(operands, 1)?);
            Ok(Spelled::new(Insn::Increment { local, by }, 2))
        }
        _ => {
            let operator = binary_operator(opcode).ok_or(CodeRule::OutOfProfile)?;
            Ok(Spelled::new(Insn::Binary(operator), 0))
        }
    }
}

// Conversions: i2l to i2s.
#[tactic(auto, unfolding(crate::specs::Reading::conversion))]
pub(crate) fn conversion(opcode: u8) -> Result<Spelled, CodeRule>
    ensures exact { result ≡ spec.conversion opcode }
    ensures within { IfOk result (λ spelled. spelled.operands ≡ 0) }
{
    let operator = match opcode {
        op::I2B => UnaryOperator::ToByte,
        op::I2C => UnaryOperator::ToChar,
        op::I2S => UnaryOperator::ToShort,
        _ => return Err(CodeRule::OutOfProfile),
    };
    Ok(Spelled::new(Insn::Unary(operator), 0))
}
