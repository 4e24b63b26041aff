//! Instructions on fields, methods, classes and arrays.

ghost use Rattle.std.specs.Prelude.{◌≡◌, ◌≤◌, length, IfOk};
ghost use Rattle.cf_insns.specs.Reading as spec;

use super::operands::{byte, short};
use super::reading::Spelled;
use super::{
    ArrayOperation, ClassOperation, CodeRule, FieldOperation, Insn, InvokeKind, opcode as op,
};

// The type code of int in newarray (JVMS 6.5).
const T_INT: u8 = 10;

fn field(operation: FieldOperation, operands: &[u8]) -> Result<Spelled, CodeRule>
    ensures exact { result ≡ spec.field operation operands.now }
    ensures within { IfOk result (λ spelled. spelled.operands ≤ length operands.now) }
{
    Ok(Spelled::new(Insn::Field(operation, short(operands, 0)?), 2))
}

fn invoke(kind: InvokeKind, operands: &[u8]) -> Result<Spelled, CodeRule>
    ensures exact { result ≡ spec.invoke kind operands.now }
    ensures within { IfOk result (λ spelled. spelled.operands ≤ length operands.now) }
{
    Ok(Spelled::new(Insn::Invoke(kind, short(operands, 0)?), 2))
}

fn class(operation: ClassOperation, operands: &[u8]) -> Result<Spelled, CodeRule>
    ensures exact { result ≡ spec.class operation operands.now }
    ensures within { IfOk result (λ spelled. spelled.operands ≤ length operands.now) }
{
    Ok(Spelled::new(Insn::Class(operation, short(operands, 0)?), 2))
}

// invokeinterface, whose fourth operand is 0.
#[tactic(auto, unfolding(crate::specs::Reading::invoke_interface))]
fn invoke_interface(operands: &[u8]) -> Result<Spelled, CodeRule>
    ensures exact { result ≡ spec.invoke_interface operands.now }
    ensures within { IfOk result (λ spelled. spelled.operands ≤ length operands.now) }
{
    let index = short(operands, 0)?;
    let count = byte(operands, 2)?;
    if byte(operands, 3)? != 0 {
        return Err(CodeRule::Padding);
    }
    Ok(Spelled::new(Insn::InvokeInterface { index, count }, 4))
}

// newarray, of ints alone.
#[tactic(auto, unfolding(crate::specs::Reading::new_array))]
fn new_array(operands: &[u8]) -> Result<Spelled, CodeRule>
    ensures exact { result ≡ spec.new_array operands.now }
    ensures within { IfOk result (λ spelled. spelled.operands ≤ length operands.now) }
{
    if byte(operands, 0)? != T_INT {
        return Err(CodeRule::OutOfProfile);
    }
    Ok(Spelled::new(Insn::Array(ArrayOperation::New), 1))
}

// References: getstatic to instanceof.
#[tactic(auto, unfolding(crate::specs::Reading::member))]
pub(crate) fn member(opcode: u8, operands: &[u8]) -> Result<Spelled, CodeRule>
    ensures exact { result ≡ spec.member opcode operands.now }
    ensures within { IfOk result (λ spelled. spelled.operands ≤ length operands.now) }
{
    match opcode {
        op::GETSTATIC => field(FieldOperation::GetStatic, operands),
        op::GETFIELD => field(FieldOperation::GetField, operands),
        op::PUTFIELD => field(FieldOperation::PutField, operands),
        op::INVOKEVIRTUAL => invoke(InvokeKind::Virtual, operands),
        op::INVOKESPECIAL => invoke(InvokeKind::Special, operands),
        op::INVOKESTATIC => invoke(InvokeKind::Static, operands),
        op::INVOKEINTERFACE => invoke_interface(operands),
        op::NEW => class(ClassOperation::New, operands),
        op::NEWARRAY => new_array(operands),
        op::ARRAYLENGTH => Ok(Spelled::new(Insn::Array(ArrayOperation::Length), 0)),
        op::ATHROW => Ok(Spelled::new(Insn::Throw, 0)),
        op::CHECKCAST => class(ClassOperation::CheckCast, operands),
        op::INSTANCEOF => class(ClassOperation::InstanceOf, operands),
        _ => Err(CodeRule::OutOfProfile),
    }
}
