//! What instructions ask of the constant pool.

ghost use Rattle.std.specs.Prelude.{◌≡◌};
ghost use Rattle.cls_resolve.specs.References as spec;

use cf_insns::{ClassOperation, FieldOperation, InvokeKind};

/// An instruction on a member.
#[derive(Clone, Copy, Debug, PartialEq, Eq)]
pub enum MemberOperation {
    GetStatic,
    GetField,
    PutField,
    InvokeVirtual,
    InvokeSpecial,
    InvokeStatic,
    InvokeInterface,
}

/// What an instruction asks of an index of the constant pool.
#[derive(Clone, Copy, Debug, PartialEq, Eq)]
pub enum Asked {
    /// An int: ldc, ldc_w.
    Constant,
    /// A class or an array type.
    Class(ClassOperation),
    /// A member.
    Member(MemberOperation),
}

/// Returns what getstatic, getfield or putfield asks of a member.
pub fn field_operation(operation: FieldOperation) -> MemberOperation
    ensures { result ≡ spec.field_operation operation }
{
    match operation {
        FieldOperation::GetStatic => MemberOperation::GetStatic,
        FieldOperation::GetField => MemberOperation::GetField,
        FieldOperation::PutField => MemberOperation::PutField,
    }
}

/// Returns what invokevirtual, invokespecial or invokestatic asks of a member.
pub fn invoke_operation(kind: InvokeKind) -> MemberOperation
    ensures { result ≡ spec.invoke_operation kind }
{
    match kind {
        InvokeKind::Virtual => MemberOperation::InvokeVirtual,
        InvokeKind::Special => MemberOperation::InvokeSpecial,
        InvokeKind::Static => MemberOperation::InvokeStatic,
    }
}
