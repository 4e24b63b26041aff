//! The instructions of the profile, by groups.

use cf_text::Row;

/// Whether an instruction moves an int or a reference.
#[derive(Clone, Copy, Debug, PartialEq, Eq)]
pub enum ValueKind {
    Int,
    Reference,
}

/// An instruction that moves operands whatever their type.
#[derive(Clone, Copy, Debug, PartialEq, Eq)]
pub enum StackOperation {
    Pop,
    Pop2,
    Dup,
    DupX1,
    DupX2,
    Dup2,
    Dup2X1,
    Dup2X2,
    Swap,
}

/// An operator on one int.
#[derive(Clone, Copy, Debug, PartialEq, Eq)]
pub enum UnaryOperator {
    Negate,
    ToByte,
    ToChar,
    ToShort,
}

/// An operator on two ints.
#[derive(Clone, Copy, Debug, PartialEq, Eq)]
pub enum BinaryOperator {
    Add,
    Subtract,
    Multiply,
    Divide,
    Remainder,
    ShiftLeft,
    ShiftRight,
    ShiftRightUnsigned,
    And,
    Or,
    Xor,
}

/// How an int is compared: with 0, or with the int above it on the stack.
#[derive(Clone, Copy, Debug, PartialEq, Eq)]
pub enum Condition {
    Equal,
    NotEqual,
    Less,
    GreaterOrEqual,
    Greater,
    LessOrEqual,
}

/// How a reference is compared: with null, or with the reference above it on the stack.
#[derive(Clone, Copy, Debug, PartialEq, Eq)]
pub enum Equality {
    Equal,
    NotEqual,
}

/// An instruction on an array of ints.
#[derive(Clone, Copy, Debug, PartialEq, Eq)]
pub enum ArrayOperation {
    New,
    Load,
    Store,
    Length,
}

/// An instruction on a field.
#[derive(Clone, Copy, Debug, PartialEq, Eq)]
pub enum FieldOperation {
    GetStatic,
    GetField,
    PutField,
}

/// How a method of a class is invoked.
#[derive(Clone, Copy, Debug, PartialEq, Eq)]
pub enum InvokeKind {
    Virtual,
    Special,
    Static,
}

/// An instruction that names a class or an array type.
#[derive(Clone, Copy, Debug, PartialEq, Eq)]
pub enum ClassOperation {
    New,
    CheckCast,
    InstanceOf,
}

/// A case of lookupswitch: the int that it is for, and how far its branch goes.
#[derive(Clone, Copy, Debug, PartialEq, Eq)]
pub struct SwitchCase {
    pub key: i32,
    pub branch: i32,
}

/// An instruction as the code spells it. Short, long and wide forms of one instruction are one
/// variant. A branch counts from the instruction's own offset. An `index` is one of the constant
/// pool of the class, and so is the number that comes with an operation or a kind of invoking.
#[derive(Debug, Drop)]
pub enum Insn {
    /// nop.
    Nop,
    /// aconst_null: pushes null.
    Null,
    /// iconst_m1 to iconst_5, bipush, sipush: pushes an int.
    Constant(i32),
    /// ldc, ldc_w: pushes the constant of this index.
    LoadConstant(u16),
    /// iload, aload: pushes a local variable.
    Load(ValueKind, u16),
    /// istore, astore: pops into a local variable.
    Store(ValueKind, u16),
    /// iinc: adds to a local variable.
    Increment {
        local: u16,
        by: i16,
    },
    /// pop to swap.
    Stack(StackOperation),
    /// ineg, i2b, i2c, i2s.
    Unary(UnaryOperator),
    /// iadd to ixor.
    Binary(BinaryOperator),
    /// newarray of ints, iaload, iastore, arraylength.
    Array(ArrayOperation),
    /// ifeq to ifle: compares an int with 0.
    If {
        condition: Condition,
        branch: i32,
    },
    /// if_icmpeq to if_icmple: compares two ints.
    IfCompare {
        condition: Condition,
        branch: i32,
    },
    /// if_acmpeq, if_acmpne: compares two references.
    IfSame {
        equality: Equality,
        branch: i32,
    },
    /// ifnull, ifnonnull: compares a reference with null.
    IfNull {
        equality: Equality,
        branch: i32,
    },
    /// goto, goto_w.
    Goto {
        branch: i32,
    },
    /// tableswitch: a branch for each int from the lowest on, at least one.
    TableSwitch {
        default: i32,
        low: i32,
        branches: Row<i32>,
    },
    /// lookupswitch: cases whose keys rise.
    LookupSwitch {
        default: i32,
        cases: Row<SwitchCase>,
    },
    /// ireturn, areturn: returns a value.
    ReturnValue(ValueKind),
    /// return: returns nothing.
    Return,
    /// athrow.
    Throw,
    /// getstatic, getfield, putfield.
    Field(FieldOperation, u16),
    /// invokevirtual, invokespecial, invokestatic.
    Invoke(InvokeKind, u16),
    /// invokeinterface, with the number of the receiver and the arguments that it tells.
    InvokeInterface {
        index: u16,
        count: u8,
    },
    /// new, checkcast, instanceof.
    Class(ClassOperation, u16),
}
