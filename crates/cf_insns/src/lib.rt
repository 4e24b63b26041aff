//! Instructions (JVMS 6.5): the code of a method as a list of instructions.
#![tactic(auto)]

pub use cf_text::{Numbered, Row};
pub use decoder::decode;
pub use fault::{CodeFault, CodeRule};
pub use insn::{
    ArrayOperation, BinaryOperator, ClassOperation, Condition, Equality, FieldOperation, Insn,
    InvokeKind, StackOperation, SwitchCase, UnaryOperator, ValueKind,
};

mod control;
mod decoder;
mod fault;
mod insn;
pub mod laws;
mod members;
pub mod opcode;
mod operands;
mod reading;
mod switches;
mod values;
