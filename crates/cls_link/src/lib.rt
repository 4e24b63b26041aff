//! Linking (JVMS 5.4): the instructions of each method with their branch targets and references
//! resolved before anything runs, and the look-ups of members by name and descriptor.
#![tactic(auto)]

pub use cf_insns::{
    ArrayOperation, BinaryOperator, CodeRule, Condition, Equality, InvokeKind, StackOperation,
    UnaryOperator, ValueKind,
};
pub use cls_resolve::{CastType, LinkRule, MemberIndex};
pub use cls_set::{
    Class, ClassFile, ClassId, ClassSet, Code, ElementType, Field, FieldType, Flags, Method,
    MethodDescriptor, Numbered, Parameters, Pool, Row, SetFault, SetRule, Shared, Table, Text,
};
pub use fault::LinkFault;
pub use linked::{Linked, link};
pub use linked_code::{
    FieldSlot, LinkedCode, LinkedInsn, LinkedMethod, LinkedSwitch, MethodId, Selection,
};

mod fault;
mod fields;
mod linked;
mod linked_code;
mod linking;
mod methods;
mod naming;
mod stop;
mod targets;
