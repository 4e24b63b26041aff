//! The type checker (JVMS 4.10.1): it accepts a class set exactly if every method is type safe.
#![tactic(auto)]

pub use accepted::{Accepted, accept};
pub use laws::one_typing;
pub use ver_frames::{
    ArrayOperation, BinaryOperator, CastType, Class, ClassFile, ClassId, ClassSet, Code, Condition,
    ElementType, Equality, Field, FieldType, Flags, InvokeKind, Linked, LinkedCode, LinkedInsn,
    LinkedMethod, LinkedSwitch, MemberIndex, Method, MethodDescriptor, MethodId, MethodView,
    Numbered, Pool, Row, Shared, StackMapFault, StackMapRule, StackOperation, Table, Text,
    TypeChange, TypeFrame, UnaryOperator, VType, ValueKind,
};
pub use ver_rules::{CheckFault, CheckRule};

mod accepted;
mod all_methods;
mod body;
mod check;
mod effects;
mod flow;
mod indices;
mod laws;
mod members;
mod steps;
mod stop;
