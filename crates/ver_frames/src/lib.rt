//! Type frames of a method (JVMS 4.10.1): the types of its local variables and operands at an
//! instruction, which types may stand for which, and the frames that its StackMapTable declares.
#![tactic(auto)]

pub use assignability::{assignable, frame_assignable};
pub use changes::TypeChange;
pub use cls_link::{
    ArrayOperation, BinaryOperator, CastType, Class, ClassFile, ClassId, ClassSet, Code, Condition,
    ElementType, Equality, Field, FieldType, Flags, InvokeKind, Linked, LinkedCode, LinkedInsn,
    LinkedMethod, LinkedSwitch, MemberIndex, Method, MethodDescriptor, MethodId, Numbered, Pool,
    Row, Shared, StackOperation, Table, Text, UnaryOperator, ValueKind,
};
pub use declared_frames::{DeclaredFrame, DeclaredFrames};
pub use fault::{StackMapFault, StackMapRule};
pub use frame::TypeFrame;
pub use method::{MethodView, field_vtype};
pub use stack_map::declared;
pub use vtype::VType;

mod assignability;
mod chain;
mod changes;
mod declared_frames;
mod fault;
mod frame;
mod items;
mod layout;
mod method;
mod raw_frame;
mod stack_map;
mod vtype;
