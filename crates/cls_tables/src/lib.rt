//! Tables of a linked class set: what running asks of fields and of the methods that classes select.
#![tactic(auto)]

pub use cls_link::{ClassId, FieldSlot, Linked, MemberIndex, MethodId};
pub use tables::Tables;
pub use vm_heap::WordKind;

mod choices;
mod kinds;
mod numbers;
mod remote;
mod rows;
mod slots;
mod tables;
mod trees;
