//! The machine of a task (JVMS 6.5): frames and a heap of bare words, and what instructions do to them,
//! each by a function of its own whose definition is over tagged values.
//!
//! The caller gives it methods, classes, slots of fields and what a class selects, however it finds
//! them. The caller also proves what an instruction demands (operands of a kind, a local variable,
//! a field that is there); nothing tests it.
#![tactic(auto)]

pub use asked::{Asked, FieldValue, Reply};
pub use calls::{Callee, Selected};
pub use crossing::{CALL_BYTES, MOST_BYTES, Parameter};
pub use ending::{Ending, Flow, Thrown};
pub use machine::Machine;
pub use objects::Referent;
pub use vm_heap::{ClassId, Heap, Ref, References, Value, Word, WordKind};
pub use vm_stack::Stack;

mod arrays;
mod asked;
mod calls;
mod crossing;
mod ending;
mod machine;
mod objects;
mod operands;
mod switches;
