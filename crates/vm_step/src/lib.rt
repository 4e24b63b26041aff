//! Tasks: methods that run on the machine (JVMS 6.5), each with its own frames, heap, limits and fuel.
//!
//! The machine has bare words and makes no test of a kind, an index or a depth. That it makes exactly
//! the steps of the machine over tagged values, and that this machine is never stuck, is what the
//! contracts of `Task` say.
#![tactic(auto)]

pub use fault::StartFault;
pub use limits::Limits;
pub use outcome::{Outcome, Pause};
pub use program::Program;
pub use task::Task;
pub use ver_check::{Accepted, Linked, MethodId, Numbered};
pub use vm_code::{Asked, FieldValue, Reply};
pub use vm_heap::{ClassId, ObjId, Ref, Row, Uuid, Value};

mod fault;
mod found;
pub mod laws;
mod limits;
mod opening;
mod outcome;
mod phase;
mod program;
mod receiving;
mod run;
mod start;
mod task;
mod thrown;
