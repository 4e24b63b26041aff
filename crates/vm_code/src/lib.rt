//! The instructions of linked code on the machine of a task (JVMS 6.5): what they name is looked up in
//! the tables of the class set, and the step is made by the function of vm_act for it. `act` takes no
//! memory.
//!
//! The caller proves what an instruction demands (operands of a kind, a field, a method); nothing
//! tests it.
#![tactic(auto)]

pub use casts::{is_below_remote, is_remote_interface, is_subtype};
pub use cls_link::{Linked, LinkedInsn, MemberIndex, MethodId};
pub use cls_tables::Tables;
pub use methods::{callee, is_interface, is_public, selection};
pub use passing::{arguments, is_array};
pub use step::act;
pub use vm_act::{
    Asked, Callee, Ending, FieldValue, Flow, Machine, Parameter, Referent, Reply, Selected, Thrown,
    WordKind,
};

mod calls;
mod casts;
mod fields;
mod ints;
pub mod methods;
mod operands;
mod operators;
mod passing;
mod step;
