//! The registry of a space: names, each bound to an own standing object, in the order in which they
//! were bound (Java RMI specification, chapter on the registry; the order is our own).
//!
//! A contract sees it as the list of its bindings. Each change is a definition over that list: what
//! is refused, and why, and what is left. A call finds a name by a hash table, and costs the same
//! whatever the number of the names.
#![tactic(auto)]

pub use fault::{BindFault, RegistryFault};
pub use name::Name;
pub use registry::{Binding, Registry};
pub use table::Bindings;

mod counts;
mod fault;
pub mod laws;
mod name;
mod registry;
mod table;
