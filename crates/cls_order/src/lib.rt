//! The classes of some files and the built-in ones while a class set is built: in the order of their names,
//! with their supertypes by index, each ranked above its direct supertypes (JVMS 4.10.1.2, 5.3.5).
#![tactic(auto)]

pub use building::{gather, last_name, refuse_cycles, refuse_duplicates, refuse_many};
pub use class::Class;
pub use class_marks::ClassMarks;
pub use drafts::{Draft, Index};
pub use entries::{Entry, find, is_in};
pub use fault::{SetFault, SetRule};
pub use reaching::{by_rank, spread};
pub use resolving::{broken, resolve};
pub use subtype_tables::tables;

mod building;
mod built_in;
mod class;
mod class_marks;
mod drafts;
mod entries;
mod fault;
mod mentions;
mod ranking;
mod reaching;
mod resolving;
mod subtype_tables;
mod walking;
