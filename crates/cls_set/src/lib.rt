//! Class sets: the classes of some files and the built-in ones, numbered by name, with who extends
//! and implements whom (JVMS 4.10.1.2).
#![tactic(auto)]

pub use cf_reader::{
    ClassFile, Code, ElementType, Field, FieldType, Flags, Method, MethodDescriptor, Numbered,
    Parameters, Pool, Row, Shared, Table, Text,
};
pub use class::Class;
pub use class_set::ClassSet;
pub use fault::{SetFault, SetRule};
pub use space_ids::ClassId;

mod arranging;
mod class_set;
mod descending;
mod inheriting;
mod key_numbers;
mod members;
mod ordering;
mod remote;
mod rules;

pub mod class {
    pub use cls_order::Class;
}

pub mod fault {
    pub use cls_order::{SetFault, SetRule};
}
