//! Class files (JVMS 4.1 to 4.7): what a file says, read from its bytes.
#![tactic(auto)]

pub use cf_layout::MAX_LEN;
pub use cf_pool::{
    Descriptor, ElementType, Entry, FieldType, MemberKind, MethodDescriptor, Numbered, Pool,
    ReadFault, Row, Rule, Table, Text,
};
pub use cf_text::{Parameters, Shared};
pub use class_file::{ClassFile, Code, Field, Method};
pub use class_read::ReadClass;
pub use flags::Flags;
pub use read::{demands_rise, one_reading, read_class};

mod attributes;
mod build;
mod check;
mod class_file;
mod class_read;
mod flags;
mod members;
mod names;
mod profile;
mod read;
mod rules;
