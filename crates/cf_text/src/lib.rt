//! What class files are spelled with: names, texts in modified UTF-8 and descriptors (JVMS 4.2, 4.3,
//! 4.4.7); and what all reading of them stands on: numbers, tables, and faults with their number and
//! position.
#![tactic(auto)]

pub use base_types::{Numbered, Row};
pub use demands::demand;
pub use descriptors::{begins_with, descriptor, read_field_descriptor, read_method_descriptor};
pub use fault::{ReadFault, Rule};
pub use interning::{Interner, TypeTable};
pub use known::KnownTypes;
pub use names::{CLASS_INITIALIZER, INITIALIZER, is_class_name, is_method_name, is_name};
pub use numbers::{
    read_i32, read_row, read_text, read_u8, read_u16, read_u32, short_position, skip,
};
pub use parameters::{ParameterTypes, Parameters};
pub use shared::Shared;
pub use table::Table;
pub use text::{FileBytes, Text};
pub use types::{Descriptor, ElementType, FieldType, MethodDescriptor, ReadDescriptor};
pub use utf8::is_modified_utf8;

mod demands;
mod descriptors;
mod fault;
mod interning;
mod known;
mod names;
mod numbers;
mod parameters;
mod shared;
mod table;
mod text;
mod types;
mod utf8;
