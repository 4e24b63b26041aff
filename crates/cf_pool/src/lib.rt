//! The constant pool of a class file (JVMS 4.4): its entries by index, and what they name.
#![tactic(auto)]

pub use cf_text::{
    CLASS_INITIALIZER, Descriptor, ElementType, FieldType, FileBytes, INITIALIZER,
    MethodDescriptor, Numbered, ReadFault, Row, Rule, Table, Text, begins_with, demand, descriptor,
    is_class_name, is_method_name, is_modified_utf8, is_name, read_field_descriptor, read_i32,
    read_method_descriptor, read_row, read_text, read_u8, read_u16, read_u32, short_position, skip,
};
pub use check::check_pool;
pub use entries::{one_pool, read_layout, read_pool};
pub use layout::{PoolLayout, Positions};
pub use pool::{Entry, MemberKind, MemberRef, NameAndTypeRef, Pool, look_ups};

mod check;
mod entries;
mod layout;
mod pool;
