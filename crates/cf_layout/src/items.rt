//! The raw items of a class file, with their positions.

use cf_pool::{PoolLayout, Table};

/// A number of two bytes, and its position.
#[derive(Clone, Copy, Debug, PartialEq, Eq)]
pub struct Item {
    pub at: u32,
    pub value: u16,
}

/// An attribute (JVMS 4.7): its name, and the positions at which the bytes after its length begin
/// and end.
#[derive(Clone, Copy, Debug, PartialEq, Eq)]
pub struct Attribute {
    pub name: Item,
    pub body: u32,
    pub end: u32,
}

/// A field or a method (JVMS 4.5, 4.6).
#[derive(Debug, Drop)]
pub struct Member {
    pub flags: Item,
    pub name: Item,
    pub descriptor: Item,
    pub attributes: Table<Attribute>,
}

/// A class file (JVMS 4.1) after its version.
#[derive(Drop)]
pub struct Layout {
    pub pool: PoolLayout,
    pub flags: Item,
    pub this: Item,
    pub superclass: Item,
    pub interface_count: Item,
    pub interfaces: Table<Item>,
    pub field_count: Item,
    pub fields: Table<Member>,
    pub method_count: Item,
    pub methods: Table<Member>,
    pub attributes: Table<Attribute>,
}

/// What stands at the front of a Code attribute (JVMS 4.7.3).
#[derive(Clone, Copy, Debug, PartialEq, Eq)]
pub struct CodeHead {
    pub max_stack: u16,
    pub max_locals: u16,
    pub length_at: usize,
    pub length: u32,
    /// The position of the code's first byte.
    pub code: usize,
}

/// A Code attribute (JVMS 4.7.3).
#[derive(Debug, Drop)]
pub struct CodeLayout {
    pub head: CodeHead,
    /// The position after the code's last byte.
    pub code_end: usize,
    pub handler_count: Item,
    pub attributes: Table<Attribute>,
}
