//! What a class file says, as far as this project uses it.

use super::Flags;
use cf_pool::{FieldType, MethodDescriptor, Pool, Row, Table, Text};
use cf_text::Shared;

/// A class or interface (JVMS 4.1). Texts and types that members share stand once in memory, so that a
/// class takes a few times as many bytes as its file.
#[derive(Drop)]
pub struct ClassFile {
    pub pool: Pool,
    pub flags: Flags,
    pub name: Text,
    /// The name of the direct superclass: `None` for java/lang/Object alone, which no file holds.
    pub superclass: Option<Text>,
    /// The names of the direct superinterfaces, as declared.
    pub interfaces: Table<Text>,
    pub fields: Table<Field>,
    pub methods: Table<Method>,
}

/// A field (JVMS 4.5).
#[derive(Drop)]
pub struct Field {
    pub flags: Flags,
    pub name: Text,
    pub descriptor: Text,
    /// What the descriptor says.
    pub kind: Shared<FieldType>,
    /// The value of a static field's ConstantValue attribute (JVMS 4.7.2).
    pub constant: Option<i32>,
}

/// A method (JVMS 4.6).
#[derive(Drop)]
pub struct Method {
    pub flags: Flags,
    pub name: Text,
    pub descriptor: Text,
    /// What the descriptor says.
    pub types: Shared<MethodDescriptor>,
    /// The Code attribute: `None` for an abstract method. All abstract methods of a class share it.
    pub code: Shared<Option<Code>>,
}

/// A Code attribute (JVMS 4.7.3), without exception handlers, which the profile leaves out.
#[derive(Debug, Drop)]
pub struct Code {
    pub max_stack: u16,
    pub max_locals: u16,
    /// The bytes of the instructions, 1 to 65,535.
    pub bytes: Table<u8>,
    /// The bytes of the StackMapTable attribute after its length (JVMS 4.7.4), if there is one.
    pub stack_map_table: Option<Row<u8>>,
}
