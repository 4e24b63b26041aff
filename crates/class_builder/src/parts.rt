//! The parts of a class file (JVMS 4.1, 4.5, 4.6, 4.7.2, 4.7.3).

/// A class: its version is 52.0.
#[derive(Clone, Copy)]
pub struct ClassParts<'a> {
    pub flags: u16,
    pub name: &'a str,
    pub superclass: &'a str,
    pub interfaces: &'a [&'a str],
    pub fields: &'a [FieldParts<'a>],
    pub methods: &'a [MethodParts<'a>],
    pub attributes: &'a [AttributeParts<'a>],
}

/// A field. Its ConstantValue attribute comes before the others.
#[derive(Clone, Copy)]
pub struct FieldParts<'a> {
    pub flags: u16,
    pub name: &'a str,
    pub descriptor: &'a str,
    pub constant: Option<i32>,
    pub attributes: &'a [AttributeParts<'a>],
}

/// A method. Its Code attribute comes before the others.
#[derive(Clone, Copy)]
pub struct MethodParts<'a> {
    pub flags: u16,
    pub name: &'a str,
    pub descriptor: &'a str,
    pub code: Option<CodeParts<'a>>,
    pub attributes: &'a [AttributeParts<'a>],
}

/// A Code attribute without exception handlers. A StackMapTable is one of its attributes.
#[derive(Clone, Copy)]
pub struct CodeParts<'a> {
    pub max_stack: u16,
    pub max_locals: u16,
    /// The instructions.
    pub bytes: &'a [u8],
    pub attributes: &'a [AttributeParts<'a>],
}

/// An attribute by its name and the bytes after its length.
#[derive(Clone, Copy)]
pub struct AttributeParts<'a> {
    pub name: &'a str,
    pub bytes: &'a [u8],
}
