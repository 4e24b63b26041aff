//! Class files of the parts that rows name.

use super::spelling::{flags_of, items_of};
use class_builder::{
    AttributeParts, BuildFault, ClassParts, CodeParts, FieldParts, MethodParts, class_bytes,
};
use std::alloc::Global;
use test_rows::RowFault;

/// The bytes of a class file, or why its parts make none.
pub type Made = Result<Vec<u8>, BuildFault>;

// iconst_0, ireturn.
const ZERO: CodeParts<'static> = CodeParts {
    max_stack: 1,
    max_locals: 4,
    bytes: &[0x03, 0xac],
    attributes: &[],
};

// aconst_null, areturn.
const NULL: CodeParts<'static> = CodeParts {
    max_stack: 1,
    max_locals: 4,
    bytes: &[0x01, 0xb0],
    attributes: &[],
};

// return.
const NOTHING: CodeParts<'static> = CodeParts {
    max_stack: 0,
    max_locals: 4,
    bytes: &[0xb1],
    attributes: &[],
};

// Returns what the call answers. This function promises nothing, so that a row is proved at once.
fn made(alloc: Global, class: &ClassParts) -> Made {
    class_bytes(alloc, class)
}

/// Returns the class file of a public class of this name below java/lang/Object, without members.
pub fn bare_class(alloc: Global, name: &str) -> Made {
    let class = ClassParts {
        flags: 0x0021,
        name,
        superclass: "java/lang/Object",
        interfaces: &[],
        fields: &[],
        methods: &[],
        attributes: &[],
    };
    made(alloc, &class)
}

/// Returns the class file of the parts of the class of examples/sum.
pub fn example(alloc: Global) -> Made {
    let frames = AttributeParts {
        name: "StackMapTable",
        bytes: b"\x00\x02\xfc\x00\x02\x01\x0d",
    };
    let code = CodeParts {
        max_stack: 2,
        max_locals: 2,
        bytes: b"\x03\x3c\x1a\x9e\x00\x0d\x1b\x1a\x60\x3c\x84\x00\xff\xa7\xff\xf5\x1b\xac",
        attributes: &[frames],
    };
    let method = MethodParts {
        flags: 0x0009,
        name: "f",
        descriptor: "(I)I",
        code: Some(code),
        attributes: &[],
    };
    let class = ClassParts {
        flags: 0x0021,
        name: "T",
        superclass: "java/lang/Object",
        interfaces: &[],
        fields: &[],
        methods: &[method],
        attributes: &[],
    };
    made(alloc, &class)
}

/// Returns the class file of the parts that words name.
pub fn class_file(alloc: Global, words: &[&str]) -> Result<Made, RowFault> {
    let [flags, name, superclass, interfaces, fields, methods] = words else {
        return Err(RowFault::Bad);
    };
    let interfaces = items_of(alloc, interfaces)?;
    let fields = fields_of(alloc, fields)?;
    let methods = methods_of(alloc, methods)?;
    let class = ClassParts {
        flags: flags_of(flags)?,
        name: *name,
        superclass: *superclass,
        interfaces: interfaces.as_slice(),
        fields: fields.as_slice(),
        methods: methods.as_slice(),
        attributes: &[],
    };
    Ok(made(alloc, &class))
}

fn fields_of<'a>(alloc: Global, word: &'a str) -> Result<Vec<FieldParts<'a>>, RowFault> {
    let mut fields = Vec::new(alloc);
    for item in &items_of(alloc, word)? {
        let parts: Vec<&str> = item.split(':').collect(alloc)?;
        fields.push(field_of(parts.as_slice())?)?;
    }
    Ok(fields)
}

// A field, with a constant if there is a value.
fn field_of<'a>(parts: &[&'a str]) -> Result<FieldParts<'a>, RowFault> {
    let (flags, name, descriptor, constant) = match parts {
        [flags, name, descriptor] => (flags, name, descriptor, None),
        [flags, name, descriptor, value] => (flags, name, descriptor, Some(int(value)?)),
        _ => return Err(RowFault::Bad),
    };
    Ok(FieldParts {
        flags: flags_of(flags)?,
        name: *name,
        descriptor: *descriptor,
        constant,
        attributes: &[],
    })
}

fn int(word: &str) -> Result<i32, RowFault> {
    word.parse::<i32>().map_err(|_| RowFault::Bad)
}

fn methods_of<'a>(alloc: Global, word: &'a str) -> Result<Vec<MethodParts<'a>>, RowFault> {
    let mut methods = Vec::new(alloc);
    for item in &items_of(alloc, word)? {
        let parts: Vec<&str> = item.split(':').collect(alloc)?;
        methods.push(method_of(parts.as_slice())?)?;
    }
    Ok(methods)
}

// A method, with code if it is to return 0, null or nothing.
fn method_of<'a>(parts: &[&'a str]) -> Result<MethodParts<'a>, RowFault> {
    let (flags, name, descriptor, code) = match parts {
        [flags, name, descriptor] => (flags, name, descriptor, None),
        [flags, name, descriptor, "i"] => (flags, name, descriptor, Some(ZERO)),
        [flags, name, descriptor, "a"] => (flags, name, descriptor, Some(NULL)),
        [flags, name, descriptor, "v"] => (flags, name, descriptor, Some(NOTHING)),
        _ => return Err(RowFault::Bad),
    };
    Ok(MethodParts {
        flags: flags_of(flags)?,
        name: *name,
        descriptor: *descriptor,
        code,
        attributes: &[],
    })
}
