//! What a layout says, once its demands hold.

ghost use Rattle.std.specs.Prelude.{◌≡◌, ◌≤◌, None, length};
ghost use Rattle.cf_descriptors.specs.Descriptors.{AreFieldTypes, AreMethodTypes, ArePackedTypes};
ghost use Rattle.cf_text.specs.Reading.{Gives, GivesSeen};
ghost use Rattle.cf_layout.specs.CodeLengths.{IsShort};
ghost use Rattle.cf_reader.specs.Builds.{class_from, class_name_of, code_from, code_in, constant_attribute, constant_from, each, field_from, members_from, method_from, parts_from, supertypes_from, table_in, text_of};

use super::attributes::{CODE, CONSTANT_VALUE, STACK_MAP_TABLE, first_named};
use super::{ClassFile, Code, Field, Flags, Method};
use cf_descriptors::{FieldTypes, MethodTypes, PackedTypes};
use cf_layout::{Attribute, CodeLayout, Item, Layout, Member, between, read_code, read_constant};
use cf_pool::{Pool, ReadFault, Row, Rule, Table, Text};
use cf_text::Shared;
use std::alloc::Global;

pub(crate) fn wrong_index(at: usize) -> ReadFault
    ensures { result ≡ ReadFault.Broken Rule.Index at }
{
    ReadFault::Broken {
        rule: Rule::Index,
        at,
    }
}

fn text_of(pool: &Pool, item: Item) -> Result<&Text, ReadFault>
    ensures { GivesSeen (λ text. text.now) (text_of pool.now item) result }
{
    match pool.utf8(item.value) {
        Some(text) => Ok(text),
        None => Err(wrong_index(item.at as usize)),
    }
}

fn class_name_of(pool: &Pool, item: Item) -> Result<Text, ReadFault>
    ensures { Gives (class_name_of pool.now item) result }
{
    let Some(name) = pool.class(item.value) else {
        return Err(wrong_index(item.at as usize));
    };
    Ok(name.copy()?)
}

fn table_in(
    alloc: Global,
    bytes: &[u8],
    table: Option<Attribute>,
) -> Result<Option<Row<u8>>, ReadFault>
    ensures { Gives (Ok (table_in bytes.now table)) result }
{
    match table {
        None => Ok(None),
        Some(attribute) => Ok(Some(between(
            alloc,
            bytes,
            attribute.body as usize,
            attribute.end as usize,
        )?)),
    }
}

#[tactic(auto, unfolding(crate::specs::Builds::code_in))]
fn code_in(alloc: Global, bytes: &[u8], pool: &Pool, code: &CodeLayout) -> Result<Code, ReadFault>
    requires short { IsShort code.now }
    ensures { Gives (Ok (code_in bytes.now pool.now code.now)) result }
{
    let head = code.head;
    let table = first_named(pool, STACK_MAP_TABLE, code.attributes.as_slice());
    let stack_map_table = table_in(alloc, bytes, table)?;
    let bytes = between(alloc, bytes, head.code, code.code_end)?;
    Ok(Code {
        max_stack: head.max_stack,
        max_locals: head.max_locals,
        bytes: Table::new(bytes.into_vec()),
        stack_map_table,
    })
}

fn code_from(
    alloc: Global,
    bytes: &[u8],
    pool: &Pool,
    no_code: &Shared<Option<Code>>,
    attribute: Option<Attribute>,
) -> Result<Shared<Option<Code>>, ReadFault>
    requires none { no_code.now ≡ None }
    ensures { Gives (code_from bytes.now pool.now attribute) result }
{
    match attribute {
        None => Ok(no_code.share()?),
        Some(attribute) => {
            let layout = read_code(alloc, bytes, attribute)?;
            let code = code_in(alloc, bytes, pool, &layout)?;
            Ok(Shared::new(alloc, Some(code))?)
        }
    }
}

#[tactic(auto, unfolding(crate::specs::Builds::method_from))]
fn method_from<'a>(
    alloc: Global,
    bytes: &[u8],
    pool: &Pool,
    known: &'a MethodTypes<'_>,
    packed: &mut PackedTypes<'a>,
    no_code: &Shared<Option<Code>>,
    method: &Member,
) -> Result<Method, ReadFault>
    requires none { no_code.now ≡ None }
    requires known { AreMethodTypes pool.now known.now }
    requires packed { ArePackedTypes pool.now packed.old }
    ensures value { Gives (method_from bytes.now pool.now method.now) result }
    ensures packed { ArePackedTypes pool.now packed.new }
{
    let name = text_of(pool, method.name)?.copy()?;
    let descriptor = text_of(pool, method.descriptor)?;
    let types = packed.pack(alloc, known, method.descriptor)?;
    let attribute = first_named(pool, CODE, method.attributes.as_slice());
    let code = code_from(alloc, bytes, pool, no_code, attribute)?;
    let flags = Flags {
        bits: method.flags.value,
    };
    Ok(Method {
        flags,
        name,
        descriptor: descriptor.copy()?,
        types,
        code,
    })
}

fn constant_from(
    bytes: &[u8],
    pool: &Pool,
    attribute: Option<Attribute>,
) -> Result<Option<i32>, ReadFault>
    ensures { Gives (constant_from bytes.now pool.now attribute) result }
{
    let Some(attribute) = attribute else {
        return Ok(None);
    };
    let index = read_constant(bytes, attribute)?;
    match pool.integer(index.value) {
        Some(value) => Ok(Some(value)),
        None => Err(wrong_index(index.at as usize)),
    }
}

// The attribute that gives a field its value: of static fields alone.
#[tactic(auto, unfolding(crate::specs::Builds::constant_attribute))]
fn constant_attribute(pool: &Pool, field: &Member) -> Option<Attribute>
    ensures { result ≡ constant_attribute pool.now field.now }
{
    let flags = Flags {
        bits: field.flags.value,
    };
    if flags.has(Flags::STATIC) {
        first_named(pool, CONSTANT_VALUE, field.attributes.as_slice())
    } else {
        None
    }
}

#[tactic(auto, unfolding(crate::specs::Builds::field_from))]
fn field_from<'a>(
    alloc: Global,
    bytes: &[u8],
    pool: &'a Pool,
    known: &mut FieldTypes<'a>,
    field: &Member,
) -> Result<Field, ReadFault>
    requires known { AreFieldTypes pool.now known.old }
    ensures value { Gives (field_from bytes.now pool.now field.now) result }
    ensures known { AreFieldTypes pool.now known.new }
{
    let name = text_of(pool, field.name)?.copy()?;
    let descriptor = text_of(pool, field.descriptor)?;
    let kind = known.read(alloc, pool, field.descriptor, descriptor)?;
    let flags = Flags {
        bits: field.flags.value,
    };
    let constant = constant_from(bytes, pool, constant_attribute(pool, field))?;
    Ok(Field {
        flags,
        name,
        descriptor: descriptor.copy()?,
        kind,
        constant,
    })
}

fn interfaces_from(alloc: Global, pool: &Pool, items: &[Item]) -> Result<Table<Text>, ReadFault>
    requires few { length items.now ≤ 65535 }
    ensures { Gives (each (class_name_of pool.now) items.now) result }
{
    let mut names = Vec::with_capacity(alloc, items.len())?;
    for item in items {
        let name = class_name_of(pool, *item)?;
        names.push(name)?;
    }
    Ok(Table::new(names))
}

fn fields_from(
    alloc: Global,
    bytes: &[u8],
    pool: &Pool,
    items: &[Member],
) -> Result<Table<Field>, ReadFault>
    requires few { length items.now ≤ 65535 }
    ensures { Gives (each (field_from bytes.now pool.now) items.now) result }
{
    let mut known = FieldTypes::new(alloc);
    let mut fields = Vec::with_capacity(alloc, items.len())?;
    for item in items {
        let field = field_from(alloc, bytes, pool, &mut known, item)?;
        fields.push(field)?;
    }
    Ok(Table::new(fields))
}

// The methods of a class, with the descriptors that are packed so far.
fn methods_with<'a>(
    alloc: Global,
    bytes: &[u8],
    pool: &Pool,
    known: &'a MethodTypes<'_>,
    packed: &mut PackedTypes<'a>,
    items: &[Member],
) -> Result<Table<Method>, ReadFault>
    requires known { AreMethodTypes pool.now known.now }
    requires packed { ArePackedTypes pool.now packed.old }
    requires few { length items.now ≤ 65535 }
    ensures { Gives (each (method_from bytes.now pool.now) items.now) result }
{
    let no_code = Shared::new(alloc, None)?;
    let mut methods = Vec::with_capacity(alloc, items.len())?;
    for item in items {
        let method = method_from(alloc, bytes, pool, known, packed, &no_code, item)?;
        methods.push(method)?;
    }
    Ok(Table::new(methods))
}

fn methods_from(
    alloc: Global,
    bytes: &[u8],
    pool: &Pool,
    items: &[Member],
) -> Result<Table<Method>, ReadFault>
    requires few { length items.now ≤ 65535 }
    ensures { Gives (each (method_from bytes.now pool.now) items.now) result }
{
    let known = MethodTypes::of(alloc, pool, items)?;
    let mut packed = PackedTypes::new(alloc, known.table(alloc)?);
    methods_with(alloc, bytes, pool, &known, &mut packed, items)
}

#[tactic(auto, unfolding(crate::specs::Builds::supertypes_from))]
fn supertypes_from(alloc: Global, layout: &Layout) -> Result<(Text, Table<Text>), ReadFault>
    ensures { Gives (supertypes_from layout.now) result }
{
    let pool = &layout.pool.pool;
    let superclass = class_name_of(pool, layout.superclass)?;
    let interfaces = interfaces_from(alloc, pool, layout.interfaces.as_slice())?;
    Ok((superclass, interfaces))
}

#[tactic(auto, unfolding(crate::specs::Builds::members_from))]
fn members_from(
    alloc: Global,
    bytes: &[u8],
    layout: &Layout,
) -> Result<(Table<Field>, Table<Method>), ReadFault>
    ensures { Gives (members_from bytes.now layout.now) result }
{
    let pool = &layout.pool.pool;
    let fields = fields_from(alloc, bytes, pool, layout.fields.as_slice())?;
    let methods = methods_from(alloc, bytes, pool, layout.methods.as_slice())?;
    Ok((fields, methods))
}

// What is made of a layout: the members, the supertypes and the name.
type Parts = ((Table<Field>, Table<Method>), (Text, Table<Text>), Text);

#[tactic(auto, unfolding(crate::specs::Builds::parts_from))]
fn parts_from(alloc: Global, bytes: &[u8], layout: &Layout) -> Result<Parts, ReadFault>
    ensures { Gives (parts_from bytes.now layout.now) result }
{
    let name = class_name_of(&layout.pool.pool, layout.this)?;
    let supertypes = supertypes_from(alloc, layout)?;
    let members = members_from(alloc, bytes, layout)?;
    Ok((members, supertypes, name))
}

/// The class file that a layout of these bytes says. The layout is lent to what may fail, so that it is let go
/// at one place.
pub(crate) fn class_from(
    alloc: Global,
    bytes: &[u8],
    layout: Layout,
) -> Result<ClassFile, ReadFault>
    ensures { Gives (class_from bytes.now layout) result }
{
    let ((fields, methods), (superclass, interfaces), name) = parts_from(alloc, bytes, &layout)?;
    let flags = Flags {
        bits: layout.flags.value,
    };
    Ok(ClassFile {
        pool: layout.pool.pool,
        flags,
        name,
        superclass: Some(superclass),
        interfaces,
        fields,
        methods,
    })
}
