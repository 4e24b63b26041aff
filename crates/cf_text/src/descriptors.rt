//! Reading descriptors (JVMS 4.3), off the front of a text. A fault is at the position at which
//! the text is used.

ghost use Rattle.std.specs.Prelude.{◌≡◌, ◌<◌, ◌≤◌, length, IsTrue, IfOk};
ghost use Rattle.cf_text.specs.Reading.{Gives, GivesSeen};
ghost use Rattle.cf_text.specs.Descriptors.{IsDescriptor};
ghost use Rattle.cf_text.specs.Looks.{Exactly};
ghost use Rattle.cf_text.specs.Types.{begins_with, class_type_of, descriptor_in, descriptor_of, dimensions_of, element_type_of, field_descriptor_of, field_type_of, letter_type, method_descriptor_of, name_length, parameters_of, result_of};

use super::{
    Descriptor, ElementType, FieldType, KnownTypes, MethodDescriptor, ReadDescriptor, ReadFault,
    Row, Rule, Shared, Text, is_class_name,
};
use std::alloc::{AllocError, Global};

fn malformed(at: usize) -> ReadFault
    ensures { result ≡ ReadFault.Broken Rule.Descriptor at }
{
    ReadFault::Broken {
        rule: Rule::Descriptor,
        at,
    }
}

// How many brackets stand in front.
fn dimensions(text: &[u8]) -> usize
    ensures value { result ≡ dimensions_of text.now }
    ensures within { result ≤ length text.now }
{
    for (count, byte) in text.iter().enumerate() {
        if *byte != b'[' {
            return count;
        }
    }
    text.len()
}

// How many bytes stand before the first semicolon: all of them if there is none.
fn name_length(text: &[u8]) -> usize
    ensures value { result ≡ name_length text.now }
    ensures within { result ≤ length text.now }
{
    for (count, byte) in text.iter().enumerate() {
        if *byte == b';' {
            return count;
        }
    }
    text.len()
}

/// Returns whether a text begins with a byte.
pub fn begins_with(text: &[u8], byte: u8) -> bool
    ensures value { result ≡ begins_with byte text.now }
    ensures some { IsTrue result → 0 < length text.now }
{
    match text {
        [first, ..] => *first == byte,
        [] => false,
    }
}

// What a letter says by itself.
fn letter_type(letter: u8) -> Option<ElementType>
    ensures { result ≡ letter_type letter }
{
    match letter {
        b'B' => Some(ElementType::Byte),
        b'C' => Some(ElementType::Char),
        b'D' => Some(ElementType::Double),
        b'F' => Some(ElementType::Float),
        b'I' => Some(ElementType::Int),
        b'J' => Some(ElementType::Long),
        b'S' => Some(ElementType::Short),
        b'Z' => Some(ElementType::Boolean),
        _ => None,
    }
}

// A class after its `L`, off the front of a text. The name shares the bytes of the text.
#[tactic(auto, unfolding(crate::specs::Types::class_type_of))]
fn class_type(rest: &mut Text, at: usize) -> Result<ElementType, ReadFault>
    ensures { GivesSeen (λ x. (x, rest.new)) (class_type_of at rest.old) result }
{
    let text = rest.as_bytes();
    let length = name_length(text);
    if length == text.len() || !is_class_name(&text[..length]) {
        return Err(malformed(at));
    }
    let name = rest.front(length)?;
    rest.advance(length + 1);
    Ok(ElementType::Class(name))
}

#[tactic(auto, unfolding(crate::specs::Types::element_type_of))]
fn element_type(rest: &mut Text, at: usize) -> Result<ElementType, ReadFault>
    ensures { GivesSeen (λ x. (x, rest.new)) (element_type_of at rest.old) result }
{
    let [letter, ..] = rest.as_bytes() else {
        return Err(malformed(at));
    };
    let letter = *letter;
    rest.advance(1);
    if letter == b'L' {
        return class_type(rest, at);
    }
    match letter_type(letter) {
        None => Err(malformed(at)),
        Some(element) => Ok(element),
    }
}

// A field type, off the front of a text.
#[tactic(auto, unfolding(crate::specs::Types::field_type_of))]
fn field_type(rest: &mut Text, at: usize) -> Result<FieldType, ReadFault>
    ensures { GivesSeen (λ x. (x, rest.new)) (field_type_of at rest.old) result }
{
    let dimensions = dimensions(rest.as_bytes());
    if dimensions > 255 {
        return Err(malformed(at));
    }
    rest.advance(dimensions);
    let element = element_type(rest, at)?;
    let dimensions = dimensions as u8;
    Ok(FieldType {
        dimensions,
        element,
    })
}

// The bytes of a text from `from` on up to `to`: none if they are not in order.
fn between(text: &[u8], from: usize, to: usize) -> &[u8] {
    if from <= to && to <= text.len() {
        &text[from..to]
    } else {
        &[]
    }
}

// A field type, off the front of the rest of a text, in its one place in memory.
fn known_type<'a>(
    alloc: Global,
    known: &mut KnownTypes<'a>,
    text: &'a [u8],
    rest: &mut Text,
    at: usize,
) -> Result<Shared<FieldType>, ReadFault>
    ensures { GivesSeen (λ x. (x, rest.new)) (field_type_of at rest.old) result }
{
    let from = text.len().saturating_sub(rest.as_bytes().len());
    let kind = field_type(rest, at)?;
    let to = text.len().saturating_sub(rest.as_bytes().len());
    Ok(known.share(alloc, between(text, from, to), kind)?)
}

// At most `most` field types, up to a closing parenthesis, off the front of the rest of a text.
fn parameters<'a>(
    alloc: Global,
    known: &mut KnownTypes<'a>,
    text: &'a [u8],
    rest: &mut Text,
    most: usize,
    at: usize,
) -> Result<Row<Shared<FieldType>>, ReadFault>
    ensures { GivesSeen (λ x. (x, rest.new)) (parameters_of most at rest.old) result }
{
    let mut types = Vec::new(alloc);
    for _ in 0..most {
        if begins_with(rest.as_bytes(), b')') {
            rest.advance(1);
            return Ok(Row::new(types));
        }
        let parameter = known_type(alloc, known, text, rest, at)?;
        types.push(parameter)?;
    }
    Err(malformed(at))
}

/// Returns the field type that a text is (JVMS 4.3.2). A text that is none is a fault at `at`.
#[tactic(auto, unfolding(crate::specs::Types::field_descriptor_of))]
pub fn read_field_descriptor(text: &Text, at: usize) -> Result<FieldType, ReadFault>
    ensures { Gives (field_descriptor_of at text.now) result }
{
    let mut rest = text.copy()?;
    let kind = field_type(&mut rest, at)?;
    if !rest.as_bytes().is_empty() {
        return Err(malformed(at));
    }
    Ok(kind)
}

#[tactic(auto, unfolding(crate::specs::Types::result_of, crate::specs::Types::field_descriptor_of))]
fn method_result<'a>(
    alloc: Global,
    known: &mut KnownTypes<'a>,
    text: &'a [u8],
    rest: &mut Text,
    at: usize,
) -> Result<Option<Shared<FieldType>>, ReadFault>
    ensures { Gives (result_of at rest.old) result }
{
    if begins_with(rest.as_bytes(), b'V') {
        return if rest.as_bytes().len() == 1 {
            Ok(None)
        } else {
            Err(malformed(at))
        };
    }
    let kind = known_type(alloc, known, text, rest, at)?;
    if !rest.as_bytes().is_empty() {
        return Err(malformed(at));
    }
    Ok(Some(kind))
}

/// Returns the method descriptor that a text is (JVMS 4.3.3), whose types are shared with those that
/// were read before. A text that is none is a fault at `at`.
#[tactic(auto, unfolding(crate::specs::Types::method_descriptor_of))]
pub fn read_method_descriptor<'a>(
    alloc: Global,
    known: &mut KnownTypes<'a>,
    text: &'a Text,
    at: usize,
) -> Result<ReadDescriptor, ReadFault>
    ensures { Gives (method_descriptor_of at text.now) result }
{
    let bytes = text.as_bytes();
    if !begins_with(bytes, b'(') {
        return Err(malformed(at));
    }
    let mut rest = text.copy()?;
    rest.advance(1);
    // A parameter takes a byte at least.
    let parameters = parameters(alloc, known, bytes, &mut rest, bytes.len(), at)?;
    let result = method_result(alloc, known, bytes, &mut rest, at)?;
    Ok(ReadDescriptor { parameters, result })
}

fn packed_descriptor<'a>(
    alloc: Global,
    known: &mut KnownTypes<'a>,
    text: &'a Text,
) -> Result<MethodDescriptor, ReadFault>
    ensures { Gives (method_descriptor_of 0 text.now) result }
{
    let read = read_method_descriptor(alloc, known, text, 0)?;
    Ok(read.packed(alloc)?)
}

// The method descriptor that a text is. The types that it names are known here alone.
fn method_descriptor(alloc: Global, text: &Text) -> Result<MethodDescriptor, ReadFault>
    ensures { Gives (method_descriptor_of 0 text.now) result }
{
    let mut known = KnownTypes::new(alloc);
    packed_descriptor(alloc, &mut known, text)
}

#[tactic(auto, unfolding(crate::specs::Types::descriptor_of))]
fn any_descriptor(alloc: Global, text: &Text) -> Result<Descriptor, ReadFault>
    ensures { Gives (descriptor_of text.now) result }
{
    if begins_with(text.as_bytes(), b'(') {
        let method = method_descriptor(alloc, text)?;
        return Ok(Descriptor::Method(method));
    }
    let kind = read_field_descriptor(text, 0)?;
    Ok(Descriptor::Field(kind))
}

#[tactic(auto, unfolding(crate::specs::Types::descriptor_in))]
fn descriptor_in(alloc: Global, text: &Text) -> Result<Option<Descriptor>, AllocError>
    ensures { IfOk result (λ found. found ≡ descriptor_in text.now) }
{
    match any_descriptor(alloc, text) {
        Ok(found) => Ok(Some(found)),
        Err(ReadFault::Broken { .. }) => Ok(None),
        Err(ReadFault::Memory) => Err(AllocError),
    }
}

/// Returns what a text says as a descriptor (JVMS 4.3): a method descriptor if it begins with `(`,
/// else a field type, and `None` exactly if it is neither. `Err` is out of memory. Every type of
/// the standard is read, in this project's profile or not.
pub fn descriptor(alloc: Global, text: &Text) -> Result<Option<Descriptor>, AllocError>
    // The one descriptor that the text spells, or none if it spells none.
    ensures exactly { IfOk result (λ found. Exactly found (IsDescriptor text.now)) }
    ensures value { IfOk result (λ found. found ≡ descriptor_in text.now) }
{
    descriptor_in(alloc, text)
}
