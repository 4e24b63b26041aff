//! What is demanded of fields and methods (JVMS 4.5, 4.6).

ghost use Rattle.std.specs.Prelude.{◌≡◌, ◌≤◌, OnOk, Some};
ghost use Rattle.cf_text.specs.Reading.{Gives};
ghost use Rattle.cf_text.specs.Types.{field_descriptor_of};
ghost use Rattle.cf_text.specs.Demands.{of_each, verdict};
ghost use Rattle.cf_pool.specs.Pools.{utf8_at};
ghost use Rattle.cf_layout.specs.ReadInsides.{insides_of};
ghost use Rattle.cf_descriptors.specs.Descriptors.{AreFieldTypes, AreMethodTypes};
ghost use Rattle.cf_reader.specs.Checks.{are_few, field_demands, field_demands_if, field_descriptor_demands, field_flag_demands, field_known, field_type_demands, flag_demands, is_initializer, is_int_read, is_int_text, method_demands, method_demands_if, method_descriptor_demands, method_flag_demands, method_type_demands, words_of};
ghost use Rattle.cf_reader.specs.MemberNames.{AreFieldNames, AreMethodNames};

use super::Flags;
use super::attributes::{CODE, CONSTANT_VALUE, Known, check_method_attributes, first_named};
use super::build::wrong_index;
use super::names::{FieldNames, MethodNames};
use super::profile::{
    field_flags_in_profile, is_int_type, is_profile_type, method_flags_in_profile,
    method_type_in_profile,
};
use super::rules::{field_flags_fit, method_flags_fit};
use cf_descriptors::{FieldTypes, MemberKeys, MethodTypes};
use cf_layout::{Item, Member};
use cf_pool::{ElementType, FieldType, INITIALIZER, Pool, ReadFault, Rule, Text, demand};
use cf_text::Shared;
use std::alloc::Global;

#[tactic(auto, unfolding(crate::specs::Checks::flag_demands, cf_text::specs::Demands::verdict))]
fn check_flags(at: usize, fit: bool, is_new: bool, is_in_profile: bool) -> Result<(), ReadFault>
    ensures { result ≡ verdict (flag_demands at fit is_new is_in_profile) }
{
    demand(!is_in_profile || fit, Rule::Flags, at)?;
    demand(is_new, Rule::Duplicate, at)?;
    demand(is_in_profile, Rule::OutOfProfile, at)
}

#[tactic(auto, unfolding(crate::specs::Checks::is_int_text))]
fn is_int_read<'a>(
    alloc: Global,
    pool: &'a Pool,
    known: &mut FieldTypes<'a>,
    descriptor: u16,
    text: &'a Text,
) -> Result<bool, ReadFault>
    requires named { utf8_at pool.now descriptor ≡ Some text.now }
    requires known { AreFieldTypes pool.now known.old }
    ensures value { Gives (Ok (is_int_read (field_descriptor_of 0 text.now))) result }
    ensures known { AreFieldTypes pool.now known.new }
{
    let item = Item {
        at: 0,
        value: descriptor,
    };
    match known.read(alloc, pool, item, text) {
        Ok(kind) => Ok(is_int_type(&kind)),
        Err(ReadFault::Memory) => Err(ReadFault::Memory),
        Err(ReadFault::Broken { .. }) => Ok(true),
    }
}

// Whether a static field may have this descriptor, or the descriptor is at fault itself.
#[tactic(auto, unfolding(crate::specs::Checks::is_int_text))]
fn is_int_text<'a>(
    alloc: Global,
    pool: &'a Pool,
    known: &mut FieldTypes<'a>,
    descriptor: u16,
) -> Result<bool, ReadFault>
    requires known { AreFieldTypes pool.now known.old }
    ensures value { Gives (Ok (is_int_text (utf8_at pool.now descriptor))) result }
    ensures known { AreFieldTypes pool.now known.new }
{
    match pool.utf8(descriptor) {
        Some(text) => is_int_read(alloc, pool, known, descriptor, text),
        None => Ok(true),
    }
}

#[tactic(auto, unfolding(crate::specs::Checks::field_flag_demands))]
fn check_field_flags<'a>(
    alloc: Global,
    pool: &'a Pool,
    known: &mut FieldTypes<'a>,
    class: Flags,
    is_new: bool,
    field: &Member,
) -> Result<(), ReadFault>
    requires known { AreFieldTypes pool.now known.old }
    ensures value { Gives (verdict (field_flag_demands pool.now class.bits is_new field.now))
        result }
    ensures known { AreFieldTypes pool.now known.new }
{
    let flags = Flags {
        bits: field.flags.value,
    };
    let has_constant = first_named(pool, CONSTANT_VALUE, field.attributes.as_slice()).is_some();
    let is_int = is_int_text(alloc, pool, known, field.descriptor.value)?;
    let fit = field_flags_fit(class.has(Flags::INTERFACE), flags);
    let is_in_profile = field_flags_in_profile(is_int, has_constant, flags);
    check_flags(field.flags.at as usize, fit, is_new, is_in_profile)
}

#[tactic(auto, unfolding(crate::specs::Checks::field_type_demands, cf_text::specs::Demands::verdict))]
fn check_field_type<'a>(
    alloc: Global,
    pool: &'a Pool,
    known: &mut FieldTypes<'a>,
    descriptor: Item,
    text: &'a Text,
) -> Result<(), ReadFault>
    requires named { utf8_at pool.now descriptor.value ≡ Some text.now }
    requires known { AreFieldTypes pool.now known.old }
    ensures value { Gives (verdict (field_type_demands descriptor.at text.now)) result }
    ensures known { AreFieldTypes pool.now known.new }
{
    let kind = known.read(alloc, pool, descriptor, text)?;
    let at = descriptor.at as usize;
    demand(is_profile_type(&kind), Rule::OutOfProfile, at)
}

#[tactic(auto, unfolding(crate::specs::Checks::field_descriptor_demands, cf_text::specs::Demands::verdict, cf_pool::specs::Pools::indexed))]
fn check_field_descriptor<'a>(
    alloc: Global,
    pool: &'a Pool,
    known: &mut FieldTypes<'a>,
    descriptor: Item,
) -> Result<(), ReadFault>
    requires known { AreFieldTypes pool.now known.old }
    ensures value { Gives (verdict (field_descriptor_demands pool.now descriptor)) result }
    ensures known { AreFieldTypes pool.now known.new }
{
    let Some(text) = pool.utf8(descriptor.value) else {
        return Err(wrong_index(descriptor.at as usize));
    };
    check_field_type(alloc, pool, known, descriptor, text)
}

#[tactic(auto, unfolding(crate::specs::Checks::field_known))]
fn field_known(flags: Flags) -> Known
    ensures { result ≡ field_known flags.bits }
{
    if flags.has(Flags::STATIC) {
        Known::ConstantValue
    } else {
        Known::Nothing
    }
}

#[tactic(auto, unfolding(crate::specs::Checks::field_demands_if), using(cf_text::proofs::Verdicts::verdicts))]
fn check_field<'a>(
    alloc: Global,
    bytes: &[u8],
    pool: &'a Pool,
    known: &mut FieldTypes<'a>,
    names: &mut FieldNames,
    class: Flags,
    is_new: bool,
    field: &Member,
) -> Result<(), ReadFault>
    requires known { AreFieldTypes pool.now known.old }
    requires names { AreFieldNames pool.now names.old }
    ensures known { AreFieldTypes pool.now known.new }
    ensures names { OnOk result (AreFieldNames pool.now names.new) }
    ensures value { Gives (verdict (field_demands_if (insides_of bytes.now) pool.now class.bits
        is_new field.now)) result }
{
    check_field_flags(alloc, pool, known, class, is_new, field)?;
    names.check(pool, field.name)?;
    check_field_descriptor(alloc, pool, known, field.descriptor)?;
    let known = field_known(Flags {
        bits: field.flags.value,
    });
    known.check_all(bytes, pool, field.attributes.as_slice())
}

/// The first demand of these fields, of a class of these flags, that does not hold.
pub(crate) fn check_each_field(
    alloc: Global,
    bytes: &[u8],
    pool: &Pool,
    class: Flags,
    fields: &[Member],
) -> Result<(), ReadFault>
    ensures { Gives (verdict (of_each (field_demands (insides_of bytes.now) pool.now class.bits
        fields.now) 0 fields.now)) result }
{
    let mut seen = MemberKeys::new(alloc);
    let mut known = FieldTypes::new(alloc);
    let mut names = FieldNames::new(alloc);
    for field in fields {
        let is_new = seen.add(pool, field)?;
        check_field(
            alloc, bytes, pool, &mut known, &mut names, class, is_new, field,
        )?;
    }
    Ok(())
}

#[tactic(auto, unfolding(crate::specs::Checks::is_initializer))]
fn is_initializer(pool: &Pool, name: Item) -> bool
    ensures { result ≡ is_initializer pool.now name }
{
    match pool.utf8(name.value) {
        Some(text) => text.as_bytes() == INITIALIZER,
        None => false,
    }
}

#[tactic(auto, unfolding(crate::specs::Checks::method_flag_demands))]
fn check_method_flags(
    pool: &Pool,
    class: Flags,
    is_new: bool,
    method: &Member,
) -> Result<(), ReadFault>
    ensures { result ≡ verdict (method_flag_demands pool.now class.bits is_new method.now) }
{
    let flags = Flags {
        bits: method.flags.value,
    };
    let has_code = first_named(pool, CODE, method.attributes.as_slice()).is_some();
    let fit = method_flags_fit(class, has_code, is_initializer(pool, method.name), flags);
    let is_in_profile = method_flags_in_profile(class, flags);
    check_flags(method.flags.at as usize, fit, is_new, is_in_profile)
}

// How many words a value takes.
#[tactic(auto, unfolding(crate::specs::Checks::words_of))]
fn words_of(kind: &FieldType) -> usize
    ensures value { result ≡ words_of kind.now }
    ensures most { result ≤ 2 }
{
    if kind.dimensions != 0 {
        return 1;
    }
    match kind.element {
        ElementType::Long | ElementType::Double => 2,
        _ => 1,
    }
}

// Whether parameters, with the receiver if there is one, take at most 255 words.
#[tactic(auto, unfolding(crate::specs::Checks::are_few))]
fn are_few(is_static: bool, parameters: &[Shared<FieldType>]) -> bool
    ensures { result ≡ are_few is_static parameters.now }
{
    let mut words: usize = if is_static { 0 } else { 1 };
    for parameter in parameters {
        words += words_of(parameter);
        if words > 255 {
            return false;
        }
    }
    true
}

#[tactic(auto, unfolding(crate::specs::Checks::method_type_demands, cf_text::specs::Demands::verdict))]
fn check_method_type<'a>(
    alloc: Global,
    pool: &'a Pool,
    known: &mut MethodTypes<'a>,
    descriptor: Item,
    is_static: bool,
    is_initializer: bool,
    text: &'a Text,
) -> Result<(), ReadFault>
    requires named { utf8_at pool.now descriptor.value ≡ Some text.now }
    requires known { AreMethodTypes pool.now known.old }
    ensures value { Gives (verdict (method_type_demands descriptor.at is_static is_initializer
        text.now)) result }
    ensures known { AreMethodTypes pool.now known.new }
{
    let kind = known.read(alloc, pool, descriptor, text)?;
    let fits = are_few(is_static, kind.parameters.as_slice())
        && (!is_initializer || kind.result.is_none());
    let at = descriptor.at as usize;
    demand(fits, Rule::Descriptor, at)?;
    demand(method_type_in_profile(&kind), Rule::OutOfProfile, at)
}

#[tactic(auto, unfolding(crate::specs::Checks::method_descriptor_demands, cf_text::specs::Demands::verdict, cf_pool::specs::Pools::indexed))]
fn check_method_descriptor<'a>(
    alloc: Global,
    pool: &'a Pool,
    known: &mut MethodTypes<'a>,
    method: &Member,
) -> Result<(), ReadFault>
    requires known { AreMethodTypes pool.now known.old }
    ensures known { AreMethodTypes pool.now known.new }
    ensures value { Gives (verdict (method_descriptor_demands pool.now method.now)) result }
{
    let descriptor = method.descriptor;
    let Some(text) = pool.utf8(descriptor.value) else {
        return Err(wrong_index(descriptor.at as usize));
    };
    let flags = Flags {
        bits: method.flags.value,
    };
    let is_static = flags.has(Flags::STATIC);
    let is_init = is_initializer(pool, method.name);
    check_method_type(alloc, pool, known, descriptor, is_static, is_init, text)
}

#[tactic(auto, unfolding(crate::specs::Checks::method_demands_if), using(cf_text::proofs::Verdicts::verdicts))]
fn check_method<'a>(
    alloc: Global,
    bytes: &[u8],
    pool: &'a Pool,
    known: &mut MethodTypes<'a>,
    names: &mut MethodNames,
    class: Flags,
    is_new: bool,
    method: &Member,
) -> Result<(), ReadFault>
    requires known { AreMethodTypes pool.now known.old }
    requires names { AreMethodNames pool.now names.old }
    ensures known { AreMethodTypes pool.now known.new }
    ensures names { OnOk result (AreMethodNames pool.now names.new) }
    ensures value { Gives (verdict (method_demands_if (insides_of bytes.now) pool.now class.bits
        is_new method.now)) result }
{
    check_method_flags(pool, class, is_new, method)?;
    names.check(pool, method.name)?;
    check_method_descriptor(alloc, pool, known, method)?;
    check_method_attributes(alloc, bytes, pool, method.attributes.as_slice())
}

/// The first demand of these methods, of a class of these flags, that does not hold.
pub(crate) fn check_each_method(
    alloc: Global,
    bytes: &[u8],
    pool: &Pool,
    class: Flags,
    methods: &[Member],
) -> Result<(), ReadFault>
    ensures { Gives (verdict (of_each (method_demands (insides_of bytes.now) pool.now class.bits
        methods.now) 0 methods.now)) result }
{
    let mut seen = MemberKeys::new(alloc);
    let mut known = MethodTypes::new(alloc);
    let mut names = MethodNames::new(alloc);
    for method in methods {
        let is_new = seen.add(pool, method)?;
        check_method(
            alloc, bytes, pool, &mut known, &mut names, class, is_new, method,
        )?;
    }
    Ok(())
}
