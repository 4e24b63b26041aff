//! What is demanded of attributes (JVMS 4.7): the names of all, and what is inside the known ones.

ghost use Rattle.std.specs.Prelude.{◌≡◌, false};
ghost use Rattle.std.specs.Prelude.{codes};
ghost use Rattle.cf_text.specs.Reading.{Gives};
ghost use Rattle.cf_text.specs.Demands.{verdict};
ghost use Rattle.cf_layout.specs.ReadInsides.{insides_of};
ghost use Rattle.cf_reader.specs.Checks.{attribute_demands, code_demands, first_named, is_known, is_named, known_demands, method_attribute_demands, one_attribute, plain_demands};

use super::profile::handlers_in_profile;
use cf_layout::{Attribute, check_table, read_code, read_constant};
use cf_pool::{Pool, ReadFault, Rule, demand};
use std::alloc::Global;

pub(crate) const CODE: &[u8] = b"Code";

pub(crate) const CONSTANT_VALUE: &[u8] = b"ConstantValue";

pub(crate) const STACK_MAP_TABLE: &[u8] = b"StackMapTable";

/// Which attribute is known on an item, apart from Code, which is known on methods.
#[derive(Clone, Copy, PartialEq, Eq)]
pub(crate) enum Known {
    /// None: all are skipped by their length.
    Nothing,
    /// Of static fields.
    ConstantValue,
    /// Inside a Code.
    StackMapTable,
}

#[tactic(auto, unfolding(crate::specs::Checks::is_named))]
pub(crate) fn is_named(pool: &Pool, name: &[u8], attribute: Attribute) -> bool
    ensures { result ≡ is_named pool.now name.now attribute }
{
    match pool.utf8(attribute.name.value) {
        Some(text) => text.as_bytes() == name,
        None => false,
    }
}

/// The first attribute of a name.
#[tactic(auto, unfolding(crate::specs::Checks::first_named))]
pub(crate) fn first_named(pool: &Pool, name: &[u8], attributes: &[Attribute]) -> Option<Attribute>
    ensures { result ≡ first_named pool.now name.now attributes.now }
{
    for attribute in attributes {
        if is_named(pool, name, *attribute) {
            return Some(*attribute);
        }
    }
    None
}

impl Known {
    #[tactic(auto, unfolding(crate::specs::Checks::is_known))]
    fn is(self, pool: &Pool, attribute: Attribute) -> bool
        ensures { result ≡ is_known pool.now self attribute }
    {
        match self {
            Known::Nothing => false,
            Known::ConstantValue => is_named(pool, CONSTANT_VALUE, attribute),
            Known::StackMapTable => is_named(pool, STACK_MAP_TABLE, attribute),
        }
    }

    #[tactic(auto, unfolding(crate::specs::Checks::known_demands, cf_text::specs::Demands::verdict, cf_pool::specs::Pools::indexed))]
    fn check(self, bytes: &[u8], pool: &Pool, attribute: Attribute) -> Result<(), ReadFault>
        ensures { Gives (verdict (known_demands (insides_of bytes.now) pool.now self attribute))
            result }
    {
        match self {
            Known::Nothing => Ok(()),
            Known::ConstantValue => {
                let index = read_constant(bytes, attribute)?;
                let at = index.at as usize;
                demand(pool.integer(index.value).is_some(), Rule::Index, at)
            }
            Known::StackMapTable => check_table(bytes, attribute),
        }
    }

    #[tactic(auto, unfolding(crate::specs::Checks::one_attribute, cf_text::specs::Demands::verdict, cf_pool::specs::Pools::indexed))]
    fn check_one(
        self,
        bytes: &[u8],
        pool: &Pool,
        seen: bool,
        attribute: Attribute,
    ) -> Result<(), ReadFault>
        ensures { Gives (verdict (one_attribute pool.now (is_known pool.now self)
            (known_demands (insides_of bytes.now) pool.now self) seen attribute)) result }
    {
        let at = attribute.name.at as usize;
        let name = pool.utf8(attribute.name.value);
        demand(name.is_some(), Rule::Index, at)?;
        if !self.is(pool, attribute) {
            return Ok(());
        }
        demand(!seen, Rule::Duplicate, at)?;
        self.check(bytes, pool, attribute)
    }

    /// The first demand of these attributes that does not hold, if this kind is known.
    pub(crate) fn check_all(
        self,
        bytes: &[u8],
        pool: &Pool,
        attributes: &[Attribute],
    ) -> Result<(), ReadFault>
        ensures { Gives (verdict (plain_demands (insides_of bytes.now) pool.now self
            attributes.now)) result }
    {
        let mut seen = false;
        for attribute in attributes {
            self.check_one(bytes, pool, seen, *attribute)?;
            seen |= self.is(pool, *attribute);
        }
        Ok(())
    }
}

#[tactic(auto, unfolding(crate::specs::Checks::code_demands, cf_text::specs::Demands::verdict))]
fn check_code(
    alloc: Global,
    bytes: &[u8],
    pool: &Pool,
    attribute: Attribute,
) -> Result<(), ReadFault>
    ensures { Gives (verdict (code_demands (insides_of bytes.now) pool.now attribute)) result }
{
    let code = read_code(alloc, bytes, attribute)?;
    let handlers = code.handler_count;
    let at = handlers.at as usize;
    demand(handlers_in_profile(handlers.value), Rule::OutOfProfile, at)?;
    Known::StackMapTable.check_all(bytes, pool, code.attributes.as_slice())
}

#[tactic(auto, unfolding(crate::specs::Checks::one_attribute, cf_text::specs::Demands::verdict, cf_pool::specs::Pools::indexed))]
fn check_method_attribute(
    alloc: Global,
    bytes: &[u8],
    pool: &Pool,
    seen: bool,
    attribute: Attribute,
) -> Result<(), ReadFault>
    ensures { Gives (verdict (one_attribute pool.now (is_named pool.now (codes "Code"))
        (code_demands (insides_of bytes.now) pool.now) seen attribute)) result }
{
    let at = attribute.name.at as usize;
    let name = pool.utf8(attribute.name.value);
    demand(name.is_some(), Rule::Index, at)?;
    if !is_named(pool, CODE, attribute) {
        return Ok(());
    }
    demand(!seen, Rule::Duplicate, at)?;
    check_code(alloc, bytes, pool, attribute)
}

/// The first demand of a method's attributes that does not hold.
pub(crate) fn check_method_attributes(
    alloc: Global,
    bytes: &[u8],
    pool: &Pool,
    attributes: &[Attribute],
) -> Result<(), ReadFault>
    ensures { Gives (verdict (method_attribute_demands (insides_of bytes.now) pool.now
        attributes.now)) result }
{
    let mut seen = false;
    for attribute in attributes {
        check_method_attribute(alloc, bytes, pool, seen, *attribute)?;
        seen |= is_named(pool, CODE, *attribute);
    }
    Ok(())
}
