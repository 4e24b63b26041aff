//! What is demanded of the names of members (JVMS 4.2.2), each looked at once however many members share it.

ghost use Rattle.std.specs.Prelude.{◌≡◌, List, OnOk};
ghost use Rattle.cf_text.specs.Reading.{Gives};
ghost use Rattle.cf_text.specs.Demands.{verdict};
ghost use Rattle.cf_text.specs.Names.{is_name};
ghost use Rattle.cf_pool.specs.declared.pool.Entry.{Entry};
ghost use Rattle.cf_pool.specs.Pools.{named, utf8_at};
ghost use Rattle.cf_reader.specs.Checks.{method_name_demands};
ghost use Rattle.cf_reader.specs.MemberNames.{AreFieldNames, AreMethodNames};

use super::build::wrong_index;
use super::profile::method_name_in_profile;
use cf_layout::Item;
use cf_pool::{Pool, ReadFault, Rule, demand, is_method_name, is_name};
use std::alloc::Global;
use std::collections::BTreeSet;

#[tactic(auto, unfolding(cf_text::specs::Demands::verdict, cf_pool::specs::Pools::named))]
fn check_field_name(pool: &Pool, name: Item) -> Result<(), ReadFault>
    ensures { result ≡ verdict (named name.at (utf8_at pool.now name.value) is_name) }
{
    let Some(text) = pool.utf8(name.value) else {
        return Err(wrong_index(name.at as usize));
    };
    demand(is_name(text.as_bytes()), Rule::Utf8, name.at as usize)
}

/// The names of fields that were looked at and keep the rules, by their indices.
#[derive(Drop)]
pub(crate) struct FieldNames {
    kept: BTreeSet<u16>,
}

impl FieldNames {
    /// No name was looked at yet.
    pub(crate) fn new(alloc: Global) -> FieldNames
        ensures { (pool : List Entry) → AreFieldNames pool result }
    {
        FieldNames {
            kept: BTreeSet::new(alloc),
        }
    }

    /// The first demand of a name that does not hold. A name that was looked at before is not looked at again.
    pub(crate) fn check(&mut self, pool: &Pool, name: Item) -> Result<(), ReadFault>
        requires known { AreFieldNames pool.now self.old }
        ensures value { Gives (verdict (named name.at (utf8_at pool.now name.value) is_name)) result }
        ensures known { OnOk result (AreFieldNames pool.now self.new) }
    {
        if self.kept.contains(&name.value) {
            return Ok(());
        }
        check_field_name(pool, name)?;
        self.kept.insert(name.value)?;
        Ok(())
    }
}

#[tactic(auto, unfolding(crate::specs::Checks::method_name_demands, cf_text::specs::Demands::verdict, cf_pool::specs::Pools::named))]
fn check_method_name(pool: &Pool, name: Item) -> Result<(), ReadFault>
    ensures { result ≡ verdict (method_name_demands pool.now name) }
{
    let at = name.at as usize;
    let Some(text) = pool.utf8(name.value) else {
        return Err(wrong_index(at));
    };
    demand(is_method_name(text.as_bytes()), Rule::Utf8, at)?;
    demand(method_name_in_profile(text), Rule::OutOfProfile, at)
}

/// The names of methods that were looked at and keep the rules, by their indices.
#[derive(Drop)]
pub(crate) struct MethodNames {
    kept: BTreeSet<u16>,
}

impl MethodNames {
    /// No name was looked at yet.
    pub(crate) fn new(alloc: Global) -> MethodNames
        ensures { (pool : List Entry) → AreMethodNames pool result }
    {
        MethodNames {
            kept: BTreeSet::new(alloc),
        }
    }

    /// The first demand of a name that does not hold. A name that was looked at before is not looked at again.
    pub(crate) fn check(&mut self, pool: &Pool, name: Item) -> Result<(), ReadFault>
        requires known { AreMethodNames pool.now self.old }
        ensures value { Gives (verdict (method_name_demands pool.now name)) result }
        ensures known { OnOk result (AreMethodNames pool.now self.new) }
    {
        if self.kept.contains(&name.value) {
            return Ok(());
        }
        check_method_name(pool, name)?;
        self.kept.insert(name.value)?;
        Ok(())
    }
}
