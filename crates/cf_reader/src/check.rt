//! The second pass: the first demand that does not hold, in the order of bytes.

ghost use Rattle.std.specs.Prelude.{◌≡◌};
ghost use Rattle.cf_text.specs.Reading.{Gives};
ghost use Rattle.cf_text.specs.Demands.{of_each, verdict};
ghost use Rattle.cf_layout.specs.ReadInsides.{insides_of};
ghost use Rattle.cf_reader.specs.Checks.{class_flag_demands, class_index_demands, demands, fields_demands, head_demands, interfaces_demands, methods_demands};

use super::Flags;
use super::attributes::Known;
use super::members::{check_each_field, check_each_method};
use super::profile::class_flags_in_profile;
use super::rules::class_flags_fit;
use cf_layout::{Item, Layout};
use cf_pool::{Pool, ReadFault, Rule, begins_with, check_pool, demand};
use std::alloc::Global;

#[tactic(auto, unfolding(crate::specs::Checks::class_flag_demands, cf_text::specs::Demands::verdict))]
fn check_class_flags(item: Item) -> Result<(), ReadFault>
    ensures { result ≡ verdict (class_flag_demands item) }
{
    let flags = Flags { bits: item.value };
    let is_in_profile = class_flags_in_profile(flags);
    demand(
        !is_in_profile || class_flags_fit(flags),
        Rule::Flags,
        item.at as usize,
    )?;
    demand(is_in_profile, Rule::OutOfProfile, item.at as usize)
}

// An index names a class, and no array.
#[tactic(auto, unfolding(crate::specs::Checks::class_index_demands, cf_text::specs::Demands::verdict, cf_pool::specs::Pools::named))]
fn check_class_index(pool: &Pool, item: Item) -> Result<(), ReadFault>
    ensures { result ≡ verdict (class_index_demands pool.now item) }
{
    let Some(name) = pool.class(item.value) else {
        return Err(ReadFault::Broken {
            rule: Rule::Index,
            at: item.at as usize,
        });
    };
    demand(
        !begins_with(name.as_bytes(), b'['),
        Rule::Utf8,
        item.at as usize,
    )
}

fn check_each_interface(pool: &Pool, interfaces: &[Item]) -> Result<(), ReadFault>
    ensures { Gives (verdict (of_each (λ index interface. class_index_demands pool.now interface) 0
        interfaces.now)) result }
{
    for interface in interfaces {
        check_class_index(pool, *interface)?;
    }
    Ok(())
}

// The constant pool, the flags, this and super.
#[tactic(auto, unfolding(crate::specs::Checks::head_demands), using(cf_text::proofs::Verdicts::verdicts))]
fn check_head(alloc: Global, layout: &Layout) -> Result<(), ReadFault>
    ensures { Gives (verdict (head_demands layout.now)) result }
{
    let pool = &layout.pool.pool;
    check_pool(alloc, &layout.pool)?;
    check_class_flags(layout.flags)?;
    check_class_index(pool, layout.this)?;
    check_class_index(pool, layout.superclass)
}

#[tactic(auto, unfolding(crate::specs::Checks::interfaces_demands, cf_text::specs::Demands::verdict))]
fn check_interfaces(layout: &Layout) -> Result<(), ReadFault>
    ensures { Gives (verdict (interfaces_demands layout.now)) result }
{
    check_each_interface(&layout.pool.pool, layout.interfaces.as_slice())
}

#[tactic(auto, unfolding(crate::specs::Checks::fields_demands, cf_text::specs::Demands::verdict))]
fn check_fields(alloc: Global, bytes: &[u8], layout: &Layout) -> Result<(), ReadFault>
    ensures { Gives (verdict (fields_demands (insides_of bytes.now) layout.now)) result }
{
    let class = Flags {
        bits: layout.flags.value,
    };
    check_each_field(
        alloc,
        bytes,
        &layout.pool.pool,
        class,
        layout.fields.as_slice(),
    )
}

#[tactic(auto, unfolding(crate::specs::Checks::methods_demands))]
fn check_methods(alloc: Global, bytes: &[u8], layout: &Layout) -> Result<(), ReadFault>
    ensures { Gives (verdict (methods_demands (insides_of bytes.now) layout.now)) result }
{
    let class = Flags {
        bits: layout.flags.value,
    };
    check_each_method(
        alloc,
        bytes,
        &layout.pool.pool,
        class,
        layout.methods.as_slice(),
    )
}

/// The first demand of a layout of these bytes that does not hold.
#[tactic(auto, unfolding(crate::specs::Checks::demands), using(cf_text::proofs::Verdicts::verdicts))]
pub(crate) fn check_layout(alloc: Global, bytes: &[u8], layout: &Layout) -> Result<(), ReadFault>
    ensures { Gives (verdict (demands (insides_of bytes.now) layout.now)) result }
{
    check_head(alloc, layout)?;
    check_interfaces(layout)?;
    check_fields(alloc, bytes, layout)?;
    check_methods(alloc, bytes, layout)?;
    Known::Nothing.check_all(bytes, &layout.pool.pool, layout.attributes.as_slice())
}
