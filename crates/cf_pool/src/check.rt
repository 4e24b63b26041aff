//! What is demanded of a constant pool once it is read (JVMS 4.4): texts are modified UTF-8, and
//! each index names an entry of the kind wanted.

ghost use Rattle.std.specs.Prelude.{◌≡◌, IfErr, IfOk, None, Some, slice_index_or, slice_set};
ghost use Rattle.cf_text.specs.Reading.{Gives};
ghost use Rattle.cf_text.specs.Demands.{verdict};
ghost use Rattle.cf_text.specs.Names.{is_name};
ghost use Rattle.cf_text.specs.Types.{is_field_descriptor};
ghost use Rattle.cf_pool.specs.Known.{Knows};
ghost use Rattle.cf_pool.specs.Pools.{entry_demands, index_demands, is_class_entry_name, named, pool_demands, utf8_at};

use super::{Entry, Pool, PoolLayout, Positions};
use cf_text::{
    ReadFault, Rule, Text, begins_with, demand, is_class_name, is_modified_utf8, is_name,
    read_field_descriptor,
};
use std::alloc::Global;

// Of the text at each index of a pool, what was found where an entry named it before.
#[derive(Drop)]
struct KnownNames {
    // Whether a Class entry may name it.
    classes: Vec<Option<bool>>,
    // Whether a NameAndType entry may name it.
    names: Vec<Option<bool>>,
}

#[tactic(auto, unfolding(cf_text::specs::Types::is_field_descriptor))]
fn is_field_descriptor(text: &Text) -> Result<bool, ReadFault>
    ensures value { IfOk result (λ answer. answer ≡ is_field_descriptor text.now) }
    ensures memory { IfErr result (λ fault. fault ≡ ReadFault.Memory) }
{
    match read_field_descriptor(text, 0) {
        Ok(_) => Ok(true),
        Err(ReadFault::Broken { .. }) => Ok(false),
        Err(ReadFault::Memory) => Err(ReadFault::Memory),
    }
}

// A name in a Class entry: a class's, or the descriptor of an array.
#[tactic(auto, unfolding(crate::specs::Pools::is_class_entry_name))]
fn is_class_entry_name(text: &Text) -> Result<bool, ReadFault>
    ensures value { IfOk result (λ answer. answer ≡ is_class_entry_name text.now) }
    ensures memory { IfErr result (λ fault. fault ≡ ReadFault.Memory) }
{
    if begins_with(text.as_bytes(), b'[') {
        is_field_descriptor(text)
    } else {
        Ok(is_class_name(text.as_bytes()))
    }
}

impl KnownNames {
    ghost use Rattle.std.specs.Prelude.{◌≡◌, IfErr, IfOk, None, replicate};

    // Nothing is known of this many texts.
    fn none(alloc: Global, count: usize) -> Result<KnownNames, ReadFault>
        ensures classes { IfOk result (λ known. known.classes.items ≡ replicate count None) }
        ensures names { IfOk result (λ known. known.names.items ≡ replicate count None) }
        ensures memory { IfErr result (λ fault. fault ≡ ReadFault.Memory) }
    {
        Ok(KnownNames {
            classes: vec![in alloc; None; count]?,
            names: vec![in alloc; None; count]?,
        })
    }
}

// What was found of the text at an index: `None` if nothing was.
fn known_at(known: &[Option<bool>], index: u16) -> Option<bool>
    ensures { result ≡ slice_index_or known.now index None }
{
    match known.get(usize::from(index)) {
        Some(answer) => *answer,
        None => None,
    }
}

// Notes what was found of the text at an index.
fn note(known: &mut Vec<Option<bool>>, index: u16, answer: bool)
    ensures { known.new.items ≡ slice_set known.old.items index (Some answer) }
{
    let index = usize::from(index);
    if index < known.len() {
        known[index] = Some(answer);
    }
}

// Whether a Class entry may name the text at an index. It is looked at once.
fn may_name_class(
    pool: &Pool,
    known: &mut Vec<Option<bool>>,
    index: u16,
    text: &Text,
) -> Result<bool, ReadFault>
    requires text { utf8_at pool.now index ≡ Some text.now }
    requires knows { Knows is_class_entry_name pool.now known.old.items }
    ensures value { IfOk result (λ answer. answer ≡ is_class_entry_name text.now) }
    ensures memory { IfErr result (λ fault. fault ≡ ReadFault.Memory) }
    ensures knows { Knows is_class_entry_name pool.now known.new.items }
{
    if let Some(answer) = known_at(known, index) {
        return Ok(answer);
    }
    let answer = is_class_entry_name(text)?;
    note(known, index, answer);
    Ok(answer)
}

// Whether a NameAndType entry may name the text at an index. It is looked at once.
fn may_name(pool: &Pool, known: &mut Vec<Option<bool>>, index: u16, text: &Text) -> bool
    requires text { utf8_at pool.now index ≡ Some text.now }
    requires knows { Knows is_name pool.now known.old.items }
    ensures value { result ≡ is_name text.now }
    ensures knows { Knows is_name pool.now known.new.items }
{
    if let Some(answer) = known_at(known, index) {
        return answer;
    }
    let answer = is_name(text.as_bytes());
    note(known, index, answer);
    answer
}

#[tactic(auto, unfolding(cf_text::specs::Demands::verdict, crate::specs::Pools::named))]
fn check_class_name(
    pool: &Pool,
    known: &mut Vec<Option<bool>>,
    name: u16,
    at: usize,
) -> Result<(), ReadFault>
    requires { Knows is_class_entry_name pool.now known.old.items }
    ensures gives { Gives (verdict (named at (utf8_at pool.now name) is_class_entry_name)) result }
    ensures knows { Knows is_class_entry_name pool.now known.new.items }
{
    let Some(text) = pool.utf8(name) else {
        return Err(ReadFault::Broken {
            rule: Rule::Index,
            at,
        });
    };
    let holds = may_name_class(pool, known, name, text)?;
    demand(holds, Rule::Utf8, at)
}

#[tactic(auto, unfolding(cf_text::specs::Demands::verdict, crate::specs::Pools::named))]
fn check_name(
    pool: &Pool,
    known: &mut Vec<Option<bool>>,
    name: u16,
    at: usize,
) -> Result<(), ReadFault>
    requires { Knows is_name pool.now known.old.items }
    ensures gives { result ≡ verdict (named at (utf8_at pool.now name) is_name) }
    ensures knows { Knows is_name pool.now known.new.items }
{
    let Some(text) = pool.utf8(name) else {
        return Err(ReadFault::Broken {
            rule: Rule::Index,
            at,
        });
    };
    let holds = may_name(pool, known, name, text);
    demand(holds, Rule::Utf8, at)
}

#[tactic(auto, unfolding(cf_text::specs::Demands::verdict, crate::specs::Pools::entry_demands, crate::specs::Pools::indexed), using(cf_text::proofs::Verdicts::verdicts))]
fn check_entry(
    pool: &Pool,
    known: &mut KnownNames,
    entry: &Entry,
    positions: Positions,
) -> Result<(), ReadFault>
    requires classes { Knows is_class_entry_name pool.now known.old.classes.items }
    requires names { Knows is_name pool.now known.old.names.items }
    ensures gives { Gives (verdict (entry_demands pool.now entry.now positions)) result }
    ensures classes { Knows is_class_entry_name pool.now known.new.classes.items }
    ensures names { Knows is_name pool.now known.new.names.items }
{
    match entry {
        Entry::Utf8(text) => demand(
            is_modified_utf8(text.as_bytes()),
            Rule::Utf8,
            positions.second as usize,
        ),
        Entry::Class { name } => {
            check_class_name(pool, &mut known.classes, *name, positions.first as usize)
        }
        Entry::Member {
            class,
            name_and_type,
            ..
        } => {
            demand(pool.is_class(*class), Rule::Index, positions.first as usize)?;
            demand(
                pool.is_name_and_type(*name_and_type),
                Rule::Index,
                positions.second as usize,
            )
        }
        Entry::NameAndType { name, descriptor } => {
            check_name(pool, &mut known.names, *name, positions.first as usize)?;
            demand(
                pool.utf8(*descriptor).is_some(),
                Rule::Index,
                positions.second as usize,
            )
        }
        Entry::Integer(_) | Entry::Other | Entry::Unusable => Ok(()),
    }
}

#[tactic(auto, unfolding(cf_text::specs::Demands::verdict, crate::specs::Pools::index_demands))]
fn check_index(
    pool: &Pool,
    known: &mut KnownNames,
    index: usize,
    positions: Positions,
) -> Result<(), ReadFault>
    requires classes { Knows is_class_entry_name pool.now known.old.classes.items }
    requires names { Knows is_name pool.now known.old.names.items }
    ensures gives { Gives (verdict (index_demands pool.now index positions)) result }
    ensures classes { Knows is_class_entry_name pool.now known.new.classes.items }
    ensures names { Knows is_name pool.now known.new.names.items }
{
    match pool.entry(index) {
        None => Ok(()),
        Some(entry) => check_entry(pool, known, entry, positions),
    }
}

/// Returns the fault of the first entry at fault in the order of bytes, or Ok. A text that is no
/// modified UTF-8 is Utf8 at its bytes; an index that names no entry of the kind wanted is Index
/// there; a name that is not allowed is Utf8 at the index that names it. Indices of a String,
/// MethodHandle, MethodType or InvokeDynamic, and the descriptors of a NameAndType, are not
/// followed: nothing of the profile uses them.
///
/// A text is looked at once, however many entries name it.
pub fn check_pool(alloc: Global, layout: &PoolLayout) -> Result<(), ReadFault>
    ensures { Gives (verdict (pool_demands layout.now)) result }
{
    let mut known = KnownNames::none(alloc, layout.positions.as_slice().len())?;
    for (index, positions) in layout.positions.as_slice().iter().enumerate() {
        check_index(&layout.pool, &mut known, index, *positions)?;
    }
    Ok(())
}
