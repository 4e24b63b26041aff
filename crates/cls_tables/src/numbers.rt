//! Numbers of names with descriptors.

ghost use Rattle.std.specs.Prelude.{◌≡◌, ◌+◌, ◌<◌, ◌≤◌, ◌^◌, IfOk, OnOk, length};
ghost use Rattle.cls_tables.specs.Kinds.{Starts};
ghost use Rattle.cls_tables.specs.Choices.{AreKeys};
ghost use Rattle.cls_tables.specs.Numbers.{AreNumbered, Covers, IsNumber};

use cls_link::{Linked, MethodId};
use indexmap::IndexSet;
use std::alloc::{AllocError, Global};

// The number of a name and a descriptor, which is the next one where they have none.
fn number_one<'a>(
    keys: &mut IndexSet<(&'a [u8], &'a [u8])>,
    name: &'a [u8],
    descriptor: &'a [u8],
) -> Result<usize, AllocError>
    ensures starts { OnOk result (Starts keys.old.keys keys.new.keys) }
    ensures number { IfOk result (IsNumber keys.new.keys name.now descriptor.now) }
    ensures few { OnOk result (length keys.new.keys ≤ length keys.old.keys + 1) }
{
    match keys.insert_full((name, descriptor)) {
        Ok((number, _)) => Ok(number),
        Err(_) => Err(AllocError),
    }
}

// The numbers of the methods' names with their descriptors.
fn number_all(alloc: Global, linked: &Linked) -> Result<Vec<u32>, AllocError>
    ensures { IfOk result (λ numbers. AreNumbered linked.now.classes (length linked.now.methods) numbers.items) }
{
    let mut keys: IndexSet<(&[u8], &[u8])> = IndexSet::new(alloc);
    let mut numbers = Vec::with_capacity(alloc, linked.len())?;
    for id in 0..linked.len() {
        let method = linked.declaration(MethodId(id as u32));
        let number = number_one(
            &mut keys,
            method.name.as_bytes(),
            method.descriptor.as_bytes(),
        )?;
        numbers.push(number as u32)?;
    }
    Ok(numbers)
}

// In how many of their lowest bits numbers below this one have to agree to be the same.
fn levels_for(count: u32) -> u32
    ensures covers { Covers result count }
    ensures few { result ≤ count }
{
    if count < 2 {
        return 0;
    }
    1 + levels_for(count - count / 2)
}

/// The keys of methods, and of how many bits they are.
#[derive(Drop)]
pub(crate) struct Keys {
    pub(crate) keys: Vec<u32>,
    pub(crate) levels: u32,
}

/// The keys of the methods of a linked class set.
pub(crate) fn all_keys(alloc: Global, linked: &Linked) -> Result<Keys, AllocError>
    ensures told { IfOk result (λ k. AreKeys linked.now.classes k.levels k.keys.items) }
    ensures one_each { IfOk result (λ k. length k.keys.items ≡ length linked.now.methods) }
{
    let keys = number_all(alloc, linked)?;
    let levels = levels_for(linked.len() as u32);
    Ok(Keys { keys, levels })
}
