//! Numbers of names with descriptors: two methods agree in theirs exactly where both are the same.

ghost use Rattle.std.specs.Prelude.{◌≡◌, ◌<◌, ◌≤◌, ◌^◌, ℕ, Contains, IfOk, OnOk, length};
ghost use Rattle.cls_set.specs.KeyNumbers.{declared_key, keys_at, AreKeyNumbers, AreNumbersOf, AreSorted, IsKeyNumber};
ghost use Rattle.cls_set.specs.Orders.{key_cmp};
ghost use Rattle.number_trees.specs.Rows.{Starts};

use super::ordering::{compare_keys, count, key};
use super::remote::MemberKind;
use cf_reader::Row;
use cls_order::Entry;
use number_trees::levels_for;
use std::alloc::{AllocError, Global};
use std::cmp::Ordering;

// A method: its class, and its index among the methods of the class.
#[derive(Clone, Copy)]
pub(crate) struct Declared {
    class: usize,
    method: u16,
}

// Its name and its descriptor: empty ones if there is none.
fn declared_key(entries: &[Entry], declared: Declared) -> (&[u8], &[u8])
    ensures name { result.0.now ≡ (declared_key entries.now declared).0 }
    ensures descriptor { result.1.now ≡ (declared_key entries.now declared).1 }
{
    match entries.get(declared.class) {
        Some(entry) => {
            let class = &entry.class;
            key(&class.file, MemberKind::Methods, declared.method)
        }
        None => (&[], &[]),
    }
}

fn compare(entries: &[Entry], a: Declared, b: Declared) -> Ordering
    ensures { result ≡ key_cmp (declared_key entries.now a) (declared_key entries.now b) }
{
    let (a_name, a_descriptor) = declared_key(entries, a);
    let (b_name, b_descriptor) = declared_key(entries, b);
    compare_keys(a_name, a_descriptor, b_name, b_descriptor)
}

// Adds the methods of a class.
fn add_declared(entries: &[Entry], class: usize, all: &mut Vec<Declared>) -> Result<(), AllocError>
    requires { class < length entries.now }
    ensures starts { OnOk result (Starts all.old.items all.new.items) }
    ensures each { OnOk result ((i : ℕ) → i < length (keys_at entries.now class) → Contains all.new.items (record { class = class; method = i })) }
{
    let draft = &entries[class].class;
    for method in 0..count(&draft.file, MemberKind::Methods) {
        all.push(Declared { class, method })?;
    }
    Ok(())
}

// The methods of all classes, in the order of their names and descriptors.
fn sorted(alloc: Global, entries: &[Entry]) -> Result<Vec<Declared>, AllocError>
    ensures { IfOk result (λ all. AreSorted entries.now all.items) }
{
    let mut all = Vec::new(alloc);
    for class in 0..entries.len() {
        add_declared(entries, class, &mut all)?;
    }
    all.sort_by(|a, b| compare(entries, *a, *b))?;
    Ok(all)
}

// How many methods come before those of a method's name and descriptor.
fn number(entries: &[Entry], all: &[Declared], own: Declared) -> usize
    requires { AreSorted entries.now all.now }
    ensures { IsKeyNumber entries.now all.now (declared_key entries.now own) result }
{
    all.partition_point(|declared| compare(entries, *declared, own).is_lt())
}

// The numbers of the methods of a class.
fn numbers_of(
    alloc: Global,
    entries: &[Entry],
    all: &[Declared],
    class: usize,
) -> Result<Vec<u32>, AllocError>
    requires sorted { AreSorted entries.now all.now }
    requires few { length all.now < 2 ^ 32 }
    requires in_set { class < length entries.now }
    ensures { IfOk result (λ numbers. AreNumbersOf entries.now all.now class numbers.items) }
{
    let draft = &entries[class].class;
    let mut numbers = Vec::new(alloc);
    for method in 0..count(&draft.file, MemberKind::Methods) {
        let number = number(entries, all, Declared { class, method });
        numbers.push(number as u32)?;
    }
    Ok(numbers)
}

// The numbers of the methods of each class, and in how many bits they differ.
#[derive(Drop)]
pub(crate) struct Keys {
    pub(crate) numbers: Vec<Row<u32>>,
    pub(crate) levels: u32,
}

// Numbers all methods. 2^32 methods and more are out of memory.
pub(crate) fn number_all(alloc: Global, entries: &[Entry]) -> Result<Keys, AllocError>
    ensures { IfOk result (λ keys. AreKeyNumbers entries.now keys.levels keys.numbers.items) }
{
    let all = sorted(alloc, entries)?;
    if all.len() > u32::MAX as usize {
        return Err(AllocError);
    }
    let mut numbers = Vec::new(alloc);
    for class in 0..entries.len() {
        let row = numbers_of(alloc, entries, all.as_slice(), class)?;
        numbers.push(Row::new(row))?;
    }
    Ok(Keys {
        numbers,
        levels: levels_for(all.len() as u32),
    })
}
