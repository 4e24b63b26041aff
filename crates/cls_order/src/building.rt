//! The classes of files are gathered, sorted by name and ranked, and counted.

ghost use Rattle.std.specs.Prelude.{◌≡◌, ◌<◌, ◌++◌, ◌-◌, ◌≤◌, OnOk, IfOk, IfErr, IfSome, IfNone, IsSome, All, IsPermutation, map, length, option_map, slice_get};
ghost use Rattle.std.specs.List.Sorted.{IsStrictlySortedBy};
ghost use Rattle.cls_order.specs.Building.{ranked_from, origins_of, AscendByName, IsCycleFault, IsDuplicateFault, IsFaultOf};
ghost use Rattle.cls_order.specs.Classes.{name_cmp, names};
ghost use Rattle.cls_order.specs.Entries.{classes_of, IsRanked};
ghost use Rattle.cls_order.specs.declared.fault.SetRule.TheVariants.{TooMany};
ghost use Rattle.cls_order.specs.Sets.{origins, IsFirstDuplicate, IsResolved};

use super::built_in::built_in_classes;
use super::drafts::Draft;
use super::entries::Entry;
use super::resolving::broken;
use super::walking::rank;
use super::{SetFault, SetRule};
use cf_reader::{ClassFile, Row, Text};
use std::alloc::{AllocError, Global};

// How many classes a set has at most (a rule of this project).
const MAX_CLASSES: usize = 4096;

// Adds the classes of the files, with ranks in their order.
fn add_classes(
    alloc: Global,
    files: Vec<ClassFile>,
    is_built_in: bool,
    entries: &mut Vec<Entry>,
) -> Result<(), AllocError>
    ensures { OnOk result (entries.new.items ≡ entries.old.items ++ ranked_from (length entries.old.items) (map (λ file. (file, is_built_in)) files.items)) }
{
    for file in files {
        let class = Draft {
            file,
            superclass: None,
            interfaces: Row::new(Vec::new(alloc)),
            is_built_in,
        };
        let rank = entries.len();
        entries.push(Entry { class, rank })?;
    }
    Ok(())
}

// Sorts by name.
fn sort(entries: &mut Vec<Entry>) -> Result<(), AllocError>
    ensures permutation { IsPermutation entries.old.items entries.new.items }
    ensures sorted { OnOk result (AscendByName entries.new.items) }
{
    entries.sort_by(|a, b| {
        let name = b.class.file.name.as_bytes();
        a.class.file.name.as_bytes().cmp(name)
    })
}

// The index of the first class that has the name of the class before it.
fn first_duplicate(entries: &[Entry]) -> Option<usize>
    requires { AscendByName entries.now }
    ensures within { IfSome result (λ k. k < length entries.now) }
    ensures found { IfSome result (λ k. IfSome (slice_get entries.now k) (λ m. IsFirstDuplicate (names (classes_of entries.now)) m.class.file.name)) }
    ensures none { IfNone result (IsStrictlySortedBy name_cmp (names (classes_of entries.now))) }
{
    for index in 1..entries.len() {
        let before = &entries[index - 1].class;
        let class = &entries[index].class;
        if class.file.name.is(before.file.name.as_bytes()) {
            return Some(index);
        }
    }
    None
}

/// Returns the classes of the files and the built-in ones, in the order of their names.
pub fn gather(alloc: Global, files: Vec<ClassFile>) -> Result<Vec<Entry>, AllocError>
    ensures all { IfOk result (λ entries. IsPermutation (ranked_from 0 (origins files.items)) entries.items) }
    ensures sorted { IfOk result (λ entries. AscendByName entries.items) }
{
    let mut entries = Vec::new(alloc);
    add_classes(alloc, built_in_classes(alloc)?, true, &mut entries)?;
    add_classes(alloc, files, false, &mut entries)?;
    sort(&mut entries)?;
    Ok(entries)
}

/// Returns the name of the last file.
pub fn last_name(files: &[ClassFile]) -> Result<Option<Text>, AllocError>
    ensures { IfOk result (λ last. last ≡ option_map (λ file. file.name) (slice_get files.now (length files.now - 1))) }
{
    match files {
        [.., last] => Ok(Some(last.name.copy()?)),
        [] => Ok(None),
    }
}

/// Refuses more classes than a set may have: the last file's is named.
pub fn refuse_many(count: usize, last: Option<Text>) -> Result<(), SetFault>
    ensures ok { OnOk result (IsSome last → count ≤ 4096) }
    ensures fault { IfErr result (λ fault. (4096 < count) × IfSome last (λ name. IsFaultOf TooMany name fault) × IsSome last) }
{
    match last {
        Some(name) if count > MAX_CLASSES => Err(broken(SetRule::TooMany, &name)),
        _ => Ok(()),
    }
}

/// Refuses a name that stands twice.
pub fn refuse_duplicates(entries: &[Entry]) -> Result<(), SetFault>
    requires { AscendByName entries.now }
    ensures ok { OnOk result (IsStrictlySortedBy name_cmp (names (classes_of entries.now))) }
    ensures fault { IfErr result (IsDuplicateFault (names (classes_of entries.now))) }
{
    match first_duplicate(entries) {
        Some(index) => {
            let class = &entries[index].class;
            Err(broken(SetRule::Duplicate, &class.file.name))
        }
        None => Ok(()),
    }
}

/// Ranks the classes, and refuses a class that is its own supertype.
pub fn refuse_cycles(alloc: Global, entries: &mut Vec<Entry>) -> Result<(), SetFault>
    requires ordered { IsStrictlySortedBy name_cmp (names (classes_of entries.old.items)) }
    requires resolved { All (IsResolved (names (classes_of entries.old.items))) (classes_of entries.old.items) }
    ensures classes { classes_of entries.new.items ≡ classes_of entries.old.items }
    ensures ranked { OnOk result (All (IsRanked entries.new.items) entries.new.items) }
    ensures fault { IfErr result (IsCycleFault (origins_of entries.old.items)) }
{
    match rank(alloc, entries)? {
        Some(index) => {
            let class = &entries[index].class;
            Err(broken(SetRule::Cycle, &class.file.name))
        }
        None => Ok(()),
    }
}
