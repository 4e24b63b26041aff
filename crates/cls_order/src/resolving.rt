//! The supertypes of the classes of a set, found by name, and the other classes that a class mentions.

ghost use Rattle.std.specs.Prelude.{◌≡◌, ◌<◌, ◌≤◌, ◌≢◌, ℕ, Some, All, IfOk, IfErr, OnOk, map, length, option_map, slice_get, slice_index_or, HoldsAt};
ghost use Rattle.std.specs.List.Sorted.{IsStrictlySortedBy};
ghost use Rattle.cls_order.specs.Building.{IsAbsentFault, IsClassFault, IsFaultOf, IsMissing, IsWhole, kept, origins_of};
ghost use Rattle.cls_order.specs.Classes.{name_cmp, names, number_of};
ghost use Rattle.cls_order.specs.Entries.{classes_of, AreOrdered};
ghost use Rattle.cls_order.specs.declared.entries.Entry.{Entry};

use super::drafts::{Draft, Index};
use super::entries::{Entry, find};
use super::mentions::members_name_absent;
use super::{SetFault, SetRule};
use cf_reader::{Row, Text};
use std::alloc::Global;

/// Returns the fault of a class that breaks a rule.
pub fn broken(rule: SetRule, class: &Text) -> SetFault
    ensures { IsFaultOf rule class.now result }
{
    match class.copy() {
        Ok(class) => SetFault::Broken { rule, class },
        Err(_) => SetFault::Memory,
    }
}

// The number of a supertype of a class.
fn supertype(entries: &[Entry], name: &Text, class: &Draft) -> Result<Index, SetFault>
    requires { AreOrdered entries.now }
    ensures ok { IfOk result (λ id. slice_get (names (classes_of entries.now)) id.0 ≡ Some name.now) }
    ensures absent { IfErr result (IsMissing (names (classes_of entries.now)) name.now class.now.file.name) }
{
    match find(entries, name.as_bytes()) {
        Some(id) => Ok(id),
        None => Err(broken(SetRule::AbsentClass, &class.file.name)),
    }
}

fn superclass(entries: &[Entry], class: &Draft) -> Result<Option<Index>, SetFault>
    requires { AreOrdered entries.now }
    ensures ok { IfOk result (λ id. option_map (λ id. slice_get (names (classes_of entries.now)) id.0) id ≡ option_map (λ name. Some name) class.now.file.superclass) }
    ensures absent { IfErr result (IsClassFault (names (classes_of entries.now)) class.now.file) }
{
    match &class.file.superclass {
        Some(name) => Ok(Some(supertype(entries, name, class)?)),
        None => Ok(None),
    }
}

fn superinterfaces(alloc: Global, entries: &[Entry], class: &Draft) -> Result<Row<Index>, SetFault>
    requires { AreOrdered entries.now }
    ensures ok { IfOk result (λ ids. map (λ id. slice_get (names (classes_of entries.now)) id.0) ids ≡ map (λ name. Some name) class.now.file.interfaces) }
    ensures absent { IfErr result (IsClassFault (names (classes_of entries.now)) class.now.file) }
{
    let mut ids = Vec::new(alloc);
    for name in class.file.interfaces.as_slice() {
        ids.push(supertype(entries, name, class)?)?;
    }
    Ok(Row::new(ids))
}

// Finds the supertypes of a class, and the classes that its members mention.
fn resolve_at(alloc: Global, entries: &mut Vec<Entry>, index: usize) -> Result<(), SetFault>
    requires ordered { IsStrictlySortedBy name_cmp (names (classes_of entries.old.items)) }
    requires within { index < length entries.old.items }
    ensures kept { map kept entries.new.items ≡ map kept entries.old.items }
    ensures others { (k : ℕ) (d : Entry) → k ≢ index → slice_index_or entries.new.items k d ≡ slice_index_or entries.old.items k d }
    ensures resolved { OnOk result (HoldsAt (λ m. IsWhole (names (classes_of entries.old.items)) m.class) entries.new.items index) }
    ensures absent { IfErr result (λ fault. HoldsAt (λ m. IsClassFault (names (classes_of entries.old.items)) m.class.file fault) entries.old.items index) }
{
    let class = &entries[index].class;
    let superclass = superclass(entries.as_slice(), class)?;
    let interfaces = superinterfaces(alloc, entries.as_slice(), class)?;
    if members_name_absent(entries.as_slice(), &class.file) {
        return Err(broken(SetRule::AbsentClass, &class.file.name));
    }
    let entry = &mut entries[index];
    entry.class.set_supertypes(superclass, interfaces);
    Ok(())
}

/// Finds the supertypes of each class, and the classes that its members mention.
pub fn resolve(alloc: Global, entries: &mut Vec<Entry>) -> Result<(), SetFault>
    requires ordered { IsStrictlySortedBy name_cmp (names (classes_of entries.old.items)) }
    ensures kept { map kept entries.new.items ≡ map kept entries.old.items }
    ensures resolved { OnOk result (All (λ m. IsWhole (names (classes_of entries.old.items)) m.class) entries.new.items) }
    ensures absent { IfErr result (IsAbsentFault (names (classes_of entries.old.items)) (origins_of entries.old.items)) }
{
    for index in 0..entries.len() {
        resolve_at(alloc, entries, index)?;
    }
    Ok(())
}
