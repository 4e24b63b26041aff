//! Tables of the supertypes of classes, made in the order of ranks, each of those of its direct supertypes.

ghost use Rattle.std.specs.Prelude.{◌≡◌, ◌<◌, ◌∷◌, ◌++◌, List, IfOk, length, slice_index_or, []};
ghost use Rattle.space_ids.specs.declared.ids.ClassId.{ClassId};
ghost use Rattle.cls_order.specs.declared.class.Class.{Class};
ghost use Rattle.cls_order.specs.Entries.{classes_of, AreArranged, HaveTables, IsTable};
ghost use Rattle.cls_order.specs.Subtypes.{IsDirectSupertype};
ghost use Rattle.cls_order.specs.Telling.{IsTelling};
ghost use Rattle.cls_order.specs.Walks.{AreWithin};

use super::class_marks::ClassMarks;
use super::drafts::Index;
use super::entries::Entry;
use super::reaching::by_rank;
use std::alloc::{AllocError, Global};

// Marks a direct supertype and those above it, unless it is marked.
fn add_supertype(tables: &[ClassMarks], class: Index, table: &mut ClassMarks)
    requires in_set { class.0 < length tables.now }
    requires one_each { length table.old ≡ length tables.now }
    requires long { length (slice_index_or tables.now class.0 []) ≡ length tables.now }
    ensures long { length table.new ≡ length table.old }
    ensures told { (classes : List Class) (from : ClassId) (done : List ClassId)
        → IsTelling classes from done table.old → IsDirectSupertype classes from class → IsTable classes class.0 (slice_index_or tables.now class.0 [])
        → IsTelling classes from (done ++ class ∷ []) table.new }
{
    let index = class.get();
    if !table.has(index) {
        table.join(&tables[index]);
        table.set(index);
    }
}

// The table of a class, of those of its direct supertypes.
fn table_below(
    alloc: Global,
    entries: &[Entry],
    tables: &[ClassMarks],
    index: usize,
) -> Result<ClassMarks, AllocError>
    requires in_set { index < length entries.now }
    requires within { AreWithin (length entries.now) (classes_of entries.now) }
    requires one_each { length tables.now ≡ length entries.now }
    requires above { (s : ClassId) → IsDirectSupertype (classes_of entries.now) (record { 0 = index }) s → IsTable (classes_of entries.now) s.0 (slice_index_or tables.now s.0 []) }
    ensures { IfOk result (IsTable (classes_of entries.now) index) }
{
    let class = &entries[index].class;
    let mut table = ClassMarks::none(alloc, entries.len())?;
    for interface in class.interfaces.as_slice() {
        add_supertype(tables, *interface, &mut table);
    }
    if let Some(superclass) = class.superclass {
        add_supertype(tables, superclass, &mut table);
    }
    Ok(table)
}

/// Returns for each class a table of its supertypes by number. Those of a direct supertype are taken over
/// from its table, unless the class has them by another one.
pub fn tables(alloc: Global, entries: &[Entry]) -> Result<Vec<ClassMarks>, AllocError>
    requires { AreArranged entries.now }
    ensures { IfOk result (λ tables. HaveTables (classes_of entries.now) tables.items) }
{
    let order = by_rank(alloc, entries)?;
    let mut tables = Vec::with_capacity(alloc, entries.len())?;
    for _ in 0..entries.len() {
        tables.push(ClassMarks::none(alloc, 0)?)?;
    }
    for index in order.as_slice() {
        let table = table_below(alloc, entries, tables.as_slice(), *index)?;
        tables[*index] = table;
    }
    Ok(tables)
}
