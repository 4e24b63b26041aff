//! Which classes are marked or below one that is, found in one pass over the classes by rank.

ghost use Rattle.std.specs.Prelude.{◌≡◌, ◌<◌, ◌↔◌, ℕ, Some, All, IfOk, IsTrue, length, slice_get};
ghost use Rattle.std.specs.List.{Any};
ghost use Rattle.cls_order.specs.declared.class.Class.{Class};
ghost use Rattle.cls_order.specs.Entries.{classes_of, AreArranged, IsRanked};
ghost use Rattle.cls_order.specs.Marks.{rank_at, IsByRank, IsMarked, Reaches};
ghost use Rattle.cls_order.specs.Walks.{ups};

use super::drafts::Index;
use super::entries::{Entry, is_in};
use std::alloc::{AllocError, Global};

// The rank of a class: 0 if there is none.
fn rank_at(entries: &[Entry], index: usize) -> usize
    ensures { result ≡ rank_at entries.now index }
{
    match entries.get(index) {
        Some(entry) => entry.rank,
        None => 0,
    }
}

/// Returns the indices of the classes, each after those of its supertypes.
pub fn by_rank(alloc: Global, entries: &[Entry]) -> Result<Vec<usize>, AllocError>
    ensures { IfOk result (λ order. IsByRank entries.now order.items) }
{
    let mut order = Vec::with_capacity(alloc, entries.len())?;
    for index in 0..entries.len() {
        order.push(index)?;
    }
    order.sort_by(|a, b| rank_at(entries, *a).cmp(&rank_at(entries, *b)))?;
    Ok(order)
}

// Whether one of these classes is marked.
fn is_one_marked(marks: &[bool], classes: &[Index]) -> bool
    ensures { IsTrue result ↔ Any (λ s. IsMarked marks.now s.0) classes.now }
{
    classes.iter().any(|class| is_in(marks, class.get()))
}

// Whether a direct supertype of a class is marked.
fn is_up_marked(entries: &[Entry], marks: &[bool], index: usize) -> bool
    requires { index < length entries.now }
    ensures { (c : Class) → slice_get (classes_of entries.now) index ≡ Some c → IsTrue result ↔ Any (λ s. IsMarked marks.now s.0) (ups c) }
{
    let class = &entries[index].class;
    match class.superclass {
        Some(superclass) if is_in(marks, superclass.get()) => true,
        _ => is_one_marked(marks, class.interfaces.as_slice()),
    }
}

/// Marks the classes below those that are marked. They come by rank, each after its supertypes.
pub fn spread(entries: &[Entry], order: &[usize], marks: &mut Vec<bool>)
    requires arranged { AreArranged entries.now }
    requires order { IsByRank entries.now order.now }
    requires one_each { length marks.old.items ≡ length entries.now }
    ensures { (k : ℕ) → k < length entries.now → IsMarked marks.new.items k ↔ Reaches (classes_of entries.now) marks.old.items k }
{
    for index in order {
        if is_up_marked(entries, marks.as_slice(), *index) {
            marks[*index] = true;
        }
    }
}
