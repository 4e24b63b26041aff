//! Ranks of classes, found in one pass over the classes and their direct supertypes.

ghost use Rattle.std.specs.Prelude.{◌≡◌, ◌<◌, ◌+◌, ℕ, All, IfOk, IfSome, IsTrue, OnOk, length, slice_get};
ghost use Rattle.cls_order.specs.Entries.{classes_of, IsRanked};
ghost use Rattle.cls_order.specs.Marks.{IsMarked};
ghost use Rattle.cls_order.specs.Ranking.{IsPass};
ghost use Rattle.cls_order.specs.Walks.{ups, AreWithin};

use super::drafts::{Draft, Index};
use super::entries::Entry;
use std::alloc::{AllocError, Global};

// How far the pass is: which classes it has come to, which have their rank, and of each class how many
// of its direct supertypes it has gone through, by index; and the classes in whose supertypes it is, each
// a direct supertype of the one before it.
#[derive(Drop)]
pub(crate) struct Pass {
    pub(crate) met: Vec<bool>,
    pub(crate) ranked: Vec<bool>,
    pub(crate) passed: Vec<usize>,
    pub(crate) path: Vec<usize>,
}

// A direct supertype of a class, by its index among them: the superclass stands after the superinterfaces.
fn up(class: &Draft, index: usize) -> Option<Index>
    ensures { result ≡ slice_get (ups class.now) index }
{
    let interfaces = class.interfaces.as_slice();
    if index < interfaces.len() {
        return Some(interfaces[index]);
    }
    if index == interfaces.len() {
        class.superclass
    } else {
        None
    }
}

// Goes on at a class of the path. False says that the pass ends, since the path comes back to one of its
// classes.
fn go_on(
    entries: &mut Vec<Entry>,
    pass: &mut Pass,
    index: usize,
    rank: usize,
) -> Result<bool, AllocError>
    requires within { AreWithin (length entries.old.items) (classes_of entries.old.items) }
    requires pass { IsPass entries.old.items rank pass.old }
    requires in_set { index < length entries.old.items }
    ensures classes { classes_of entries.new.items ≡ classes_of entries.old.items }
    ensures pass { OnOk result (IsPass entries.new.items (rank + 1) pass.new) }
    ensures kept { OnOk result ((k : ℕ) → IsMarked pass.old.ranked.items k → IsMarked pass.new.ranked.items k) }
{
    if pass.ranked[index] {
        let _ = pass.path.pop();
        return Ok(true);
    }
    let supertype = pass.passed[index];
    let Some(class) = up(&entries[index].class, supertype) else {
        entries[index].rank = rank;
        pass.ranked[index] = true;
        return Ok(true);
    };
    if pass.ranked[class.get()] {
        if supertype == usize::MAX {
            return Ok(false);
        }
        pass.passed[index] = supertype + 1;
        return Ok(true);
    }
    if pass.met[class.get()] {
        return Ok(false);
    }
    pass.met[class.get()] = true;
    pass.path.push(class.get())?;
    Ok(true)
}

// The class at the end of the path.
fn end(pass: &Pass) -> Option<usize>
    ensures { (n : ℕ) → All (λ k. k < n) pass.now.path.items → IfSome result (λ k. k < n) }
{
    match pass.path.last() {
        Some(index) => Some(*index),
        None => None,
    }
}

// A pass that has come to none of these classes yet.
fn start(alloc: Global, entries: &[Entry]) -> Result<Pass, AllocError>
    ensures { IfOk result (IsPass entries.now 0) }
{
    let count = entries.len();
    Ok(Pass {
        met: vec![in alloc; false; count]?,
        ranked: vec![in alloc; false; count]?,
        passed: vec![in alloc; 0; count]?,
        path: Vec::new(alloc),
    })
}

// Goes through the classes from the start of a pass on. True says that all have ranks.
fn go_through(entries: &mut Vec<Entry>, pass: &mut Pass) -> Result<bool, AllocError>
    requires within { AreWithin (length entries.old.items) (classes_of entries.old.items) }
    requires pass { IsPass entries.old.items 0 pass.old }
    ensures classes { classes_of entries.new.items ≡ classes_of entries.old.items }
    ensures ranks { IfOk result (λ all. IsTrue all → All (IsRanked entries.new.items) entries.new.items) }
{
    let count = entries.len();
    let mut next = 0;
    for rank in 0..usize::MAX {
        if let Some(index) = end(pass) {
            if !go_on(entries, pass, index, rank)? {
                return Ok(false);
            }
        } else if next == count {
            return Ok(true);
        } else if pass.ranked[next] {
            next += 1;
        } else {
            pass.met[next] = true;
            pass.path.push(next)?;
        }
    }
    Ok(false)
}

// Ranks the classes, each above its direct supertypes, if none is its own supertype: then all have ranks.
pub(crate) fn rank_in_one_pass(alloc: Global, entries: &mut Vec<Entry>) -> Result<bool, AllocError>
    requires { AreWithin (length entries.old.items) (classes_of entries.old.items) }
    ensures classes { classes_of entries.new.items ≡ classes_of entries.old.items }
    ensures ranks { IfOk result (λ all. IsTrue all → All (IsRanked entries.new.items) entries.new.items) }
{
    let mut pass = start(alloc, entries)?;
    go_through(entries, &mut pass)
}
