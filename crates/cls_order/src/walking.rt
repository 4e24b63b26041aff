//! Walks up the supertypes of classes: each class is ranked by the number of its supertypes, and none may
//! be among its own.

ghost use Rattle.std.specs.Prelude.{◌≡◌, ◌<◌, ◌≤◌, All, IfOk, OnOk, length};
ghost use Rattle.cls_order.specs.Entries.{classes_of, AreRanks};
ghost use Rattle.cls_order.specs.Walks.{met_by, meet_one, meet_all, ups_at, AreWithin, IsWalked};

use super::drafts::Index;
use super::entries::Entry;
use super::ranking::rank_in_one_pass;
use std::alloc::{AllocError, Global};

// The classes that a walk up has met: whether it has, by number, and in the order in which it has.
#[derive(Drop)]
pub(crate) struct Walk {
    pub(crate) met: Vec<bool>,
    pub(crate) order: Vec<Index>,
}

fn meet(class: Index, walk: &mut Walk) -> Result<(), AllocError>
    requires { class.0 < length walk.old.met.items }
    ensures { OnOk result (met_by walk.new ≡ meet_one (met_by walk.old) class) }
{
    let index = class.get();
    if walk.met[index] {
        return Ok(());
    }
    walk.met[index] = true;
    walk.order.push(class)?;
    Ok(())
}

fn meet_each(classes: &[Index], walk: &mut Walk) -> Result<(), AllocError>
    requires { All (λ s. s.0 < length walk.old.met.items) classes.now }
    ensures { OnOk result (met_by walk.new ≡ meet_all (met_by walk.old) classes.now) }
{
    for class in classes {
        meet(*class, walk)?;
    }
    Ok(())
}

// Meets the direct supertypes of a class.
fn meet_supertypes(entries: &[Entry], class: Index, walk: &mut Walk) -> Result<(), AllocError>
    requires in_set { class.0 < length entries.now }
    requires within { AreWithin (length walk.old.met.items) (classes_of entries.now) }
    ensures { OnOk result (met_by walk.new ≡ meet_all (met_by walk.old) (ups_at (classes_of entries.now) class)) }
{
    let class = &entries[class.get()].class;
    meet_each(class.interfaces.as_slice(), walk)?;
    match class.superclass {
        Some(superclass) => meet(superclass, walk),
        None => Ok(()),
    }
}

// Meets each supertype of a class once.
fn walk_up(alloc: Global, entries: &[Entry], from: Index) -> Result<Walk, AllocError>
    requires in_set { from.0 < length entries.now }
    requires within { AreWithin (length entries.now) (classes_of entries.now) }
    ensures { IfOk result (IsWalked (classes_of entries.now) from) }
{
    let mut walk = Walk {
        met: vec![in alloc; false; entries.len()]?,
        order: Vec::new(alloc),
    };
    meet_supertypes(entries, from, &mut walk)?;
    let mut next = 0;
    'up: while next < walk.order.len() {
        let class = walk.order[next];
        meet_supertypes(entries, class, &mut walk)?;
        next += 1;
    }
    Ok(walk)
}

// Ranks the classes by walks up from each, or answers the index of the first one that is its own supertype.
fn rank_by_walks(alloc: Global, entries: &mut Vec<Entry>) -> Result<Option<usize>, AllocError>
    requires { AreWithin (length entries.old.items) (classes_of entries.old.items) }
    ensures classes { classes_of entries.new.items ≡ classes_of entries.old.items }
    ensures ranks { IfOk result (AreRanks (classes_of entries.old.items) entries.new.items) }
{
    for index in 0..entries.len() {
        let walk = walk_up(alloc, entries.as_slice(), Index::new(index))?;
        if walk.met[index] {
            return Ok(Some(index));
        }
        entries[index].rank = walk.order.len();
    }
    Ok(None)
}

// Ranks the classes, or answers the index of the first one that is its own supertype. It walks up from each
// class only if one pass over all of them leaves one without a rank.
pub(crate) fn rank(alloc: Global, entries: &mut Vec<Entry>) -> Result<Option<usize>, AllocError>
    requires { AreWithin (length entries.old.items) (classes_of entries.old.items) }
    ensures classes { classes_of entries.new.items ≡ classes_of entries.old.items }
    ensures ranks { IfOk result (AreRanks (classes_of entries.old.items) entries.new.items) }
{
    if rank_in_one_pass(alloc, entries)? {
        return Ok(None);
    }
    rank_by_walks(alloc, entries)
}
