//! How a class set keeps its classes: in the order of their names, each with a rank above those of
//! its direct supertypes, so that every walk up ends.

ghost use Rattle.std.specs.Prelude.{◌≡◌, ◌<◌, ◌≤◌, ◌↔◌, All, IfOk, IfSome, IsTrue, Some, length};
ghost use Rattle.std.specs.List.Sorted.{IsStrictlySortedBy};
ghost use Rattle.cls_order.specs.Classes.{name_at, name_cmp, names, number_of};
ghost use Rattle.cls_order.specs.Entries.{classes_of, IsRanked};
ghost use Rattle.cls_order.specs.Walks.{ups, AreWithin};

use super::{Class, ClassId};
use cf_reader::Row;
use cls_order::{Entry, Index};
use std::alloc::{AllocError, Global};
use std::marker::Model;

// A class, and a number that is above those of its direct supertypes. A contract sees it as the entry of
// which it is made.
#[derive(Drop)]
pub(crate) struct Member {
    pub(crate) class: Class,
    pub(crate) rank: usize,
}

impl Model for Member {
    ghost use Rattle.cls_order.specs.declared.entries.Entry.{Entry};

    ghost Value = { Entry };

    ghost view = { λ member. record { class = member.class; rank = member.rank } };
}

// The number of a class of a set: there are few enough.
fn class_id(index: Index) -> ClassId
    requires { index.0 < 4096 }
    ensures { result ≡ index }
{
    ClassId(index.get() as u16)
}

fn class_ids(alloc: Global, indices: &[Index]) -> Result<Row<ClassId>, AllocError>
    requires { All (λ s. s.0 < 4096) indices.now }
    ensures { IfOk result (λ ids. ids ≡ indices.now) }
{
    let mut ids = Vec::new(alloc);
    for index in indices {
        ids.push(class_id(*index))?;
    }
    Ok(Row::new(ids))
}

fn number_class(alloc: Global, entry: Entry) -> Result<Member, AllocError>
    requires { All (λ s. s.0 < 4096) (ups entry.class) }
    ensures { IfOk result (λ member. member ≡ entry) }
{
    let draft = entry.class;
    let interfaces = class_ids(alloc, draft.interfaces.as_slice())?;
    let superclass = match draft.superclass {
        Some(index) => Some(class_id(index)),
        None => None,
    };
    let class = Class {
        file: draft.file,
        superclass,
        interfaces,
        is_built_in: draft.is_built_in,
    };
    Ok(Member {
        class,
        rank: entry.rank,
    })
}

// The classes of a set that is built, with their supertypes by number.
pub(crate) fn number_classes(alloc: Global, entries: Vec<Entry>) -> Result<Vec<Member>, AllocError>
    requires { AreWithin 4096 (classes_of entries.items) }
    ensures { IfOk result (λ members. members.items ≡ entries.items) }
{
    let mut members = Vec::with_capacity(alloc, entries.len())?;
    for entry in entries {
        members.push(number_class(alloc, entry)?)?;
    }
    Ok(members)
}

// The number of the class of this name.
pub(crate) fn find_number(members: &[Member], name: &[u8]) -> Option<ClassId>
    requires ordered { IsStrictlySortedBy name_cmp (names (classes_of members.now)) }
    requires few { length members.now ≤ 4096 }
    ensures number { result ≡ number_of (classes_of members.now) name.now }
    ensures in_set { IfSome result (λ id. id.0 < length (classes_of members.now)) }
    ensures named { IfSome result (λ id. name_at (classes_of members.now) id ≡ Some name.now) }
{
    match members.binary_search_by(|member| member.class.file.name.as_bytes().cmp(name)) {
        Ok(index) => Some(ClassId(index as u16)),
        Err(_) => None,
    }
}
