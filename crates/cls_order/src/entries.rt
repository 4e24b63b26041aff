//! The classes of which a set is built: in the order of their names, each with a rank above those of its
//! direct supertypes, so that every walk up ends.

ghost use Rattle.std.specs.Prelude.{◌≡◌, ◌<◌, IfSome, Some, false, length, slice_index_or};
ghost use Rattle.std.specs.List.Sorted.{IsStrictlySortedBy};
ghost use Rattle.cls_order.specs.Classes.{name_at, name_cmp, names, number_of};
ghost use Rattle.cls_order.specs.Entries.{classes_of};

use super::drafts::{Draft, Index};

/// A class, and a number that is above those of its direct supertypes.
#[derive(Drop)]
pub struct Entry {
    pub class: Draft,
    pub rank: usize,
}

/// Returns the index of the class of this name: `None` if there is none.
pub fn find(entries: &[Entry], name: &[u8]) -> Option<Index>
    requires { IsStrictlySortedBy name_cmp (names (classes_of entries.now)) }
    ensures number { result ≡ number_of (classes_of entries.now) name.now }
    ensures in_set { IfSome result (λ id. id.0 < length (classes_of entries.now)) }
    ensures named { IfSome result (λ id. name_at (classes_of entries.now) id ≡ Some name.now) }
{
    match entries.binary_search_by(|entry| entry.class.file.name.as_bytes().cmp(name)) {
        Ok(index) => Some(Index::new(index)),
        Err(_) => None,
    }
}

/// Returns what a table says of a class.
pub fn is_in(table: &[bool], index: usize) -> bool
    ensures { result ≡ slice_index_or table.now index false }
{
    match table.get(index) {
        Some(is) => *is,
        None => false,
    }
}
