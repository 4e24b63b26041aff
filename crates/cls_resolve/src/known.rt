//! What entries of constant pools mean, each looked for once.

ghost use Rattle.std.specs.Prelude.{◌≡◌, IfSome, List, [], Some, slice_get};
ghost use Rattle.cls_set.specs.declared.class.Class.{Class};
ghost use Rattle.cls_resolve.specs.Entries.{AreKnown, IsClassMeaning, IsEntryMeaning, IsMemberEntry};

use super::meanings::{ClassMeaning, MemberEntry};
use cls_set::{ClassId, Pool};
use std::alloc::{AllocError, Global};
use std::marker::Model;

// What an entry means to the instructions that name it: one that names a class or an array type, or a
// member of a class of the set.
#[derive(Clone, Copy)]
pub(crate) enum EntryMeaning {
    Class(ClassMeaning),
    Member(MemberEntry),
}

/// What an entry of the constant pool of a class means.
#[derive(Clone, Copy)]
pub(crate) struct KnownEntry {
    pub(crate) user: ClassId,
    pub(crate) meaning: EntryMeaning,
}

/// What entries of constant pools mean, by their index in the pool, each with the class whose pool it is.
/// What another class's entry of the same index means takes its room. A contract sees it as a list.
#[derive(Drop)]
pub struct KnownEntries {
    entries: Vec<Option<KnownEntry>>,
}

impl Model for KnownEntries {
    ghost use Rattle.std.specs.Prelude.{List, Option};
    ghost use Rattle.cls_resolve.specs.declared.known.KnownEntry.{KnownEntry};

    ghost Value = { List (Option KnownEntry) };

    ghost view = { λ known. known.entries.items };
}

impl KnownEntries {
    /// No entries. It takes no memory.
    #[tactic(auto, using(crate::proofs::Knowing::none_known))]
    pub fn new(alloc: Global) -> KnownEntries
        ensures { (classes : List Class) → AreKnown classes result }
    {
        KnownEntries {
            entries: Vec::new(alloc),
        }
    }

    /// Makes room for what the entry with an index means.
    #[tactic(auto, using(crate::proofs::Knowing::room_made))]
    pub fn make_room(&mut self, index: u16) -> Result<(), AllocError>
        ensures { (classes : List Class) → AreKnown classes self.old → AreKnown classes self.new }
    {
        for _ in self.entries.len()..usize::from(index) + 1 {
            self.entries.push(None)?;
        }
        Ok(())
    }

    /// Makes room for what the member entry of a pool with an index means, and for what that of its class
    /// does.
    pub fn make_member_room(&mut self, pool: &Pool, index: u16) -> Result<(), AllocError>
        ensures { (classes : List Class) → AreKnown classes self.old → AreKnown classes self.new }
    {
        if let Some(entry) = pool.member(index) {
            self.make_room(entry.class_index)?;
        }
        self.make_room(index)
    }

    // What an entry of the user's pool means, where it is known.
    fn find(&self, user: ClassId, index: u16) -> Option<EntryMeaning>
        ensures { (classes : List Class) → AreKnown classes self.now → IfSome result (IsEntryMeaning classes user index) }
    {
        if usize::from(index) >= self.entries.len() {
            return None;
        }
        let known = self.entries[usize::from(index)]?;
        if known.user.0 == user.0 {
            Some(known.meaning)
        } else {
            None
        }
    }

    // What an entry of the user's pool means to an instruction that names a class, where it is known.
    pub(crate) fn class(&self, user: ClassId, index: u16) -> Option<ClassMeaning>
        ensures { (classes : List Class) → AreKnown classes self.now → IfSome result (IsClassMeaning classes user index) }
    {
        match self.find(user, index) {
            Some(EntryMeaning::Class(meaning)) => Some(meaning),
            _ => None,
        }
    }

    // What a member entry of the user's pool means, where it is known.
    pub(crate) fn member(&self, user: ClassId, index: u16) -> Option<MemberEntry>
        ensures { (classes : List Class) → AreKnown classes self.now → IfSome result (IsMemberEntry classes user index) }
    {
        match self.find(user, index) {
            Some(EntryMeaning::Member(entry)) => Some(entry),
            _ => None,
        }
    }

    // Keeps what an entry of the user's pool means, where there is room.
    pub(crate) fn note(&mut self, user: ClassId, index: u16, meaning: EntryMeaning)
        ensures { (classes : List Class) → AreKnown classes self.old → IsEntryMeaning classes user index meaning → AreKnown classes self.new }
    {
        if usize::from(index) < self.entries.len() {
            self.entries[usize::from(index)] = Some(KnownEntry { user, meaning });
        }
    }
}
