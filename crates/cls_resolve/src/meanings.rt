//! What entries of a constant pool mean to the instructions of its class.

ghost use Rattle.std.specs.Prelude.{◌≡◌, ◌↔◌, ◌<◌, IsSome, IfSome, IfNone, IsTrue, List, ℕ, Some, codes, length};
ghost use Rattle.cls_set.specs.Sets.{IsClassSet};
ghost use Rattle.cls_resolve.specs.Access.{IsMemberAccessible};
ghost use Rattle.cls_resolve.specs.Entries.{AreKnown, IsClassMeaning, IsMember, IsMemberMeaning, MeansNothing};
ghost use Rattle.cls_search.specs.FieldSearches.{field_at};
ghost use Rattle.cls_search.specs.MethodSearches as selections;

use super::MemberIndex;
use super::access::{is_accessible, is_member_accessible};
use super::known::{EntryMeaning, KnownEntries};
use super::uses::pool_of;
use cf_pool::MemberKind;
use cf_text::begins_with;
use cls_search::{FieldIndex, MethodIndex, find_field, find_method, is_initializer};
use cls_set::{ClassId, ClassSet, Field, Flags, Method};

// What an index means to an instruction that names a class or an array type.
#[derive(Clone, Copy)]
pub(crate) enum ClassMeaning {
    // It names no Class entry.
    NoEntry,
    // An array type, which may be `[I`.
    Array { is_of_ints: bool },
    // A class that is not in the set.
    Absent,
    // A class of the set, and whether the user may use it.
    Class { class: ClassId, is_accessible: bool },
}

// A member that is meant, its flags, and whether the user may use it.
#[derive(Clone, Copy)]
pub(crate) struct Member {
    pub index: MemberIndex,
    pub flags: Flags,
    pub is_accessible: bool,
}

// A member entry of a class of the set: whether the name is `<init>`, whether the user may use the
// class, and the member that the entry means.
#[derive(Clone, Copy)]
pub(crate) struct MemberEntry {
    pub kind: MemberKind,
    pub is_initializer: bool,
    pub class: ClassId,
    pub is_accessible: bool,
    pub member: Option<Member>,
}

// What an index means to an instruction that names a member.
#[derive(Clone, Copy)]
pub(crate) enum MemberMeaning {
    // It names no member entry.
    NoEntry,
    // A member of an array type.
    OfArray,
    // A member of a class that is not in the set.
    OfAbsent,
    // A member of a class of the set.
    Entry(MemberEntry),
}

/// The class that an instruction names, and the member that it uses.
#[derive(Clone, Copy, Debug, PartialEq, Eq)]
pub struct UsedMember {
    pub class: ClassId,
    pub member: MemberIndex,
}

// Whether a text is the descriptor of an array of ints.
fn is_int_array(text: &[u8]) -> bool
    ensures { IsTrue result ↔ (text.now ≡ codes "[I") }
{
    text == b"[I".as_slice()
}

// What an index means to an instruction of the user that names a class or an array type.
fn class_meaning(set: &ClassSet, user: ClassId, index: u16) -> ClassMeaning
    requires { user.0 < length set.now }
    ensures { IsClassMeaning set.now user index result }
{
    let Some(entry) = pool_of(set, user).class(index) else {
        return ClassMeaning::NoEntry;
    };
    let text = entry.as_bytes();
    if begins_with(text, b'[') {
        return ClassMeaning::Array {
            is_of_ints: is_int_array(text),
        };
    }
    match set.number(text) {
        Some(class) => ClassMeaning::Class {
            class,
            is_accessible: is_accessible(set, user, class),
        },
        None => ClassMeaning::Absent,
    }
}

// What an index means to an instruction of the user that names a class or an array type: looked for if it
// is not known.
pub(crate) fn known_class(
    set: &ClassSet,
    user: ClassId,
    index: u16,
    known: &mut KnownEntries,
) -> ClassMeaning
    requires user { user.0 < length set.now }
    requires known { AreKnown set.now known.old }
    ensures meaning { IsClassMeaning set.now user index result }
    ensures known { AreKnown set.now known.new }
{
    if let Some(meaning) = known.class(user, index) {
        return meaning;
    }
    let meaning = class_meaning(set, user, index);
    known.note(user, index, EntryMeaning::Class(meaning));
    meaning
}

pub(crate) fn field(set: &ClassSet, field: FieldIndex) -> &Field
    requires { IsSome (field_at set.now field) }
    ensures field { field_at set.now field ≡ Some result.now }
    ensures few { field.index < 65536 }
{
    &set.class(field.class).file.fields.as_slice()[field.index]
}

fn method(set: &ClassSet, method: MethodIndex) -> &Method
    requires { IsSome (selections.method_in set.now method) }
    ensures method { selections.method_in set.now method ≡ Some result.now }
    ensures few { method.index < 65536 }
{
    &set.class(method.class).file.methods.as_slice()[method.index]
}

fn is_field(kind: MemberKind) -> bool
    ensures { IsTrue result ↔ (kind ≡ MemberKind.Field) }
{
    kind == MemberKind::Field
}

// A member, as the user may use it.
fn member_for(set: &ClassSet, user: ClassId, index: MemberIndex, flags: Flags) -> Member
    requires user { user.0 < length set.now }
    requires owner { index.class.0 < length set.now }
    ensures index { result.index ≡ index }
    ensures flags { result.flags ≡ flags }
    ensures accessible { IsTrue result.is_accessible ↔ IsMemberAccessible set.now user index.class flags.bits }
{
    Member {
        index,
        flags,
        is_accessible: is_member_accessible(set, user, index.class, flags),
    }
}

// The member that a name and a descriptor mean in a class, as the user may use it. The search writes to
// the marks, one for each class.
fn find_member(
    set: &ClassSet,
    user: ClassId,
    class: ClassId,
    kind: MemberKind,
    name: &[u8],
    descriptor: &[u8],
    marks: &mut [bool],
) -> Option<Member>
    requires set { IsClassSet set.now }
    requires user { user.0 < length set.now }
    requires in_set { class.0 < length set.now }
    ensures found { IfSome result (λ m. (text : List ℕ) → IsMember set.now user (record { kind = kind; class = text; name = name.now; descriptor = descriptor.now }) class m) }
    ensures absent { IfNone result ((text : List ℕ) → MeansNothing set.now (record { kind = kind; class = text; name = name.now; descriptor = descriptor.now }) class) }
{
    if is_field(kind) {
        let id = find_field(set, class, name, descriptor, marks)?;
        let flags = field(set, id).flags;
        let index = MemberIndex {
            class: id.class,
            index: id.index as u16,
        };
        return Some(member_for(set, user, index, flags));
    }
    let found = find_method(set, class, name, descriptor, marks)?;
    let flags = method(set, found).flags;
    let index = MemberIndex {
        class: found.class,
        index: found.index as u16,
    };
    Some(member_for(set, user, index, flags))
}

// What an index means to an instruction of the user that names a member. Its class is
// looked for if it is not known.
pub(crate) fn member_meaning(
    set: &ClassSet,
    user: ClassId,
    index: u16,
    known: &mut KnownEntries,
    marks: &mut [bool],
) -> MemberMeaning
    requires set { IsClassSet set.now }
    requires user { user.0 < length set.now }
    requires known { AreKnown set.now known.old }
    ensures meaning { IsMemberMeaning set.now user index result }
    ensures known { AreKnown set.now known.new }
{
    let Some(entry) = pool_of(set, user).member(index) else {
        return MemberMeaning::NoEntry;
    };
    match known_class(set, user, entry.class_index, known) {
        ClassMeaning::NoEntry => MemberMeaning::NoEntry,
        ClassMeaning::Array { .. } => MemberMeaning::OfArray,
        ClassMeaning::Absent => MemberMeaning::OfAbsent,
        ClassMeaning::Class {
            class,
            is_accessible,
        } => {
            let name = entry.name.as_bytes();
            let descriptor = entry.descriptor.as_bytes();
            MemberMeaning::Entry(MemberEntry {
                kind: entry.kind,
                is_initializer: is_initializer(name),
                class,
                is_accessible,
                member: find_member(set, user, class, entry.kind, name, descriptor, marks),
            })
        }
    }
}
