//! The rules on the members that instructions name.

ghost use Rattle.std.specs.Prelude.{◌≡◌, ◌≢◌, ◌↔◌, ◌<◌, ℕ, IfOk, IsTrue, List, false, length};
ghost use Rattle.cf_pool.specs.declared.pool.MemberKind.TheVariants as kind;
ghost use Rattle.cls_set.specs.Sets.{IsClassSet};
ghost use Rattle.cls_set.specs.declared.class.Class.{Class};
ghost use Rattle.cls_resolve.specs.Checks as spec;
ghost use Rattle.cls_resolve.specs.Checks.{broken_of, of_use, FitsClass, IsFinalWrite, IsMismatch, IsPrivateCall, IsWrongEntry};
ghost use Rattle.cls_resolve.specs.Access.{IsMemberAccessible};
ghost use Rattle.cls_search.specs.MethodSearches.{is_initializer};
ghost use Rattle.cls_resolve.specs.Entries.{AreKnown, IsMemberEntry, IsMemberMeaning, IsUsed};
ghost use Rattle.cls_resolve.specs.LinkRules.{order, IsFirstBroken, MeansMember, Site};
ghost use Rattle.cls_resolve.specs.References as references;

use super::LinkRule;
use super::access::flags_of;
use super::known::{EntryMeaning, KnownEntries};
use super::meanings::{Member, MemberEntry, MemberMeaning, UsedMember, member_meaning};
use super::references::{Asked, MemberOperation};
use cf_pool::MemberKind;
use cls_search::is_initializer;
use cls_set::{ClassId, ClassSet, Flags, Method};

// The kind of member entry that an instruction takes.
fn kind_taken(operation: MemberOperation) -> MemberKind
    ensures { result ≡ references.kind_taken operation }
{
    match operation {
        MemberOperation::GetStatic | MemberOperation::GetField | MemberOperation::PutField => {
            MemberKind::Field
        }
        MemberOperation::InvokeVirtual
        | MemberOperation::InvokeSpecial
        | MemberOperation::InvokeStatic => MemberKind::Method,
        MemberOperation::InvokeInterface => MemberKind::InterfaceMethod,
    }
}

// Whether an instruction takes an entry of a kind.
fn takes_kind(operation: MemberOperation, kind: MemberKind) -> bool
    ensures { IsTrue result ↔ (kind ≡ references.kind_taken operation) }
{
    kind == kind_taken(operation)
}

// Whether an instruction takes a static member.
fn takes_static(operation: MemberOperation) -> bool
    ensures { result ≡ references.takes_static operation }
{
    matches!(
        operation,
        MemberOperation::GetStatic | MemberOperation::InvokeStatic
    )
}

// Whether an entry of a kind names a member of a class with these flags.
fn fits_class(kind: MemberKind, flags: Flags) -> bool
    ensures { IsTrue result ↔ FitsClass kind flags.bits }
{
    let is_interface = flags.has(Flags::INTERFACE);
    match kind {
        MemberKind::Field => true,
        MemberKind::Method => !is_interface,
        MemberKind::InterfaceMethod => is_interface,
    }
}

// Whether an instruction other than invokespecial names `<init>`.
fn calls_initializer(operation: MemberOperation, entry: MemberEntry) -> bool
    ensures { IsTrue result ↔ ((entry.kind ≢ kind.Field) × IsTrue entry.is_initializer × (operation ≢ MemberOperation.InvokeSpecial)) }
{
    entry.kind != MemberKind::Field
        && operation != MemberOperation::InvokeSpecial
        && entry.is_initializer
}

// Whether an entry is not what an instruction takes, of a class with these flags.
fn is_wrong_entry(operation: MemberOperation, entry: MemberEntry, flags: Flags) -> bool
    ensures wrong { (name : List ℕ) → entry.is_initializer ≡ is_initializer name → (IsTrue result ↔ IsWrongEntry operation entry.kind name flags.bits) }
    ensures taken { result ≡ false → entry.kind ≡ references.kind_taken operation }
{
    !takes_kind(operation, entry.kind)
        || !fits_class(entry.kind, flags)
        || calls_initializer(operation, entry)
}

// The rule on a member of a kind that is not found.
fn absent_rule(kind: MemberKind) -> LinkRule
    ensures { result ≡ spec.absent_rule kind }
{
    match kind {
        MemberKind::Field => LinkRule::AbsentField,
        MemberKind::Method | MemberKind::InterfaceMethod => LinkRule::AbsentMethod,
    }
}

// Whether a member is static and is taken as one of instances, or the other way round.
fn is_mismatch(operation: MemberOperation, flags: Flags) -> bool
    ensures { IsTrue result ↔ IsMismatch operation flags.bits }
{
    takes_static(operation) != flags.has(Flags::STATIC)
}

// Whether an instruction in a method writes a final field that it may not write.
fn is_final_write(
    operation: MemberOperation,
    user: ClassId,
    method: &Method,
    member: Member,
) -> bool
    ensures { IsTrue result ↔ IsFinalWrite operation user method.now.name member.index.class member.flags.bits }
{
    operation == MemberOperation::PutField
        && member.flags.has(Flags::FINAL)
        && (user != member.index.class || !is_initializer(method.name.as_bytes()))
}

fn is_private_call(operation: MemberOperation, flags: Flags) -> bool
    ensures { IsTrue result ↔ IsPrivateCall operation flags.bits }
{
    operation == MemberOperation::InvokeVirtual && flags.has(Flags::PRIVATE)
}

// The rule that an instruction in a method of a class breaks on a member that is found.
fn broken_by_use(
    user: ClassId,
    method: &Method,
    operation: MemberOperation,
    member: Member,
) -> Option<LinkRule>
    ensures { (classes : List Class) (site : Site) → site.class ≡ user → site.method.name ≡ method.now.name → MeansMember classes site operation member.index.class member.flags.bits → (IsTrue member.is_accessible ↔ IsMemberAccessible classes user member.index.class member.flags.bits) → IsFirstBroken classes site of_use result }
{
    if !member.is_accessible {
        return Some(LinkRule::Access);
    }
    if is_mismatch(operation, member.flags) {
        return Some(LinkRule::StaticMismatch);
    }
    if is_final_write(operation, user, method, member) {
        return Some(LinkRule::FinalField);
    }
    if is_private_call(operation, member.flags) {
        return Some(LinkRule::PrivateVirtual);
    }
    None
}

// What an instruction on a member of a class of the set uses, in a method of a class, or the rule that
// it breaks.
fn entry_use(
    set: &ClassSet,
    user: ClassId,
    method: &Method,
    operation: MemberOperation,
    index: u16,
    entry: MemberEntry,
) -> Result<UsedMember, LinkRule>
    requires { IsMemberEntry set.now user index entry }
    ensures broken { IsFirstBroken set.now (record { class = user; method = method.now; asked = Asked.Member operation; index = index }) order (broken_of result) }
    ensures used { IfOk result (IsUsed set.now user operation index) }
{
    let _index = index;
    if is_wrong_entry(operation, entry, flags_of(set, entry.class)) {
        return Err(LinkRule::WrongRefKind);
    }
    if !entry.is_accessible {
        return Err(LinkRule::Access);
    }
    let Some(member) = entry.member else {
        return Err(absent_rule(entry.kind));
    };
    match broken_by_use(user, method, operation, member) {
        Some(rule) => Err(rule),
        None => Ok(UsedMember {
            class: entry.class,
            member: member.index,
        }),
    }
}

// What an index means to an instruction of the user that names a member: looked for where it is not known.
fn known_meaning(
    set: &ClassSet,
    user: ClassId,
    index: u16,
    known: &mut KnownEntries,
    marks: &mut [bool],
) -> MemberMeaning
    requires set { IsClassSet set.now }
    requires user { user.0 < length set.now }
    requires known { AreKnown set.now known.old }
    ensures meaning { IsMemberMeaning set.now user index result }
    ensures known { AreKnown set.now known.new }
{
    if let Some(entry) = known.member(user, index) {
        return MemberMeaning::Entry(entry);
    }
    let meaning = member_meaning(set, user, index, known, marks);
    if let MemberMeaning::Entry(entry) = meaning {
        known.note(user, index, EntryMeaning::Member(entry));
    }
    meaning
}

/// Returns what an instruction on a member uses, in a method of the class `user`, or the first rule
/// that it breaks: `AbsentClass`, `WrongRefKind`, `Access` of the class, `AbsentField` or
/// `AbsentMethod`, `Access` of the member, `StaticMismatch`, `FinalField`, `PrivateVirtual`. A
/// member that is known is not searched for again, and one that is found is known where there is
/// room. The search writes to the marks, one for each class.
pub fn member_use(
    set: &ClassSet,
    user: ClassId,
    method: &Method,
    operation: MemberOperation,
    index: u16,
    known: &mut KnownEntries,
    marks: &mut [bool],
) -> Result<UsedMember, LinkRule>
    requires set { IsClassSet set.now }
    requires user { user.0 < length set.now }
    requires known { AreKnown set.now known.old }
    ensures broken { IsFirstBroken set.now (record { class = user; method = method.now; asked = Asked.Member operation; index = index }) order (broken_of result) }
    ensures used { IfOk result (IsUsed set.now user operation index) }
    ensures known { AreKnown set.now known.new }
{
    match known_meaning(set, user, index, known, marks) {
        MemberMeaning::NoEntry => Err(LinkRule::WrongRefKind),
        MemberMeaning::OfArray => Err(LinkRule::WrongRefKind),
        MemberMeaning::OfAbsent => Err(LinkRule::AbsentClass),
        MemberMeaning::Entry(entry) => entry_use(set, user, method, operation, index, entry),
    }
}
