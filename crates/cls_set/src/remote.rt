//! Remote classes and interfaces, and the members that they may have (Java RMI specification, 2.4).

ghost use Rattle.std.specs.Prelude.{◌≡◌, ◌<◌, ◌↔◌, Some, IfOk, IsTrue, length, slice_get};
ghost use Rattle.std.specs.List.{Any};
ghost use Rattle.cls_order.specs.declared.class.Class.{Class};
ghost use Rattle.cls_order.specs.Building.{origins_of};
ghost use Rattle.cls_set.specs.ClassRules.{AreKnown, AreRemote, AreUnfit, CannotCross, IsFieldNotKept, IsMethodNotCrossing, IsUnfit};
ghost use Rattle.cls_order.specs.Entries.{classes_of, AreArranged};
ghost use Rattle.cls_order.specs.Marks.{IsByRank};
ghost use Rattle.cls_set.specs.Rules.{CanBeKept, CanCross, NamesRemoteInterface};

use cf_reader::{ElementType, Field, FieldType, Flags, Method, Parameters, Shared, Text};
use cls_order::{Entry, find, is_in, spread};
use std::alloc::{AllocError, Global};

// Which classes are java/rmi/Remote or below it.
pub(crate) fn find_remote(
    alloc: Global,
    entries: &[Entry],
    order: &[usize],
) -> Result<Vec<bool>, AllocError>
    requires arranged { AreArranged entries.now }
    requires order { IsByRank entries.now order.now }
    ensures { IfOk result (λ remote. AreRemote entries.now remote.items) }
{
    let mut remote = vec![in alloc; false; entries.len()]?;
    match find(entries, b"java/rmi/Remote") {
        Some(id) => {
            remote[id.get()] = true;
            spread(entries, order, &mut remote);
            Ok(remote)
        }
        None => Ok(remote),
    }
}

fn names_remote_interface(entries: &[Entry], remote: &[bool], name: &Text) -> bool
    requires { AreKnown entries.now remote.now }
    ensures { IsTrue result ↔ NamesRemoteInterface (origins_of entries.now) name.now }
{
    match find(entries, name.as_bytes()) {
        Some(id) => {
            let index = id.get();
            entries[index].class.is_interface() && is_in(remote, index)
        }
        None => false,
    }
}

// Whether a remote class may have an instance field of this type.
fn can_be_kept(entries: &[Entry], remote: &[bool], kind: &FieldType) -> bool
    requires { AreKnown entries.now remote.now }
    ensures { IsTrue result ↔ CanBeKept (origins_of entries.now) kind.now }
{
    if kind.dimensions != 0 {
        return false;
    }
    match &kind.element {
        ElementType::Int => true,
        ElementType::Boolean => true,
        ElementType::Class(name) => names_remote_interface(entries, remote, name),
        _ => false,
    }
}

// Whether a remote interface's methods may take and give this type.
fn can_cross(entries: &[Entry], remote: &[bool], kind: &FieldType) -> bool
    requires { AreKnown entries.now remote.now }
    ensures { IsTrue result ↔ CanCross (origins_of entries.now) kind.now }
{
    match &kind.element {
        ElementType::Int if kind.dimensions == 1 => true,
        _ => can_be_kept(entries, remote, kind),
    }
}

fn cannot_cross(entries: &[Entry], remote: &[bool], kind: &FieldType) -> bool
    requires { AreKnown entries.now remote.now }
    ensures { IsTrue result ↔ CannotCross (origins_of entries.now) kind.now }
{
    !can_cross(entries, remote, kind)
}

fn does_not_cross(entries: &[Entry], remote: &[bool], kind: &Shared<FieldType>) -> bool
    requires { AreKnown entries.now remote.now }
    ensures { IsTrue result ↔ CannotCross (origins_of entries.now) kind.now }
{
    cannot_cross(entries, remote, kind)
}

fn is_field_not_kept(entries: &[Entry], remote: &[bool], field: &Field) -> bool
    requires { AreKnown entries.now remote.now }
    ensures { IsTrue result ↔ IsFieldNotKept (origins_of entries.now) field.now }
{
    !field.flags.has(Flags::STATIC) && !can_be_kept(entries, remote, &field.kind)
}

fn is_one_not_crossing(entries: &[Entry], remote: &[bool], kinds: &Parameters) -> bool
    requires { AreKnown entries.now remote.now }
    ensures { IsTrue result ↔ Any (CannotCross (origins_of entries.now)) kinds.now }
{
    kinds.iter().any(|kind| cannot_cross(entries, remote, kind))
}

fn is_method_not_crossing(entries: &[Entry], remote: &[bool], method: &Method) -> bool
    requires { AreKnown entries.now remote.now }
    ensures { IsTrue result ↔ IsMethodNotCrossing (origins_of entries.now) method.now }
{
    match &method.types.result {
        Some(kind) if does_not_cross(entries, remote, kind) => true,
        _ => is_one_not_crossing(entries, remote, &method.types.parameters),
    }
}

fn is_one_field_not_kept(entries: &[Entry], remote: &[bool], fields: &[Field]) -> bool
    requires { AreKnown entries.now remote.now }
    ensures { IsTrue result ↔ Any (IsFieldNotKept (origins_of entries.now)) fields.now }
{
    fields
        .iter()
        .any(|field| is_field_not_kept(entries, remote, field))
}

fn is_one_method_not_crossing(entries: &[Entry], remote: &[bool], methods: &[Method]) -> bool
    requires { AreKnown entries.now remote.now }
    ensures { IsTrue result ↔ Any (IsMethodNotCrossing (origins_of entries.now)) methods.now }
{
    methods
        .iter()
        .any(|method| is_method_not_crossing(entries, remote, method))
}

// Which members: the fields of classes, or the methods of interfaces.
#[derive(Clone, Copy, PartialEq, Eq)]
pub(crate) enum MemberKind {
    Fields,
    Methods,
}

// Whether a class has a member that no remote class or interface may have or inherit.
fn is_unfit(entries: &[Entry], remote: &[bool], index: usize, kind: MemberKind) -> bool
    requires known { AreKnown entries.now remote.now }
    requires in_set { index < length entries.now }
    ensures { (c : Class) → slice_get (classes_of entries.now) index ≡ Some c → IsTrue result ↔ IsUnfit kind (origins_of entries.now) c.file }
{
    let class = &entries[index].class;
    match kind {
        MemberKind::Fields => is_one_field_not_kept(entries, remote, class.file.fields.as_slice()),
        MemberKind::Methods => {
            class.is_interface()
                && is_one_method_not_crossing(entries, remote, class.file.methods.as_slice())
        }
    }
}

// Which classes have or inherit such a member.
pub(crate) fn find_unfit(
    alloc: Global,
    entries: &[Entry],
    order: &[usize],
    remote: &[bool],
    kind: MemberKind,
) -> Result<Vec<bool>, AllocError>
    requires known { AreKnown entries.now remote.now }
    requires order { IsByRank entries.now order.now }
    ensures { IfOk result (λ unfit. AreUnfit kind entries.now unfit.items) }
{
    let mut unfit = Vec::with_capacity(alloc, entries.len())?;
    for index in 0..entries.len() {
        unfit.push(is_unfit(entries, remote, index, kind))?;
    }
    spread(entries, order, &mut unfit);
    Ok(unfit)
}
