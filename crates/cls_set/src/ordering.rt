//! An order of the members of a class by their names and descriptors, and the search among them.

ghost use Rattle.std.specs.Prelude.{◌≡◌, ◌<◌, ◌≤◌, IfOk, length};
ghost use Rattle.std.specs.List.{position};
ghost use Rattle.cls_order.specs.Entries.{classes_of};
ghost use Rattle.cls_set.specs.Orders.{index_cmp, is_below, is_key, is_short_name, key_at, key_cmp, keys_of};
ghost use Rattle.cls_set.specs.Orders.{longer, shorter, HaveOrders, IsOrder, IsLowerBound};

use super::remote::MemberKind;
use cf_reader::{ClassFile, Row};
use cls_order::Entry;
use std::alloc::{AllocError, Global};
use std::cmp::Ordering;

// How many members there are.
pub(crate) fn count(file: &ClassFile, kind: MemberKind) -> u16
    ensures { result ≡ length (keys_of kind file.now) }
{
    match kind {
        MemberKind::Fields => file.fields.as_slice().len() as u16,
        MemberKind::Methods => file.methods.as_slice().len() as u16,
    }
}

// The name and the descriptor of a member: empty ones if there is none.
pub(crate) fn key(file: &ClassFile, kind: MemberKind, index: u16) -> (&[u8], &[u8])
    ensures name { result.0.now ≡ (key_at (keys_of kind file.now) index).0 }
    ensures descriptor { result.1.now ≡ (key_at (keys_of kind file.now) index).1 }
{
    let index = usize::from(index);
    match kind {
        MemberKind::Fields => match file.fields.as_slice().get(index) {
            Some(field) => (field.name.as_bytes(), field.descriptor.as_bytes()),
            None => (&[], &[]),
        },
        MemberKind::Methods => match file.methods.as_slice().get(index) {
            Some(method) => (method.name.as_bytes(), method.descriptor.as_bytes()),
            None => (&[], &[]),
        },
    }
}

// The shorter one of a name and a descriptor, the longer one, and whether the name is the shorter one.
fn by_length<'a>(name: &'a [u8], descriptor: &'a [u8]) -> (&'a [u8], &'a [u8], bool)
    ensures shorter { result.0.now ≡ shorter (name.now, descriptor.now) }
    ensures longer { result.1.now ≡ longer (name.now, descriptor.now) }
    ensures is_short { result.2 ≡ is_short_name (name.now, descriptor.now) }
{
    if name.len() <= descriptor.len() {
        (name, descriptor, true)
    } else {
        (descriptor, name, false)
    }
}

pub(crate) fn compare_keys(
    a_name: &[u8],
    a_descriptor: &[u8],
    b_name: &[u8],
    b_descriptor: &[u8],
) -> Ordering
    ensures { result ≡ key_cmp (a_name.now, a_descriptor.now) (b_name.now, b_descriptor.now) }
{
    let (a_shorter, a_longer, a_is_short) = by_length(a_name, a_descriptor);
    let (b_shorter, b_longer, b_is_short) = by_length(b_name, b_descriptor);
    match a_shorter.cmp(b_shorter) {
        Ordering::Equal => a_longer.cmp(b_longer).then(a_is_short.cmp(&b_is_short)),
        differ => differ,
    }
}

fn compare(file: &ClassFile, kind: MemberKind, a: u16, b: u16) -> Ordering
    ensures { result ≡ index_cmp (keys_of kind file.now) a b }
{
    let (a_name, a_descriptor) = key(file, kind, a);
    let (b_name, b_descriptor) = key(file, kind, b);
    compare_keys(a_name, a_descriptor, b_name, b_descriptor).then(a.cmp(&b))
}

// Whether a member comes before this name and descriptor.
fn is_before(file: &ClassFile, kind: MemberKind, index: u16, name: &[u8], descriptor: &[u8]) -> bool
    ensures { result ≡ is_below (keys_of kind file.now) (name.now, descriptor.now) index }
{
    let (own_name, own_descriptor) = key(file, kind, index);
    compare_keys(own_name, own_descriptor, name, descriptor).is_lt()
}

// Where in their order those members begin that do not come before this name and descriptor.
fn lower_bound(
    file: &ClassFile,
    kind: MemberKind,
    order: &[u16],
    name: &[u8],
    descriptor: &[u8],
) -> usize
    requires { IsOrder (keys_of kind file.now) order.now }
    ensures within { result ≤ length order.now }
    ensures start { IsLowerBound (keys_of kind file.now) order.now (name.now, descriptor.now) result }
{
    order.partition_point(|index| is_before(file, kind, *index, name, descriptor))
}

fn is_named(file: &ClassFile, kind: MemberKind, index: u16, name: &[u8], descriptor: &[u8]) -> bool
    ensures { result ≡ is_key (name.now, descriptor.now) (key_at (keys_of kind file.now) index) }
{
    let (own_name, own_descriptor) = key(file, kind, index);
    own_name == name && own_descriptor == descriptor
}

// The index of the first member with this name and descriptor.
pub(crate) fn find_member(
    file: &ClassFile,
    kind: MemberKind,
    order: &[u16],
    name: &[u8],
    descriptor: &[u8],
) -> Option<usize>
    requires { IsOrder (keys_of kind file.now) order.now }
    ensures { result ≡ position (is_key (name.now, descriptor.now)) (keys_of kind file.now) }
{
    let start = lower_bound(file, kind, order, name, descriptor);
    if start < order.len() && is_named(file, kind, order[start], name, descriptor) {
        Some(usize::from(order[start]))
    } else {
        None
    }
}

// The indices of the members in that order.
fn order(alloc: Global, file: &ClassFile, kind: MemberKind) -> Result<Vec<u16>, AllocError>
    ensures { IfOk result (λ order. IsOrder (keys_of kind file.now) order.items) }
{
    let mut order = Vec::new(alloc);
    for index in 0..count(file, kind) {
        order.push(index)?;
    }
    order.sort_by(|a, b| compare(file, kind, *a, *b))?;
    Ok(order)
}

// The same for each class.
pub(crate) fn orders(
    alloc: Global,
    entries: &[Entry],
    kind: MemberKind,
) -> Result<Vec<Row<u16>>, AllocError>
    ensures { IfOk result (λ orders. HaveOrders kind (classes_of entries.now) orders.items) }
{
    let mut orders = Vec::new(alloc);
    for entry in entries {
        let class = &entry.class;
        let order = order(alloc, &class.file, kind)?;
        orders.push(Row::new(order))?;
    }
    Ok(orders)
}
