//! Linked class sets: their look-ups.

ghost use Rattle.std.specs.Prelude.{◌≡◌, IfOk, IfErr, OnOk};
ghost use Rattle.cls_resolve.specs.Entries.{AreKnown};
ghost use Rattle.cls_link.specs.Fields.{AreFieldCounts};
ghost use Rattle.cls_link.specs.LinkFaults.{AreSound, IsLinkFault};
ghost use Rattle.cls_link.specs.Links.{AreLinks};
ghost use Rattle.cls_link.specs.Numbers.{starts};

use super::fields::{count_all, slot_in};
use super::linking::link_class;
use super::methods::selected;
use super::{FieldSlot, LinkFault, LinkedMethod, MemberIndex, MethodId, Selection};
use cls_resolve::KnownEntries;
use cls_search::{FieldIndex, MethodIndex, find_field, find_method, own_method};
use cls_set::{ClassId, ClassSet, Method};
use std::alloc::Global;
use std::marker::Model;

/// A class set whose methods are linked. A contract sees it as its classes and the list of its
/// methods: the method with number k is item k.
#[derive(Drop)]
pub struct Linked {
    set: ClassSet,
    methods: Vec<LinkedMethod>,
    // The number of the first method of each class, by class number.
    first: Vec<usize>,
    // How many fields an object of each class has, by class number.
    field_counts: Vec<u32>,
}

impl Model for Linked {
    ghost use Rattle.std.specs.Prelude.{◌≡◌};
    ghost use Rattle.cls_link.specs.Fields.{AreFieldCounts};
    ghost use Rattle.cls_link.specs.Links.{Links, AreLinks};
    ghost use Rattle.cls_link.specs.Numbers.{starts};

    ghost Value = { Links };

    ghost view = { λ linked. record { classes = linked.set; methods = linked.methods.items } };

    ghost invariant = { λ linked. AreLinks (record { classes = linked.set; methods = linked.methods.items }) × (linked.first.items ≡ starts 0 linked.set) × AreFieldCounts linked.set linked.field_counts.items };
}

impl Linked {
    ghost use Rattle.std.specs.Prelude.{◌≡◌, ◌<◌, Some, IfSome, IsSome, length, slice_get};
    ghost use Rattle.cls_link.specs.Fields.{CountsFields, IsFieldSlot, IsSlot};
    ghost use Rattle.cls_search.specs.FieldSearches.{field_at};
    ghost use Rattle.cls_link.specs.Links.{AreLinks, method_at, number_of};
    ghost use Rattle.cls_resolve.specs.Meanings.{field_of, method_of};
    ghost use Rattle.cls_link.specs.Numbers.{number_in};
    ghost use Rattle.cls_link.specs.Selections.{IsSelection, ResolvesMethod, Selects};
    ghost use Rattle.cls_search.specs.MethodSearches.{method_in};

    /// Returns how many methods the set has.
    pub fn len(&self) -> usize
        ensures count { result ≡ length self.now.methods }
        ensures links { AreLinks self.now }
    {
        self.methods.len()
    }

    /// Returns the class set.
    pub fn set(&self) -> &ClassSet
        ensures { result.now ≡ self.now.classes }
    {
        &self.set
    }

    /// Returns the number of the method that a class itself declares with this name and descriptor:
    /// `None` if it declares none.
    pub fn declared_method(
        &self,
        class: ClassId,
        name: &[u8],
        descriptor: &[u8],
    ) -> Option<MethodId>
        requires { class.0 < length self.now.classes }
        ensures number { result ≡ number_of self.now.classes class name.now descriptor.now }
        ensures within { IfSome result (λ id. id.0 < length self.now.methods) }
    {
        match own_method(&self.set, class, name, descriptor) {
            Some(method) => Some(self.number(method)),
            None => None,
        }
    }

    // The number of a method.
    fn number(&self, method: MethodIndex) -> MethodId
        requires { IsSome (method_in self.now.classes method) }
        ensures number { result ≡ number_in self.now.classes method }
        ensures within { result.0 < length self.now.methods }
    {
        let first = self.first[usize::from(method.class.0)];
        MethodId((first + method.index) as u32)
    }

    /// Returns the number of a method that is given by its index, as in linked instructions.
    pub fn method_id(&self, member: MemberIndex) -> MethodId
        requires { IsSome (method_in self.now.classes (method_of member)) }
        ensures declared { method_at self.now.classes result ≡ method_in self.now.classes (method_of member) }
        ensures number { result ≡ number_in self.now.classes (method_of member) }
        ensures within { result.0 < length self.now.methods }
    {
        self.number(MethodIndex {
            class: member.class,
            index: usize::from(member.index),
        })
    }

    /// Returns the number of the method that a name and a descriptor mean in a class or an
    /// interface (JVMS 5.4.3.3, 5.4.3.4): that of the class or its first superclass that declares
    /// one, else that of the first of its superinterfaces, depth first; an `<init>` is that of the
    /// class alone. `None` if none of these declares one. Access is not looked at.
    pub fn method(&self, class: ClassId, name: &[u8], descriptor: &[u8]) -> Option<MethodId>
        requires { class.0 < length self.now.classes }
        ensures resolved { ResolvesMethod self.now.classes class name.now descriptor.now result }
        ensures within { IfSome result (λ id. id.0 < length self.now.methods) }
    {
        match find_method(&self.set, class, name, descriptor, &mut []) {
            Some(method) => Some(self.number(method)),
            None => None,
        }
    }

    /// Returns the slot of the instance field that a name and a descriptor mean in a class (JVMS
    /// 5.4.3.2): that of the class, else that of the first of its superinterfaces, depth first, and
    /// then of its superclass. `None` if the field is static, or there is none. Access is not
    /// looked at.
    pub fn field_slot(&self, class: ClassId, name: &[u8], descriptor: &[u8]) -> Option<FieldSlot>
        requires { class.0 < length self.now.classes }
        ensures { IsSlot self.now.classes class name.now descriptor.now result }
    {
        match find_field(&self.set, class, name, descriptor, &mut []) {
            Some(field) => self.slot_of(field),
            None => None,
        }
    }

    /// Returns the slot of a field that is given by its index, as in linked instructions: `None`
    /// for a static one.
    pub fn field_slot_of(&self, member: MemberIndex) -> Option<FieldSlot>
        requires { IsSome (field_at self.now.classes (field_of member)) }
        ensures { IsFieldSlot self.now.classes (field_of member) result }
    {
        self.slot_of(FieldIndex {
            class: member.class,
            index: usize::from(member.index),
        })
    }

    /// Returns how many fields an object of a class has, those of its superclasses too.
    pub fn field_count(&self, class: ClassId) -> u32
        requires { class.0 < length self.now.classes }
        ensures { CountsFields self.now.classes class result }
    {
        self.field_counts[usize::from(class.0)]
    }

    // The slot of a field: `None` if it is static.
    fn slot_of(&self, field: FieldIndex) -> Option<FieldSlot>
        requires { IsSome (field_at self.now.classes field) }
        ensures { IsFieldSlot self.now.classes field result }
    {
        let fields = self.set().class(field.class).file.fields.as_slice();
        let count = self.field_counts[usize::from(field.class.0)];
        slot_in(fields, field.index, count)
    }

    /// Returns the method that a call of a resolved method runs (JVMS 5.4.5, 6.5): the first
    /// instance method of its name and descriptor from this class up its superclasses, a private
    /// one too. The class is that of the receiver, or for invokespecial the one with which its rule
    /// begins (JVMS 6.5).
    pub fn select(&self, class: ClassId, method: MethodId) -> Selection
        requires class { class.0 < length self.now.classes }
        requires method { method.0 < length self.now.methods }
        ensures { Selects self.now.classes class method result }
    {
        let resolved = self.declaration(method);
        let name = resolved.name.as_bytes();
        match selected(self, class, name, resolved.descriptor.as_bytes()) {
            Some(method) => self.selection(method),
            None => Selection::Absent,
        }
    }

    // What a call of this method runs.
    fn selection(&self, method: MethodId) -> Selection
        requires { method.0 < length self.now.methods }
        ensures { IsSelection self.now.classes (Some method) result }
    {
        match &*self.declaration(method).code {
            Some(_) => Selection::Runs(method),
            None => Selection::Abstract(method),
        }
    }

    /// Returns the method with this number, as declared.
    pub fn declaration(&self, method: MethodId) -> &Method
        requires { method.0 < length self.now.methods }
        ensures declared { method_at self.now.classes method ≡ Some result.now }
        ensures links { AreLinks self.now }
    {
        let entry = &self.methods[method.0 as usize];
        let class = self.set.class(entry.class);
        &class.file.methods.as_slice()[usize::from(entry.index)]
    }

    /// Returns the method with this number, linked.
    pub fn linked_method(&self, method: MethodId) -> &LinkedMethod
        requires { method.0 < length self.now.methods }
        ensures { slice_get self.now.methods method.0 ≡ Some result.now }
    {
        &self.methods[method.0 as usize]
    }
}

// What is made of a class set.
#[derive(Drop)]
struct Rows {
    methods: Vec<LinkedMethod>,
    first: Vec<usize>,
    field_counts: Vec<u32>,
}

// Links the methods of all classes, and notes for each class the number of its first one. Searches write to
// the marks, one for each class.
fn link_classes(
    alloc: Global,
    set: &ClassSet,
    known: &mut KnownEntries,
    marks: &mut [bool],
) -> Result<(Vec<LinkedMethod>, Vec<usize>), LinkFault>
    requires known { AreKnown set.now known.old }
    ensures links { IfOk result (λ rows. AreLinks (record { classes = set.now; methods = rows.0.items })) }
    ensures first { IfOk result (λ rows. rows.1.items ≡ starts 0 set.now) }
    ensures found { OnOk result (AreSound set.now) }
    ensures only { AreSound set.now → IfErr result (λ fault. fault ≡ LinkFault.Memory) }
    ensures fault { IfErr result (IsLinkFault set.now) }
{
    let mut methods = Vec::new(alloc);
    let mut first = Vec::with_capacity(alloc, set.len())?;
    for number in 0..set.len() {
        first.push(methods.len())?;
        let class = ClassId(number as u16);
        let file = &set.class(class).file;
        link_class(alloc, set, class, file, known, marks, &mut methods)?;
    }
    Ok((methods, first))
}

// The same with what is known of the entries of the pools, which is let go here.
fn link_methods(alloc: Global, set: &ClassSet) -> Result<(Vec<LinkedMethod>, Vec<usize>), LinkFault>
    ensures links { IfOk result (λ rows. AreLinks (record { classes = set.now; methods = rows.0.items })) }
    ensures first { IfOk result (λ rows. rows.1.items ≡ starts 0 set.now) }
    ensures found { OnOk result (AreSound set.now) }
    ensures only { AreSound set.now → IfErr result (λ fault. fault ≡ LinkFault.Memory) }
    ensures fault { IfErr result (IsLinkFault set.now) }
{
    let mut marks = vec![in alloc; false; set.len()]?;
    let mut known = KnownEntries::new(alloc);
    link_classes(alloc, set, &mut known, &mut marks)
}

// What a linked set has beside its classes.
fn link_set(alloc: Global, set: &ClassSet) -> Result<Rows, LinkFault>
    ensures links { IfOk result (λ rows. AreLinks (record { classes = set.now; methods = rows.methods.items })) }
    ensures first { IfOk result (λ rows. rows.first.items ≡ starts 0 set.now) }
    ensures counts { IfOk result (λ rows. AreFieldCounts set.now rows.field_counts.items) }
    ensures found { OnOk result (AreSound set.now) }
    ensures only { AreSound set.now → IfErr result (λ fault. fault ≡ LinkFault.Memory) }
    ensures fault { IfErr result (IsLinkFault set.now) }
{
    let field_counts = count_all(alloc, set)?;
    let (methods, first) = link_methods(alloc, set)?;
    Ok(Rows {
        methods,
        first,
        field_counts,
    })
}

fn linked_from(set: ClassSet, rows: Rows) -> Linked
    requires links { AreLinks (record { classes = set; methods = rows.methods.items }) }
    requires first { rows.first.items ≡ starts 0 set }
    requires counts { AreFieldCounts set rows.field_counts.items }
    ensures { result ≡ record { classes = set; methods = rows.methods.items } }
{
    Linked {
        set,
        methods: rows.methods,
        first: rows.first,
        field_counts: rows.field_counts,
    }
}

/// Returns the class set with its methods linked: each code is read once, and each branch becomes
/// the index of its target. Every class, field and method that code names is looked for here, also
/// in code that is never reached (JVMS 5.4.3). The member that an entry of a constant pool means is
/// searched for once, for all instructions of its class.
///
/// The first method at fault counts, by class number and then in the order of declaration. In it a
/// `Code` fault counts first, else the first instruction that breaks a rule on what it names. At
/// one instruction the rules are looked for in this order: `AbsentClass`, `WrongRefKind`, `Access`
/// of the class, `Abstract`, `AbsentField` or `AbsentMethod`, `Access` of the member,
/// `StaticMismatch`, `FinalField`, `PrivateVirtual`.
pub fn link(alloc: Global, set: ClassSet) -> Result<Linked, LinkFault>
    ensures classes { IfOk result (λ linked. linked.classes ≡ set) }
    ensures links { IfOk result AreLinks }
    ensures found { OnOk result (AreSound set) }
    ensures only { AreSound set → IfErr result (λ fault. fault ≡ LinkFault.Memory) }
    ensures fault { IfErr result (IsLinkFault set) }
{
    let rows = link_set(alloc, &set)?;
    Ok(linked_from(set, rows))
}
