//! Class sets: their look-ups.

use super::arranging::{arrange, class_files};
use super::members::{Member, find_number, number_classes};
use super::ordering::{find_member, orders};
use super::remote::MemberKind;
use super::rules::{find_facts, refuse_broken};
use super::{Class, ClassId, SetFault};
use cf_reader::{ClassFile, ReadClass, Row, Text};
use cls_order::{ClassMarks, last_name, refuse_many, tables};
use std::alloc::Global;
use std::marker::Model;

/// Classes in the order of their names, with the built-in ones. A contract sees it as the list of its
/// classes: the class with number k is item k.
#[derive(Drop)]
pub struct ClassSet {
    members: Vec<Member>,
    // For each class a table of its supertypes by number.
    tables: Vec<ClassMarks>,
    // For each class its methods, and its fields, by name and descriptor.
    methods: Vec<Row<u16>>,
    fields: Vec<Row<u16>>,
    // The number of java/rmi/Remote, which is asked for at each remote call.
    remote_number: Option<ClassId>,
}

impl Model for ClassSet {
    ghost use Rattle.std.specs.Prelude.{List};
    ghost use Rattle.cls_order.specs.declared.class.Class.{Class};

    ghost Value = { List Class };

    ghost use Rattle.cls_order.specs.Entries.{classes_of};
    ghost use Rattle.cls_set.specs.Orders.{AreKept};

    ghost view = { λ set. classes_of set.members.items };

    ghost invariant = { λ set. AreKept set.members.items set.tables.items set.methods.items set.fields.items set.remote_number };
}

impl ClassSet {
    ghost use Rattle.std.specs.Prelude.{◌≡◌, ◌<◌, ◌↔◌, All, Some, IsTrue, IfOk, IfErr, IfSome, OnOk, codes, length, slice_get};
    ghost use Rattle.cf_reader.specs.WellFormed.{IsWellFormed};
    ghost use Rattle.cls_order.specs.Classes.{name_at, number_of};
    ghost use Rattle.space_ids.specs.declared.ids.ClassId.{ClassId};
    ghost use Rattle.cls_order.specs.declared.class.Class.{Class};
    ghost use Rattle.cls_set.specs.Faults.{IsSetFault, MakeASet};
    ghost use Rattle.cls_set.specs.Orders as spec;
    ghost use Rattle.cls_order.specs.Sets.{HasClasses, IsClassSet};
    ghost use Rattle.cls_order.specs.declared.fault.SetFault.TheVariants.{Memory};
    ghost use Rattle.cls_order.specs.Subtypes.{IsProperSubtype, IsRemote, IsSubclass, IsSubtype};

    /// Returns the set of the files' classes and the built-in ones, exactly if the files break no
    /// rule on sets. The files may come in any order. A fault hands nothing of them back.
    ///
    /// Faults are looked for in the order of their numbers, each over all classes: `Duplicate`,
    /// `AbsentClass`, `Cycle`, `BadSuper`, `FinalSuper`, `RemoteField`, `RemoteMethod`, `Override`,
    /// `TooMany` (more than 4,096 classes with the built-in ones). The fault names the first class
    /// at fault by name; `TooMany` names the class of the last file.
    pub fn build(alloc: Global, files: Vec<ReadClass>) -> Result<ClassSet, SetFault>
        ensures set { IfOk result (λ set. IsClassSet set) }
        ensures classes { IfOk result (λ set. HasClasses files.items set) }
        ensures found { OnOk result (MakeASet files.items) }
        ensures only { MakeASet files.items → IfErr result (λ fault. fault ≡ Memory) }
        ensures fault { IfErr result (IsSetFault files.items) }
    {
        ClassSet::of_files(alloc, class_files(alloc, files)?)
    }

    fn of_files(alloc: Global, files: Vec<ClassFile>) -> Result<ClassSet, SetFault>
        requires { All IsWellFormed files.items }
        ensures set { IfOk result (λ set. IsClassSet set) }
        ensures classes { IfOk result (λ set. HasClasses files.items set) }
        ensures found { OnOk result (MakeASet files.items) }
        ensures only { MakeASet files.items → IfErr result (λ fault. fault ≡ Memory) }
        ensures fault { IfErr result (IsSetFault files.items) }
    {
        let last = last_name(files.as_slice())?;
        let entries = arrange(alloc, files)?;
        let facts = find_facts(alloc, entries.as_slice())?;
        refuse_broken(entries.as_slice(), &facts)?;
        refuse_many(entries.len(), last)?;
        let tables = tables(alloc, entries.as_slice())?;
        let fields = orders(alloc, entries.as_slice(), MemberKind::Fields)?;
        let members = number_classes(alloc, entries)?;
        let remote_number = find_number(&members, b"java/rmi/Remote");
        Ok(ClassSet {
            members,
            tables,
            methods: facts.orders,
            fields,
            remote_number,
        })
    }

    /// Returns how many classes the set has.
    pub fn len(&self) -> usize
        ensures count { result ≡ length self.now }
        ensures set { IsClassSet self.now }
        ensures acyclic { (class : ClassId) → ¬ IsProperSubtype self.now class class }
    {
        self.members.len()
    }

    /// Returns the class with this number.
    pub fn class(&self, class: ClassId) -> &Class
        requires { class.0 < length self.now }
        ensures { slice_get self.now class.0 ≡ Some result.now }
    {
        let member = &self.members[usize::from(class.0)];
        &member.class
    }

    /// Returns the index of the first method of this name and descriptor among those of a class:
    /// `None` if it declares none.
    pub fn first_method(&self, class: ClassId, name: &[u8], descriptor: &[u8]) -> Option<usize>
        requires { class.0 < length self.now }
        ensures { (c : Class) → slice_get self.now class.0 ≡ Some c → result ≡ spec.first_method c.file name.now descriptor.now }
    {
        let order = self.methods[usize::from(class.0)].as_slice();
        let file = &self.class(class).file;
        find_member(file, MemberKind::Methods, order, name, descriptor)
    }

    /// Returns the index of the first field of this name and descriptor among those of a class:
    /// `None` if it declares none.
    pub fn first_field(&self, class: ClassId, name: &[u8], descriptor: &[u8]) -> Option<usize>
        requires { class.0 < length self.now }
        ensures { (c : Class) → slice_get self.now class.0 ≡ Some c → result ≡ spec.first_field c.file name.now descriptor.now }
    {
        let order = self.fields[usize::from(class.0)].as_slice();
        let file = &self.class(class).file;
        find_member(file, MemberKind::Fields, order, name, descriptor)
    }

    /// Returns the name of the class with this number.
    pub fn name(&self, class: ClassId) -> &Text
        requires { class.0 < length self.now }
        ensures { name_at self.now class ≡ Some result.now }
    {
        &self.class(class).file.name
    }

    /// Returns the number of the class of this name: `None` if the set has none.
    pub fn number(&self, name: &[u8]) -> Option<ClassId>
        ensures number { result ≡ number_of self.now name.now }
        ensures in_set { IfSome result (λ id. id.0 < length self.now) }
        ensures named { IfSome result (λ id. name_at self.now id ≡ Some name.now) }
    {
        find_number(&self.members, name)
    }

    /// Returns the number of java/rmi/Remote. It looks at no name.
    pub fn remote(&self) -> Option<ClassId>
        ensures { result ≡ number_of self.now (codes "java/rmi/Remote") }
    {
        self.remote_number
    }

    /// Returns whether a class is another or a subclass of it.
    pub fn is_subclass(&self, sub: ClassId, sup: ClassId) -> bool
        requires { sub.0 < length self.now }
        ensures { IsTrue result ↔ IsSubclass self.now sub sup }
    {
        let table = &self.tables[usize::from(sub.0)];
        sub == sup || (table.has(usize::from(sup.0)) && !self.class(sup).is_interface())
    }

    /// Returns whether a class or interface is a subtype of an interface.
    pub fn implements(&self, class: ClassId, interface: ClassId) -> bool
        requires { class.0 < length self.now }
        ensures { IsTrue result ↔ IsSubtype self.now class interface }
    {
        let table = &self.tables[usize::from(class.0)];
        class == interface || table.has(usize::from(interface.0))
    }

    /// Returns whether a class is remote: a class, not an interface, that implements
    /// java/rmi/Remote (Java RMI specification, 2.4).
    pub fn is_remote(&self, class: ClassId) -> bool
        requires { class.0 < length self.now }
        ensures { IsTrue result ↔ IsRemote self.now class }
    {
        match self.remote() {
            Some(remote) => !self.class(class).is_interface() && self.implements(class, remote),
            None => false,
        }
    }
}
