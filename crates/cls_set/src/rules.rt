//! The rules that each class of a set keeps, once its supertypes are known.

ghost use Rattle.std.specs.Prelude.{◌≡◌, ◌<◌, ◌↔◌, Some, Contains, IfOk, IsTrue, IfErr, OnOk, length, slice_get};
ghost use Rattle.cls_order.specs.declared.class.Class.{Class};
ghost use Rattle.cls_order.specs.Building.{origins_of};
ghost use Rattle.cls_set.specs.ClassRules.{set_rule, AreFacts, ExtendsOneWith, ImplementsClass, IsBadlyRooted, IsFirstRuleFault, IsRuleFault, KeepBelow};
ghost use Rattle.cls_order.specs.FaultNames.{set_rule_number};
ghost use Rattle.cls_set.specs.Faults.{Keeps};
ghost use Rattle.cls_order.specs.Entries.{classes_of, AreArranged};
ghost use Rattle.cls_order.specs.Marks.{IsMarked};
ghost use Rattle.cls_set.specs.Rules.{Breaks};
ghost use Rattle.cls_order.specs.declared.fault.SetRule.TheVariants.{BadSuper, TooMany};

use super::descending::find_overriding;
use super::ordering::orders;
use super::remote::{MemberKind, find_remote, find_unfit};
use super::{SetFault, SetRule};
use cf_reader::{Flags, Row};
use cls_order::{Draft, Entry, broken, by_rank, is_in};
use std::alloc::{AllocError, Global};

// A rule that is looked for class by class.
#[derive(Clone, Copy, PartialEq, Eq)]
enum ClassRule {
    BadSuper,
    FinalSuper,
    RemoteField,
    RemoteMethod,
    Override,
}

impl ClassRule {
    fn rule(self) -> SetRule
        ensures { result ≡ set_rule self }
    {
        match self {
            ClassRule::BadSuper => SetRule::BadSuper,
            ClassRule::FinalSuper => SetRule::FinalSuper,
            ClassRule::RemoteField => SetRule::RemoteField,
            ClassRule::RemoteMethod => SetRule::RemoteMethod,
            ClassRule::Override => SetRule::Override,
        }
    }
}

// Whether the direct superclass of a class has one of the mask's flags.
fn extends_one_with(entries: &[Entry], class: &Draft, mask: u16) -> bool
    requires arranged { AreArranged entries.now }
    requires among { Contains (classes_of entries.now) class.now }
    ensures { IsTrue result ↔ ExtendsOneWith (origins_of entries.now) class.now.file mask }
{
    match class.superclass {
        Some(superclass) => {
            let superclass = &entries[superclass.get()].class;
            superclass.file.flags.has(mask)
        }
        None => false,
    }
}

// Whether one of the direct superinterfaces of a class is no interface.
fn implements_class(entries: &[Entry], class: &Draft) -> bool
    requires arranged { AreArranged entries.now }
    requires among { Contains (classes_of entries.now) class.now }
    ensures { IsTrue result ↔ ImplementsClass (origins_of entries.now) class.now.file }
{
    for interface in class.interfaces.as_slice() {
        let index = interface.get();
        if !entries[index].class.is_interface() {
            return true;
        }
    }
    false
}

// Whether a class without superclass, or an interface by its superclass, breaks a rule on java/lang/Object.
fn is_badly_rooted(class: &Draft) -> bool
    ensures { IsTrue result ↔ IsBadlyRooted class.now.file }
{
    match &class.file.superclass {
        None => class.is_interface() || !class.file.name.is(b"java/lang/Object"),
        Some(name) => class.is_interface() && !name.is(b"java/lang/Object"),
    }
}

fn has_bad_super(entries: &[Entry], class: &Draft) -> bool
    requires arranged { AreArranged entries.now }
    requires among { Contains (classes_of entries.now) class.now }
    ensures { IsTrue result ↔ Breaks (origins_of entries.now) class.now.file BadSuper }
{
    if is_badly_rooted(class) {
        return true;
    }
    if extends_one_with(entries, class, Flags::INTERFACE) {
        return true;
    }
    implements_class(entries, class)
}

// What the rules ask of each class, by its index.
#[derive(Drop)]
pub(crate) struct Facts {
    // Whether it is java/rmi/Remote or below it.
    pub(crate) remote: Vec<bool>,
    // Whether it has or inherits a field that no remote class may have.
    pub(crate) fields: Vec<bool>,
    // Whether it has or inherits a method that no remote interface may have.
    pub(crate) methods: Vec<bool>,
    // Its methods in their order.
    pub(crate) orders: Vec<Row<u16>>,
    // Whether it has a method that may not stand below one of a superclass.
    pub(crate) overriding: Vec<bool>,
}

pub(crate) fn find_facts(alloc: Global, entries: &[Entry]) -> Result<Facts, AllocError>
    requires { AreArranged entries.now }
    ensures { IfOk result (AreFacts entries.now) }
{
    let order = by_rank(alloc, entries)?;
    let remote = find_remote(alloc, entries, order.as_slice())?;
    let told = remote.as_slice();
    let fields = find_unfit(alloc, entries, order.as_slice(), told, MemberKind::Fields)?;
    let methods = find_unfit(alloc, entries, order.as_slice(), told, MemberKind::Methods)?;
    let orders = orders(alloc, entries, MemberKind::Methods)?;
    let overriding = find_overriding(alloc, entries, order.as_slice())?;
    Ok(Facts {
        remote,
        fields,
        methods,
        orders,
        overriding,
    })
}

impl Facts {
    fn is_remote(&self, index: usize) -> bool
        ensures { IsTrue result ↔ IsMarked self.now.remote.items index }
    {
        is_in(self.remote.as_slice(), index)
    }

    fn has_unfit_field(&self, index: usize) -> bool
        ensures { IsTrue result ↔ (IsMarked self.now.remote.items index × IsMarked self.now.fields.items index) }
    {
        self.is_remote(index) && is_in(self.fields.as_slice(), index)
    }

    fn has_unfit_method(&self, index: usize) -> bool
        ensures { IsTrue result ↔ (IsMarked self.now.remote.items index × IsMarked self.now.methods.items index) }
    {
        self.is_remote(index) && is_in(self.methods.as_slice(), index)
    }

    fn overrides_badly(&self, index: usize) -> bool
        ensures { IsTrue result ↔ IsMarked self.now.overriding.items index }
    {
        is_in(self.overriding.as_slice(), index)
    }
}

fn breaks(entries: &[Entry], facts: &Facts, index: usize, rule: ClassRule) -> bool
    requires arranged { AreArranged entries.now }
    requires facts { AreFacts entries.now facts.now }
    requires in_set { index < length entries.now }
    ensures { (c : Class) → slice_get (classes_of entries.now) index ≡ Some c → IsTrue result ↔ Breaks (origins_of entries.now) c.file (set_rule rule) }
{
    let class = &entries[index].class;
    match rule {
        ClassRule::BadSuper => has_bad_super(entries, class),
        ClassRule::FinalSuper => extends_one_with(entries, class, Flags::FINAL),
        ClassRule::RemoteField => !class.is_interface() && facts.has_unfit_field(index),
        ClassRule::RemoteMethod => class.is_interface() && facts.has_unfit_method(index),
        ClassRule::Override => facts.overrides_badly(index),
    }
}

// Refuses the first class that breaks the rule.
fn refuse(entries: &[Entry], facts: &Facts, rule: ClassRule) -> Result<(), SetFault>
    requires arranged { AreArranged entries.now }
    requires facts { AreFacts entries.now facts.now }
    ensures ok { OnOk result (Keeps (origins_of entries.now) (set_rule rule)) }
    ensures fault { IfErr result (IsRuleFault (origins_of entries.now) (set_rule rule)) }
{
    for index in 0..entries.len() {
        if breaks(entries, facts, index, rule) {
            let class = &entries[index].class;
            return Err(broken(rule.rule(), &class.file.name));
        }
    }
    Ok(())
}

// Refuses the first class that breaks the first of the rules on each class.
pub(crate) fn refuse_broken(entries: &[Entry], facts: &Facts) -> Result<(), SetFault>
    requires arranged { AreArranged entries.now }
    requires facts { AreFacts entries.now facts.now }
    ensures ok { OnOk result (KeepBelow (origins_of entries.now) (set_rule_number TooMany)) }
    ensures fault { IfErr result (IsFirstRuleFault (origins_of entries.now)) }
{
    refuse(entries, facts, ClassRule::BadSuper)?;
    refuse(entries, facts, ClassRule::FinalSuper)?;
    refuse(entries, facts, ClassRule::RemoteField)?;
    refuse(entries, facts, ClassRule::RemoteMethod)?;
    refuse(entries, facts, ClassRule::Override)
}
