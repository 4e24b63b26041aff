//! Tables of a linked class set: their look-ups.

ghost use Rattle.std.specs.Prelude.{◌≡◌, IfOk};

use super::choices::{Choices, choose_all};
use super::kinds::{KindRow, lay_all};
use super::remote::tell_remote;
use super::slots::all_slots;
use cls_link::{ClassId, FieldSlot, Linked, MemberIndex, MethodId, Row};
use ghost_value::{Ghost, Says};
use std::alloc::{AllocError, Global};
use std::marker::Model;
use vm_heap::WordKind;

/// Tables of a linked class set. A contract sees them as the links that they were made of.
#[derive(Drop)]
pub struct Tables {
    links: Ghost<Linked>,
    // The slots of the fields of each class, by class number and then as declared.
    slots: Vec<Row<Option<FieldSlot>>>,
    // What the fields of objects of each class hold.
    kinds: KindRow,
    // What each class selects for each method.
    choices: Choices,
    // Whether objects of each class are remote.
    remote: Vec<bool>,
}

impl Model for Tables {
    ghost use Rattle.std.specs.Prelude.{◌≡◌, length};
    ghost use Rattle.cls_link.specs.Links.{AreLinks, Links};
    ghost use Rattle.cls_tables.specs.Choices.{HaveChoices};
    ghost use Rattle.cls_tables.specs.Kinds.{HaveKinds};
    ghost use Rattle.cls_tables.specs.Remote.{TellsRemote};
    ghost use Rattle.cls_tables.specs.Rows.{AreRows};
    ghost use Rattle.cls_tables.specs.Slots.{HaveSlots};

    ghost Value = { Links };

    ghost view = { λ tables. tables.links.value };

    ghost invariant = { λ tables. HaveSlots tables.links.value.classes tables.slots.items × HaveKinds tables.links.value.classes tables.kinds.row.items tables.kinds.spans.items × AreLinks tables.links.value × (length tables.choices.keys.keys.items ≡ length tables.links.value.methods) × HaveChoices tables.links.value.classes tables.choices.keys.levels tables.choices.keys.keys.items tables.choices.nodes.items tables.choices.roots.items × TellsRemote tables.links.value.classes tables.remote.items × AreRows tables.choices.keys.levels tables.choices.keys.keys.items tables.choices.nodes.items tables.choices.roots.items tables.choices.rows.items };
}

impl Tables {
    ghost use Rattle.std.specs.Prelude.{◌<◌, ◌↔◌, length, IfSome, IsSome, IsTrue};
    ghost use Rattle.cls_set.specs.Subtypes.{IsRemote};
    ghost use Rattle.cls_link.specs.Fields.{IsFieldSlot};
    ghost use Rattle.cls_resolve.specs.Meanings.{field_of};
    ghost use Rattle.cls_search.specs.FieldSearches.{field_at};
    ghost use Rattle.cls_tables.specs.Choices.{IsSelected};
    ghost use Rattle.cls_tables.specs.Kinds.{HoldsKinds};

    /// Returns the tables of a linked class set.
    pub fn build(alloc: Global, linked: &Linked) -> Result<Tables, AllocError>
        ensures { IfOk result (λ tables. tables ≡ linked.now) }
    {
        let slots = all_slots(alloc, linked)?;
        let kinds = lay_all(alloc, linked.set())?;
        let choices = choose_all(alloc, linked)?;
        let remote = tell_remote(alloc, linked.set())?;
        let _methods = linked.len();
        Ok(Tables {
            links: Ghost::of::<Linked, OfLinked>(linked),
            slots,
            kinds,
            choices,
            remote,
        })
    }

    /// Returns the slot of a field that is given by its index, as in linked instructions: `None`
    /// for a static one. It takes constant time.
    pub fn slot_of(&self, member: MemberIndex) -> Option<FieldSlot>
        requires { IsSome (field_at self.now.classes (field_of member)) }
        ensures { IsFieldSlot self.now.classes (field_of member) result }
    {
        let row = self.slots[usize::from(member.class.0)].as_slice();
        row[usize::from(member.index)]
    }

    /// Returns what the fields of an object of a class hold, by slot. It takes constant time.
    pub fn kinds_of(&self, class: ClassId) -> &[WordKind]
        requires { class.0 < length self.now.classes }
        ensures { HoldsKinds self.now.classes class result.now }
    {
        let span = self.kinds.spans[usize::from(class.0)];
        &self.kinds.row[span.start..span.end]
    }

    /// Returns whether objects of a class are remote: it is a class, not an interface, that implements
    /// java/rmi/Remote (Java RMI specification, 2.4). It takes constant time.
    pub fn is_remote(&self, class: ClassId) -> bool
        requires { class.0 < length self.now.classes }
        ensures { IsTrue result ↔ IsRemote self.now.classes class }
    {
        self.remote[usize::from(class.0)]
    }

    /// The method that a class selects for one that was resolved: the first instance method of its name and
    /// descriptor from this class up its superclasses, a private one too (JVMS 5.4.5). `None` if none of
    /// them declares one. It takes constant time, and in a set of more than 2^18 pairs of a class and a method as many
    /// steps as the number of methods has bits, however deep the class.
    pub fn selected(&self, class: ClassId, resolved: MethodId) -> Option<MethodId>
        requires class { class.0 < length self.now.classes }
        requires method { resolved.0 < length self.now.methods }
        ensures selected { IsSelected self.now.classes class resolved result }
        ensures within { IfSome result (λ id. id.0 < length self.now.methods) }
    {
        self.choices.chosen(class, resolved)
    }
}

// Reads the links off a linked class set.
struct OfLinked;

impl Says<Linked, Linked> for OfLinked {
    ghost says = { λ linked. linked };
}
