//! The methods that classes select, in trees by the keys of names with descriptors.

ghost use Rattle.std.specs.Prelude.{◌≡◌, ◌<◌, Some, IfOk, OnOk, length, slice_get, slice_index_or};
ghost use Rattle.cls_link.specs.Links.{method_at};
ghost use Rattle.cls_link.specs.Selections.{instance_method};
ghost use Rattle.cls_link.specs.declared.linked_code.MethodId.{MethodId};
ghost use Rattle.cf_reader.specs.declared.class_file.Method.{Method};
ghost use Rattle.cls_set.specs.Sets.{IsClassSet};
ghost use Rattle.cls_tables.specs.Choices.{code_of, code_or, own_code, is_static_at, IsAbove, AreKeys, HasChoices, HaveChoices, HaveSome};
ghost use Rattle.cls_tables.specs.Kinds.{Starts};
ghost use Rattle.cls_tables.specs.Rows.{AreRows};
ghost use Rattle.cls_tables.specs.Trees.{find, IsTree};

use super::numbers::{Keys, all_keys};
use super::rows::all_rows;
use super::trees::{Node, find, with};
use cls_link::{ClassId, Flags, Linked, MemberIndex, MethodId, Row};
use std::alloc::{AllocError, Global};

// Whether a method is static.
fn is_static(linked: &Linked, id: MethodId) -> bool
    requires { id.0 < length linked.now.methods }
    ensures { result ≡ is_static_at linked.now.classes id }
{
    linked.declaration(id).flags.has(Flags::STATIC)
}

// What a tree keeps for a method: a static one is not selected, and what is inherited stands.
fn own_code(linked: &Linked, id: MethodId, inherited: u32) -> u32
    requires { id.0 < length linked.now.methods }
    ensures { result ≡ own_code linked.now.classes id inherited }
{
    let _methods = linked.len();
    if is_static(linked, id) {
        inherited
    } else {
        id.0 + 1
    }
}

// The tree of a class: that of its superclass, with what it declares itself. Of methods of one name and
// descriptor the first counts, so the last one comes first.
fn choose_own(
    linked: &Linked,
    keys: &Keys,
    class: ClassId,
    above: u32,
    nodes: &mut Vec<Node>,
) -> Result<u32, AllocError>
    requires in_set { class.0 < length linked.now.classes }
    requires keys { AreKeys linked.now.classes keys.now.levels keys.now.keys.items }
    requires one_each { length keys.now.keys.items ≡ length linked.now.methods }
    requires tree { IsTree nodes.old.items keys.now.levels above }
    ensures starts { OnOk result (Starts nodes.old.items nodes.new.items) }
    ensures tree { IfOk result (IsTree nodes.new.items keys.now.levels) }
    ensures own { IfOk
        result
        (λ root.
        (id : MethodId) (m : Method)
        → method_at linked.now.classes id ≡ Some m
        → find nodes.new.items keys.now.levels root (slice_index_or keys.now.keys.items id.0 0)
        ≡ code_or (instance_method linked.now.classes m.name m.descriptor class) (find nodes.old.items keys.now.levels above (slice_index_or keys.now.keys.items id.0 0))) }
{
    let count = linked.set().class(class).file.methods.as_slice().len();
    let mut root = above;
    for index in (0..count).rev() {
        let id = linked.method_id(MemberIndex {
            class,
            index: index as u16,
        });
        let key = keys.keys[id.0 as usize];
        let inherited = find(nodes, keys.levels, above, key);
        let code = own_code(linked, id, inherited);
        root = with(nodes, keys.levels, root, key, code)?;
    }
    Ok(root)
}

// Notes the tree of a class.
fn choose_after(
    linked: &Linked,
    keys: &Keys,
    class: ClassId,
    above: u32,
    nodes: &mut Vec<Node>,
    memo: &mut Vec<Option<u32>>,
) -> Result<u32, AllocError>
    requires in_set { class.0 < length linked.now.classes }
    requires keys { AreKeys linked.now.classes keys.now.levels keys.now.keys.items }
    requires one_each { length keys.now.keys.items ≡ length linked.now.methods }
    requires some { HaveSome linked.now.classes keys.now.levels keys.now.keys.items nodes.old.items memo.old.items }
    requires tree { IsTree nodes.old.items keys.now.levels above }
    requires above { IsAbove linked.now.classes keys.now.levels keys.now.keys.items class nodes.old.items above }
    ensures starts { OnOk result (Starts nodes.old.items nodes.new.items) }
    ensures some { OnOk result (HaveSome linked.now.classes keys.now.levels keys.now.keys.items nodes.new.items memo.new.items) }
    ensures choices { IfOk result (HasChoices linked.now.classes keys.now.levels keys.now.keys.items class nodes.new.items) }
{
    let root = choose_own(linked, keys, class, above, nodes)?;
    memo[usize::from(class.0)] = Some(root);
    Ok(root)
}

// The tree of a class, and before it those of its superclasses, each of them once.
fn choose(
    linked: &Linked,
    keys: &Keys,
    class: ClassId,
    nodes: &mut Vec<Node>,
    memo: &mut Vec<Option<u32>>,
) -> Result<u32, AllocError>
    requires set { IsClassSet linked.now.classes }
    requires in_set { class.0 < length linked.now.classes }
    requires keys { AreKeys linked.now.classes keys.now.levels keys.now.keys.items }
    requires one_each { length keys.now.keys.items ≡ length linked.now.methods }
    requires empty { slice_get nodes.old.items 0 ≡ Some (record { even = 0; odd = 0 }) }
    requires some { HaveSome linked.now.classes keys.now.levels keys.now.keys.items nodes.old.items memo.old.items }
    ensures starts { OnOk result (Starts nodes.old.items nodes.new.items) }
    ensures some { OnOk result (HaveSome linked.now.classes keys.now.levels keys.now.keys.items nodes.new.items memo.new.items) }
    ensures choices { IfOk result (HasChoices linked.now.classes keys.now.levels keys.now.keys.items class nodes.new.items) }
{
    if let Some(root) = memo[usize::from(class.0)] {
        return Ok(root);
    }
    match linked.set().class(class).superclass {
        Some(superclass) => {
            let above = choose(linked, keys, superclass, nodes, memo)?;
            let root = choose_after(linked, keys, class, above, nodes, memo)?;
            Ok(root)
        }
        None => {
            let root = choose_after(linked, keys, class, 0, nodes, memo)?;
            Ok(root)
        }
    }
}

/// What each class selects for each method.
#[derive(Drop)]
pub(crate) struct Choices {
    pub(crate) keys: Keys,
    pub(crate) nodes: Vec<Node>,
    // The tree of each class, by class number.
    pub(crate) roots: Vec<u32>,
    // What the tree of each class has for each method, if there is room for all.
    pub(crate) rows: Vec<Row<u32>>,
}

// The trees of all classes.
pub(crate) fn choose_all(alloc: Global, linked: &Linked) -> Result<Choices, AllocError>
    ensures one_each { IfOk result (λ c. length c.keys.keys.items ≡ length linked.now.methods) }
    ensures choices { IfOk result (λ c. HaveChoices linked.now.classes c.keys.levels c.keys.keys.items c.nodes.items c.roots.items) }
    ensures rows { IfOk result (λ c. AreRows c.keys.levels c.keys.keys.items c.nodes.items c.roots.items c.rows.items) }
{
    let keys = all_keys(alloc, linked)?;
    let mut nodes = vec![in alloc; Node { even: 0, odd: 0 }; 1]?;
    let mut roots = Vec::with_capacity(alloc, linked.set().len())?;
    let mut memo: Vec<Option<u32>> = vec![in alloc; None; linked.set().len()]?;
    for number in 0..linked.set().len() {
        let root = choose(linked, &keys, ClassId(number as u16), &mut nodes, &mut memo)?;
        roots.push(root)?;
    }
    let rows = all_rows(alloc, &nodes, keys.levels, &keys.keys, &roots)?;
    Ok(Choices {
        keys,
        nodes,
        roots,
        rows,
    })
}

// The method that a tree keeps.
fn method_of(code: u32) -> Option<MethodId>
    ensures { code ≡ code_of result }
{
    if code == 0 {
        return None;
    }
    Some(MethodId(code - 1))
}

impl Choices {
    /// What a class selects for a method.
    pub(crate) fn chosen(&self, class: ClassId, method: MethodId) -> Option<MethodId>
        requires class { class.0 < length self.now.roots.items }
        requires method { method.0 < length self.now.keys.keys.items }
        requires rows { AreRows self.now.keys.levels self.now.keys.keys.items self.now.nodes.items self.now.roots.items self.now.rows.items }
        ensures { find self.now.nodes.items self.now.keys.levels (slice_index_or self.now.roots.items class.0 0) (slice_index_or self.now.keys.keys.items method.0 0) ≡ code_of result }
    {
        method_of(self.code(class, method))
    }

    // What the tree of a class has for a method.
    fn code(&self, class: ClassId, method: MethodId) -> u32
        requires class { class.0 < length self.now.roots.items }
        requires method { method.0 < length self.now.keys.keys.items }
        requires rows { AreRows self.now.keys.levels self.now.keys.keys.items self.now.nodes.items self.now.roots.items self.now.rows.items }
        ensures { result ≡ find self.now.nodes.items self.now.keys.levels (slice_index_or self.now.roots.items class.0 0) (slice_index_or self.now.keys.keys.items method.0 0) }
    {
        if let Some(row) = self.rows.get(usize::from(class.0)) {
            return row.as_slice()[method.0 as usize];
        }
        let key = self.keys.keys[method.0 as usize];
        let root = self.roots[usize::from(class.0)];
        find(&self.nodes, self.keys.levels, root, key)
    }
}
