//! The classes with a method that may not stand below those of their superclasses. They are found in one walk
//! over the classes by rank: what a class inherits is what its superclass does, with the methods of that.

ghost use Rattle.std.specs.Prelude.{◌≡◌, ◌<◌, ◌+◌, ◌↔◌, Some, IfOk, IsTrue, OnOk, length, slice_get, take};
ghost use Rattle.cls_order.specs.Building.{origins_of};
ghost use Rattle.cls_order.specs.declared.class.Class.{Class};
ghost use Rattle.cls_order.specs.Entries.{classes_of, AreArranged};
ghost use Rattle.cls_order.specs.Marks.{IsByRank};
ghost use Rattle.cls_set.specs.declared.inheriting.Inherited as methods;
ghost use Rattle.cls_set.specs.Descending.{Above, AreOverriding, AreStarted, Declares, HasInherited, IsDescending, IsGrown, Passes, root_above};
ghost use Rattle.cls_set.specs.KeyNumbers.{AreKeyNumbers};
ghost use Rattle.cls_set.specs.Rules.{OverridesBadly};
ghost use Rattle.number_trees.specs.Trees.{find, IsTree};

use super::inheriting::{Inherited, package_name};
use super::key_numbers::{Keys, number_all};
use cls_order::{Draft, Entry};
use number_trees::{Node, find, with};
use std::alloc::{AllocError, Global};

// What classes inherit: of each a tree that leads by the number of a name with a descriptor to what is known of
// the methods of that.
#[derive(Drop)]
struct Trees<'a> {
    nodes: Vec<Node>,
    known: Vec<Inherited<'a>>,
}

impl<'a> Trees<'a> {
    // The tree 0, in which nothing is inherited.
    fn start(alloc: Global) -> Result<Trees<'a>, AllocError>
        ensures { IfOk result (λ trees. AreStarted trees) }
    {
        let mut nodes = Vec::new(alloc);
        nodes.push(Node { even: 0, odd: 0 })?;
        let mut known = Vec::new(alloc);
        known.push(Inherited::nothing())?;
        Ok(Trees { nodes, known })
    }

    // What a tree has for a number.
    fn inherited(&self, levels: u32, root: u32, number: u32) -> Inherited<'a>
        ensures { (told : methods.Inherited) → slice_get self.now.known.items (find self.now.nodes.items levels root number) ≡ Some told → result ≡ told }
    {
        let index = find(&self.nodes, levels, root, number);
        match self.known.get(index as usize) {
            Some(inherited) => *inherited,
            None => Inherited::nothing(),
        }
    }

    // The tree that has this for a number.
    fn declare(
        &mut self,
        levels: u32,
        root: u32,
        number: u32,
        inherited: Inherited<'a>,
    ) -> Result<u32, AllocError>
        requires { IsTree self.old.nodes.items levels root }
        ensures grown { OnOk result (IsGrown self.old self.new) }
        ensures made { IfOk result (Declares self.old self.new levels root number inherited.entry) }
    {
        let index = self.known.len();
        if index >= u32::MAX as usize {
            return Err(AllocError);
        }
        self.known.push(inherited)?;
        let made = with(&mut self.nodes, levels, root, number, index as u32)?;
        Ok(made)
    }
}

// Whether a class has a method that may not stand below one of a superclass.
fn overrides_badly(entries: &[Entry], keys: &Keys, index: usize, above: u32, trees: &Trees) -> bool
    requires numbers { AreKeyNumbers entries.now keys.now.levels keys.now.numbers.items }
    requires in_set { index < length entries.now }
    requires above { HasInherited entries.now keys.now trees.now above (Above entries.now index) }
    ensures { (c : Class) → slice_get (classes_of entries.now) index ≡ Some c → IsTrue result ↔ OverridesBadly (origins_of entries.now) c.file }
{
    let class = &entries[index].class;
    let package = package_name(class.file.name.as_bytes());
    let methods = class.file.methods.as_slice();
    let numbers = keys.numbers[index].as_slice();
    for method in 0..methods.len() {
        let inherited = trees.inherited(keys.levels, above, numbers[method]);
        if inherited.forbids(&methods[method], package) {
            return true;
        }
    }
    false
}

// The tree of what a class passes on: what it inherits, with its own methods.
fn declare_own<'a>(
    entries: &'a [Entry],
    keys: &Keys,
    index: usize,
    above: u32,
    trees: &mut Trees<'a>,
) -> Result<u32, AllocError>
    requires numbers { AreKeyNumbers entries.now keys.now.levels keys.now.numbers.items }
    requires in_set { index < length entries.now }
    requires above { HasInherited entries.now keys.now trees.old above (Above entries.now index) }
    ensures grown { OnOk result (IsGrown trees.old trees.new) }
    ensures passed { IfOk result (λ root. HasInherited entries.now keys.now trees.new root (Passes entries.now index)) }
{
    let class = &entries[index].class;
    let package = package_name(class.file.name.as_bytes());
    let methods = class.file.methods.as_slice();
    let numbers = keys.numbers[index].as_slice();
    let mut root = above;
    for method in 0..methods.len() {
        let number = numbers[method];
        let inherited = trees.inherited(keys.levels, root, number);
        let more = inherited.with(&methods[method], package);
        root = trees.declare(keys.levels, root, number, more)?;
    }
    Ok(root)
}

// The walk: the tree of what each class passes on, and whether it has a method that may not stand below one of a
// superclass, both by index.
#[derive(Drop)]
struct Walk<'a> {
    trees: Trees<'a>,
    roots: Vec<u32>,
    told: Vec<bool>,
}

// The tree of what the superclass of a class passes on: nothing where it has none.
fn root_above(class: &Draft, roots: &[u32]) -> u32
    ensures { result ≡ root_above roots.now class.now.superclass }
{
    let Some(superclass) = class.superclass else {
        return 0;
    };
    match roots.get(superclass.get()) {
        Some(root) => *root,
        None => 0,
    }
}

// Comes to a class, after its superclass.
fn come_to<'a>(
    entries: &'a [Entry],
    keys: &Keys,
    order: &[usize],
    step: usize,
    walk: &mut Walk<'a>,
) -> Result<(), AllocError>
    requires arranged { AreArranged entries.now }
    requires numbers { AreKeyNumbers entries.now keys.now.levels keys.now.numbers.items }
    requires order { IsByRank entries.now order.now }
    requires within { step < length order.now }
    requires walk { IsDescending entries.now keys.now (take step order.now) walk.old }
    ensures { OnOk result (IsDescending entries.now keys.now (take (step + 1) order.now) walk.new) }
{
    let index = order[step];
    let above = root_above(&entries[index].class, walk.roots.as_slice());
    walk.told[index] = overrides_badly(entries, keys, index, above, &walk.trees);
    walk.roots[index] = declare_own(entries, keys, index, above, &mut walk.trees)?;
    Ok(())
}

// Which classes have a method that may not stand below one of a superclass. The classes come by rank.
pub(crate) fn find_overriding(
    alloc: Global,
    entries: &[Entry],
    order: &[usize],
) -> Result<Vec<bool>, AllocError>
    requires arranged { AreArranged entries.now }
    requires order { IsByRank entries.now order.now }
    ensures { IfOk result (λ told. AreOverriding entries.now told.items) }
{
    let keys = number_all(alloc, entries)?;
    let mut walk = Walk {
        trees: Trees::start(alloc)?,
        roots: vec![in alloc; 0; entries.len()]?,
        told: vec![in alloc; false; entries.len()]?,
    };
    for step in 0..order.len() {
        come_to(entries, &keys, order, step, &mut walk)?;
    }
    Ok(walk.told)
}
