//! Binary trees by the bits of the key, the lowest first, in a row of nodes that only grows.

ghost use Rattle.std.specs.Prelude.{◌≡◌, ◌≤◌, ℕ, IfOk, OnOk, Some, slice_get, if◌then◌else◌};
ghost use Rattle.number_trees.specs.Rows.{Starts};
ghost use Rattle.number_trees.specs.Trees.{agree, child, find, Covers, IsTree};

use std::alloc::AllocError;

/// What follows an even key, and what an odd one: the index of a node, or below the last level a value.
#[derive(Clone, Copy, Debug)]
pub struct Node {
    pub even: u32,
    pub odd: u32,
}

fn child(nodes: &[Node], index: u32, key: u32) -> u32
    ensures { result ≡ child (slice_get nodes.now index) key }
{
    match nodes.get(index as usize) {
        Some(node) => { if key % 2 == 0 { node.even } else { node.odd } }
        None => 0,
    }
}

/// Returns what a tree of `levels` levels has for a key. The node 0 that leads to itself is the tree that
/// has 0 for every key.
pub fn find(nodes: &[Node], levels: u32, root: u32, key: u32) -> u32
    ensures { result ≡ find nodes.now levels root key }
{
    let mut index = root;
    let mut rest = key;
    for level in 0..levels {
        index = child(nodes, index, rest);
        rest = rest / 2;
    }
    index
}

// Adds a node: its index.
fn add(nodes: &mut Vec<Node>, node: Node) -> Result<u32, AllocError>
    ensures starts { OnOk result (Starts nodes.old.items nodes.new.items) }
    ensures node { IfOk result (λ index. slice_get nodes.new.items index ≡ Some node) }
{
    let index = nodes.len();
    if index >= u32::MAX as usize {
        return Err(AllocError);
    }
    nodes.push(node)?;
    Ok(index as u32)
}

/// Returns the tree that has a value for a key, and for all others what the tree of the root has; that one
/// stays as it is. More than 2^32 nodes are out of memory. After an error the row of nodes may have grown.
pub fn with(
    nodes: &mut Vec<Node>,
    levels: u32,
    root: u32,
    key: u32,
    value: u32,
) -> Result<u32, AllocError>
    requires { IsTree nodes.old.items levels root }
    ensures starts { OnOk result (Starts nodes.old.items nodes.new.items) }
    ensures tree { IfOk result (IsTree nodes.new.items levels) }
    ensures found { IfOk result (λ r. (k : ℕ) → find nodes.new.items levels r k ≡ (if agree levels k key then value else find nodes.old.items levels root k)) }
{
    if levels == 0 {
        return Ok(value);
    }
    let node = nodes[root as usize];
    if key % 2 == 0 {
        let even = with(nodes, levels - 1, node.even, key / 2, value)?;
        let index = add(
            nodes,
            Node {
                even,
                odd: node.odd,
            },
        )?;
        Ok(index)
    } else {
        let odd = with(nodes, levels - 1, node.odd, key / 2, value)?;
        let index = add(
            nodes,
            Node {
                even: node.even,
                odd,
            },
        )?;
        Ok(index)
    }
}

/// Returns in how many of their lowest bits numbers below this one have to agree to be the same.
pub fn levels_for(count: u32) -> u32
    ensures covers { Covers result count }
    ensures few { result ≤ count }
{
    if count < 2 {
        return 0;
    }
    1 + levels_for(count - count / 2)
}
