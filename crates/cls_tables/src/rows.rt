//! What the trees of classes have for each method, in rows: a look-up of few steps, for sets that have room for them.

ghost use Rattle.std.specs.Prelude.{◌≡◌, IfOk};
ghost use Rattle.cls_tables.specs.Rows.{AreRows, row_of};

use super::trees::{Node, find};
use cls_link::Row;
use std::alloc::{AllocError, Global};

// How many pairs of a class and a method rows have at most: they take 1 MB.
const MOST_PAIRS: usize = 1 << 18;

/// The rows of all classes, by class number; none at all where they would have too many pairs.
pub(crate) fn all_rows(
    alloc: Global,
    nodes: &[Node],
    levels: u32,
    keys: &[u32],
    roots: &[u32],
) -> Result<Vec<Row<u32>>, AllocError>
    ensures { IfOk result (λ rows. AreRows levels keys.now nodes.now roots.now rows.items) }
{
    if roots.len().saturating_mul(keys.len()) > MOST_PAIRS {
        return Ok(Vec::new(alloc));
    }
    let mut rows = Vec::with_capacity(alloc, roots.len())?;
    for root in roots {
        let row = row_of(alloc, nodes, levels, keys, *root)?;
        rows.push(Row::new(row))?;
    }
    Ok(rows)
}

// What the tree of this root has for each key.
fn row_of(
    alloc: Global,
    nodes: &[Node],
    levels: u32,
    keys: &[u32],
    root: u32,
) -> Result<Vec<u32>, AllocError>
    ensures { IfOk result (λ row. row.items ≡ row_of nodes.now levels keys.now root) }
{
    let mut row = Vec::with_capacity(alloc, keys.len())?;
    for key in keys {
        row.push(find(nodes, levels, root, *key))?;
    }
    Ok(row)
}
