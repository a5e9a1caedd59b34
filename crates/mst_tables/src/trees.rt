ghost use Rattle.std.specs.Prelude.{◌≡◌, IfOk};
ghost use Rattle.mst_records.specs.Blocks.{in_block, is_marked};
ghost use Rattle.mst_tables.specs.TreesSet.{trees_where};

use indexmap::IndexMap;
use mst_ids::Tree;
use mst_records::Blocks;
use std::alloc::{AllocError, Global};
use std::hash::Hash;

/// The trees that are marked for the key, in rising order.
pub(crate) fn marked_trees<K: Copy + Eq + Hash>(
    marks: &IndexMap<K, Blocks>,
    key: &K,
    alloc: Global,
) -> Result<Vec<Tree>, AllocError>
    ensures { IfOk result (λ trees. trees.items ≡ trees_where (is_marked K.eq marks.now.entries key.now)) }
{
    match marks.get(key) {
        Some(marked) => trees_of(marked, alloc),
        None => Ok(Vec::new(alloc)),
    }
}

/// The trees that are marked, in rising order. It passes by the blocks in which none is.
fn trees_of(blocks: &Blocks, alloc: Global) -> Result<Vec<Tree>, AllocError>
    ensures { IfOk result (λ trees. trees.items ≡ trees_where (in_block blocks.now)) }
{
    let mut trees = Vec::new(alloc);
    let mut number = 0;
    while number < 4095 {
        if blocks.has(number) {
            trees.push(Tree::new(number).unwrap())?;
            number += 1;
        } else {
            number = blocks.after(number);
        }
    }
    Ok(trees)
}
