ghost use Rattle.std.specs.Prelude.{◌≡◌, ℕ, ◌<◌, ◌≤◌, IfOk, IfSome, length, slice_index};
ghost use Rattle.mst_tables.specs.Table.{tree_in};
ghost use Rattle.mst_classes.specs.Alike.{IsSplit};
ghost use Rattle.mst_classes.specs.Pairs.{ArePairs};

use crate::splitting::{ROOM, Splitting};
use mst_graph::{Numbering, number_keys};
use mst_tables::Table;
use std::alloc::{AllocError, Global};

/// A number for each VID. Two of one number had one number, and have one tree in the table. `AllocError`: memory was wanted
/// and refused.
///
/// It numbers the trees, and then pairs of numbers, by a table of those that were met. Where pairs are too many for it,
/// they are found by hash.
pub(crate) fn split_by_table(
    alloc: Global,
    numbers: &[usize],
    table: &Table,
) -> Result<Vec<usize>, AllocError>
    requires long { length numbers.now ≡ 4094 }
    requires small { (i : ℕ) → slice_index numbers.now i < 4096 }
    ensures split { IfOk result (λ split. IsSplit (tree_in table.now) numbers.now split.items) }
    ensures small { IfOk result (λ split. (i : ℕ) → slice_index split.items i < 4096) }
{
    let trees = trees_of(alloc, table)?;
    let trees = Splitting::anew(alloc, trees)?;
    let Some(keys) = pairs(alloc, numbers, trees.numbers.as_slice(), trees.next)? else {
        return split_by_keys(alloc, numbers, table);
    };
    let split = Splitting::anew(alloc, keys)?;
    Ok(split.numbers)
}

/// The tree of each VID.
fn trees_of(alloc: Global, table: &Table) -> Result<Vec<usize>, AllocError>
    ensures trees { IfOk result (λ trees. trees.items ≡ table.now) }
    ensures long { length table.now ≡ 4094 }
    ensures small { IfOk result (λ trees. (i : ℕ) → slice_index trees.items i < 16384) }
{
    let mut trees = Vec::new(alloc);
    for tree in table.trees() {
        trees.push(usize::from(tree.value()))?;
    }
    Ok(trees)
}

/// A number for each pair of a number and one below the width, if each is below the room.
fn pairs(
    alloc: Global,
    numbers: &[usize],
    others: &[usize],
    width: usize,
) -> Result<Option<Vec<usize>>, AllocError>
    requires long { length numbers.now ≡ 4094 }
    requires others { length others.now ≡ 4094 }
    requires small { (i : ℕ) → slice_index numbers.now i < 4096 }
    requires below { (i : ℕ) → slice_index others.now i < width }
    requires width { width ≤ 4096 }
    ensures { IfOk result (λ made. IfSome made (λ keys. ArePairs numbers.now others.now width keys.items)) }
{
    let mut keys = Vec::new(alloc);
    for place in 0..4094 {
        let key = numbers[place] * width + others[place];
        if key >= ROOM {
            return Ok(None);
        }
        keys.push(key)?;
    }
    Ok(Some(keys))
}

/// The same, by hash.
fn split_by_keys(alloc: Global, numbers: &[usize], table: &Table) -> Result<Vec<usize>, AllocError>
    requires { length numbers.now ≡ 4094 }
    ensures split { IfOk result (λ split. IsSplit (tree_in table.now) numbers.now split.items) }
    ensures small { IfOk result (λ split. (i : ℕ) → slice_index split.items i < 4094) }
{
    let trees = table.trees();
    let mut keys = Vec::new(alloc);
    for place in 0..4094 {
        keys.push((numbers[place], trees[place]))?;
    }
    let Numbering {
        numbers: split,
        firsts: _,
    } = number_keys(alloc, keys)?;
    Ok(split)
}
