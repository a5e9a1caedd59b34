ghost use Rattle.std.specs.Prelude.{◌≡◌, ℕ, Bool, ◌-◌, ◌<◌, ◌≤◌, ◌||◌, false, length, slice_index_or, count_by, IfOk, filter};
ghost use Rattle.std.specs.List.{range_with_len};
ghost use Rattle.mst_net.specs.tables.Table.{has_tree, mapped, mstis_in, tree_count as count_of};
ghost use Rattle.mst_net.specs.tables.TreesSet.{trees_where};
ghost use Rattle.mst_edits.specs.TableLines.{unwanted as unwanted_of};

use mst_ids::{Tree, VidSet};
use std::alloc::{AllocError, Global};

/// A flag for each tree, 0 to 4094: whether it is in one of two lists.
pub(crate) fn seen_in(left: &[Tree], right: &[Tree]) -> [bool; 4095]
    ensures long { length result ≡ 4095 }
    ensures seen { (tree : ℕ) → tree < 4095 → slice_index_or result tree false ≡ (has_tree left.now tree || has_tree right.now tree) }
{
    let mut seen = [false; 4095];
    for tree in left {
        seen[usize::from(tree.value())] = true;
    }
    for other in right {
        seen[usize::from(other.value())] = true;
    }
    seen
}

/// The trees from one on that have flags, in rising order.
fn listed(alloc: Global, seen: &[bool], from: u16) -> Result<Vec<Tree>, AllocError>
    requires long { length seen.now ≡ 4095 }
    requires low { from ≤ 1 }
    ensures { (test : ℕ → Bool) → ((tree : ℕ) → tree < 4095 → slice_index_or seen.now tree false ≡ test tree)
        → IfOk result (λ trees. trees.items ≡ filter test (range_with_len from (4095 - from))) }
{
    let mut trees = Vec::new(alloc);
    for number in from..4095 {
        if seen[usize::from(number)] {
            trees.push(Tree::new(u64::from(number)).unwrap())?;
        }
    }
    Ok(trees)
}

/// The trees that are in one of two lists, in rising order.
pub(crate) fn either(alloc: Global, left: &[Tree], right: &[Tree]) -> Result<Vec<Tree>, AllocError>
    ensures { (p q : ℕ → Bool) → left.now ≡ trees_where p → right.now ≡ trees_where q → IfOk result (λ trees. trees.items ≡ trees_where (λ tree. p tree || q tree)) }
{
    if left.is_empty() && right.is_empty() {
        return Ok(Vec::new(alloc));
    }
    all_seen(alloc, left, right)
}

fn all_seen(alloc: Global, left: &[Tree], right: &[Tree]) -> Result<Vec<Tree>, AllocError>
    ensures { IfOk result (λ trees. trees.items ≡ trees_where (λ tree. has_tree left.now tree || has_tree right.now tree)) }
{
    listed(alloc, &seen_in(left, right), 0)
}

/// The trees beside the CIST that some VID of a table is mapped to, in rising order.
pub(crate) fn mstis(alloc: Global, table: &[Tree]) -> Result<Vec<Tree>, AllocError>
    ensures { IfOk result (λ trees. trees.items ≡ mstis_in table.now) }
{
    listed(alloc, &seen_in(table, &[]), 1)
}

/// How many of them there are.
pub(crate) fn tree_count(table: &[Tree]) -> usize
    ensures { result ≡ count_of table.now }
{
    let seen = seen_in(table, &[]);
    count(&seen[1..])
}

/// How many of the flags are set.
fn count(flags: &[bool]) -> usize
    ensures { result ≡ count_by (λ flag. flag) flags.now }
{
    flags.iter().filter(|flag| **flag).count()
}

/// The trees of a table that another one hasn't, in rising order, but the CIST.
pub(crate) fn unwanted(
    alloc: Global,
    after: &[Tree],
    table: &[Tree],
) -> Result<Vec<Tree>, AllocError>
    ensures { IfOk result (λ trees. trees.items ≡ unwanted_of after.now table.now) }
{
    let wanted = seen_in(after, &[]);
    let trees = mstis(alloc, table)?;
    let mut others = Vec::new(alloc);
    for tree in trees.as_slice() {
        if !has(&wanted, *tree) {
            others.push(*tree)?;
        }
    }
    Ok(others)
}

/// The flag of a tree.
fn has(seen: &[bool], tree: Tree) -> bool
    requires { length seen.now ≡ 4095 }
    ensures flag { result ≡ slice_index_or seen.now tree false }
    ensures small { tree < 4095 }
{
    seen[usize::from(tree.value())]
}

/// Maps VIDs of a table to a tree.
pub(crate) fn map_vids(table: &mut [Tree], vids: &VidSet, tree: Tree)
    requires { length table.old ≡ 4094 }
    ensures { table.new ≡ mapped vids.now tree table.old }
{
    for index in 0..4094u16 {
        if vids.contains(index + 1) {
            table[usize::from(index)] = tree;
        }
    }
}
