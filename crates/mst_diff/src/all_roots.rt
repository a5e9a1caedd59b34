ghost use Rattle.std.specs.Prelude.{◌≡◌, ◌++◌, List, IfOk, OnOk, map};
ghost use Rattle.std.specs.List.{flat_map};
ghost use Rattle.mst_vlan.specs.forest.AllTrees.{all_trees};
ghost use Rattle.mst_rows.specs.Rows.{Row};
ghost use Rattle.mst_diff.specs.Seen.{roots_of, row_of_root};

use crate::change::Change;
use crate::roots::{RootChange, add_tree, put_root};
use mst_ids::Tree;
use mst_rows::Rows;
use mst_vlan::is_had;
use std::alloc::{AllocError, Global};

/// Puts the roots of a tree that are other ones behind these: none where no bridge of one of the networks has it.
fn add_roots_in(
    alloc: Global,
    change: &Change,
    tree: Tree,
    changes: &mut Vec<RootChange>,
) -> Result<(), AllocError>
    ensures { OnOk result (map row_of_root changes.new.items ≡ map row_of_root changes.old.items ++ roots_of change.now.old.now change.now.new.now tree) }
{
    change.old.known();
    change.new.known();
    if !is_had(change.used, tree) {
        return Ok(());
    }
    if !is_had(change.used_too, tree) {
        return Ok(());
    }
    add_tree(alloc, change, tree, changes)
}

/// The pairs of roots, in an MSTI of regional roots, that differ and that some of the bridges of both has before and
/// after, for each tree, rising, each pair once. `AllocError`: memory was wanted and refused.
///
/// It goes over these bridges once for each tree that both networks have.
pub(crate) fn changed_roots(alloc: Global, change: &Change) -> Result<Vec<RootChange>, AllocError>
    ensures { IfOk result (λ changes. map row_of_root changes.items ≡ flat_map (roots_of change.now.old.now change.now.new.now) all_trees) }
{
    let mut changes = Vec::new(alloc);
    for number in 0..4095 {
        if let Some(tree) = Tree::new(number) {
            add_roots_in(alloc, change, tree, &mut changes)?;
        }
    }
    Ok(changes)
}

/// Puts the rows of these roots. `AllocError`: memory was wanted and refused; some of them may have been put.
pub(crate) fn put_roots<R: Rows>(changes: &[RootChange], out: &mut R) -> Result<(), AllocError>
    ensures { (first : R) (rows : List Row) → R.grew first out.old rows → OnOk result (R.grew first out.new (rows ++ map row_of_root changes.now)) }
{
    for change in changes {
        put_root(change, out)?;
    }
    Ok(())
}
