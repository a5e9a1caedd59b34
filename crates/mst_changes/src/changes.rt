ghost use Rattle.std.specs.Prelude.{◌≡◌, ◌<◌, ◌++◌, List, OnOk};
ghost use Rattle.mst_rows.specs.Rows.{Row};
ghost use Rattle.mst_tables.specs.Tables.{Net};
ghost use Rattle.mst_roles.specs.forest.InUse.{AreInUse};
ghost use Rattle.mst_roles.specs.forest.Outcome.{Outcome};
ghost use Rattle.mst_roles.specs.forest.Settled.{outcome_of};
ghost use Rattle.mst_changes.specs.Kept.{AreEntries};
ghost use Rattle.mst_changes.specs.ChangesText.{all_changes};
ghost use Rattle.mst_changes.specs.TreeChanges.{tree_changes};

use crate::entries::Entries;
use crate::merge::put_merged;
use crate::rows::push_tree;
use mst_ids::Tree;
use mst_roles::{Settled, trees_in_use};
use mst_rows::Rows;
use std::alloc::{AllocError, Global};

/// Puts the rows of what has changed in one tree. It takes memory for the entries of that tree alone.
fn put_tree_changes<R: Rows>(
    alloc: Global,
    old: &Entries,
    new: &Settled,
    used: &[bool; 4095],
    tree: Tree,
    out: &mut R,
) -> Result<(), AllocError>
    requires used { AreInUse new.now.view used.now }
    requires tree { tree < 4095 }
    ensures { (a : Net) (o : Outcome) → AreEntries a o old.now → (first : R) (rows : List Row) → R.grew first out.old rows → OnOk result (R.grew first out.new (rows ++ tree_changes a o new.now.net (outcome_of new.now) tree)) }
{
    let mut olds = Vec::new(alloc);
    old.push_tree(tree, &mut olds)?;
    let mut news = Vec::new(alloc);
    push_tree(new, used, tree, &mut news)?;
    put_merged(olds.as_slice(), news.as_slice(), out)?;
    Ok(())
}

/// Puts the rows of what has changed from one network's outcome, by what is kept of it, to that of a settled network.
/// Of equal outcomes there are none. `AllocError`: memory was wanted and refused; some of the rows may have been put.
///
/// For each tree that some bridge has it goes once over what is kept of it and once over the bridges and the logical
/// ports, and it takes memory for the entries of one tree at a time.
pub fn put_changes<R: Rows>(
    alloc: Global,
    old: &Entries,
    new: &Settled,
    out: &mut R,
) -> Result<(), AllocError>
    ensures { (a : Net) (o : Outcome) → AreEntries a o old.now → (first : R) (rows : List Row) → R.grew first out.old rows → OnOk result (R.grew first out.new (rows ++ all_changes a o new.now.net (outcome_of new.now))) }
{
    let used = trees_in_use(new.view());
    for number in 0..4095 {
        if let Some(tree) = Tree::new(number) {
            put_tree_changes(alloc, old, new, &used, tree, out)?;
        }
    }
    Ok(())
}
