ghost use Rattle.std.specs.Prelude.{◌≡◌, ◌++◌, ℕ, List, OnOk};
ghost use Rattle.std.specs.List.{flat_map};
ghost use Rattle.mst_vlan.specs.forest.config.Shared.{AreRegions};
ghost use Rattle.mst_rows.specs.Rows.{Row};
ghost use Rattle.mst_vlan.specs.forest.Settled.{outcome_of};
ghost use Rattle.mst_summary.specs.Seen.{seen_tree_rows};
ghost use Rattle.mst_summary.specs.SummaryText.{AreSummaryRows};

use crate::blocked::put_blocked;
use crate::carries::put_carries;
use crate::counts::{count, put_counts};
use crate::in_use::used_trees;
use crate::islands::put_vlans;
use crate::roots::put_roots;
use mst_ids::Tree;
use mst_rows::Rows;
use mst_slips::put_slips;
use mst_vlan::{Carriage, Regions, Settled, classes_of_vids};
use std::alloc::{AllocError, Global};

/// Puts the rows of a tree.
fn put_tree<R: Rows>(
    alloc: Global,
    plan: &Settled,
    tree: Tree,
    out: &mut R,
) -> Result<(), AllocError>
    ensures { (first : R) (rows : List Row) → R.grew first out.old rows → OnOk result (R.grew first out.new (rows ++ seen_tree_rows plan.now tree)) }
{
    put_roots(alloc, plan, tree, out)?;
    put_blocked(alloc, plan, tree, out)
}

/// Puts the rows of these trees.
fn put_trees<R: Rows>(
    alloc: Global,
    plan: &Settled,
    trees: &[Tree],
    out: &mut R,
) -> Result<(), AllocError>
    ensures { (first : R) (rows : List Row) → R.grew first out.old rows → OnOk result (R.grew first out.new (rows ++ flat_map (seen_tree_rows plan.now) trees.now)) }
{
    for tree in trees {
        put_tree(alloc, plan, *tree, out)?;
    }
    Ok(())
}

/// Puts the summary of a settled network, by its regions too: how much there is, for each tree that some bridge has
/// its roots with their followers and the enabled ports that don't forward, how many islands VIDs have, and of the logical
/// LANs that join bridges those that carry some VIDs or none, and those that carry all. `AllocError`: memory was wanted and
/// refused; some of the rows may have been put.
///
/// It goes over the ports once for each tree and once for each class of VIDs, which no table and no set of VLANs tells
/// apart, and makes islands once for each class, by a table of what carries each VID.
pub fn put_summary<R: Rows>(
    alloc: Global,
    plan: &Settled,
    regions: &Regions,
    out: &mut R,
) -> Result<(), AllocError>
    requires { AreRegions plan.now.net plan.now.numbers regions.now }
    ensures { (first : R) (rows : List Row) → R.grew first out.old rows
        → OnOk result ((own : List Row) × AreSummaryRows plan.now.net (outcome_of plan.now) own × R.grew first out.new (rows ++ own)) }
{
    plan.known();
    let view = plan.view();
    let trees = used_trees(alloc, view)?;
    let counts = count(view, regions, trees.as_slice());
    put_counts(&counts, out)?;
    put_trees(alloc, plan, trees.as_slice(), out)?;
    let numbering = classes_of_vids(alloc, view)?;
    let carriage = Carriage::new(alloc, view, plan.forest())?;
    put_vlans(alloc, plan, &carriage, &numbering, out)?;
    put_carries(alloc, plan, &carriage, &numbering, out)?;
    put_slips(alloc, view, regions, out)
}
