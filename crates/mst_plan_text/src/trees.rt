ghost use Rattle.std.specs.Prelude.{◌≡◌, ◌++◌, List, OnOk};
ghost use Rattle.std.specs.List.{flat_map};
ghost use Rattle.mst_rows.specs.Rows.{Row};
ghost use Rattle.mst_text.specs.Held.{AreHolders};
ghost use Rattle.mst_vlan.specs.forest.Settled.{outcome_of};
ghost use Rattle.mst_text.specs.TreeText.{tree_rows};
ghost use Rattle.mst_plan_text.specs.PlanText.{trees_rows};

use mst_ids::Tree;
use mst_rows::Rows;
use mst_text::{Holders, put_tree_with};
use mst_vlan::{Settled, mstis_in_use};
use std::alloc::{AllocError, Global};

/// Puts the rows of the CIST and of each MSTI that some bridge has, in rising order.
pub(crate) fn put_trees<R: Rows>(
    alloc: Global,
    plan: &Settled,
    out: &mut R,
) -> Result<(), AllocError>
    ensures { (first : R) (before : List Row) → R.grew first out.old before → OnOk result (R.grew first out.new (before ++ trees_rows plan.now.net (outcome_of plan.now))) }
{
    plan.known();
    let holders = Holders::of(alloc, plan)?;
    let mstis = mstis_in_use(alloc, plan.view())?;
    put_tree_with(plan, &holders, Tree::cist(), out)?;
    put_mstis(plan, &holders, mstis.as_slice(), out)
}

/// Puts the rows of these trees.
fn put_mstis<R: Rows>(
    plan: &Settled,
    holders: &Holders,
    trees: &[Tree],
    out: &mut R,
) -> Result<(), AllocError>
    requires { AreHolders plan.now.net holders.now }
    ensures { (first : R) (before : List Row) → R.grew first out.old before → OnOk result (R.grew first out.new (before ++ flat_map (tree_rows plan.now.net (outcome_of plan.now)) trees.now)) }
{
    for tree in trees {
        put_tree_with(plan, holders, *tree, out)?;
    }
    Ok(())
}
