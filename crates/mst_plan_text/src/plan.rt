ghost use Rattle.std.specs.Prelude.{◌≡◌, List, ◌++◌, OnOk, IfOk, map};
ghost use Rattle.mst_graph.specs.Groups.{AreGroups};
ghost use Rattle.mst_rows.specs.Rows.{Row};
ghost use Rattle.mst_vlan.specs.forest.Settled.{outcome_of};
ghost use Rattle.mst_text.specs.VlanText.{ports_of_vid};
ghost use Rattle.mst_plan_text.specs.PlanText.{ArePlanRows, AreVidsRows};
ghost use Rattle.mst_text.specs.vlan.classes.AllVids.{all_vids};

use crate::active::actives;
use crate::groups::put_groups;
use crate::trees::put_trees;
use mst_graph::groups_by_body;
use mst_ids::Vid;
use mst_rows::Rows;
use mst_text::vlan_laws::islands_of_vid;
use mst_text::{classes_of_vids, vids};
use mst_vlan::Settled;
use std::alloc::{AllocError, Global};

/// Puts the rows of a plan: those of the CIST and of each MSTI that some bridge has, in rising order, and then the bodies
/// of the VIDs 1 to 4094, those of equal bodies in one group, by their least VIDs.
///
/// The active ports are gathered once for VIDs that have one tree in each table and that are in the same sets of VLANs of
/// ports, and the islands are made once for each group. `AllocError`: memory was wanted and refused; some of the rows may
/// have been put.
pub fn put_plan<R: Rows>(alloc: Global, plan: &Settled, out: &mut R) -> Result<(), AllocError>
    ensures { (first : R) (before : List Row) → R.grew first out.old before
        → OnOk result ((rows : List Row) × ArePlanRows plan.now.net (outcome_of plan.now) rows × R.grew first out.new (before ++ rows)) }
{
    put_trees(alloc, plan, out)?;
    put_vids(alloc, plan, out)
}

/// Puts the groups of VIDs of equal bodies.
fn put_vids<R: Rows>(alloc: Global, plan: &Settled, out: &mut R) -> Result<(), AllocError>
    ensures { (first : R) (before : List Row) → R.grew first out.old before
        → OnOk result ((rows : List Row) × AreVidsRows plan.now.net (outcome_of plan.now) rows × R.grew first out.new (before ++ rows)) }
{
    plan.known();
    islands_of_vid();
    let groups = groups_of_vids(alloc, plan)?;
    put_groups(alloc, plan, groups.as_slice(), out)
}

/// The groups of the VIDs that have the same active ports.
fn groups_of_vids(alloc: Global, plan: &Settled) -> Result<Vec<Vec<Vid>>, AllocError>
    ensures { IfOk result (λ groups. AreGroups (λ x y. ports_of_vid plan.now.net (outcome_of plan.now) x ≡ ports_of_vid plan.now.net (outcome_of plan.now) y) all_vids (map (λ group. group.items) groups.items)) }
{
    plan.known();
    let classes = classes_of_vids(alloc, plan.view())?;
    let actives = actives(alloc, plan, classes.firsts.as_slice())?;
    let vids = vids(alloc)?;
    groups_by_body(alloc, vids.as_slice(), classes.numbers.as_slice(), actives)
}
