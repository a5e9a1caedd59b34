ghost use Rattle.std.specs.Prelude.{◌++◌, ℕ, List, OnOk};
ghost use Rattle.std.specs.List.{flat_map};
ghost use Rattle.mst_rows.specs.Rows.{Row};
ghost use Rattle.mst_vlan.specs.forest.Settled.{outcome_of};
ghost use Rattle.mst_plan_text.specs.PlanText.{group_rows, AreIslandsOfEach, Islands};

use mst_ids::Vid;
use mst_rows::Rows;
use mst_text::vlan_laws::islands_of_vid;
use mst_text::{put_body, put_heading, set_of};
use mst_vlan::Settled;
use std::alloc::{AllocError, Global};

/// Puts the rows of these groups of VIDs of equal bodies.
pub(crate) fn put_groups<R: Rows>(
    alloc: Global,
    plan: &Settled,
    groups: &[Vec<Vid>],
    out: &mut R,
) -> Result<(), AllocError>
    ensures { (islands : ℕ → Islands) → AreIslandsOfEach plan.now.net (outcome_of plan.now) islands → (first : R) (before : List Row) → R.grew first out.old before
        → OnOk result (R.grew first out.new (before ++ flat_map (λ group. group_rows plan.now.net (outcome_of plan.now) islands group.items) groups.now)) }
{
    for group in groups {
        put_group(alloc, plan, group.as_slice(), out)?;
    }
    Ok(())
}

/// Puts the rows of a group, by the body of its first VID.
fn put_group<R: Rows>(
    alloc: Global,
    plan: &Settled,
    group: &[Vid],
    out: &mut R,
) -> Result<(), AllocError>
    ensures { (islands : ℕ → Islands) → AreIslandsOfEach plan.now.net (outcome_of plan.now) islands → (first : R) (before : List Row) → R.grew first out.old before
        → OnOk result (R.grew first out.new (before ++ group_rows plan.now.net (outcome_of plan.now) islands group.now)) }
{
    let [vid, ..] = group else {
        return Ok(());
    };
    islands_of_vid();
    let vids = set_of(group);
    put_heading(&vids, out)?;
    put_body(alloc, plan, *vid, &vids, out)
}
