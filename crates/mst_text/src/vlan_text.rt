ghost use Rattle.std.specs.Prelude.{◌≡◌, ℕ, List, ◌++◌, ◌∷◌, [], OnOk};
ghost use Rattle.mst_ids.specs.Vids.{runs_from};
ghost use Rattle.mst_rows.specs.Rows.{Row};
ghost use Rattle.mst_vlan.specs.forest.Settled.{outcome_of};
ghost use Rattle.mst_text.specs.VlanRows.{heading};
ghost use Rattle.mst_text.specs.VlanText.{AreBodyRows, AreVlanRows, alone as vid_alone};

use crate::active::put_active;
use crate::islands::put_islands;
use mst_ids::{Vid, VidSet};
use mst_kinds::{Kind, VlanLine};
use mst_rows::{Rows, Value, put};
use mst_vlan::{Settled, active_ports, reach_from};
use std::alloc::{AllocError, Global};

/// Puts the rows of a VID: a heading, and then its body.
///
/// For n ports it takes about n log n steps. `AllocError`: memory was wanted and refused; some of the rows may have
/// been put.
pub fn put_vlan<R: Rows>(
    alloc: Global,
    plan: &Settled,
    vid: Vid,
    out: &mut R,
) -> Result<(), AllocError>
    ensures { (first : R) (rows : List Row) → R.grew first out.old rows
        → OnOk result ((own : List Row) × AreVlanRows plan.now.net (outcome_of plan.now) vid own × R.grew first out.new (rows ++ own)) }
{
    let vids = alone(vid);
    put_heading(&vids, out)?;
    put_body(alloc, plan, vid, &vids, out)
}

/// Puts the heading of these VIDs.
pub fn put_heading<R: Rows>(vids: &VidSet, out: &mut R) -> Result<(), AllocError>
    ensures { (first : R) (rows : List Row) → R.grew first out.old rows → OnOk result (R.grew first out.new (rows ++ heading (runs_from 0 vids.now) ∷ [])) }
{
    let values = [Value::Vids(vids)];
    put::<R>(Kind::Vlan(VlanLine::Heading), &values, out)
}

/// Puts the rows of the body of a VID, under a heading of these VIDs: its active ports, those that aren't members of its
/// VLAN in brackets, and then its islands, each with its bridges and its LANs.
///
/// For n ports it takes about n log n steps. `AllocError`: memory was wanted and refused; some of the rows may have
/// been put.
pub fn put_body<R: Rows>(
    alloc: Global,
    plan: &Settled,
    vid: Vid,
    vids: &VidSet,
    out: &mut R,
) -> Result<(), AllocError>
    ensures { (first : R) (rows : List Row) → R.grew first out.old rows
        → OnOk result ((own : List Row) × AreBodyRows plan.now.net (outcome_of plan.now) vid (runs_from 0 vids.now) own × R.grew first out.new (rows ++ own)) }
{
    plan.known();
    let view = plan.view();
    let ports = active_ports(alloc, plan, vid)?;
    put_active(alloc, view, vid, vids, ports.as_slice(), out)?;
    let islands = reach_from(alloc, plan, ports.as_slice(), vid)?;
    put_islands(alloc, view, vids, islands.as_slice(), out)
}

/// The set of this VID alone.
fn alone(vid: Vid) -> VidSet
    ensures { runs_from 0 result ≡ vid_alone vid }
{
    let _number = vid.value();
    let mut vids = VidSet::none();
    vids.insert(vid);
    vids
}
