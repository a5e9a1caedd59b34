ghost use Rattle.std.specs.Prelude.{◌++◌, ◌∷◌, [], List, OnOk, map};
ghost use Rattle.mst_ids.specs.Vids.{runs_from};
ghost use Rattle.mst_rows.specs.Rows.{Row};
ghost use Rattle.mst_text.specs.VlanRows.{island_row};
ghost use Rattle.mst_text.specs.VlanSeen.{seen_island};

use mst_ids::{Name, VidSet};
use mst_kinds::{Kind, VlanLine};
use mst_rows::{Rows, Value, put};
use mst_view::View;
use mst_vlan::{Island, bridge_names, lan_names};
use std::alloc::{AllocError, Global};

/// Puts a row for each island, under a heading of these VIDs.
pub(crate) fn put_islands<R: Rows>(
    alloc: Global,
    view: &View,
    vids: &VidSet,
    islands: &[Island],
    out: &mut R,
) -> Result<(), AllocError>
    ensures { (first : R) (rows : List Row) → R.grew first out.old rows → OnOk result (R.grew first out.new (rows ++ map (seen_island view.now (runs_from 0 vids.now)) islands.now)) }
{
    for island in islands {
        put_island(alloc, view, vids, island, out)?;
    }
    Ok(())
}

/// Puts the row of an island: its bridges, and then its LANs.
fn put_island<R: Rows>(
    alloc: Global,
    view: &View,
    vids: &VidSet,
    island: &Island,
    out: &mut R,
) -> Result<(), AllocError>
    ensures { (first : R) (rows : List Row) → R.grew first out.old rows → OnOk result (R.grew first out.new (rows ++ seen_island view.now (runs_from 0 vids.now) island.now ∷ [])) }
{
    let bridges = bridge_names(alloc, view, island.bridges.as_slice())?;
    let lans = lan_names(alloc, view, island.lans.as_slice())?;
    put_named(vids, bridges.as_slice(), lans.as_slice(), out)
}

/// Puts the row of an island of these bridges and LANs.
fn put_named<'a, R: Rows>(
    vids: &'a VidSet,
    bridges: &'a [Name],
    lans: &'a [Name],
    out: &mut R,
) -> Result<(), AllocError>
    ensures { (first : R) (rows : List Row) → R.grew first out.old rows → OnOk result (R.grew first out.new (rows ++ island_row (runs_from 0 vids.now) bridges.now lans.now ∷ [])) }
{
    let values = [Value::Vids(vids), Value::Names(bridges), Value::Names(lans)];
    put::<R>(Kind::Vlan(VlanLine::Island), &values, out)
}
