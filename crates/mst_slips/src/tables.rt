ghost use Rattle.std.specs.Prelude.{◌≡◌, ◌++◌, ◌∷◌, ◌==◌, not, [], List, IfOk, OnOk, filter};
ghost use Rattle.std.specs.List.{flat_map};
ghost use Rattle.mst_rows.specs.Rows.{Row};
ghost use Rattle.mst_tables.specs.Table.{tree_in};
ghost use Rattle.mst_tables.specs.Tables.{Net, Numbers, IsNetwork};
ghost use Rattle.mst_view.specs.Viewed.{IsView, named_bridge};
ghost use Rattle.mst_config.specs.Shared.{AreRegions};
ghost use Rattle.mst_slips.specs.Seen.{seen_alone, seen_odd, seen_odd_row, seen_odd_rows, seen_beside, seen_among};
ghost use Rattle.mst_slips.specs.Tables.{is_namesake as are_namesakes, table_row, table_rows, vids_apart as apart_of};

use crate::regions::{bridges_with, named_firsts};
use mst_config::Regions;
use mst_ids::{ConfName, Name, Vid, VidSet};
use mst_kinds::{Kind, SummaryLine};
use mst_rows::{Rows, Value, put};
use mst_tables::Table;
use mst_view::{BridgeInView, View};
use std::alloc::{AllocError, Global};

/// Whether two regions have one name and one revision, by their first bridges.
fn is_namesake(a: &BridgeInView, b: &BridgeInView) -> bool
    ensures { result ≡ are_namesakes (named_bridge a.now) (named_bridge b.now) }
{
    a.bridge.revision == b.bridge.revision
        && a.bridge.conf_name == b.bridge.conf_name
        && a.name != b.name
}

/// The first bridges of the other regions of a region's name and revision.
fn namesakes(
    alloc: Global,
    first: &BridgeInView,
    firsts: &[BridgeInView],
) -> Result<Vec<BridgeInView>, AllocError>
    ensures { IfOk result (λ others. others.items ≡ filter (λ b. are_namesakes (named_bridge first.now) (named_bridge b)) firsts.now) }
{
    firsts
        .iter()
        .filter(|other| is_namesake(first, other))
        .copied()
        .collect(alloc)
}

/// Whether a bridge is the only one of its region.
fn is_alone(
    alloc: Global,
    view: &View,
    regions: &Regions,
    bridge: &BridgeInView,
) -> Result<bool, AllocError>
    ensures { IfOk result (λ alone. alone ≡ seen_alone view.now regions.now bridge.now) }
{
    let bridges = bridges_with(alloc, view, regions, bridge)?;
    Ok(bridges.len() == 1)
}

/// Whether a bridge stands alone against a region of at least two bridges.
fn is_odd(
    alloc: Global,
    view: &View,
    regions: &Regions,
    bridge: &BridgeInView,
    other: &BridgeInView,
) -> Result<bool, AllocError>
    ensures { IfOk result (λ odd. odd ≡ seen_odd view.now regions.now bridge.now other.now) }
{
    Ok(is_alone(alloc, view, regions, bridge)? && !is_alone(alloc, view, regions, other)?)
}

/// Whether two tables map a VID to different trees.
fn is_apart(table: &Table, others: &Table, vid: Vid) -> bool
    ensures { result ≡ not (tree_in table.now vid == tree_in others.now vid) }
{
    table.tree(vid) != others.tree(vid)
}

/// The VIDs that two tables map to different trees.
fn vids_apart(table: &Table, others: &Table) -> VidSet
    ensures { result ≡ apart_of table.now others.now }
{
    let mut vids = VidSet::none();
    for number in 1..4095 {
        let vid = Vid::new(number).unwrap();
        if is_apart(table, others, vid) {
            vids.insert(vid);
        }
    }
    vids
}

/// Puts the row of a bridge whose table has other trees for these VIDs.
fn put_row<'a, R: Rows>(
    name: &'a ConfName,
    revision: u16,
    bridge: &'a Name,
    vids: &'a VidSet,
    out: &mut R,
) -> Result<(), AllocError>
    ensures { (grown : R) (rows : List Row) → R.grew grown out.old rows
        → OnOk result (R.grew grown out.new (rows ++ table_row name.now revision bridge.now vids.now ∷ [])) }
{
    let values = [
        Value::Word(name.as_bytes()),
        Value::Number(u64::from(revision)),
        Value::Name(bridge),
        Value::Vids(vids),
    ];
    put::<R>(Kind::Summary(SummaryLine::LookTable), &values, out)
}

/// Puts the row of a bridge whose table differs from another one's.
fn put_odd<R: Rows>(
    view: &View,
    bridge: &BridgeInView,
    other: &BridgeInView,
    out: &mut R,
) -> Result<(), AllocError>
    ensures { (grown : R) (rows : List Row) → R.grew grown out.old rows → OnOk result (R.grew grown out.new (rows ++ seen_odd_row view.now bridge.now other.now ∷ [])) }
{
    let settings = view.settings();
    let vids = vids_apart(&settings.table(&bridge.name), &settings.table(&other.name));
    let own = &bridge.bridge;
    put_row(&own.conf_name, own.revision, &bridge.name, &vids, out)
}

/// Puts the row of the first bridge of a region, if it stands alone against another region.
fn put_if_odd<R: Rows>(
    alloc: Global,
    view: &View,
    regions: &Regions,
    first: &BridgeInView,
    other: &BridgeInView,
    out: &mut R,
) -> Result<(), AllocError>
    ensures { (grown : R) (rows : List Row) → R.grew grown out.old rows
        → OnOk result (R.grew grown out.new (rows ++ seen_odd_rows view.now regions.now first.now other.now)) }
{
    if !is_odd(alloc, view, regions, first, other)? {
        return Ok(());
    }
    put_odd(view, first, other, out)
}

/// Puts the row of the first bridge of a region, if there is one, beside the other regions of its name and revision.
fn put_beside_others<R: Rows>(
    alloc: Global,
    view: &View,
    regions: &Regions,
    first: &BridgeInView,
    others: &[BridgeInView],
    out: &mut R,
) -> Result<(), AllocError>
    ensures { (grown : R) (rows : List Row) → R.grew grown out.old rows
        → OnOk result (R.grew grown out.new (rows ++ seen_beside view.now regions.now first.now others.now)) }
{
    match others {
        [other] => put_if_odd(alloc, view, regions, first, other, out),
        _ => Ok(()),
    }
}

/// Puts the row of the first bridge of a region, if there is one.
fn put_first<R: Rows>(
    alloc: Global,
    view: &View,
    regions: &Regions,
    firsts: &[BridgeInView],
    first: &BridgeInView,
    out: &mut R,
) -> Result<(), AllocError>
    ensures { (grown : R) (rows : List Row) → R.grew grown out.old rows
        → OnOk result (R.grew grown out.new (rows ++ seen_among view.now regions.now firsts.now first.now)) }
{
    let others = namesakes(alloc, first, firsts)?;
    put_beside_others(alloc, view, regions, first, others.as_slice(), out)
}

/// Puts the rows of these first bridges of regions.
fn put_firsts<R: Rows>(
    alloc: Global,
    view: &View,
    regions: &Regions,
    firsts: &[BridgeInView],
    out: &mut R,
) -> Result<(), AllocError>
    ensures { (grown : R) (rows : List Row) → R.grew grown out.old rows
        → OnOk result (R.grew grown out.new (rows ++ flat_map (seen_among view.now regions.now firsts.now) firsts.now)) }
{
    for first in firsts {
        put_first(alloc, view, regions, firsts, first, out)?;
    }
    Ok(())
}

/// Puts the rows of the bridges whose table differs from the one that all others of their name and revision have, by name.
///
/// It compares the names of those regions alone that were given one, and goes over the bridges no more than twice for a region
/// beside which there is just one other of its name and revision.
pub(crate) fn put_odd_tables<R: Rows>(
    alloc: Global,
    view: &View,
    regions: &Regions,
    out: &mut R,
) -> Result<(), AllocError>
    ensures { (net : Net) (numbers : Numbers) → IsNetwork net → IsView net numbers view.now → AreRegions net numbers regions.now
        → (first : R) (rows : List Row) → R.grew first out.old rows → OnOk result (R.grew first out.new (rows ++ table_rows net)) }
{
    let firsts = named_firsts(alloc, view, regions)?;
    put_firsts(alloc, view, regions, firsts.as_slice(), out)
}
