ghost use Rattle.std.specs.Prelude.{◌≡◌, ◌++◌, ◌∷◌, [], List, IfOk, OnOk, filter};
ghost use Rattle.std.specs.List.{flat_map};
ghost use Rattle.mst_rows.specs.Rows.{Row};
ghost use Rattle.mst_tables.specs.Seen.{bridge_row};
ghost use Rattle.mst_tables.specs.Tables.{Net, Numbers, IsNetwork};
ghost use Rattle.mst_view.specs.Viewed.{IsView};
ghost use Rattle.mst_config.specs.Shared.{AreRegions};
ghost use Rattle.mst_slips.specs.Regions.{is_named as has_name, region_row, region_rows};
ghost use Rattle.mst_slips.specs.Seen.{seen_first, seen_named_first, seen_nearly_one, seen_with, seen_row, seen_two, seen_each_two};

use crate::near::is_near;
use mst_config::Regions;
use mst_ids::{BridgeId, ConfName, Name};
use mst_kinds::{Kind, SummaryLine};
use mst_lang::Kind as BridgeKind;
use mst_rows::{Rows, Value, put};
use mst_tables::Bridge;
use mst_view::{BridgeInView, View};
use std::alloc::{AllocError, Global};

/// Whether a bridge is the first of its region: the region's identifier has its MAC then.
pub fn is_first(regions: &Regions, bridge: &BridgeInView) -> bool
    ensures { result ≡ seen_first regions.now bridge.now }
{
    match regions.region(bridge.bridge.number) {
        None => false,
        Some(region) => region == BridgeId::of_region(bridge.bridge.mac),
    }
}

/// Whether a bridge is of kind mstp and its configuration was given a name.
fn is_named(bridge: &Bridge) -> bool
    ensures { result ≡ has_name (bridge_row bridge.now) }
{
    match bridge.kind {
        BridgeKind::Rstp => false,
        BridgeKind::Mstp => bridge.conf_name != ConfName::of_mac(bridge.mac),
    }
}

/// The first bridges of the regions that were given a name.
pub(crate) fn named_firsts(
    alloc: Global,
    view: &View,
    regions: &Regions,
) -> Result<Vec<BridgeInView>, AllocError>
    ensures { IfOk result (λ firsts. firsts.items ≡ filter (seen_named_first regions.now) view.now.bridges) }
{
    view.bridges()
        .iter()
        .filter(|bridge| is_first(regions, bridge) && is_named(&bridge.bridge))
        .copied()
        .collect(alloc)
}

/// Whether two bridges have one revision and one table, and names that are nearly one.
fn is_nearly_one(view: &View, a: &BridgeInView, b: &BridgeInView) -> bool
    ensures { result ≡ seen_nearly_one view.now a.now b.now }
{
    is_near(&a.bridge.conf_name, &b.bridge.conf_name)
        && a.bridge.revision == b.bridge.revision
        && view.settings().table(&a.name) == view.settings().table(&b.name)
}

/// The names of the bridges of a bridge's region.
pub(crate) fn bridges_with(
    alloc: Global,
    view: &View,
    regions: &Regions,
    first: &BridgeInView,
) -> Result<Vec<Name>, AllocError>
    ensures { IfOk result (λ names. names.items ≡ seen_with view.now regions.now first.now) }
{
    view.bridges()
        .iter()
        .filter(|bridge| regions.same(first.bridge.number, bridge.bridge.number))
        .map(|bridge| bridge.name)
        .collect(alloc)
}

/// Puts the row of two regions of these names and these bridges.
fn put_row<'a, R: Rows>(
    name: &'a ConfName,
    bridges: &'a [Name],
    other: &'a ConfName,
    others: &'a [Name],
    out: &mut R,
) -> Result<(), AllocError>
    ensures { (grown : R) (rows : List Row) → R.grew grown out.old rows
        → OnOk result (R.grew grown out.new (rows ++ region_row name.now bridges.now other.now others.now ∷ [])) }
{
    let values = [
        Value::Word(name.as_bytes()),
        Value::Names(bridges),
        Value::Word(other.as_bytes()),
        Value::Names(others),
    ];
    put::<R>(Kind::Summary(SummaryLine::LookRegion), &values, out)
}

/// Puts the row of two regions, by their first bridges.
fn put_two<R: Rows>(
    alloc: Global,
    view: &View,
    regions: &Regions,
    a: &BridgeInView,
    b: &BridgeInView,
    out: &mut R,
) -> Result<(), AllocError>
    ensures { (grown : R) (rows : List Row) → R.grew grown out.old rows → OnOk result (R.grew grown out.new (rows ++ seen_row view.now regions.now a.now b.now ∷ [])) }
{
    let bridges = bridges_with(alloc, view, regions, a)?;
    let others = bridges_with(alloc, view, regions, b)?;
    let (name, other) = (&a.bridge.conf_name, &b.bridge.conf_name);
    put_row(name, bridges.as_slice(), other, others.as_slice(), out)
}

/// Puts the row of two regions, if they are nearly one.
fn put_if_near<R: Rows>(
    alloc: Global,
    view: &View,
    regions: &Regions,
    a: &BridgeInView,
    b: &BridgeInView,
    out: &mut R,
) -> Result<(), AllocError>
    ensures { (grown : R) (rows : List Row) → R.grew grown out.old rows → OnOk result (R.grew grown out.new (rows ++ seen_two view.now regions.now a.now b.now)) }
{
    if !is_nearly_one(view, a, b) {
        return Ok(());
    }
    put_two(alloc, view, regions, a, b, out)
}

/// Puts the rows of a region with each of others.
fn put_beside<R: Rows>(
    alloc: Global,
    view: &View,
    regions: &Regions,
    first: &BridgeInView,
    behind: &[BridgeInView],
    out: &mut R,
) -> Result<(), AllocError>
    ensures { (grown : R) (rows : List Row) → R.grew grown out.old rows
        → OnOk result (R.grew grown out.new (rows ++ flat_map (seen_two view.now regions.now first.now) behind.now)) }
{
    for other in behind {
        put_if_near(alloc, view, regions, first, other, out)?;
    }
    Ok(())
}

/// Puts the rows of each two of these regions.
fn put_each_two<R: Rows>(
    alloc: Global,
    view: &View,
    regions: &Regions,
    firsts: &[BridgeInView],
    out: &mut R,
) -> Result<(), AllocError>
    ensures { (grown : R) (rows : List Row) → R.grew grown out.old rows
        → OnOk result (R.grew grown out.new (rows ++ seen_each_two view.now regions.now firsts.now)) }
{
    match firsts {
        [] => Ok(()),
        [first, behind @ ..] => {
            put_beside(alloc, view, regions, first, behind, out)?;
            put_each_two(alloc, view, regions, behind, out)
        }
    }
}

/// Puts the rows of each two regions that are nearly one, by the names of their first bridges.
///
/// It compares the names of those regions alone that were given one, and goes over the bridges twice for each row that it
/// puts.
pub(crate) fn put_near_regions<R: Rows>(
    alloc: Global,
    view: &View,
    regions: &Regions,
    out: &mut R,
) -> Result<(), AllocError>
    ensures { (net : Net) (numbers : Numbers) → IsNetwork net → IsView net numbers view.now → AreRegions net numbers regions.now
        → (first : R) (rows : List Row) → R.grew first out.old rows → OnOk result (R.grew first out.new (rows ++ region_rows net)) }
{
    let firsts = named_firsts(alloc, view, regions)?;
    put_each_two(alloc, view, regions, firsts.as_slice(), out)
}
