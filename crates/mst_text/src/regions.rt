ghost use Rattle.std.specs.Prelude.{◌≡◌, ◌++◌, ◌∷◌, [], ℕ, List, OnOk};
ghost use Rattle.std.specs.List.{flat_map};
ghost use Rattle.mst_tables.specs.Seen.{bridge_row};
ghost use Rattle.mst_tables.specs.Tables.{Net, Numbers, IsNetwork};
ghost use Rattle.mst_view.specs.Viewed.{IsView};
ghost use Rattle.mst_vlan.specs.forest.config.Shared.{AreRegions};
ghost use Rattle.mst_rows.specs.Rows.{Row};
ghost use Rattle.mst_text.specs.Members.{kept_for, names_in, seen_region};
ghost use Rattle.mst_text.specs.RegionsText.{mstp_row, rstp_row, region_row, regions_rows};

use crate::digits::digest_digits;
use crate::members::{Members, members_of, names_of};
use mst_ids::{BridgeId, Name};
use mst_kinds::{Kind, RegionLine};
use mst_lang::Kind as BridgeKind;
use mst_rows::{Rows, Value, put};
use mst_tables::{Bridge, Table};
use mst_view::{BridgeInView, View};
use mst_vlan::Regions;
use std::alloc::{AllocError, Global};

/// Puts the rows of a network's regions (802.1Q-2022, 13.8), by its view and its regions: a row for each
/// region, by its first bridge in byte order of names, with its kind, the name, the revision and the digest of
/// its configuration where its bridges are of kind mstp, and its bridges, be they on or off.
///
/// `AllocError`: memory was wanted and refused; some of the rows may have been put. It goes over the
/// bridges twice, and makes a digest for each region.
pub fn put_regions<R: Rows>(
    alloc: Global,
    view: &View,
    regions: &Regions,
    out: &mut R,
) -> Result<(), AllocError>
    ensures { (net : Net) (numbers : Numbers) → IsNetwork net → IsView net numbers view.now → AreRegions net numbers regions.now
        → (first : R) (rows : List Row) → R.grew first out.old rows → OnOk result (R.grew first out.new (rows ++ regions_rows net)) }
{
    put_seen(alloc, view, regions, out)
}

/// Puts a row for each bridge of the view that is the first of its region.
fn put_seen<R: Rows>(
    alloc: Global,
    view: &View,
    regions: &Regions,
    out: &mut R,
) -> Result<(), AllocError>
    ensures { (first : R) (rows : List Row) → R.grew first out.old rows → OnOk result (R.grew first out.new (rows ++ flat_map (seen_region view.now regions.now) view.now.bridges)) }
{
    let members = members_of(alloc, view.bridges(), regions)?;
    for bridge in view.bridges() {
        put_bridge(view, regions, &members, bridge, out)?;
    }
    Ok(())
}

/// Puts the row of a bridge's region, where the bridge is the first of it: the region's identifier has the
/// bridge's MAC then.
fn put_bridge<R: Rows>(
    view: &View,
    regions: &Regions,
    members: &Members,
    bridge: &BridgeInView,
    out: &mut R,
) -> Result<(), AllocError>
    requires { (region : ℕ) → kept_for members.now region ≡ names_in regions.now region view.now.bridges }
    ensures { (first : R) (rows : List Row) → R.grew first out.old rows → OnOk result (R.grew first out.new (rows ++ seen_region view.now regions.now bridge.now)) }
{
    let own = BridgeId::of_region(bridge.bridge.mac);
    if regions.region(bridge.bridge.number) != Some(own) {
        return Ok(());
    }
    let table = view.settings().table(&bridge.name);
    put_region(bridge, &table, names_of(members, &own), out)
}

/// Puts the row of the region of this first bridge, which has this table, and of these bridges.
fn put_region<R: Rows>(
    first: &BridgeInView,
    table: &Table,
    bridges: &[Name],
    out: &mut R,
) -> Result<(), AllocError>
    ensures { (grown : R) (rows : List Row) → R.grew grown out.old rows
        → OnOk result (R.grew grown out.new (rows ++ region_row first.now.name (bridge_row first.now.bridge) table.now bridges.now ∷ [])) }
{
    match first.bridge.kind {
        BridgeKind::Rstp => put_rstp(&first.name, bridges, out),
        BridgeKind::Mstp => put_mstp(
            &first.name,
            &first.bridge,
            &digest_digits(table),
            bridges,
            out,
        ),
    }
}

/// Puts the row of a region of kind rstp.
fn put_rstp<'a, R: Rows>(
    first: &'a Name,
    bridges: &'a [Name],
    out: &mut R,
) -> Result<(), AllocError>
    ensures { (grown : R) (rows : List Row) → R.grew grown out.old rows → OnOk result (R.grew grown out.new (rows ++ rstp_row first.now bridges.now ∷ [])) }
{
    let values = [Value::Name(first), Value::Names(bridges)];
    put::<R>(Kind::Region(RegionLine::Rstp), &values, out)
}

/// Puts the row of a region of kind mstp, by the settings of its first bridge and the digits of the digest.
fn put_mstp<'a, R: Rows>(
    first: &'a Name,
    settings: &'a Bridge,
    digest: &'a [u8],
    bridges: &'a [Name],
    out: &mut R,
) -> Result<(), AllocError>
    ensures { (grown : R) (rows : List Row) → R.grew grown out.old rows
        → OnOk result (R.grew grown out.new (rows ++ mstp_row first.now (bridge_row settings.now) digest.now bridges.now ∷ [])) }
{
    let values = [
        Value::Name(first),
        Value::Word(settings.conf_name.as_bytes()),
        Value::Number(u64::from(settings.revision)),
        Value::Word(digest),
        Value::Names(bridges),
    ];
    put::<R>(Kind::Region(RegionLine::Mstp), &values, out)
}
