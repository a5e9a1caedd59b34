ghost use Rattle.std.specs.Prelude.{◌≡◌, ◌++◌, ◌∷◌, [], List, IfOk, OnOk, map};
ghost use Rattle.std.specs.List.{AllByRecursion, Contains, flat_map};
ghost use Rattle.mst_tables.specs.Seen.{bridge_row};
ghost use Rattle.mst_vlan.specs.forest.config.Regions.{first_of_region};
ghost use Rattle.mst_rows.specs.Rows.{Row};
ghost use Rattle.mst_facts.specs.Told.{same_told};
ghost use Rattle.mst_diff.specs.Regions.{configuration as configuration_of, region_changes};
ghost use Rattle.mst_facts.specs.Both.{IsBoth};
ghost use Rattle.mst_facts.specs.Named.{seen_found};
ghost use Rattle.mst_diff.specs.Seen.{region_of, row_of_region};

use crate::change::Change;
use mst_facts::Both;
use mst_ids::{ConfName, Name};
use mst_kinds::{ChangeLine, Kind as RowKind};
use mst_lang::Kind;
use mst_rows::{RegionSide, Rows, Value, put};
use mst_tables::Bridge;
use mst_view::{BridgeInView, View};
use mst_vlan::{Forest, Settled};
use std::alloc::{AllocError, Global};

/// A bridge whose region is another one.
#[derive(Clone, Copy)]
pub(crate) struct RegionChange {
    pub(crate) bridge: Name,
    pub(crate) old: RegionSide,
    pub(crate) new: RegionSide,
}

/// The first of the bridges, in byte order of names, that are in a bridge's region.
fn found_first(view: &View, forest: &Forest, bridge: &BridgeInView) -> Option<Name>
    ensures { result ≡ seen_found view.now forest.now.regions bridge.now }
{
    let number = bridge.bridge.number;
    let found = view
        .bridges()
        .iter()
        .find(|other| forest.same(number, other.bridge.number))?;
    Some(found.name)
}

/// The first bridge of a bridge's region.
fn first_of(plan: &Settled, bridge: &BridgeInView) -> Name
    requires { Contains plan.now.view.bridges bridge.now }
    ensures { result ≡ first_of_region plan.now.net bridge.now.name }
{
    plan.known();
    found_first(plan.view(), plan.forest(), bridge).unwrap_or(bridge.name)
}

/// Whether two bridges are of one kind, and their configurations of one name and one revision where they are of kind
/// mstp.
fn is_same_told(old: &Bridge, new: &Bridge) -> bool
    ensures { result ≡ same_told (bridge_row old.now) (bridge_row new.now) }
{
    match (old.kind, new.kind) {
        (Kind::Rstp, Kind::Rstp) => true,
        (Kind::Mstp, Kind::Mstp) => {
            old.conf_name.as_bytes() == new.conf_name.as_bytes() && old.revision == new.revision
        }
        _ => false,
    }
}

/// The name and the revision of a bridge's configuration, if it is of kind mstp.
fn configuration(bridge: &Bridge) -> Option<(ConfName, u16)>
    ensures { result ≡ configuration_of (bridge_row bridge.now) }
{
    match bridge.kind {
        Kind::Rstp => None,
        Kind::Mstp => Some((bridge.conf_name, bridge.revision)),
    }
}

/// Puts a bridge behind these, if its region is another one.
fn add(
    old: &Settled,
    new: &Settled,
    bridge: &Both,
    changes: &mut Vec<RegionChange>,
) -> Result<(), AllocError>
    requires { IsBoth old.now.view new.now.view bridge.now }
    ensures { OnOk result (map row_of_region changes.new.items ≡ map row_of_region changes.old.items ++ region_of old.now.net new.now.net bridge.now) }
{
    let first = first_of(old, &bridge.old);
    let other = first_of(new, &bridge.new);
    if is_same_told(&bridge.old.bridge, &bridge.new.bridge) && first == other {
        return Ok(());
    }
    changes.push(RegionChange {
        bridge: bridge.old.name,
        old: RegionSide {
            configuration: configuration(&bridge.old.bridge),
            first,
        },
        new: RegionSide {
            configuration: configuration(&bridge.new.bridge),
            first: other,
        },
    })?;
    Ok(())
}

/// Those of these bridges whose region is another one.
fn changed(
    alloc: Global,
    old: &Settled,
    new: &Settled,
    both: &[Both],
) -> Result<Vec<RegionChange>, AllocError>
    requires { AllByRecursion (IsBoth old.now.view new.now.view) both.now }
    ensures { IfOk result (λ changes. map row_of_region changes.items ≡ flat_map (region_of old.now.net new.now.net) both.now) }
{
    let mut changes = Vec::new(alloc);
    for bridge in both {
        add(old, new, bridge, &mut changes)?;
    }
    Ok(changes)
}

/// The bridges of both networks whose region is another one, by name. `AllocError`: memory was wanted and refused.
pub(crate) fn changed_regions(
    alloc: Global,
    change: &Change,
) -> Result<Vec<RegionChange>, AllocError>
    ensures { IfOk result (λ changes. map row_of_region changes.items ≡ region_changes change.now.old.now.net change.now.new.now.net) }
{
    change.old.known();
    change.new.known();
    changed(alloc, change.old, change.new, change.both)
}

/// Puts the rows of these bridges. `AllocError`: memory was wanted and refused; some of them may have been put.
pub(crate) fn put_regions<R: Rows>(changes: &[RegionChange], out: &mut R) -> Result<(), AllocError>
    ensures { (first : R) (rows : List Row) → R.grew first out.old rows → OnOk result (R.grew first out.new (rows ++ map row_of_region changes.now)) }
{
    for change in changes {
        put_region(change, out)?;
    }
    Ok(())
}

/// Puts the row of a bridge.
fn put_region<R: Rows>(change: &RegionChange, out: &mut R) -> Result<(), AllocError>
    ensures { (first : R) (rows : List Row) → R.grew first out.old rows → OnOk result (R.grew first out.new (rows ++ row_of_region change.now ∷ [])) }
{
    let values = [
        Value::Name(&change.bridge),
        Value::Region(&change.old),
        Value::Region(&change.new),
    ];
    put::<R>(RowKind::Change(ChangeLine::Region), &values, out)
}
