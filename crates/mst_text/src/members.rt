ghost use Rattle.std.specs.Prelude.{◌≡◌, ◌==◌, ◌++◌, ◌∷◌, [], ℕ, IfOk, OnOk, if◌then◌else◌};
ghost use Rattle.mst_text.specs.Members.{kept_for, names_in};

use mst_ids::{BridgeId, Name};
use mst_view::BridgeInView;
use mst_vlan::Regions;
use std::alloc::{AllocError, Global};
use std::collections::BTreeMap;

/// The names of the bridges of each region, by the region's identifier.
pub(crate) type Members = BTreeMap<BridgeId, Vec<Name>>;

/// The names of these bridges by their regions, in one pass.
pub(crate) fn members_of(
    alloc: Global,
    bridges: &[BridgeInView],
    regions: &Regions,
) -> Result<Members, AllocError>
    ensures { IfOk result (λ members. (region : ℕ) → kept_for members region ≡ names_in regions.now region bridges.now) }
{
    let mut members = BTreeMap::new(alloc);
    for bridge in bridges {
        if let Some(region) = regions.region(bridge.bridge.number) {
            add(alloc, region, bridge.name, &mut members)?;
        }
    }
    Ok(members)
}

/// Adds a name after those of its region.
fn add(alloc: Global, region: BridgeId, name: Name, members: &mut Members) -> Result<(), AllocError>
    ensures { OnOk result ((other : ℕ) → kept_for members.new other ≡ kept_for members.old other ++ (if region == other then name ∷ [] else [])) }
{
    match members.get_mut(&region) {
        Some(names) => names.push(name)?,
        None => {
            let names = vec![in alloc; name]?;
            members.insert(region, names)?;
        }
    }
    Ok(())
}

/// The names of the bridges of a region, none where it has none.
pub(crate) fn names_of<'a>(members: &'a Members, region: &BridgeId) -> &'a [Name]
    ensures { result.now ≡ kept_for members.now region.now }
{
    match members.get(region) {
        Some(names) => names.as_slice(),
        None => &[],
    }
}
