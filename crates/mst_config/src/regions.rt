ghost use Rattle.std.specs.Prelude.{◌≡◌, IfOk, [], nat_eq};
ghost use Rattle.std.specs.Map.{lookup};
ghost use Rattle.std.specs.FinMap as fin;
ghost use Rattle.mst_ids.specs.Identifiers.{bridge_id};
ghost use Rattle.mst_tables.specs.Tables.{IsNetwork};
ghost use Rattle.mst_tables.specs.Contents.{IsNumbered};
ghost use Rattle.mst_config.specs.Shared.{AreRegions, same_in};
ghost use Rattle.mst_config.specs.Configured.{configured};
ghost use Rattle.mst_config.specs.Places.{ArePlaces, GivesRegion};
ghost use Rattle.mst_config.specs.Touching.{touches_regions};

use crate::configuration::{Configuration, note};
use indexmap::{IndexMap, IndexSet};
use mst_ids::{BridgeId, BridgeNo, Mac, Name};
use mst_lang::{BridgeChange, Edit, Kind, TreeChange};
use mst_tables::Contents;
use std::alloc::{AllocError, Global};
use std::marker::Model;

/// Which bridges share a region, and the identifiers of regions, by the numbers of bridges.
#[derive(Drop)]
pub struct Regions {
    // The identifier of each bridge's region.
    regions: IndexMap<BridgeNo, BridgeId>,
}

impl Model for Regions {
    ghost use Rattle.std.specs.Prelude.{ℕ, List};

    ghost Value = { List (ℕ × ℕ) };

    ghost view = { λ c. c.regions.entries };
}

impl Regions {
    /// The regions of no bridges. It takes no memory.
    pub fn none(alloc: Global) -> Regions
        ensures { result ≡ [] }
    {
        Regions {
            regions: IndexMap::new(alloc),
        }
    }

    /// Whether the bridges of two numbers are in one region. A number that no bridge has is in a region of
    /// its own. It takes no memory.
    pub fn same(&self, a: BridgeNo, b: BridgeNo) -> bool
        ensures { result ≡ same_in self.now a b }
    {
        if a == b {
            return true;
        }
        match (self.region(a), self.region(b)) {
            (Some(region), Some(other)) => region == other,
            _ => false,
        }
    }

    /// The identifier of the region that the bridge of this number is in: bridges of one region, and no
    /// others, have the same. It takes no memory.
    pub fn region(&self, bridge: BridgeNo) -> Option<BridgeId>
        ensures { result ≡ lookup (nat_eq bridge) self.now }
    {
        self.regions.get(&bridge).copied()
    }

    /// A copy. `AllocError`: memory was wanted and refused.
    pub fn copy(&self) -> Result<Regions, AllocError>
        ensures { IfOk result (λ copy. copy ≡ self.now) }
    {
        Ok(Regions {
            regions: self.regions.clone()?,
        })
    }
}

/// The regions of a network's bridges (802.1Q-2022, 13.8). Two bridges are in one where both are of kind mstp
/// and the names, the revisions and the whole tables of their MST configurations are equal. It compares about
/// one table for each bridge. `AllocError`: memory was wanted and refused.
pub fn regions_of<C: Contents>(alloc: Global, contents: &C) -> Result<Regions, AllocError>
    ensures { IfOk result (λ regions. AreRegions (C.tables contents.now).net (C.tables contents.now).numbers regions) }
{
    contents.known();
    let names = contents.bridge_names(alloc)?;
    let places = places(alloc, contents, names.as_slice())?;
    let regions = identifiers(alloc, contents, names.as_slice(), &places)?;
    Ok(Regions { regions })
}

/// Whether an edit may change which bridges share a region, or their numbers: it adds or takes away a bridge, or sets
/// the kind, the configuration or the table of one. No other changes what `regions_of` answers.
pub fn touches_regions(edit: &Edit) -> bool
    ensures { result ≡ touches_regions edit.now }
{
    match edit {
        Edit::AddBridge { .. } | Edit::DelBridge { .. } => true,
        Edit::SetBridge { change, .. } => matches!(
            change,
            BridgeChange::Kind(_) | BridgeChange::Configuration { .. }
        ),
        Edit::SetByTree(change) => matches!(change, TreeChange::Table { .. }),
        _ => false,
    }
}

/// Of each of these bridges that is of kind mstp, the place of its configuration among those that differ.
fn places<C: Contents>(
    alloc: Global,
    contents: &C,
    names: &[Name],
) -> Result<IndexMap<BridgeNo, usize>, AllocError>
    requires numbered { IsNumbered (C.tables contents.now).net (C.tables contents.now).numbers }
    requires names { names.now ≡ fin.keys (C.tables contents.now).net.bridges }
    ensures { IfOk result (λ places. ArePlaces (C.tables contents.now).net (C.tables contents.now).numbers places.entries) }
{
    let mut configurations = IndexSet::new(alloc);
    let mut places = IndexMap::new(alloc);
    for name in names {
        if let Some(met) = configuration(contents, name) {
            note(&mut configurations, &mut places, met.0, met.1)?;
        }
    }
    Ok(places)
}

/// The number and the MST configuration of a bridge of kind mstp.
fn configuration<C: Contents>(contents: &C, name: &Name) -> Option<(BridgeNo, Configuration)>
    ensures { result ≡ configured (C.tables contents.now).net (C.tables contents.now).numbers name.now }
{
    let bridge = contents.bridge(name)?;
    match bridge.kind {
        Kind::Rstp => None,
        Kind::Mstp => Some((
            bridge.number,
            Configuration {
                name: bridge.conf_name,
                revision: bridge.revision,
                table: contents.table(name),
            },
        )),
    }
}

/// The identifier of the region of each of these bridges, by its number. A region's first bridge gives it.
fn identifiers<C: Contents>(
    alloc: Global,
    contents: &C,
    names: &[Name],
    places: &IndexMap<BridgeNo, usize>,
) -> Result<IndexMap<BridgeNo, BridgeId>, AllocError>
    requires network { IsNetwork (C.tables contents.now).net }
    requires numbered { IsNumbered (C.tables contents.now).net (C.tables contents.now).numbers }
    requires names { names.now ≡ fin.keys (C.tables contents.now).net.bridges }
    requires places { ArePlaces (C.tables contents.now).net (C.tables contents.now).numbers places.now.entries }
    ensures { IfOk result (λ regions. AreRegions (C.tables contents.now).net (C.tables contents.now).numbers regions.entries) }
{
    let mut firsts = IndexMap::new(alloc);
    let mut regions = IndexMap::new(alloc);
    for name in names {
        if let Some(bridge) = contents.bridge(name) {
            let place = places.get(&bridge.number).copied();
            let region = region_at(&mut firsts, place, bridge.mac)?;
            regions.insert(bridge.number, region)?;
        }
    }
    Ok(regions)
}

/// The identifier of the region of a bridge with this MAC: that of the first bridge that was met with its
/// place, if it has one, and else its own.
fn region_at(
    firsts: &mut IndexMap<usize, BridgeId>,
    place: Option<usize>,
    mac: Mac,
) -> Result<BridgeId, AllocError>
    ensures { IfOk result (λ region. GivesRegion place (bridge_id 0 0 mac) firsts.old.entries region firsts.new.entries) }
{
    let own = BridgeId::of_region(mac);
    let Some(place) = place else {
        return Ok(own);
    };
    if let Some(first) = firsts.get(&place) {
        return Ok(*first);
    }
    firsts.insert(place, own)?;
    Ok(own)
}
