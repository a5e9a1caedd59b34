ghost use Rattle.std.specs.Prelude.{◌≡◌, ℕ, IfOk, OnOk, Some, None, nat_eq, cond};
ghost use Rattle.std.specs.List.{list_any};
ghost use Rattle.std.specs.Option.{option_or};
ghost use Rattle.indexmap.specs.IndexMap.{get};
ghost use Rattle.mst_net.specs.tables.Tables.{Net, Numbers};
ghost use Rattle.mst_vlan.specs.forest.Agrees.{AreOf, Known};
ghost use Rattle.mst_vlan.specs.forest.Forest.{IsForest};
ghost use Rattle.mst_sweep.specs.Seen.{seen_home};
ghost use Rattle.mst_sweep.specs.Baseline.{AreHomes};

use indexmap::IndexMap;
use mst_facts::Planned;
use mst_ids::{BridgeNo, Vid};
use mst_vlan::{Carriage, Island, reach};
use std::alloc::{AllocError, Global};

/// Adds the place of an island for those of its bridges that have none yet.
fn add_island(
    bridges: &[BridgeNo],
    place: usize,
    homes: &mut IndexMap<BridgeNo, usize>,
) -> Result<(), AllocError>
    ensures { OnOk result ((q : ℕ) → get nat_eq homes.new q ≡ option_or (get nat_eq homes.old q) (cond (list_any (nat_eq q) bridges.now) (Some place) None)) }
{
    for bridge in bridges {
        if !homes.contains_key(bridge) {
            homes.insert(*bridge, place)?;
        }
    }
    Ok(())
}

/// The places of the islands of all bridges that are in one.
fn places(alloc: Global, islands: &[Island]) -> Result<IndexMap<BridgeNo, usize>, AllocError>
    ensures { IfOk result (λ homes. (q : ℕ) → get nat_eq homes q ≡ seen_home islands.now q) }
{
    let mut homes = IndexMap::new(alloc);
    for place in 0..islands.len() {
        add_island(islands[place].bridges.as_slice(), place, &mut homes)?;
    }
    Ok(homes)
}

/// The places of the islands of a VID, by the numbers of the bridges in them. `AllocError`: memory was wanted and refused.
pub fn homes_of(
    alloc: Global,
    plan: &Planned,
    vid: Vid,
) -> Result<IndexMap<BridgeNo, usize>, AllocError>
    requires { Known plan.now.view.now plan.now.forest.now.regions }
    ensures { IfOk result (λ homes. (net : Net) (numbers : Numbers) (is : IsForest net numbers plan.now.forest.now) → AreOf net numbers plan.now.view.now plan.now.forest.now.regions → AreHomes net numbers is.outcome vid homes.entries) }
{
    let islands = reach(alloc, plan.view, plan.forest, vid)?;
    places(alloc, islands.as_slice())
}

/// The same, from what carries each VID in a network: so islands of many VIDs take less time. `AllocError`: memory was wanted and
/// refused.
pub fn homes_by(
    alloc: Global,
    carriage: &Carriage,
    vid: Vid,
) -> Result<IndexMap<BridgeNo, usize>, AllocError>
    ensures { IfOk result (λ homes. (net : Net) (numbers : Numbers) (is : IsForest net numbers carriage.now.forest) → AreOf net numbers carriage.now.view carriage.now.forest.regions → AreHomes net numbers is.outcome vid homes.entries) }
{
    let islands = carriage.islands(alloc, vid)?;
    places(alloc, islands.as_slice())
}
