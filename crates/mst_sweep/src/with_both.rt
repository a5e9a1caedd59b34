ghost use Rattle.std.specs.Prelude.{◌≡◌, ◌++◌, ◌∷◌, [], ℕ, Some, None, IfOk, OnOk, cond, filter_map};
ghost use Rattle.std.specs.Option.{option_map, option_or};
ghost use Rattle.indexmap.specs.IndexMap.{get};
ghost use Rattle.mst_sweep.specs.Seen.{has_places, place_alone, same_places, seen_places, seen_with_both, with_both};
ghost use Rattle.mst_sweep.specs.declared.with_both.Places.{Places as PlacesOf};

use crate::parts::Stays;
use indexmap::IndexMap;
use mst_facts::Both;
use mst_ids::BridgeNo;
use std::alloc::{AllocError, Global};

/// The places of the islands of a bridge: before, and with either of two failures alone.
#[derive(Clone, Copy, PartialEq, Eq, Hash)]
pub(crate) struct Places {
    pub(crate) none: usize,
    pub(crate) first: usize,
    pub(crate) second: usize,
}

/// Which island each bridge is in, before and with either of two failures alone: none is kept of a failure that parts no bridges.
#[derive(Clone, Copy)]
pub(crate) struct Homes<'a> {
    pub(crate) none: &'a IndexMap<BridgeNo, usize>,
    pub(crate) first: &'a Option<IndexMap<BridgeNo, usize>>,
    pub(crate) second: &'a Option<IndexMap<BridgeNo, usize>>,
}

/// The place of the island of a bridge with a failure alone: one for all where that parts no bridges.
fn place_with(homes: &Option<IndexMap<BridgeNo, usize>>, bridge: BridgeNo) -> Option<usize>
    ensures { result ≡ place_alone (option_map (λ homes. homes.entries) homes.now) bridge }
{
    match homes {
        None => Some(0),
        Some(homes) => homes.get(&bridge).copied(),
    }
}

/// The places of a bridge, if it has all.
fn places_of(homes: &Homes, bridge: &Both) -> Option<Places>
    ensures { result ≡ seen_places homes.now bridge.now.old.bridge.number }
{
    let number = bridge.old.bridge.number;
    let none = homes.none.get(&number).copied()?;
    let first = place_with(homes.first, number)?;
    let second = place_with(homes.second, number)?;
    Some(Places {
        none,
        first,
        second,
    })
}

/// Where the first bridge stands that has these places, which is this one where there was none.
fn first_with(
    firsts: &mut IndexMap<Places, usize>,
    places: Places,
    here: usize,
) -> Result<usize, AllocError>
    ensures firsts { OnOk result ((q : PlacesOf) → get same_places firsts.new q ≡ option_or (get same_places firsts.old q) (cond (same_places q places) (Some here) None)) }
    ensures first { IfOk result (λ first. get same_places firsts.new places ≡ Some first) }
{
    if let Some(first) = firsts.get(&places) {
        return Ok(*first);
    }
    firsts.insert(places, here)?;
    Ok(here)
}

/// Adds the bridge at a place, if it stays with both failures.
fn add_staying(
    homes: &Homes,
    news: &IndexMap<BridgeNo, usize>,
    bridge: &Both,
    here: usize,
    firsts: &mut IndexMap<Places, usize>,
    all: &mut Vec<Stays>,
) -> Result<(), AllocError>
    ensures firsts { OnOk result ((q : PlacesOf) → get same_places firsts.new q ≡ option_or (get same_places firsts.old q) (cond (has_places (seen_places homes.now) q bridge.now) (Some here) None)) }
    ensures all { OnOk result (all.new.items ≡ all.old.items ++ filter_map (with_both (seen_places homes.now) news.now.entries (get same_places firsts.new)) (bridge.now ∷ [])) }
{
    let Some(places) = places_of(homes, bridge) else {
        return Ok(());
    };
    let first = first_with(firsts, places, here)?;
    if let Some(after) = news.get(&bridge.new.bridge.number) {
        all.push(Stays {
            name: bridge.old.name,
            before: first,
            after: *after,
        })?;
    }
    Ok(())
}

/// Those of these bridges that stay with both failures, each by the first that has its places. `AllocError`: memory was wanted and
/// refused.
pub(crate) fn staying_with_both(
    alloc: Global,
    homes: &Homes,
    news: &IndexMap<BridgeNo, usize>,
    both: &[Both],
) -> Result<Vec<Stays>, AllocError>
    ensures { IfOk result (λ all. all.items ≡ filter_map (seen_with_both (seen_places homes.now) news.now.entries both.now) both.now) }
{
    let mut firsts = IndexMap::new(alloc);
    let mut all = Vec::new(alloc);
    for here in 0..both.len() {
        let bridge = &both[here];
        add_staying(homes, news, bridge, here, &mut firsts, &mut all)?;
    }
    Ok(all)
}
