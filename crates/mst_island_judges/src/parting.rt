ghost use Rattle.std.specs.Prelude.{◌≡◌, ◌+◌, ◌<◌, IfOk, MatchOption, length, map, slice_index, ⊤};
ghost use Rattle.mst_graph.specs.Groups.{AreGroups};
ghost use Rattle.mst_forest.specs.Settled.{outcome_of};
ghost use Rattle.mst_judged.specs.reasons.sweep.vlan.classes.AllVids.{NumberEach};
ghost use Rattle.mst_judged.specs.reasons.sweep.Cuts.{names_of, parts_at as parts_at_vid};
ghost use Rattle.mst_judged.specs.reasons.Named.{vids_in};
ghost use Rattle.mst_judged.specs.Islands.{home_of, with_homes, AreKept, ArePartsBy, AreReachParts, HaveNumbers, StillTells};
ghost use Rattle.mst_judged.specs.reasons.Seen.{names_in};

use indexmap::IndexMap;
use mst_graph::{groups, groups_by_body};
use mst_ids::{BridgeNo, Name, Vid, VidSet};
use mst_judged::{Before, Home, Homes, Judged, classes_of, homes_in, vids_of};
use mst_view::BridgeInView;
use std::alloc::{AllocError, Global};

/// Where the bridge of this number is.
fn home_at(homes: &IndexMap<BridgeNo, usize>, bridge: BridgeNo) -> Home
    ensures { result ≡ home_of homes.now.entries bridge }
{
    match homes.get(&bridge) {
        None => Home::Alone(bridge),
        Some(place) => Home::Island(*place),
    }
}

/// These bridges with where they are.
fn pairs(
    alloc: Global,
    homes: &IndexMap<BridgeNo, usize>,
    bridges: &[BridgeInView],
) -> Result<Vec<(Name, Home)>, AllocError>
    ensures { IfOk result (λ pairs. pairs.items ≡ with_homes homes.now.entries bridges.now) }
{
    bridges
        .iter()
        .map(|bridge| (bridge.name, home_at(homes, bridge.bridge.number)))
        .collect(alloc)
}

/// The parts of these bridges that are in one island, by their first bridges. It takes about one step for each bridge.
fn parts(
    alloc: Global,
    homes: &IndexMap<BridgeNo, usize>,
    bridges: &[BridgeInView],
) -> Result<Vec<Vec<Name>>, AllocError>
    ensures { IfOk result (λ parts. ArePartsBy homes.now.entries bridges.now (names_of parts)) }
{
    let pairs = pairs(alloc, homes, bridges)?;
    groups(alloc, pairs)
}

/// What is kept of the network before the failure for a class, if it tells the islands of the class here, too.
fn still<'a>(
    before: &'a Before,
    homes: &Homes,
    class: usize,
) -> Option<&'a IndexMap<BridgeNo, usize>>
    ensures { MatchOption result ⊤ (λ h. StillTells before.now homes.now class h.now.entries) }
{
    match (homes.differ.get(class), before.homes.get(class)) {
        (Some(false), Some(Some(kept))) => Some(kept),
        _ => None,
    }
}

/// The parts of these bridges that are in one island of the VIDs of a class, by their first bridges.
pub(crate) fn parts_at(
    alloc: Global,
    judged: &Judged,
    bridges: &[BridgeInView],
    class: usize,
) -> Result<Vec<Vec<Name>>, AllocError>
    requires kept { AreKept judged.now.plan.now judged.now.before.now judged.now.homes.now }
    requires bridges { HaveNumbers judged.now.plan.now.numbers bridges.now }
    requires there { class < length judged.now.before.now.classes.firsts.items }
    ensures { IfOk result (λ parts. AreReachParts judged.now.plan.now.net (outcome_of judged.now.plan.now) (names_in bridges.now) (slice_index judged.now.before.now.classes.firsts.items class + 1) (names_of parts)) }
{
    judged.plan.known();
    let made = judged.homes.made.as_slice();
    if let Some(homes) = &made[class] {
        return parts(alloc, homes, bridges);
    }
    if let Some(homes) = still(judged.before, judged.homes, class) {
        return parts(alloc, homes, bridges);
    }
    let firsts = judged.before.classes.firsts.as_slice();
    let vid = Vid::new(firsts[class] as u64 + 1).unwrap();
    let homes = homes_in(alloc, judged.plan, vid)?;
    parts(alloc, &homes, bridges)
}

/// A copy of these parts.
pub(crate) fn copy(alloc: Global, parts: &[Vec<Name>]) -> Result<Vec<Vec<Name>>, AllocError>
    ensures { IfOk result (λ copied. map (λ part. part.items) copied.items ≡ map (λ part. part.items) parts.now) }
{
    let mut copied = Vec::new(alloc);
    for part in parts {
        copied.push(Vec::from_slice(alloc, part.as_slice())?)?;
    }
    Ok(copied)
}

/// The parts of each of these, borrowed.
fn borrowed<'a>(
    alloc: Global,
    bodies: &'a [Vec<Vec<Name>>],
) -> Result<Vec<&'a Vec<Vec<Name>>>, AllocError>
    ensures { IfOk result (λ borrowed. map (λ parts. parts.now) borrowed.items ≡ bodies.now) }
{
    let mut borrowed = Vec::new(alloc);
    for parts in bodies {
        borrowed.push(parts)?;
    }
    Ok(borrowed)
}

/// The groups of these VIDs whose classes have equal parts, by their least VIDs.
pub(crate) fn grouped(
    alloc: Global,
    numbers: &[usize],
    vids: &VidSet,
    bodies: &[Vec<Vec<Name>>],
) -> Result<Vec<Vec<Vid>>, AllocError>
    requires { NumberEach numbers.now (length bodies.now) }
    ensures { IfOk result (λ groups. AreGroups (λ x y. parts_at_vid numbers.now (map names_of bodies.now) x ≡ parts_at_vid numbers.now (map names_of bodies.now) y) (vids_in vids.now) (map (λ group. group.items) groups.items)) }
{
    let vids = vids_of(alloc, vids)?;
    let classes = classes_of(alloc, numbers, vids.as_slice(), bodies.len())?;
    let borrowed = borrowed(alloc, bodies)?;
    groups_by_body(alloc, vids.as_slice(), classes.as_slice(), borrowed)
}
