ghost use Rattle.std.specs.Prelude.{◌≡◌, IfOk, map, nat_eq, if◌then◌else◌, [], ◌∷◌, true};
ghost use Rattle.std.specs.Map.{lookup};
ghost use Rattle.mst_graph.specs.Groups.{AreGroups};
ghost use Rattle.mst_roles.specs.forest.config.Regions.{same_region};
ghost use Rattle.mst_judged.specs.reasons.Named.{named as named_in};
ghost use Rattle.mst_judged.specs.reasons.Reasons.{AreRegionReasons, has_two as has_two_of};

use mst_graph::groups;
use mst_ids::Name;
use mst_judged::{Judged, Parts, Reason, has_two, named};
use mst_policy::NameList;
use mst_roles::Settled;
use mst_view::BridgeInView;
use std::alloc::{AllocError, Global};

/// The number of the identifier of a bridge's region.
fn region(plan: &Settled, bridge: &BridgeInView) -> Option<u64>
    ensures { result ≡ lookup (nat_eq bridge.now.bridge.number) plan.now.forest.regions }
{
    let region = plan.forest().regions().region(bridge.bridge.number)?;
    Some(region.number())
}

/// These bridges with their regions.
fn pairs(
    alloc: Global,
    plan: &Settled,
    bridges: &[BridgeInView],
) -> Result<Vec<(Name, Option<u64>)>, AllocError>
    ensures { IfOk result (λ pairs. pairs.items ≡ map (λ b. (b.name, lookup (nat_eq b.bridge.number) plan.now.forest.regions)) bridges.now) }
{
    bridges
        .iter()
        .map(|bridge| (bridge.name, region(plan, bridge)))
        .collect(alloc)
}

/// The parts of these bridges that are of one region, by their first bridges. It takes about one step for each bridge.
fn parts(alloc: Global, judged: &Judged, names: &NameList) -> Result<Vec<Vec<Name>>, AllocError>
    ensures { IfOk result (λ parts. AreGroups (λ x y. same_region judged.now.plan.now.net x y ≡ true) (named_in judged.now.plan.now.net judged.now.lost.now names.now) (map (λ part. part.items) parts.items)) }
{
    judged.plan.known();
    let bridges = named(alloc, judged, names)?;
    let pairs = pairs(alloc, judged.plan, bridges.as_slice())?;
    groups(alloc, pairs)
}

/// Why bridges aren't of one region. `AllocError`: memory was wanted and refused.
pub fn region_reasons(
    alloc: Global,
    judged: &Judged,
    names: &NameList,
) -> Result<Vec<Reason>, AllocError>
    ensures { IfOk result (λ reasons. AreRegionReasons judged.now.plan.now.net (named_in judged.now.plan.now.net judged.now.lost.now names.now) reasons.items) }
{
    let parts = parts(alloc, judged, names)?;
    told(alloc, parts)
}

/// The reason of these parts, where there are two.
fn told(alloc: Global, parts: Vec<Vec<Name>>) -> Result<Vec<Reason>, AllocError>
    ensures { IfOk result (λ reasons. reasons.items ≡ (if has_two_of parts.items then Reason.Region (map (λ part. part.items) parts.items) ∷ [] else [])) }
{
    let mut reasons = Vec::new(alloc);
    if has_two(parts.as_slice()) {
        reasons.push(Reason::Region {
            parts: Parts::of(parts),
        })?;
    }
    Ok(reasons)
}
