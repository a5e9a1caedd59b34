ghost use Rattle.std.specs.Prelude.{◌≡◌, ◌↔◌, ◌<◌, ◌&&◌, true, IfOk, length, map};
ghost use Rattle.std.specs.List.{Contains, list_any};
ghost use Rattle.mst_tables.specs.Seen.{bridge_row};
ghost use Rattle.mst_view.specs.Aggregation.{same_name};
ghost use Rattle.mst_view.specs.Viewed.{named_port};
ghost use Rattle.mst_vlan.specs.Reach.{bridges_on};
ghost use Rattle.mst_vlan.specs.forest.Settled.{outcome_of};
ghost use Rattle.mst_path.specs.Paths.{IsPathOf, IsPathOver};
ghost use Rattle.mst_path.specs.Places.{IsRising, bridge_at, named_path};

use crate::hop::Hop;
use crate::leading::ways_on;
use crate::nodes::Nodes;
use crate::over::{carrying, hops_at, place_on};
use crate::reading::read_off;
use crate::search::depths_from;
use crate::trace::Trace;
use mst_ids::Name;
use mst_view::{BridgeInView, PortInView};
use mst_vlan::Settled;
use std::alloc::{AllocError, Global};

/// Whether one of these bridges has this name and is on.
fn has_on(bridges: &[BridgeInView], name: &Name) -> bool
    ensures { result ≡ list_any (λ b. same_name b.name name.now && (bridge_row b.bridge).is_on) bridges.now }
{
    bridges
        .iter()
        .any(|bridge| bridge.name == *name && bridge.bridge.is_on())
}

/// Whether a bridge is there and on. It looks at the bridges one by one.
pub fn is_on(plan: &Settled, name: &Name) -> bool
    ensures { result ≡ true ↔ Contains (bridges_on plan.now.net) name.now }
{
    plan.known();
    has_on(plan.view().bridges(), name)
}

/// The path over these ports between the bridges of two of them. `AllocError`: memory was wanted and refused.
fn path_between(
    alloc: Global,
    ports: &[PortInView],
    first: usize,
    last: usize,
) -> Result<Option<Vec<Hop>>, AllocError>
    requires first { first < length ports.now }
    requires last { last < length ports.now }
    requires rising { IsRising ports.now }
    ensures { IfOk result (λ path. IsPathOver (map named_port ports.now) (bridge_at ports.now first) (bridge_at ports.now last) (named_path path)) }
{
    let nodes = Nodes::new(alloc, ports)?;
    let bridges = nodes.bridges.as_slice();
    let lans = nodes.lans.as_slice();
    let start = bridges[first];
    let root = bridges[last];
    let depths = depths_from(alloc, bridges, lans, nodes.count, root)?;
    if depths[start] == 0 {
        return Ok(None);
    }
    let ways = ways_on(alloc, bridges, lans, depths)?;
    let places = read_off(alloc, bridges, lans, &ways, start, root)?;
    let hops = hops_at(alloc, ports, places.as_slice())?;
    Ok(Some(hops))
}

/// The path over these ports, by bridge and number, from one bridge to another, or none exactly where there is none. For n ports it takes
/// about n steps. `AllocError`: memory was wanted and refused.
fn path_over(
    alloc: Global,
    ports: &[PortInView],
    from: &Name,
    to: &Name,
) -> Result<Option<Vec<Hop>>, AllocError>
    requires rising { IsRising ports.now }
    ensures { IfOk result (λ path. IsPathOver (map named_port ports.now) from.now to.now (named_path path)) }
{
    if from == to {
        return Ok(Some(Vec::new(alloc)));
    }
    let Some(first) = place_on(ports, from) else {
        return Ok(None);
    };
    let Some(last) = place_on(ports, to) else {
        return Ok(None);
    };
    path_between(alloc, ports, first, last)
}

/// The path of a VID from one bridge to another in a settled network: none exactly where there is none, or one of the two bridges is off.
/// For n ports it takes about n steps. `AllocError`: memory was wanted and refused.
pub fn path(alloc: Global, plan: &Settled, trace: &Trace) -> Result<Option<Vec<Hop>>, AllocError>
    ensures { IfOk result (λ path. IsPathOf plan.now.net (outcome_of plan.now) trace.now.vid trace.now.from trace.now.to (named_path path)) }
{
    if !is_on(plan, &trace.from) || !is_on(plan, &trace.to) {
        return Ok(None);
    }
    let ports = carrying(alloc, plan, trace.vid)?;
    path_over(alloc, ports.as_slice(), &trace.from, &trace.to)
}
