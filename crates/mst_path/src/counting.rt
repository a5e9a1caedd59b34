ghost use Rattle.std.specs.Prelude.{◌≡◌, ◌<◌, IfOk, length};
ghost use Rattle.std.specs.List.{All};
ghost use Rattle.mst_path.specs.Counts.{AreCounted, hops_at as hops_at_depth};
ghost use Rattle.mst_path.specs.Places.{AreHopCounts, AreNodesOf, bridge_at};

use crate::nodes::Nodes;
use crate::search::depths_from;
use mst_view::PortInView;
use std::alloc::{AllocError, Global};

/// How many hops lead to the root from a bridge whose node lies so deep below it: none from one that isn't reached. A hop leads two nodes
/// up, and the root lies at 1.
fn hops_at(depth: usize) -> Option<usize>
    ensures { result ≡ hops_at_depth depth }
{
    if depth == 0 {
        return None;
    }
    Some((depth - 1) / 2)
}

/// How many hops lead to the root from each of these bridges' nodes.
fn counted(
    alloc: Global,
    bridges: &[usize],
    depths: &[usize],
) -> Result<Vec<Option<usize>>, AllocError>
    requires { All (λ x. x < length depths.now) bridges.now }
    ensures { IfOk result (λ counts. AreCounted bridges.now depths.now counts.items) }
{
    let mut counts = Vec::new(alloc);
    for bridge in bridges {
        counts.push(hops_at(depths[*bridge]))?;
    }
    Ok(counts)
}

/// For each of these ports, how many hops the path over them has from its bridge to the bridge of the port at this place: none exactly where
/// there is no path. It is one walk from that bridge. For n ports it takes about n steps. `AllocError`: memory was wanted and refused.
pub fn hop_counts(
    alloc: Global,
    ports: &[PortInView],
    nodes: &Nodes,
    to: usize,
) -> Result<Vec<Option<usize>>, AllocError>
    requires nodes { AreNodesOf ports.now nodes.now.bridges.items nodes.now.lans.items nodes.now.count }
    requires to { to < length ports.now }
    ensures { IfOk result (λ counts. AreHopCounts ports.now (bridge_at ports.now to) counts.items) }
{
    let _ports = ports;
    let bridges = nodes.bridges.as_slice();
    let lans = nodes.lans.as_slice();
    let depths = depths_from(alloc, bridges, lans, nodes.count, bridges[to])?;
    counted(alloc, bridges, depths.as_slice())
}
