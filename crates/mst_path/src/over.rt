ghost use Rattle.std.specs.Prelude.{◌≡◌, ◌≢◌, ◌<◌, ℕ, [], IfOk, MatchOption, length, map, filter, slice_index_or};
ghost use Rattle.std.specs.List.{All};
ghost use Rattle.mst_view.specs.Viewed.{named_port};
ghost use Rattle.mst_vlan.specs.forest.Settled.{outcome_of};
ghost use Rattle.mst_vlan.specs.Seen.{seen_member};
ghost use Rattle.mst_path.specs.Paths.{carrying as carrying_in};
ghost use Rattle.mst_path.specs.Places.{IsRising, bridge_names, hop_named_at, named_hop};
ghost use Rattle.mst_path.specs.declared.hop.PlaceHop.{PlaceHop as Places};

use crate::hop::{Hop, PlaceHop};
use mst_ids::{Name, Vid};
use mst_view::{PortInView, View};
use mst_vlan::{Settled, active_ports, is_member};
use std::alloc::{AllocError, Global};

/// Those of these ports that are members of a VLAN.
fn members(
    alloc: Global,
    view: &View,
    ports: &[PortInView],
    vid: Vid,
) -> Result<Vec<PortInView>, AllocError>
    ensures { IfOk result (λ members. members.items ≡ filter (seen_member view.now vid) ports.now) }
{
    ports
        .iter()
        .filter(|port| is_member(view, port, vid))
        .copied()
        .collect(alloc)
}

/// The ports that carry a VID, by bridge and number: those of its active topology that are members of its VLAN. `AllocError`: memory was
/// wanted and refused.
pub fn carrying(alloc: Global, plan: &Settled, vid: Vid) -> Result<Vec<PortInView>, AllocError>
    ensures named { IfOk result (λ ports. map named_port ports.items ≡ carrying_in plan.now.net (outcome_of plan.now) vid) }
    ensures rising { IfOk result (λ ports. IsRising ports.items) }
{
    plan.known();
    let view = plan.view();
    let active = active_ports(alloc, plan, vid)?;
    members(alloc, view, active.as_slice(), vid)
}

/// The place of the first of these ports on a bridge: none where no port is on it.
pub fn place_on(ports: &[PortInView], bridge: &Name) -> Option<usize>
    ensures { MatchOption result ((place : ℕ) → place < length ports.now → slice_index_or (bridge_names ports.now) place [] ≢ bridge.now) (λ place. (place < length ports.now) × (slice_index_or (bridge_names ports.now) place [] ≡ bridge.now)) }
{
    for (place, port) in ports.iter().enumerate() {
        if port.name.bridge == *bridge {
            return Some(place);
        }
    }
    None
}

/// The hops of these places. `AllocError`: memory was wanted and refused.
pub(crate) fn hops_at(
    alloc: Global,
    ports: &[PortInView],
    places: &[PlaceHop],
) -> Result<Vec<Hop>, AllocError>
    requires { All (λ (h : Places). (h.leaving < length ports.now) × (h.arriving < length ports.now)) places.now }
    ensures { IfOk result (λ hops. (d : _) → map named_hop hops.items ≡ map (hop_named_at ports.now d) places.now) }
{
    let mut hops = Vec::new(alloc);
    for hop in places {
        hops.push(Hop {
            leaving: ports[hop.leaving],
            arriving: ports[hop.arriving],
        })?;
    }
    Ok(hops)
}
