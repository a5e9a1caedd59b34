ghost use Rattle.std.specs.Prelude.{◌≡◌, ◌+◌, ◌<◌, IfOk, length, map, vec_len};
ghost use Rattle.std.specs.List.{All};
ghost use Rattle.mst_vlan.specs.forest.Settled.{outcome_of};
ghost use Rattle.mst_plan_text.specs.Bodies.{pairs_of, seen_pair};

use mst_ids::{PortName, Vid};
use mst_text::is_member;
use mst_view::{PortInView, View};
use mst_vlan::{Settled, active_ports};
use std::alloc::{AllocError, Global};

/// The active ports of a VID, each with whether it is a member of the VLAN. They tell its body: its islands follow.
pub(crate) type Active = Vec<(PortName, bool)>;

/// The active ports of the VIDs at these places, which are counted from 0.
pub(crate) fn actives(
    alloc: Global,
    plan: &Settled,
    places: &[usize],
) -> Result<Vec<Active>, AllocError>
    requires { All (λ place. place < 4094) places.now }
    ensures as_long { IfOk result (λ actives. vec_len actives ≡ length places.now) }
    ensures ports { IfOk result (λ actives. map (λ active. active.items) actives.items ≡ map (λ place. pairs_of plan.now.net (outcome_of plan.now) (place + 1)) places.now) }
{
    let mut actives = Vec::new(alloc);
    for place in places {
        let vid = Vid::new(*place as u64 + 1).unwrap();
        actives.push(active_of(alloc, plan, vid)?)?;
    }
    Ok(actives)
}

/// The active ports of a VID.
fn active_of(alloc: Global, plan: &Settled, vid: Vid) -> Result<Active, AllocError>
    ensures { IfOk result (λ active. active.items ≡ pairs_of plan.now.net (outcome_of plan.now) vid) }
{
    plan.known();
    let ports = active_ports(alloc, plan, vid)?;
    pairs(alloc, plan.view(), vid, ports.as_slice())
}

/// These ports, each with whether it is a member of the VLAN.
fn pairs(alloc: Global, view: &View, vid: Vid, ports: &[PortInView]) -> Result<Active, AllocError>
    ensures { IfOk result (λ pairs. pairs.items ≡ map (seen_pair view.now vid) ports.now) }
{
    let mut pairs = Vec::new(alloc);
    for port in ports {
        pairs.push((port.name, is_member(view, port, vid)))?;
    }
    Ok(pairs)
}
