ghost use Rattle.std.specs.Prelude.{◌≡◌, not, IfOk, filter, map};
ghost use Rattle.std.specs.List.{list_any};
ghost use Rattle.mst_view.specs.Aggregation.{same_name};
ghost use Rattle.mst_view.specs.Viewed.{named_port};
ghost use Rattle.mst_summary.specs.Carries.{are_of_two as ports_of_two};
ghost use Rattle.mst_summary.specs.Seen.{seen_carries, seen_joins, seen_over};

use mst_ids::Vid;
use mst_view::PortInView;
use mst_vlan::{Settled, is_member, port_forwards};
use std::alloc::{AllocError, Global};

/// Whether a port is active for a VID and a member of its VLAN.
fn port_carries(plan: &Settled, vid: Vid, port: &PortInView) -> bool
    ensures { result ≡ seen_carries plan.now.view plan.now.forest vid port.now }
{
    port_forwards(plan.view(), plan.forest(), port, vid) && is_member(plan.view(), port, vid)
}

/// Those of these ports that are so.
fn carriers(
    alloc: Global,
    plan: &Settled,
    vid: Vid,
    ports: &[PortInView],
) -> Result<Vec<PortInView>, AllocError>
    ensures { IfOk result (λ carriers. carriers.items ≡ filter (seen_carries plan.now.view plan.now.forest vid) ports.now) }
{
    ports
        .iter()
        .filter(|port| port_carries(plan, vid, port))
        .copied()
        .collect(alloc)
}

/// Whether one of these ports is of another bridge than the first.
fn any_of_other(first: &PortInView, ports: &[PortInView]) -> bool
    ensures { result ≡ list_any (λ p. not (same_name p.name.bridge first.now.name.bridge)) ports.now }
{
    ports
        .iter()
        .any(|port| port.name.bridge != first.name.bridge)
}

/// Whether ports are of two bridges.
fn are_of_two(ports: &[PortInView]) -> bool
    ensures { result ≡ ports_of_two (map named_port ports.now) }
{
    match ports {
        [] => false,
        [first, others @ ..] => any_of_other(first, others),
    }
}

/// Whether frames of a VID go over a logical LAN that has these ports: those that are active for the VID and members are of two
/// bridges. `AllocError`: memory was wanted and refused.
pub fn goes_over(
    alloc: Global,
    plan: &Settled,
    vid: Vid,
    ports: &[PortInView],
) -> Result<bool, AllocError>
    ensures { IfOk result (λ over. over ≡ seen_over plan.now.view plan.now.forest ports.now vid) }
{
    let carriers = carriers(alloc, plan, vid, ports)?;
    Ok(are_of_two(carriers.as_slice()))
}

/// The enabled ones of these ports.
fn enabled(alloc: Global, ports: &[PortInView]) -> Result<Vec<PortInView>, AllocError>
    ensures { IfOk result (λ enabled. enabled.items ≡ filter (λ p. p.is_enabled) ports.now) }
{
    ports
        .iter()
        .filter(|port| port.is_enabled)
        .copied()
        .collect(alloc)
}

/// Whether a logical LAN that has these ports joins bridges: the enabled ones are of two.
pub(crate) fn joins(alloc: Global, ports: &[PortInView]) -> Result<bool, AllocError>
    ensures { IfOk result (λ joins. joins ≡ seen_joins ports.now) }
{
    let enabled = enabled(alloc, ports)?;
    Ok(are_of_two(enabled.as_slice()))
}
