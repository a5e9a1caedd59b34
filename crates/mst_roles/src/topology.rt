ghost use Rattle.std.specs.Prelude.{◌≡◌, Some, IfOk, map};
ghost use Rattle.std.specs.FinMap as fin;
ghost use Rattle.std.specs.Option.{ForSome};
ghost use Rattle.mst_view.specs.View.{IsUnrestricted};
ghost use Rattle.mst_view.specs.Viewed.{named_port};
ghost use Rattle.mst_forest.specs.Settled.{outcome_of};
ghost use Rattle.mst_roles.specs.SeenRoles.{seen_tree, seen_forwards};
ghost use Rattle.mst_roles.specs.Active.{active_ports as active_in, JoinWithoutLoop};
ghost use Rattle.mst_roles.specs.SeenActive.{seen_active};

use crate::for_vid::{forwards_in, vid_tree};
use crate::laws::joined_without_loop;
use mst_forest::{Forest, Settled};
use mst_ids::{BridgeNo, PortNo, Tree, Vid};
use mst_view::{PortInView, View};
use std::alloc::{AllocError, Global};

/// The active topology of a VID in a settled network: the logical ports that forward in their own bridge's tree of it, in
/// the order of the view. Where no port's role is restricted they join what is enabled, without a loop (802.1Q-2022, 8.4).
/// For n ports it takes n steps. `AllocError`: memory was wanted and refused.
pub fn active_ports(alloc: Global, plan: &Settled, vid: Vid) -> Result<Vec<PortInView>, AllocError>
    ensures seen { IfOk result (λ ports. ports.items ≡ seen_active plan.now.view plan.now.forest vid) }
    ensures named { IfOk result (λ ports. map named_port ports.items ≡ active_in plan.now.net (outcome_of plan.now) vid) }
    ensures joined { IfOk result (λ ports. IsUnrestricted plan.now.net → JoinWithoutLoop plan.now.net (map named_port ports.items)) }
{
    plan.known();
    joined_without_loop();
    forwarding_ports(alloc, plan.view(), plan.forest(), vid)
}

/// The tree that a bridge has a VID in, where that of one bridge is known, if it is this one.
fn tree_beside(view: &View, known: Option<(BridgeNo, Tree)>, bridge: BridgeNo, vid: Vid) -> Tree
    requires { ForSome known (λ k. k.1 ≡ seen_tree view.now k.0 vid) }
    ensures { result ≡ seen_tree view.now bridge vid }
{
    match known {
        None => vid_tree(view, bridge, vid),
        Some((before, tree)) => {
            if before == bridge {
                tree
            } else {
                vid_tree(view, bridge, vid)
            }
        }
    }
}

/// The ports of the view that forward for a VID. The ports of a bridge come one after another, so its tree of the VID is
/// looked up once.
pub fn forwarding_ports(
    alloc: Global,
    view: &View,
    forest: &Forest,
    vid: Vid,
) -> Result<Vec<PortInView>, AllocError>
    ensures { IfOk result (λ ports. ports.items ≡ seen_active view.now forest.now vid) }
{
    let mut ports = Vec::new(alloc);
    let mut known = None;
    for port in view.ports() {
        let tree = tree_beside(view, known, port.bridge, vid);
        known = Some((port.bridge, tree));
        if forwards_in(view, forest, port, tree) {
            ports.push(*port)?;
        }
    }
    Ok(ports)
}

/// Whether each logical port of the view forwards for a VID, in the order of the view. For n ports it takes n steps.
/// `AllocError`: memory was wanted and refused.
pub fn forwarding(
    alloc: Global,
    view: &View,
    forest: &Forest,
    vid: Vid,
) -> Result<Vec<bool>, AllocError>
    ensures { IfOk result (λ flags. flags.items ≡ map (seen_forwards view.now forest.now vid) view.now.ports) }
{
    let mut flags = Vec::new(alloc);
    let mut known = None;
    for port in view.ports() {
        let tree = tree_beside(view, known, port.bridge, vid);
        known = Some((port.bridge, tree));
        flags.push(forwards_in(view, forest, port, tree))?;
    }
    Ok(flags)
}

/// The numbers of ports.
fn numbers_of(alloc: Global, ports: &[PortInView]) -> Result<Vec<PortNo>, AllocError>
    ensures { IfOk result (λ numbers. numbers.items ≡ map (λ p. p.number) ports.now) }
{
    ports.iter().map(|port| port.number).collect(alloc)
}

/// The active topology of a VID, as `active_ports` gives it, by the numbers of ports. For n ports it takes n steps.
/// `AllocError`: memory was wanted and refused.
pub fn active(alloc: Global, plan: &Settled, vid: Vid) -> Result<Vec<PortNo>, AllocError>
    ensures seen { IfOk result (λ ports. ports.items ≡ map (λ p. p.number) (seen_active plan.now.view plan.now.forest vid)) }
    ensures named { IfOk result (λ ports. map Some ports.items ≡ map (λ p. fin.get plan.now.numbers.ports p.name) (active_in plan.now.net (outcome_of plan.now) vid)) }
    ensures joined { IfOk result (λ _. IsUnrestricted plan.now.net → JoinWithoutLoop plan.now.net (active_in plan.now.net (outcome_of plan.now) vid)) }
{
    plan.known();
    joined_without_loop();
    let ports = active_ports(alloc, plan, vid)?;
    numbers_of(alloc, ports.as_slice())
}
