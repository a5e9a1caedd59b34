ghost use Rattle.std.specs.Prelude.{◌≡◌, IfOk};
ghost use Rattle.std.specs.List.{Contains};
ghost use Rattle.mst_explain.specs.Seen.{designated_vector as seen_designated_vector, root_path_vector_from as seen_root_path_vector, heard as seen_heard, given as seen_given, lan_claim as seen_lan_claim, lan_claims as seen_lan_claims, own_claims as seen_own_claims, bridge_claim as seen_bridge_claim, bridge_claims as seen_bridge_claims};

use crate::claims::Claim;
use crate::in_tree::InTree;
use mst_ids::{BridgeNo, LanNo, Tree};
use mst_roles::Settled;
use mst_view::PortInView;
use std::alloc::{AllocError, Global};

/// The designated priority vector of a port of the tree, which it says on its LAN.
fn designated_vector<M: InTree>(plan: &Settled, tree: Tree, port: &PortInView) -> Option<M::Vector>
    ensures { result ≡ seen_designated_vector M.rules plan.now.view (M.seen plan.now tree) port.now }
{
    let settings = M::port(plan, tree, port)?;
    let bridge = M::bridge(plan, tree, port.bridge)?;
    let vector = M::vector(plan, tree, port.bridge)?;
    Some(M::designated_vector(vector, &bridge, &settings))
}

/// The root path priority vector that a port of these settings has from another one.
fn root_path_vector_from<M: InTree>(
    plan: &Settled,
    tree: Tree,
    port: &PortInView,
    settings: &M::Port,
    from: &PortInView,
) -> Option<M::Vector>
    requires port { Contains plan.now.view.ports port.now }
    requires settings { (M.seen plan.now tree).port port.now ≡ Some settings.now }
    requires from { Contains plan.now.view.ports from.now }
    ensures { result ≡ seen_root_path_vector M.rules plan.now.view (M.seen plan.now tree) port.now settings.now from.now }
{
    M::costs_known(plan, tree);
    let message = designated_vector::<M>(plan, tree, from)?;
    let sender = M::bridge(plan, tree, from.bridge)?;
    let receiver = M::bridge(plan, tree, port.bridge)?;
    Some(M::root_path_vector(message, &sender, &receiver, settings))
}

/// The root path priority vector that a port of these settings has from its LAN's designated port, where that is on
/// another bridge.
fn heard<M: InTree>(
    plan: &Settled,
    tree: Tree,
    port: &PortInView,
    settings: &M::Port,
) -> Option<M::Vector>
    requires port { Contains plan.now.view.ports port.now }
    requires settings { (M.seen plan.now tree).port port.now ≡ Some settings.now }
    ensures { result ≡ seen_heard M.rules plan.now.view (M.seen plan.now tree) port.now settings.now }
{
    let from = M::designated_on(plan, tree, port.lan_number)?;
    if from.bridge == port.bridge {
        return None;
    }
    root_path_vector_from::<M>(plan, tree, port, settings, from)
}

/// What a port of the tree may give its bridge: a root path priority vector, if its role isn't restricted.
fn given<M: InTree>(plan: &Settled, tree: Tree, port: &PortInView) -> Option<M::Vector>
    requires port { Contains plan.now.view.ports port.now }
    ensures { result ≡ seen_given M.rules plan.now.view (M.seen plan.now tree) port.now }
{
    if port.settings.is_restricted {
        return None;
    }
    let settings = M::port(plan, tree, port)?;
    heard::<M>(plan, tree, port, &settings)
}

/// What a port claims on this LAN, if it is on it.
fn lan_claim<M: InTree>(
    plan: &Settled,
    tree: Tree,
    lan: LanNo,
    port: &PortInView,
) -> Option<Claim<M::Vector>>
    ensures { result ≡ seen_lan_claim M.rules plan.now.view (M.seen plan.now tree) lan port.now }
{
    if port.lan_number != lan {
        return None;
    }
    let vector = designated_vector::<M>(plan, tree, port)?;
    Some(Claim {
        port: Some(port.name),
        vector,
    })
}

/// What the ports of the tree on a LAN say.
pub(crate) fn lan_claims<M: InTree>(
    alloc: Global,
    plan: &Settled,
    tree: Tree,
    lan: LanNo,
) -> Result<Vec<Claim<M::Vector>>, AllocError>
    ensures { IfOk result (λ claims. claims.items ≡ seen_lan_claims M.rules plan.now.view (M.seen plan.now tree) lan) }
{
    let mut claims = Vec::new(alloc);
    for port in plan.view().ports() {
        if let Some(claim) = lan_claim::<M>(plan, tree, lan, port) {
            claims.push(claim)?;
        }
    }
    Ok(claims)
}

/// What a port claims at this bridge, if it is on it.
fn bridge_claim<M: InTree>(
    plan: &Settled,
    tree: Tree,
    bridge: BridgeNo,
    port: &PortInView,
) -> Option<Claim<M::Vector>>
    requires port { Contains plan.now.view.ports port.now }
    ensures { result ≡ seen_bridge_claim M.rules plan.now.view (M.seen plan.now tree) bridge port.now }
{
    if port.bridge != bridge {
        return None;
    }
    let vector = given::<M>(plan, tree, port)?;
    Some(Claim {
        port: Some(port.name),
        vector,
    })
}

/// The bridge priority vector, which is of no port.
fn own_claims<M: InTree>(
    alloc: Global,
    plan: &Settled,
    tree: Tree,
    bridge: BridgeNo,
) -> Result<Vec<Claim<M::Vector>>, AllocError>
    ensures { IfOk result (λ claims. claims.items ≡ seen_own_claims M.rules plan.now.view (M.seen plan.now tree) bridge) }
{
    let mut claims = Vec::new(alloc);
    if let Some(settings) = M::bridge(plan, tree, bridge) {
        claims.push(Claim {
            port: None,
            vector: M::bridge_vector(&settings),
        })?;
    }
    Ok(claims)
}

/// What may be the root priority vector of a bridge: its bridge priority vector, and what its ports give.
pub(crate) fn bridge_claims<M: InTree>(
    alloc: Global,
    plan: &Settled,
    tree: Tree,
    bridge: BridgeNo,
) -> Result<Vec<Claim<M::Vector>>, AllocError>
    ensures { IfOk result (λ claims. claims.items ≡ seen_bridge_claims M.rules plan.now.view (M.seen plan.now tree) bridge) }
{
    let mut claims = own_claims::<M>(alloc, plan, tree, bridge)?;
    for port in plan.view().ports() {
        if let Some(claim) = bridge_claim::<M>(plan, tree, bridge, port) {
            claims.push(claim)?;
        }
    }
    Ok(claims)
}
