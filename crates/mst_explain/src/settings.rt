ghost use Rattle.std.specs.Prelude.{◌≡◌};
ghost use Rattle.mst_explain.specs.TreesSeen.{cist_bridge_in, cist_port_in, msti_bridge_in, msti_port_in};

use mst_ids::Tree;
use mst_roles::Settled;
use mst_vector::{CistBridge, CistPort, MstiBridge, MstiPort};
use mst_view::{BridgeInView, PortInView};

/// What the CIST has of a bridge that is on: its identifier, its region and its kind.
pub(crate) fn cist_bridge(plan: &Settled, bridge: &BridgeInView) -> Option<CistBridge>
    ensures { result ≡ cist_bridge_in plan.now bridge.now }
{
    let forest = plan.forest();
    let (_, settings) = mst_roles::cist_bridge(plan.settings(), forest.regions(), bridge)?;
    Some(settings)
}

/// What the CIST has of an enabled port: its identifier and its costs.
pub(crate) fn cist_port(plan: &Settled, port: &PortInView) -> Option<CistPort>
    ensures { result ≡ cist_port_in plan.now port.now }
{
    if !port.is_enabled {
        return None;
    }
    Some(mst_roles::cist_port(plan.settings(), port))
}

/// What an MSTI has of a bridge that is on and has it: its identifier in the tree.
pub(crate) fn msti_bridge(plan: &Settled, tree: Tree, bridge: &BridgeInView) -> Option<MstiBridge>
    ensures { result ≡ msti_bridge_in plan.now tree bridge.now }
{
    let (_, settings) = mst_roles::msti_bridge(plan.view(), tree, bridge)?;
    Some(settings)
}

/// What an MSTI has of a port whose LAN belongs to the region of its bridge: its identifier and its internal cost.
pub(crate) fn msti_port(plan: &Settled, tree: Tree, port: &PortInView) -> Option<MstiPort>
    ensures { result ≡ msti_port_in plan.now tree port.now }
{
    let view = plan.view();
    let forest = plan.forest();
    if !forest.is_internal(view, port) || !view.has_tree(port.bridge, tree) {
        return None;
    }
    Some(mst_roles::msti_port(plan.settings(), tree, port))
}
