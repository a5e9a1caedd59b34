ghost use Rattle.std.specs.Prelude.{◌≡◌};
ghost use Rattle.mst_ids.specs.Identifiers.{port_id as id_of};
ghost use Rattle.mst_net.specs.tables.ByTree.{port_priority_in};
ghost use Rattle.mst_net.specs.tables.Seen.{bridge_row};
ghost use Rattle.mst_view.specs.Viewed.{named_port};
ghost use Rattle.mst_forest.specs.Cist.{cist_port as port_in_cist};
ghost use Rattle.mst_forest.specs.InUse.{id_in};
ghost use Rattle.mst_forest.specs.Msti.{msti_port as port_in_msti};
ghost use Rattle.mst_forest.specs.Seen.{seen_cist_bridge, seen_msti_bridge};

use mst_config::Regions;
use mst_ids::{BridgeId, BridgeNo, PortId, Tree, auto_cost};
use mst_lang::Kind;
use mst_net::TreeSettings;
use mst_vector::{CistBridge, CistPort, MstiBridge, MstiPort};
use mst_view::{BridgeInView, PortInView, View};

/// The identifier of a bridge in a tree: its priority there, the tree and its MAC.
pub fn bridge_id(settings: &TreeSettings, tree: Tree, bridge: &BridgeInView) -> BridgeId
    ensures { result ≡ id_in settings.now.set tree bridge.now.name (bridge_row bridge.now.bridge) }
{
    let priority = settings.tree_priority(&bridge.name, tree);
    BridgeId::new(priority, tree, bridge.bridge.mac)
}

/// What the CIST has to know of a bridge, under its number, where it is on.
pub fn cist_bridge(
    settings: &TreeSettings,
    regions: &Regions,
    seen: &BridgeInView,
) -> Option<(BridgeNo, CistBridge)>
    ensures { result ≡ seen_cist_bridge settings.now.set regions.now seen.now }
{
    if !seen.bridge.is_on() {
        return None;
    }
    let region = regions.region(seen.bridge.number)?;
    let is_rstp = match seen.bridge.kind {
        Kind::Mstp => false,
        Kind::Rstp => true,
    };
    let bridge = CistBridge {
        id: bridge_id(settings, Tree::cist(), seen),
        region,
        is_rstp,
    };
    Some((seen.bridge.number, bridge))
}

/// What an MSTI has to know of a bridge, under its number, where it is on and has the tree.
pub fn msti_bridge(view: &View, tree: Tree, seen: &BridgeInView) -> Option<(BridgeNo, MstiBridge)>
    ensures { result ≡ seen_msti_bridge view.now tree seen.now }
{
    if !seen.bridge.is_on() || !view.has_tree(seen.bridge.number, tree) {
        return None;
    }
    let bridge = MstiBridge {
        id: bridge_id(view.settings(), tree, seen),
    };
    Some((seen.bridge.number, bridge))
}

/// The identifier of a logical port in a tree: its priority there and its number.
pub fn port_id(settings: &TreeSettings, tree: Tree, port: &PortInView) -> PortId
    ensures { result ≡ id_of (port_priority_in settings.now.set.port_priorities port.now.name tree) port.now.name.number }
{
    let priority = settings.port_priority(&port.name, tree);
    PortId::new(priority, port.name.number)
}

/// What the CIST has to know of a logical port: its identifier and its costs. A cost that isn't set goes by the speed
/// of its logical LAN (802.1Q-2022, 13.29).
pub fn cist_port(settings: &TreeSettings, port: &PortInView) -> CistPort
    ensures { result ≡ port_in_cist settings.now.set (named_port port.now) }
{
    let automatic = auto_cost(port.speed.max(1));
    let internal = settings.port_cost(&port.name, Tree::cist());
    CistPort {
        id: port_id(settings, Tree::cist(), port),
        external: port.settings.external.unwrap_or(automatic),
        internal: internal.unwrap_or(automatic),
    }
}

/// What an MSTI has to know of a logical port: its identifier and its internal cost, as the CIST.
pub fn msti_port(settings: &TreeSettings, tree: Tree, port: &PortInView) -> MstiPort
    ensures { result ≡ port_in_msti settings.now.set tree (named_port port.now) }
{
    let internal = settings.port_cost(&port.name, tree);
    MstiPort {
        id: port_id(settings, tree, port),
        internal: internal.unwrap_or(auto_cost(port.speed.max(1))),
    }
}
