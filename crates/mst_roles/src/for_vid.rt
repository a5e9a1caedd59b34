ghost use Rattle.std.specs.Prelude.{◌≡◌, ◌==◌, ℕ, Some, false, if◌then◌else◌};
ghost use Rattle.std.specs.List.{find};
ghost use Rattle.std.specs.Option.{option_map_or};
ghost use Rattle.std.specs.FinMap as fin;
ghost use Rattle.mst_ids.specs.declared.name.PortName.{PortName};
ghost use Rattle.mst_tables.specs.ByTree.{table_in};
ghost use Rattle.mst_tables.specs.Seen.{bridge_row};
ghost use Rattle.mst_tables.specs.Table.{tree_in};
ghost use Rattle.mst_tables.specs.Tables.{Net, Numbers, port_eq};
ghost use Rattle.mst_view.specs.View.{view_ports};
ghost use Rattle.mst_view.specs.Viewed.{named_port};
ghost use Rattle.mst_forest.specs.Agrees.{AreOf};
ghost use Rattle.mst_forest.specs.Forest.{IsForest};
ghost use Rattle.mst_roles.specs.Roles.{forwards as is_forwarding, forwards_for};
ghost use Rattle.mst_roles.specs.SeenRoles.{seen_role, seen_tree, seen_forwards};

use crate::roles::port_role;
use mst_forest::Forest;
use mst_ids::{BridgeNo, PortNo, Tree, Vid};
use mst_lang::Kind;
use mst_view::{BridgeInView, PortInView, View};

/// The tree that a bridge of the view has a VID in.
fn tree_of(view: &View, bridge: &BridgeInView, vid: Vid) -> Tree
    ensures { result ≡ (if (bridge_row bridge.now.bridge).is_rstp then 0 else tree_in (table_in view.now.settings.tables bridge.now.name) vid) }
{
    match bridge.bridge.kind {
        Kind::Rstp => Tree::cist(),
        Kind::Mstp => view.settings().tree_of(&bridge.name, vid),
    }
}

/// The tree that the bridge of this number has a VID in (802.1Q-2022, 8.9.3), and the CIST where no bridge has the number.
pub fn vid_tree(view: &View, bridge: BridgeNo, vid: Vid) -> Tree
    ensures { result ≡ seen_tree view.now bridge vid }
{
    match view.bridge(bridge) {
        None => Tree::cist(),
        Some(bridge) => tree_of(view, bridge, vid),
    }
}

/// Whether a logical port of the view forwards in a tree. One whose bridge hasn't the tree doesn't. It takes constant time and no
/// memory.
pub fn forwards_in(view: &View, forest: &Forest, port: &PortInView, tree: Tree) -> bool
    ensures { result ≡ option_map_or is_forwarding (seen_role view.now forest.now tree port.now) false }
{
    match port_role(view, forest, port, tree) {
        None => false,
        Some(role) => role.forwards(),
    }
}

/// Whether a logical port of the view forwards for a VID: in its bridge's tree of the VID. It takes constant time
/// and no memory.
pub fn port_forwards(view: &View, forest: &Forest, port: &PortInView, vid: Vid) -> bool
    ensures { result ≡ seen_forwards view.now forest.now vid port.now }
{
    forwards_in(view, forest, port, vid_tree(view, port.bridge, vid))
}

fn forwards_at(view: &View, forest: &Forest, port: PortNo, vid: Vid) -> bool
    ensures { result ≡ option_map_or (seen_forwards view.now forest.now vid) (find (λ p. port == p.number) view.now.ports) false }
{
    match view.port(port) {
        None => false,
        Some(port) => port_forwards(view, forest, port, vid),
    }
}

/// Whether the logical port of this number forwards for a VID: in its bridge's tree of the VID. A port that isn't
/// in the view doesn't. It takes constant time and no memory.
pub fn forwards(view: &View, forest: &Forest, port: PortNo, vid: Vid) -> bool
    ensures seen { result ≡ option_map_or (seen_forwards view.now forest.now vid) (find (λ p. port == p.number) view.now.ports) false }
    ensures named { (net : Net) (numbers : Numbers) (is : IsForest net numbers forest.now) → AreOf net numbers view.now forest.now.regions
        → (name : PortName) → fin.get numbers.ports name ≡ Some port → result ≡ option_map_or (forwards_for net is.outcome vid) (find (λ p. port_eq p.name name) (view_ports net)) false }
{
    forwards_at(view, forest, port, vid)
}
