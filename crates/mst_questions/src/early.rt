ghost use Rattle.std.specs.Prelude.{◌≡◌, ◌==◌, ◌&&◌, ◌≤◌, not, if◌then◌else◌, Some, None};
ghost use Rattle.mst_questions.specs.Unadvised.{unrooted_of};
ghost use Rattle.mst_questions.specs.Explaining.{has_asked, has_tree as has_tree_in};
ghost use Rattle.mst_roles.specs.forest.Msti.{has_msti as has_msti_in};
ghost use Rattle.mst_questions.specs.Ask.{unadvised_early, unexplained_early};

use crate::explaining::Unexplained;
use mst_advise::Goal;
use mst_ids::{Name, PortName, Tree};
use mst_lang::Kind;
use mst_net::{Contents, Network, Port};

/// Why a port isn't explained, as far as the network's tables tell it, if they do: there is no bridge of that name, no port of it that
/// is in a LAN, or the port has no key and its bridge doesn't have the tree. It takes no memory.
pub(crate) fn why_unexplained(
    network: &Network,
    port: &PortName,
    tree: Option<Tree>,
) -> Option<Unexplained>
    ensures { result ≡ unexplained_early network.now.net port.now tree }
{
    match network.bridge(&port.bridge) {
        None => Some(Unexplained::NoBridge),
        Some(_) => match network.port(port) {
            Some(
                Port {
                    lan: Some(_),
                    settings,
                    ..
                },
            ) => no_tree(network, &port.bridge, settings.key, tree),
            Some(Port { lan: None, .. }) | None => Some(Unexplained::NoPort),
        },
    }
}

/// Why there is no advice, as far as the network's tables tell it, if they do: for a port as where it is explained, for a root that there
/// is no bridge of that name, or that it doesn't have the tree. It takes no memory.
pub(crate) fn why_unadvised(network: &Network, goal: &Goal) -> Option<Unexplained>
    ensures { result ≡ unadvised_early network.now.net goal.now }
{
    match goal {
        Goal::Root { tree, bridge } => unrooted(network, *tree, bridge),
        Goal::Forward { tree, port } => why_unexplained(network, port, Some(*tree)),
    }
}

/// Why a bridge can't be the root of a tree: there is none of that name, or it doesn't have the tree.
fn unrooted(network: &Network, tree: Tree, bridge: &Name) -> Option<Unexplained>
    ensures { result ≡ unrooted_of network.now.net tree bridge.now }
{
    match network.bridge(bridge) {
        None => Some(Unexplained::NoBridge),
        Some(_) if !has_tree(network, bridge, tree) => Some(Unexplained::NoTree),
        Some(_) => None,
    }
}

/// That the bridge of a port with this key doesn't have the tree that is asked, if it doesn't, where no other port can stand for this one.
fn no_tree(network: &Network, bridge: &Name, key: u16, tree: Option<Tree>) -> Option<Unexplained>
    ensures { result ≡ if key == 0 && not (has_asked network.now.net bridge.now tree) then Some Unexplained.NoTree else None }
{
    match tree {
        Some(tree) if key == 0 && !has_tree(network, bridge, tree) => Some(Unexplained::NoTree),
        _ => None,
    }
}

/// Whether a bridge has a tree: each has the CIST.
fn has_tree(network: &Network, bridge: &Name, tree: Tree) -> bool
    ensures { result ≡ has_tree_in network.now.net bridge.now tree }
{
    let number = tree.value();
    number == 0 || has_msti(network, bridge, tree)
}

/// Whether there is a bridge of that name, of kind mstp, that maps some VID to an MSTI (802.1Q-2022, 13.5).
fn has_msti(network: &Network, name: &Name, tree: Tree) -> bool
    requires { (1 ≤ tree) × (tree ≤ 4094) }
    ensures { result ≡ has_msti_in network.now.net tree name.now }
{
    match network.bridge(name) {
        None => false,
        Some(bridge) => match bridge.kind {
            Kind::Mstp => network.table(name).has(tree),
            Kind::Rstp => false,
        },
    }
}
