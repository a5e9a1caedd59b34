//! The entries of a network's outcome.
ghost use Rattle.std.specs.Prelude.{◌≡◌, ◌++◌, OnOk, filter_map};
ghost use Rattle.mst_roles.specs.forest.InUse.{AreInUse};
ghost use Rattle.mst_roles.specs.forest.Settled.{outcome_of};
ghost use Rattle.mst_changes.specs.Kept.{entries_in};
ghost use Rattle.mst_changes.specs.Seen.{seen_vector, seen_bridge_entry, seen_port_entry};

use crate::subject::{Entry, Item};
use crate::value::VectorOrRole;
use mst_ids::{BridgeNo, Tree};
use mst_roles::{Forest, Settled, is_had, port_role};
use mst_view::{BridgeInView, PortInView, View};
use std::alloc::AllocError;

/// The root priority vector of a bridge in a tree, where the bridge is on and has the tree.
pub(crate) fn vector(
    view: &View,
    forest: &Forest,
    tree: Tree,
    bridge: BridgeNo,
) -> Option<VectorOrRole>
    ensures { result ≡ seen_vector view.now forest.now tree bridge }
{
    if tree.value() == 0 {
        return forest.cist(bridge).map(VectorOrRole::InCist);
    }
    if view.has_tree(bridge, tree) {
        forest.msti(tree, bridge).map(VectorOrRole::InMsti)
    } else {
        None
    }
}

/// The entry of a bridge in a tree.
fn bridge_row(view: &View, forest: &Forest, tree: Tree, bridge: &BridgeInView) -> Option<Entry>
    ensures { result ≡ seen_bridge_entry view.now forest.now tree bridge.now }
{
    let value = vector(view, forest, tree, bridge.bridge.number)?;
    Some(Entry {
        tree,
        item: Item::Bridge(bridge.name),
        value,
    })
}

/// The entry of a logical port in a tree.
fn port_row(view: &View, forest: &Forest, tree: Tree, port: &PortInView) -> Option<Entry>
    ensures { result ≡ seen_port_entry view.now forest.now tree port.now }
{
    let role = port_role(view, forest, port, tree)?;
    Some(Entry {
        tree,
        item: Item::Port(port.name),
        value: VectorOrRole::HasRole(role),
    })
}

/// Appends the entries of the bridges of a view in a tree.
fn push_bridges(
    view: &View,
    forest: &Forest,
    tree: Tree,
    entries: &mut Vec<Entry>,
) -> Result<(), AllocError>
    ensures { OnOk result (entries.new.items ≡ entries.old.items ++ filter_map (seen_bridge_entry view.now forest.now tree) view.now.bridges) }
{
    let bridges = view.bridges().iter();
    entries.extend(bridges.filter_map(|bridge| bridge_row(view, forest, tree, bridge)))
}

/// Appends the entries of the logical ports of a view in a tree.
pub(crate) fn push_ports(
    view: &View,
    forest: &Forest,
    tree: Tree,
    entries: &mut Vec<Entry>,
) -> Result<(), AllocError>
    ensures { OnOk result (entries.new.items ≡ entries.old.items ++ filter_map (seen_port_entry view.now forest.now tree) view.now.ports) }
{
    let ports = view.ports().iter();
    entries.extend(ports.filter_map(|port| port_row(view, forest, tree, port)))
}

/// Appends the entries of a tree: none where no bridge has it.
pub(crate) fn push_tree(
    plan: &Settled,
    used: &[bool; 4095],
    tree: Tree,
    entries: &mut Vec<Entry>,
) -> Result<(), AllocError>
    requires { AreInUse plan.now.view used.now }
    ensures { OnOk result (entries.new.items ≡ entries.old.items ++ entries_in plan.now.net (outcome_of plan.now) tree) }
{
    plan.known();
    let view = plan.view();
    let forest = plan.forest();
    if !is_had(used, tree) {
        return Ok(());
    }
    push_bridges(view, forest, tree, entries)?;
    push_ports(view, forest, tree, entries)
}
