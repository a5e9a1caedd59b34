ghost use Rattle.std.specs.Prelude.{◌≡◌, ◌≢◌, ℕ, ◌==◌, [], IfOk, OnOk};
ghost use Rattle.mst_net.specs.tables.ByTree.{AreInTrees};
ghost use Rattle.mst_view.specs.Trees.{is_among};
ghost use Rattle.mst_trees.specs.Own.{is_set, IsNoted};
ghost use Rattle.mst_forest.specs.Apart.{Apart};
ghost use Rattle.mst_trees.specs.Wirings.{AreOwn, own_in};

use indexmap::IndexMap;
use mst_forest::msti_port;
use mst_ids::Tree;
use mst_vector::MstiPort;
use mst_view::{PortInView, View};
use std::alloc::{AllocError, Global};
use std::collections::BTreeMap;

/// The settings that ports have in one tree alone, by the ports' numbers, for each tree in which there are such.
pub(crate) type OwnSettings = IndexMap<Tree, BTreeMap<usize, MstiPort>>;

/// The settings that ports have in a tree alone, or this map of none.
pub(crate) fn own_of<'a>(
    own: &'a OwnSettings,
    none: &'a BTreeMap<usize, MstiPort>,
    tree: Tree,
) -> &'a BTreeMap<usize, MstiPort>
    requires { none.now.entries ≡ [] }
    ensures { result.now.entries ≡ own_in own.now.entries tree }
{
    match own.get(&tree) {
        None => none,
        Some(there) => there,
    }
}

/// Notes the settings of a port in a tree.
fn note_in(
    alloc: Global,
    view: &View,
    port: &PortInView,
    tree: Tree,
    own: &mut OwnSettings,
) -> Result<(), AllocError>
    ensures { OnOk result (IsNoted (λ t. tree == t) view.now port.now own.old.entries own.new.entries) }
{
    let settings = msti_port(view.settings(), tree, port);
    own.entry(tree)?
        .or_insert(BTreeMap::new(alloc))
        .insert(port.number.0, settings)?;
    Ok(())
}

/// Notes the settings of a port in these trees.
fn note_in_each(
    alloc: Global,
    view: &View,
    port: &PortInView,
    trees: &[Tree],
    own: &mut OwnSettings,
) -> Result<(), AllocError>
    ensures { OnOk result (IsNoted (is_among trees.now) view.now port.now own.old.entries own.new.entries) }
{
    for tree in trees {
        note_in(alloc, view, port, *tree, own)?;
    }
    Ok(())
}

/// Notes the settings of a port in the trees in which something is set for it.
fn note_port(
    alloc: Global,
    view: &View,
    port: &PortInView,
    own: &mut OwnSettings,
) -> Result<(), AllocError>
    requires { AreInTrees view.now.settings }
    ensures { OnOk result (IsNoted (is_set view.now.settings port.now.name) view.now port.now own.old.entries own.new.entries) }
{
    let settings = view.settings();
    let priorities = settings.port_priority_trees(&port.name, alloc)?;
    note_in_each(alloc, view, port, priorities.as_slice(), own)?;
    let costs = settings.port_cost_trees(&port.name, alloc)?;
    note_in_each(alloc, view, port, costs.as_slice(), own)
}

/// The settings that the ports of a view have in one tree alone, the CIST among them.
pub(crate) fn own_settings(alloc: Global, view: &View) -> Result<OwnSettings, AllocError>
    requires set { AreInTrees view.now.settings }
    requires numbers { Apart (λ p q. p.number ≢ q.number) view.now.ports }
    ensures { IfOk result (λ own. (tree : ℕ) → AreOwn view.now view.now.ports tree (own_in own.entries tree)) }
{
    let mut own = IndexMap::new(alloc);
    for port in view.ports() {
        note_port(alloc, view, port, &mut own)?;
    }
    Ok(own)
}
