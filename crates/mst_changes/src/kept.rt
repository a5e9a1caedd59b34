ghost use Rattle.std.specs.Prelude.{◌≡◌, ◌++◌, map, IfOk, OnOk, filter_map};
ghost use Rattle.std.specs.List.{zip};
ghost use Rattle.mst_roles.specs.SeenRoles.{seen_role};
ghost use Rattle.mst_changes.specs.Seen.{seen_vector, seen_bridge_entry, seen_port_entry};
ghost use Rattle.mst_changes.specs.Stored.{bridge_entry, port_entry, kept_in};

use crate::rows::vector;
use crate::subject::{Entry, Item};
use crate::value::VectorOrRole;
use mst_ids::{Name, PortName, Tree};
use mst_roles::{Forest, Role, port_role};
use mst_view::View;
use std::alloc::{AllocError, Global};

/// What is kept of a tree: the root priority vectors of the network's bridges and the roles of its logical ports, in
/// the order of their names, with nothing for those that have none in the tree.
#[derive(Drop)]
pub(crate) struct TreeEntries {
    pub(crate) tree: Tree,
    pub(crate) vectors: Vec<Option<VectorOrRole>>,
    pub(crate) roles: Vec<Option<Role>>,
}

/// The names of the bridges of a view.
pub(crate) fn bridge_names(alloc: Global, view: &View) -> Result<Vec<Name>, AllocError>
    ensures { IfOk result (λ names. names.items ≡ map (λ b. b.name) view.now.bridges) }
{
    view.bridges()
        .iter()
        .map(|bridge| bridge.name)
        .collect(alloc)
}

/// The names of the logical ports of a view.
pub(crate) fn port_names(alloc: Global, view: &View) -> Result<Vec<PortName>, AllocError>
    ensures { IfOk result (λ names. names.items ≡ map (λ p. p.name) view.now.ports) }
{
    view.ports().iter().map(|port| port.name).collect(alloc)
}

/// The root priority vectors of the bridges of a view in a tree.
fn vectors(
    alloc: Global,
    view: &View,
    forest: &Forest,
    tree: Tree,
) -> Result<Vec<Option<VectorOrRole>>, AllocError>
    ensures { IfOk result (λ kept. kept.items ≡ map (λ b. seen_vector view.now forest.now tree b.bridge.number) view.now.bridges) }
{
    view.bridges()
        .iter()
        .map(|bridge| vector(view, forest, tree, bridge.bridge.number))
        .collect(alloc)
}

/// The roles of the logical ports of a view in a tree.
fn roles(
    alloc: Global,
    view: &View,
    forest: &Forest,
    tree: Tree,
) -> Result<Vec<Option<Role>>, AllocError>
    ensures { IfOk result (λ kept. kept.items ≡ map (seen_role view.now forest.now tree) view.now.ports) }
{
    view.ports()
        .iter()
        .map(|port| port_role(view, forest, port, tree))
        .collect(alloc)
}

/// What is kept of a tree, beside the names of the view's bridges and logical ports.
pub(crate) fn tree_entries(
    alloc: Global,
    view: &View,
    forest: &Forest,
    tree: Tree,
) -> Result<TreeEntries, AllocError>
    ensures tree { IfOk result (λ kept. kept.tree ≡ tree) }
    ensures vectors { IfOk result (λ kept. kept.vectors.items ≡ map (λ b. seen_vector view.now forest.now tree b.bridge.number) view.now.bridges) }
    ensures roles { IfOk result (λ kept. kept.roles.items ≡ map (seen_role view.now forest.now tree) view.now.ports) }
{
    Ok(TreeEntries {
        tree,
        vectors: vectors(alloc, view, forest, tree)?,
        roles: roles(alloc, view, forest, tree)?,
    })
}

/// The entry of a bridge in a tree, if something is kept of it.
fn bridge_kept(tree: Tree, name: &Name, vector: &Option<VectorOrRole>) -> Option<Entry>
    ensures { result ≡ bridge_entry tree (name.now, vector.now) }
{
    let value = (*vector)?;
    Some(Entry {
        tree,
        item: Item::Bridge(*name),
        value,
    })
}

/// The entry of a logical port in a tree, if something is kept of it.
fn port_kept(tree: Tree, name: &PortName, role: &Option<Role>) -> Option<Entry>
    ensures { result ≡ port_entry tree (name.now, role.now) }
{
    let role = (*role)?;
    Some(Entry {
        tree,
        item: Item::Port(*name),
        value: VectorOrRole::HasRole(role),
    })
}

/// Appends the entries of bridges of these names in a tree, by what is kept of each.
fn push_bridges_kept(
    tree: Tree,
    names: &[Name],
    vectors: &[Option<VectorOrRole>],
    entries: &mut Vec<Entry>,
) -> Result<(), AllocError>
    ensures { OnOk result (entries.new.items ≡ entries.old.items ++ filter_map (bridge_entry tree) (zip names.now vectors.now)) }
{
    let bridges = names.iter().zip(vectors.iter());
    entries.extend(bridges.filter_map(|(name, vector)| bridge_kept(tree, name, vector)))
}

/// Appends the entries of logical ports of these names in a tree, by what is kept of each.
fn push_ports_kept(
    tree: Tree,
    names: &[PortName],
    roles: &[Option<Role>],
    entries: &mut Vec<Entry>,
) -> Result<(), AllocError>
    ensures { OnOk result (entries.new.items ≡ entries.old.items ++ filter_map (port_entry tree) (zip names.now roles.now)) }
{
    let ports = names.iter().zip(roles.iter());
    entries.extend(ports.filter_map(|(name, role)| port_kept(tree, name, role)))
}

/// Appends the entries that are kept of a tree, of bridges and logical ports of these names.
pub(crate) fn push_kept(
    kept: &TreeEntries,
    bridges: &[Name],
    ports: &[PortName],
    entries: &mut Vec<Entry>,
) -> Result<(), AllocError>
    ensures { OnOk result (entries.new.items ≡ entries.old.items ++ kept_in bridges.now ports.now kept.now) }
{
    push_bridges_kept(kept.tree, bridges, kept.vectors.as_slice(), entries)?;
    push_ports_kept(kept.tree, ports, kept.roles.as_slice(), entries)
}
