ghost use Rattle.std.specs.Prelude.{◌≡◌, length, IfOk};
ghost use Rattle.mst_note_text.specs.declared.member.Member.{Member as MemberOf};
ghost use Rattle.mst_note_text.specs.Parents.{AreGiven};
ghost use Rattle.mst_note_text.specs.Placed.{ArePlaces};
ghost use Rattle.mst_note_text.specs.SeenTree.{is_root_port as is_root_port_in, given as given_by, parent_by as parent_of_places};

use crate::member::Member;
use crate::parent::Parent;
use crate::places::Places;
use mst_ids::Tree;
use mst_roles::{Forest, Role, port_role};
use mst_view::{PortInView, View};
use std::alloc::{AllocError, Global};

/// The parents of the bridges of a tree, in one pass over the ports: a root port gives its bridge's.
pub(crate) fn parents_of(
    alloc: Global,
    view: &View,
    forest: &Forest,
    tree: Tree,
    members: &[Member],
    places: &Places,
) -> Result<Vec<Option<Parent>>, AllocError>
    requires { ArePlaces (λ (m : MemberOf). m.number) members.now places.now.entries }
    ensures { IfOk result (λ parents. AreGiven (given_by view.now forest.now tree places.now.entries) view.now.ports view.now.ports (length members.now) parents.items) }
{
    let mut parents = vec![in alloc; None; members.len()]?;
    for port in view.ports() {
        if let Some((place, parent)) = given(view, forest, tree, places, port) {
            parents[place] = Some(parent);
        }
    }
    Ok(parents)
}

/// Where a port is a root port: the place of its bridge, and that one's parent.
fn given(
    view: &View,
    forest: &Forest,
    tree: Tree,
    places: &Places,
    port: &PortInView,
) -> Option<(usize, Parent)>
    ensures { result ≡ given_by view.now forest.now tree places.now.entries port.now }
{
    if !is_root_port(view, forest, tree, port) {
        return None;
    }
    let designated = view.port(forest.designated(tree, port.lan_number)?)?;
    parent_by(forest, places, port, designated)
}

/// The place of a port's bridge, and its parent, the bridge of the designated port of the LAN.
fn parent_by(
    forest: &Forest,
    places: &Places,
    port: &PortInView,
    designated: &PortInView,
) -> Option<(usize, Parent)>
    ensures { result ≡ parent_of_places forest.now places.now.entries port.now designated.now }
{
    let place = *places.get(&port.bridge)?;
    let parent = *places.get(&designated.bridge)?;
    let is_between = !forest.same(port.bridge, designated.bridge);
    Some((
        place,
        Parent {
            place: parent,
            is_between,
        },
    ))
}

/// Whether a port is the root port of its bridge in a tree.
fn is_root_port(view: &View, forest: &Forest, tree: Tree, port: &PortInView) -> bool
    ensures { result ≡ is_root_port_in view.now forest.now tree port.now }
{
    matches!(port_role(view, forest, port, tree), Some(Role::Root))
}
