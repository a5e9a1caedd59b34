ghost use Rattle.std.specs.Prelude.{◌≡◌, IfOk, filter_map};
ghost use Rattle.std.specs.List.{Contains};
ghost use Rattle.std.specs.Option.{option_and_then};
ghost use Rattle.mst_view.specs.View.{is_on as is_on_in};
ghost use Rattle.mst_view.specs.Viewed.{named_port};
ghost use Rattle.mst_net.specs.tables.Seen.{bridge_row};
ghost use Rattle.mst_net.specs.tables.ByTree.{by_tree};
ghost use Rattle.mst_roles.specs.forest.InUse.{id_in};
ghost use Rattle.mst_roles.specs.forest.Settled.{outcome_of};
ghost use Rattle.mst_advise.specs.Costs.{port_named as port_of_name};
ghost use Rattle.mst_advise.specs.Hindrances.{apart_by, apart_from, hindrance_of, of_port as of_logical_port, off as off_or};
ghost use Rattle.mst_advise.specs.Seen.{seen_apart};

use crate::goal::Goal;
use crate::named::port_named;
use mst_ids::{BridgeId, Name, PortName, Tree};
use mst_roles::{Settled, bridge_id};
use mst_verify::{Follower, bridge_named, followers};
use mst_view::{BridgeInView, PortInView};
use std::alloc::{AllocError, Global};

/// What is in the way of a goal, whatever is set.
#[derive(Clone, Copy)]
pub enum Hindrance {
    /// The bridge is off.
    Off(Name),
    /// The port's LAN is down.
    Down(Name),
    /// The port's role is restricted.
    Restricted,
}

/// Whether the bridge of this name is on, if there is one.
fn is_on(plan: &Settled, name: &Name) -> bool
    ensures { result ≡ is_on_in plan.now.net name.now }
{
    plan.known();
    match bridge_named(plan, name) {
        None => false,
        Some(bridge) => bridge.bridge.is_on(),
    }
}

/// That a bridge is off, or else another one.
fn off(plan: &Settled, name: &Name, other: Option<Hindrance>) -> Option<Hindrance>
    ensures { result ≡ off_or plan.now.net name.now other }
{
    if is_on(plan, name) {
        other
    } else {
        Some(Hindrance::Off(*name))
    }
}

/// What is in the way of a logical port whose bridge is on.
fn of_port(port: &PortInView) -> Option<Hindrance>
    ensures { result ≡ of_logical_port (named_port port.now) }
{
    if !port.is_enabled {
        return Some(Hindrance::Down(port.lan));
    }
    if port.settings.is_restricted {
        Some(Hindrance::Restricted)
    } else {
        None
    }
}

/// What is in the way of the port of this name, if there is one.
fn by_port(plan: &Settled, name: &PortName) -> Option<Hindrance>
    ensures { result ≡ option_and_then (λ p. off_or plan.now.net p.name.bridge (of_logical_port p)) (port_of_name plan.now.net name.now) }
{
    plan.known();
    match port_named(plan, name) {
        None => None,
        Some(port) => off(plan, &port.name.bridge, of_port(port)),
    }
}

/// What is in the way of a goal before anything is set: that the bridge is off, that the port's LAN is down, or that its role is
/// restricted, whichever is first.
pub fn hindered_by(plan: &Settled, goal: &Goal) -> Option<Hindrance>
    ensures { result ≡ hindrance_of plan.now.net goal.now }
{
    match goal {
        Goal::Root { bridge, .. } => off(plan, bridge, None),
        Goal::Forward { port, .. } => by_port(plan, port),
    }
}

/// The name of a bridge whose root isn't this one.
fn other_root(id: BridgeId, follower: &Follower) -> Option<Name>
    ensures { result ≡ seen_apart id follower.now }
{
    if follower.root != id {
        Some(follower.name)
    } else {
        None
    }
}

/// The names of those of these bridges.
fn other_roots(alloc: Global, id: BridgeId, followers: &[Follower]) -> Result<Vec<Name>, AllocError>
    ensures { IfOk result (λ names. names.items ≡ filter_map (seen_apart id) followers.now) }
{
    followers
        .iter()
        .filter_map(|follower| other_root(id, follower))
        .collect(alloc)
}

/// The bridges in question that have another root in a tree than a bridge of the view, by name.
fn apart_of(
    alloc: Global,
    plan: &Settled,
    tree: Tree,
    bridge: &BridgeInView,
) -> Result<Vec<Name>, AllocError>
    requires { Contains plan.now.view.bridges bridge.now }
    ensures { IfOk result (λ names. names.items ≡ apart_by plan.now.net (outcome_of plan.now) tree bridge.now.name (id_in (by_tree plan.now.net) tree bridge.now.name (bridge_row bridge.now.bridge))) }
{
    let followers = followers(alloc, plan, tree, &bridge.name)?;
    let id = bridge_id(plan.settings(), tree, bridge);
    other_roots(alloc, id, followers.as_slice())
}

/// The bridges in question that have another root in a tree than the bridge of this name, by name. `AllocError`: memory was wanted and
/// refused.
pub fn apart(
    alloc: Global,
    plan: &Settled,
    tree: Tree,
    name: &Name,
) -> Result<Vec<Name>, AllocError>
    ensures { IfOk result (λ names. names.items ≡ apart_from plan.now.net (outcome_of plan.now) tree name.now) }
{
    plan.known();
    match bridge_named(plan, name) {
        None => Ok(Vec::new(alloc)),
        Some(bridge) => apart_of(alloc, plan, tree, bridge),
    }
}
