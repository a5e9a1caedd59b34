ghost use Rattle.std.specs.Prelude.{◌≡◌, ◌++◌, ◌∷◌, [], List, OnOk};
ghost use Rattle.std.specs.List.{AllByRecursion, Contains, flat_map};
ghost use Rattle.mst_rows.specs.Rows.{Row};
ghost use Rattle.mst_vlan.specs.forest.Settled.{outcome_of};
ghost use Rattle.mst_text.specs.Held.{AreHolders};
ghost use Rattle.mst_text.specs.TreeRows.{heading};
ghost use Rattle.mst_text.specs.TreeRuns.{run_of, bridge_with, by_runs, port_of};
ghost use Rattle.mst_text.specs.TreeText.{tree_rows};

use crate::holders::Holders;
use crate::tree_bridge::put_own_row;
use crate::tree_port::put_port;
use mst_ids::{Name, Tree};
use mst_kinds::{Kind, TreeLine};
use mst_rows::{Rows, Value, put};
use mst_view::{BridgeInView, PortInView};
use mst_vlan::Settled;
use std::alloc::{AllocError, Global};

/// Puts the rows of a tree of a settled network: a heading, then for each bridge that has the tree, in byte order of
/// names, its root priority vector with the names of the bridges in it, and the roles of its logical ports by number. Of
/// a tree that no bridge has it is the heading alone.
///
/// It goes over the bridges twice and the ports once. `AllocError`: memory was wanted and refused; some of the rows may
/// have been put.
pub fn put_tree<R: Rows>(
    alloc: Global,
    plan: &Settled,
    tree: Tree,
    out: &mut R,
) -> Result<(), AllocError>
    ensures { (first : R) (rows : List Row) → R.grew first out.old rows → OnOk result (R.grew first out.new (rows ++ tree_rows plan.now.net (outcome_of plan.now) tree)) }
{
    let holders = Holders::of(alloc, plan)?;
    put_tree_with(plan, &holders, tree, out)
}

/// Puts the rows of a tree as [`put_tree`] does, where the names of bridges by their MAC addresses are made already. It
/// goes over the bridges and the ports once.
pub fn put_tree_with<R: Rows>(
    plan: &Settled,
    holders: &Holders,
    tree: Tree,
    out: &mut R,
) -> Result<(), AllocError>
    requires { AreHolders plan.now.net holders.now }
    ensures { (first : R) (rows : List Row) → R.grew first out.old rows → OnOk result (R.grew first out.new (rows ++ tree_rows plan.now.net (outcome_of plan.now) tree)) }
{
    plan.known();
    put_heading(tree, out)?;
    put_bridges(plan, holders, tree, out)
}

/// Puts the heading of a tree.
fn put_heading<R: Rows>(tree: Tree, out: &mut R) -> Result<(), AllocError>
    ensures { (first : R) (rows : List Row) → R.grew first out.old rows → OnOk result (R.grew first out.new (rows ++ heading tree ∷ [])) }
{
    let values = [Value::Number(u64::from(tree.value()))];
    put::<R>(Kind::Tree(TreeLine::Heading), &values, out)
}

/// Puts the rows of the bridges that have the tree. The ports of a bridge are a run of the view's ports, since
/// these come by the names of their bridges.
fn put_bridges<R: Rows>(
    plan: &Settled,
    holders: &Holders,
    tree: Tree,
    out: &mut R,
) -> Result<(), AllocError>
    requires { AreHolders plan.now.net holders.now }
    ensures { (first : R) (rows : List Row) → R.grew first out.old rows
        → OnOk result (R.grew first out.new (rows ++ by_runs (bridge_with plan.now tree) plan.now.view.bridges plan.now.view.ports)) }
{
    let mut rest = plan.view().ports();
    for bridge in plan.view().bridges() {
        let (own, others) = rest.split_at(run(&bridge.name, rest));
        put_bridge(plan, holders, tree, bridge, own, out)?;
        rest = others;
    }
    Ok(())
}

/// How many of these ports, from the front on, are of this bridge.
fn run(bridge: &Name, ports: &[PortInView]) -> usize
    ensures { result ≡ run_of bridge.now ports.now }
{
    ports
        .iter()
        .take_while(|port| port.name.bridge == *bridge)
        .count()
}

/// Puts the rows of a bridge and of these ports, if the bridge has the tree.
fn put_bridge<R: Rows>(
    plan: &Settled,
    holders: &Holders,
    tree: Tree,
    bridge: &BridgeInView,
    ports: &[PortInView],
    out: &mut R,
) -> Result<(), AllocError>
    requires holders { AreHolders plan.now.net holders.now }
    requires bridge { Contains plan.now.view.bridges bridge.now }
    requires ports { AllByRecursion (Contains plan.now.view.ports) ports.now }
    ensures { (first : R) (rows : List Row) → R.grew first out.old rows → OnOk result (R.grew first out.new (rows ++ bridge_with plan.now tree bridge.now ports.now)) }
{
    if !plan.has_tree(tree, bridge) {
        return Ok(());
    }
    put_own_row(plan, holders, tree, bridge, out)?;
    put_ports(plan, tree, ports, out)
}

/// Puts the rows of these ports.
fn put_ports<R: Rows>(
    plan: &Settled,
    tree: Tree,
    ports: &[PortInView],
    out: &mut R,
) -> Result<(), AllocError>
    requires { AllByRecursion (Contains plan.now.view.ports) ports.now }
    ensures { (first : R) (rows : List Row) → R.grew first out.old rows → OnOk result (R.grew first out.new (rows ++ flat_map (port_of plan.now tree) ports.now)) }
{
    for port in ports {
        put_port(plan, tree, port, out)?;
    }
    Ok(())
}
