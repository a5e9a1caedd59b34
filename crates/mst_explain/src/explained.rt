ghost use Rattle.std.specs.Prelude.{◌≡◌, ◌++◌, List, OnOk};
ghost use Rattle.std.specs.List.{Contains, flat_map};
ghost use Rattle.mst_view.specs.Viewed.{named_port};
ghost use Rattle.mst_roles.specs.forest.Settled.{outcome_of};
ghost use Rattle.mst_rows.specs.Rows.{Row};
ghost use Rattle.mst_explain.specs.Explained.{IsExplained, AreExplained, trees_of_bridge};
ghost use Rattle.mst_explain.specs.SeenText.{bridge_is_on as is_on_in, lan_is_up as is_up_in, off_rows, outside_rows, msti_rows, enabled_rows, reason_rows, explanation_rows};

use crate::contest::put_contest;
use crate::in_tree::designated_port;
use crate::lines::{put_boundary, put_disabled, put_heading};
use mst_ids::{BridgeNo, Name, Tree};
use mst_roles::{Settled, role_of};
use mst_rows::Rows;
use mst_vector::{CistMetric, MstiMetric};
use mst_view::{PortInView, View};
use std::alloc::{AllocError, Global};

fn bridge_is_on(view: &View, bridge: BridgeNo) -> bool
    ensures { result ≡ is_on_in view.now bridge }
{
    match view.bridge(bridge) {
        None => false,
        Some(bridge) => bridge.bridge.is_on(),
    }
}

fn lan_is_up(view: &View, lan: &Name) -> bool
    ensures { result ≡ is_up_in view.now lan.now }
{
    view.member_lans()
        .iter()
        .any(|member| member.lan == *lan && member.is_up)
}

/// Puts why a port that isn't enabled is so.
fn put_off<R: Rows>(
    view: &View,
    tree: Tree,
    port: &PortInView,
    out: &mut R,
) -> Result<(), AllocError>
    ensures { (first : R) (rows : List Row) → R.grew first out.old rows → OnOk result (R.grew first out.new (rows ++ off_rows view.now tree port.now)) }
{
    let is_on = bridge_is_on(view, port.bridge);
    let is_up = lan_is_up(view, &port.lan);
    put_disabled(tree, &port.name, is_on, is_up, &port.lan, out)
}

/// Puts the reason of a port that has received external information, in an MSTI.
fn put_outside<R: Rows>(
    plan: &Settled,
    tree: Tree,
    port: &PortInView,
    out: &mut R,
) -> Result<(), AllocError>
    requires { Contains plan.now.view.ports port.now }
    ensures { (first : R) (rows : List Row) → R.grew first out.old rows → OnOk result (R.grew first out.new (rows ++ outside_rows plan.now tree port.now)) }
{
    let Some(role) = role_of(plan, port, Tree::cist()) else {
        return Ok(());
    };
    match designated_port(plan, Tree::cist(), port.lan_number) {
        None => Ok(()),
        Some(designated) => put_boundary(tree, &port.name, role, &designated.name, out),
    }
}

/// Puts the reason of an enabled port in an MSTI.
fn put_in_msti<R: Rows>(
    alloc: Global,
    plan: &Settled,
    tree: Tree,
    port: &PortInView,
    out: &mut R,
) -> Result<(), AllocError>
    requires { Contains plan.now.view.ports port.now }
    ensures { (first : R) (rows : List Row) → R.grew first out.old rows → OnOk result (R.grew first out.new (rows ++ msti_rows plan.now tree port.now)) }
{
    if plan.forest().is_internal(plan.view(), port) {
        put_contest::<MstiMetric, R>(alloc, plan, tree, port, out)
    } else {
        put_outside(plan, tree, port, out)
    }
}

/// Puts the reason of an enabled port.
fn put_enabled<R: Rows>(
    alloc: Global,
    plan: &Settled,
    tree: Tree,
    port: &PortInView,
    out: &mut R,
) -> Result<(), AllocError>
    requires { Contains plan.now.view.ports port.now }
    ensures { (first : R) (rows : List Row) → R.grew first out.old rows → OnOk result (R.grew first out.new (rows ++ enabled_rows plan.now tree port.now)) }
{
    if tree.value() == 0 {
        put_contest::<CistMetric, R>(alloc, plan, tree, port, out)
    } else {
        put_in_msti(alloc, plan, tree, port, out)
    }
}

/// Puts the reason of a port.
fn put_reason<R: Rows>(
    alloc: Global,
    plan: &Settled,
    tree: Tree,
    port: &PortInView,
    out: &mut R,
) -> Result<(), AllocError>
    requires { Contains plan.now.view.ports port.now }
    ensures { (first : R) (rows : List Row) → R.grew first out.old rows → OnOk result (R.grew first out.new (rows ++ reason_rows plan.now tree port.now)) }
{
    if port.is_enabled {
        put_enabled(alloc, plan, tree, port, out)
    } else {
        put_off(plan.view(), tree, port, out)
    }
}

/// Puts the rows of a port in a tree: its role, and the reason.
fn put_in_tree<R: Rows>(
    alloc: Global,
    plan: &Settled,
    tree: Tree,
    port: &PortInView,
    out: &mut R,
) -> Result<(), AllocError>
    requires { Contains plan.now.view.ports port.now }
    ensures { (first : R) (rows : List Row) → R.grew first out.old rows → OnOk result (R.grew first out.new (rows ++ explanation_rows plan.now tree port.now)) }
{
    match role_of(plan, port, tree) {
        None => Ok(()),
        Some(role) => {
            put_heading(tree, &port.name, &port.lan, role, out)?;
            put_reason(alloc, plan, tree, port, out)
        }
    }
}

/// Puts why a logical port has its role in each of these trees.
fn put_in_trees<R: Rows>(
    alloc: Global,
    plan: &Settled,
    trees: &[Tree],
    port: &PortInView,
    out: &mut R,
) -> Result<(), AllocError>
    requires { Contains plan.now.view.ports port.now }
    ensures { (first : R) (rows : List Row) → R.grew first out.old rows → OnOk result (R.grew first out.new (rows ++ flat_map (λ tree. explanation_rows plan.now tree port.now) trees.now)) }
{
    for tree in trees {
        put_in_tree(alloc, plan, *tree, port, out)?;
    }
    Ok(())
}

/// Puts why a logical port of a settled network has its role in a tree that its bridge has: its role, and then which
/// port is its LAN's designated one and whose vector is its bridge's, each against the port itself or the next one, with
/// the component that decides; or that it has received external information, or why it isn't enabled.
///
/// It goes twice over the logical ports. `AllocError`: memory was wanted and refused; some of the rows may have been put.
pub fn put_explanation<R: Rows>(
    alloc: Global,
    plan: &Settled,
    tree: Tree,
    port: &PortInView,
    out: &mut R,
) -> Result<(), AllocError>
    requires port { Contains plan.now.view.ports port.now }
    requires tree { Contains (trees_of_bridge plan.now.net port.now.name.bridge) tree }
    ensures { (explained : List Row) → IsExplained plan.now.net (outcome_of plan.now) tree (named_port port.now) explained
        → (first : R) (rows : List Row) → R.grew first out.old rows → OnOk result (R.grew first out.new (rows ++ explained)) }
{
    plan.known();
    put_in_tree(alloc, plan, tree, port, out)
}

/// Puts why a logical port of a settled network has its role in each tree that its bridge has, rising, as
/// `put_explanation` of each. `AllocError`: memory was wanted and refused; some of the rows may have been put.
pub fn put_explanations<R: Rows>(
    alloc: Global,
    plan: &Settled,
    port: &PortInView,
    out: &mut R,
) -> Result<(), AllocError>
    requires { Contains plan.now.view.ports port.now }
    ensures { (explained : List Row) → AreExplained plan.now.net (outcome_of plan.now) (named_port port.now) (trees_of_bridge plan.now.net port.now.name.bridge) explained
        → (first : R) (rows : List Row) → R.grew first out.old rows → OnOk result (R.grew first out.new (rows ++ explained)) }
{
    plan.known();
    put_in_tree(alloc, plan, Tree::cist(), port, out)?;
    put_in_trees(alloc, plan, plan.view().trees(port.bridge), port, out)
}
