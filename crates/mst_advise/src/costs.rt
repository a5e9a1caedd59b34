ghost use Rattle.std.specs.Prelude.{◌≡◌, ◌++◌, OnOk};
ghost use Rattle.std.specs.List.{Contains};
ghost use Rattle.mst_view.specs.Viewed.{named_port};
ghost use Rattle.mst_roles.specs.forest.Settled.{outcome_of};
ghost use Rattle.mst_advise.specs.Costs.{against, contested as contested_by, cost_of as own_cost_of, cost_setting as own_setting, greatest_cost, higher_costs, is_inner as is_inner_of, least_cost, lower_costs, with_cost};

use crate::contests::RootContest;
use crate::named::port_named;
use crate::setting::Setting;
use mst_ids::{Cost, Tree};
use mst_roles::{Settled, cist_port, msti_port};
use mst_view::PortInView;
use std::alloc::AllocError;

/// Whether the LAN of an enabled port belongs to the region of its bridge.
fn is_inner(plan: &Settled, port: &PortInView) -> bool
    requires { Contains plan.now.view.ports port.now }
    ensures { result ≡ is_inner_of plan.now.net (outcome_of plan.now) (named_port port.now) }
{
    plan.known();
    plan.forest().is_internal(plan.view(), port)
}

/// The tree in which it is settled whether a port forwards.
pub(crate) fn contested(plan: &Settled, tree: Tree, port: &PortInView) -> Tree
    requires { Contains plan.now.view.ports port.now }
    ensures { result ≡ contested_by plan.now.net (outcome_of plan.now) tree (named_port port.now) }
{
    if is_inner(plan, port) {
        tree
    } else {
        Tree::cist()
    }
}

/// The cost of a port that counts on its LAN in a tree.
fn cost_of(plan: &Settled, tree: Tree, port: &PortInView) -> u64
    requires { Contains plan.now.view.ports port.now }
    ensures { result ≡ own_cost_of plan.now.net (outcome_of plan.now) tree (named_port port.now) }
{
    let settings = plan.settings();
    if is_inner(plan, port) {
        msti_port(settings, tree, port).internal.value()
    } else {
        cist_port(settings, port).external.value()
    }
}

/// The setting of that cost.
fn cost_setting(plan: &Settled, tree: Tree, port: &PortInView, cost: Cost) -> Setting
    requires { Contains plan.now.view.ports port.now }
    ensures { result ≡ own_setting plan.now.net (outcome_of plan.now) tree (named_port port.now) cost }
{
    if is_inner(plan, port) {
        Setting::InternalCost {
            port: port.name,
            tree,
            cost,
        }
    } else {
        Setting::ExternalCost {
            port: port.name,
            cost,
        }
    }
}

/// Adds this cost for a port, if it is one, and another than the port has.
fn add_cost(
    plan: &Settled,
    tree: Tree,
    port: &PortInView,
    cost: u64,
    found: &mut Vec<Setting>,
) -> Result<(), AllocError>
    requires { Contains plan.now.view.ports port.now }
    ensures { OnOk result (found.new.items ≡ found.old.items ++ with_cost plan.now.net (outcome_of plan.now) tree (named_port port.now) cost) }
{
    if cost == cost_of(plan, tree, port) {
        return Ok(());
    }
    match Cost::new(cost) {
        None => Ok(()),
        Some(cost) => {
            let setting = cost_setting(plan, tree, port, cost);
            found.push(setting)?;
            Ok(())
        }
    }
}

/// Adds a cost that is less by so much, and by one more.
fn add_lower(
    plan: &Settled,
    tree: Tree,
    port: &PortInView,
    excess: u64,
    found: &mut Vec<Setting>,
) -> Result<(), AllocError>
    requires { Contains plan.now.view.ports port.now }
    ensures { OnOk result (found.new.items ≡ found.old.items ++ lower_costs plan.now.net (outcome_of plan.now) tree (named_port port.now) excess) }
{
    let low = cost_of(plan, tree, port).saturating_sub(excess);
    add_cost(plan, tree, port, low, found)?;
    add_cost(plan, tree, port, low.saturating_sub(1), found)
}

/// Adds a cost that is greater by so much, and by one more.
fn add_higher(
    plan: &Settled,
    tree: Tree,
    port: &PortInView,
    excess: u64,
    found: &mut Vec<Setting>,
) -> Result<(), AllocError>
    requires { Contains plan.now.view.ports port.now }
    ensures { OnOk result (found.new.items ≡ found.old.items ++ higher_costs plan.now.net (outcome_of plan.now) tree (named_port port.now) excess) }
{
    let high = cost_of(plan, tree, port).saturating_add(excess);
    add_cost(plan, tree, port, high, found)?;
    add_cost(plan, tree, port, high.saturating_add(1), found)
}

/// Adds the costs of a port that doesn't give its bridge the root priority vector, and of the one of this name that does.
pub(crate) fn add_against(
    plan: &Settled,
    tree: Tree,
    port: &PortInView,
    contest: &RootContest,
    found: &mut Vec<Setting>,
) -> Result<(), AllocError>
    requires { Contains plan.now.view.ports port.now }
    ensures { OnOk result (found.new.items ≡ found.old.items ++ against plan.now.net (outcome_of plan.now) tree (named_port port.now) contest.now) }
{
    plan.known();
    match port_named(plan, &contest.winner) {
        None => Ok(()),
        Some(winner) => {
            add_lower(plan, tree, port, contest.excess, found)?;
            add_higher(plan, tree, winner, contest.excess, found)
        }
    }
}

/// Adds the greatest cost of the port of this name that gives its bridge the root priority vector.
pub(crate) fn add_greatest(
    plan: &Settled,
    tree: Tree,
    contest: &RootContest,
    found: &mut Vec<Setting>,
) -> Result<(), AllocError>
    ensures { OnOk result (found.new.items ≡ found.old.items ++ greatest_cost plan.now.net (outcome_of plan.now) tree contest.now) }
{
    plan.known();
    match port_named(plan, &contest.winner) {
        None => Ok(()),
        Some(winner) => add_cost(plan, tree, winner, 200_000_000, found),
    }
}

/// Adds the least cost of a port whose role isn't restricted.
pub(crate) fn add_least(
    plan: &Settled,
    tree: Tree,
    port: &PortInView,
    found: &mut Vec<Setting>,
) -> Result<(), AllocError>
    requires { Contains plan.now.view.ports port.now }
    ensures { OnOk result (found.new.items ≡ found.old.items ++ least_cost plan.now.net (outcome_of plan.now) tree (named_port port.now)) }
{
    if port.settings.is_restricted {
        return Ok(());
    }
    add_cost(plan, tree, port, 1, found)
}
