ghost use Rattle.std.specs.Prelude.{◌≡◌, ◌==◌, ◌||◌, ◌++◌, [], true, IfOk, OnOk};
ghost use Rattle.std.specs.List.{Contains};
ghost use Rattle.std.specs.Option.{option_map_or};
ghost use Rattle.mst_view.specs.Viewed.{named_port};
ghost use Rattle.mst_roles.specs.Roles.{role_in};
ghost use Rattle.mst_roles.specs.forest.Msti.{has_msti};
ghost use Rattle.mst_roles.specs.forest.Settled.{name_of_port, outcome_of};
ghost use Rattle.mst_advise.specs.Costs.{against, greatest_cost, port_named as port_of_name};
ghost use Rattle.mst_advise.specs.InQuestion.{AreInQuestion, AreInQuestionBy, AreInQuestionOf, beside, by_contest, designated_beside as designated_of, extremes, in_question as question_of};

use crate::contests::{Contests, RootContest, lost_by};
use crate::costs::{add_against, add_greatest, add_least, contested};
use crate::named::port_named;
use crate::port_priorities::add_port_priorities;
use crate::priorities::add_lower_priorities;
use crate::setting::{Setting, once};
use mst_explain::laws::some_explained;
use mst_explain::put_explanation;
use mst_ids::{PortName, PortNo, Tree};
use mst_roles::{Settled, role_of};
use mst_view::PortInView;
use std::alloc::{AllocError, Global};

/// The name of the port of this number.
fn name_of(plan: &Settled, number: PortNo) -> Option<PortName>
    ensures { result ≡ name_of_port plan.now.view number }
{
    let port = plan.view().port(number)?;
    Some(port.name)
}

/// The designated port of the LAN of an enabled port in a tree.
fn designated_beside(plan: &Settled, tree: Tree, port: &PortInView) -> Option<PortName>
    requires { Contains plan.now.view.ports port.now }
    ensures { result ≡ designated_of (outcome_of plan.now) tree (named_port port.now) }
{
    plan.known();
    if !port.is_enabled {
        return None;
    }
    match plan.forest().designated(tree, port.lan_number) {
        None => None,
        Some(number) => name_of(plan, number),
    }
}

/// Adds the costs by the contest that a port loses.
fn add_costs(
    plan: &Settled,
    tree: Tree,
    port: &PortInView,
    lost: &Option<RootContest>,
    found: &mut Vec<Setting>,
) -> Result<(), AllocError>
    requires { Contains plan.now.view.ports port.now }
    ensures { OnOk result (found.new.items ≡ found.old.items ++ by_contest (against plan.now.net (outcome_of plan.now) tree (named_port port.now)) lost.now) }
{
    match lost {
        None => Ok(()),
        Some(contest) => add_against(plan, tree, port, contest, found),
    }
}

/// Adds the greatest cost of who wins that contest.
fn add_greatest_of(
    plan: &Settled,
    tree: Tree,
    lost: &Option<RootContest>,
    found: &mut Vec<Setting>,
) -> Result<(), AllocError>
    ensures { OnOk result (found.new.items ≡ found.old.items ++ by_contest (greatest_cost plan.now.net (outcome_of plan.now) tree) lost.now) }
{
    match lost {
        None => Ok(()),
        Some(contest) => add_greatest(plan, tree, contest, found),
    }
}

/// Adds extreme costs, and priorities of a port's bridge, where its LAN's designated port is on another one.
fn add_extremes(
    alloc: Global,
    plan: &Settled,
    tree: Tree,
    port: &PortInView,
    lost: &Option<RootContest>,
    designated: &PortName,
    found: &mut Vec<Setting>,
) -> Result<(), AllocError>
    requires { Contains plan.now.view.ports port.now }
    ensures { OnOk result (found.new.items ≡ found.old.items ++ extremes plan.now.net (outcome_of plan.now) tree (named_port port.now) lost.now designated.now) }
{
    add_least(plan, tree, port, found)?;
    add_greatest_of(plan, tree, lost, found)?;
    add_lower_priorities(
        alloc,
        plan,
        tree,
        &port.name.bridge,
        &designated.bridge,
        found,
    )
}

/// Adds what goes by the designated port of a port's LAN.
fn add_beside(
    alloc: Global,
    plan: &Settled,
    tree: Tree,
    port: &PortInView,
    lost: &Option<RootContest>,
    designated: &PortName,
    found: &mut Vec<Setting>,
) -> Result<(), AllocError>
    requires { Contains plan.now.view.ports port.now }
    ensures { OnOk result (found.new.items ≡ found.old.items ++ beside plan.now.net (outcome_of plan.now) tree (named_port port.now) lost.now designated.now) }
{
    if designated.bridge == port.name.bridge {
        add_port_priorities(plan, tree, &port.name, designated, found)
    } else {
        add_extremes(alloc, plan, tree, port, lost, designated, found)
    }
}

/// Adds that, if there is one.
fn add_by_designated(
    alloc: Global,
    plan: &Settled,
    tree: Tree,
    port: &PortInView,
    lost: &Option<RootContest>,
    found: &mut Vec<Setting>,
) -> Result<(), AllocError>
    requires { Contains plan.now.view.ports port.now }
    ensures { OnOk result (found.new.items ≡ found.old.items ++ option_map_or (beside plan.now.net (outcome_of plan.now) tree (named_port port.now) lost.now) (designated_of (outcome_of plan.now) tree (named_port port.now)) []) }
{
    match designated_beside(plan, tree, port) {
        None => Ok(()),
        Some(designated) => add_beside(alloc, plan, tree, port, lost, &designated, found),
    }
}

/// The settings in question by the contest that a port loses, if it loses one.
fn in_question(
    alloc: Global,
    plan: &Settled,
    tree: Tree,
    port: &PortInView,
    lost: &Option<RootContest>,
) -> Result<Vec<Setting>, AllocError>
    requires { Contains plan.now.view.ports port.now }
    ensures { IfOk result (λ settings. settings.items ≡ question_of plan.now.net (outcome_of plan.now) tree (named_port port.now) lost.now) }
{
    let mut found = Vec::new(alloc);
    add_costs(plan, tree, port, lost, &mut found)?;
    add_by_designated(alloc, plan, tree, port, lost, &mut found)?;
    Ok(found)
}

/// The settings by the explanation of a port in a tree that its bridge has.
fn settings_by(
    alloc: Global,
    plan: &Settled,
    tree: Tree,
    port: &PortInView,
) -> Result<Vec<Setting>, AllocError>
    requires port { Contains plan.now.view.ports port.now }
    requires tree { (tree == 0 || has_msti plan.now.net tree port.now.name.bridge) ≡ true }
    ensures { IfOk result (λ settings. AreInQuestion plan.now.net (outcome_of plan.now) tree (named_port port.now) settings.items) }
{
    some_explained();
    plan.known();
    let mut contests = Contests {
        found: Vec::new(alloc),
    };
    put_explanation(alloc, plan, tree, port, &mut contests)?;
    let lost = lost_by(&port.name, contests.found.as_slice());
    let settings = in_question(alloc, plan, tree, port, &lost)?;
    once(alloc, settings.as_slice())
}

/// The settings where a logical port is to forward.
fn settings_of(
    alloc: Global,
    plan: &Settled,
    tree: Tree,
    port: &PortInView,
) -> Result<Vec<Setting>, AllocError>
    requires { Contains plan.now.view.ports port.now }
    ensures { IfOk result (λ settings. AreInQuestionBy plan.now.net (outcome_of plan.now) tree (named_port port.now) (role_in plan.now.net (outcome_of plan.now) tree (named_port port.now)) settings.items) }
{
    match role_of(plan, port, tree) {
        None => Ok(Vec::new(alloc)),
        Some(_) => settings_by(alloc, plan, contested(plan, tree, port), port),
    }
}

/// The settings of which each may let the port of this name forward in a tree, each once, in the order in which they are tried: costs,
/// priorities of it and of the designated port beside it where both are of one bridge, and else extreme costs, and priorities of its
/// bridge. None where the port isn't there. `AllocError`: memory was wanted and refused.
///
/// It goes once over the bridges and twice over the logical ports.
pub fn port_settings(
    alloc: Global,
    plan: &Settled,
    tree: Tree,
    name: &PortName,
) -> Result<Vec<Setting>, AllocError>
    ensures { IfOk result (λ settings. AreInQuestionOf plan.now.net (outcome_of plan.now) tree (port_of_name plan.now.net name.now) settings.items) }
{
    plan.known();
    match port_named(plan, name) {
        None => Ok(Vec::new(alloc)),
        Some(port) => settings_of(alloc, plan, tree, port),
    }
}
