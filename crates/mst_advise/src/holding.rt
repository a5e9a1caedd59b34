ghost use Rattle.std.specs.Prelude.{◌≡◌, ◌↔◌, [], not, IfOk, IsTrue, None};
ghost use Rattle.std.specs.List.{Contains};
ghost use Rattle.mst_view.specs.Viewed.{named_port};
ghost use Rattle.mst_policy.specs.declared.expectation.Expectation.TheVariants as expect;
ghost use Rattle.mst_roles.specs.Roles.{role_in};
ghost use Rattle.mst_net.specs.tables.Tables.{Net};
ghost use Rattle.mst_roles.specs.forest.Settled.{outcome_of};
ghost use Rattle.mst_graph.specs.Lists.{has_any};
ghost use Rattle.mst_verify.specs.tree_judges.judged.reasons.Holds.{Holds, is_wanted};
ghost use Rattle.mst_verify.specs.tree_judges.judged.reasons.Named.{nothing_before};
ghost use Rattle.mst_verify.specs.tree_judges.judged.Islands.{AreKept};
ghost use Rattle.mst_verify.specs.tree_judges.judged.reasons.Over.{HasItsLan};
ghost use Rattle.mst_verify.specs.tree_judges.judged.reasons.Reasons.{AreReasons};
ghost use Rattle.mst_verify.specs.tree_judges.judged.Seen.{IsBefore};
ghost use Rattle.mst_advise.specs.Goals.{expectation_of, forwarding, this_port};

use crate::goal::Goal;
use crate::named::port_named;
use mst_ids::{Name, PortName, Tree, VidSet};
use mst_policy::{Expectation, Leaving};
use mst_roles::{Settled, role_of};
use mst_verify::laws::told_where_broken;
use mst_verify::{Before, Homes, Judged, Reason, reasons};
use mst_view::PortInView;
use std::alloc::{AllocError, Global};

/// Whether a goal holds in a settled network: what a line of a policy says that expects it. `AllocError`: memory was wanted and refused.
pub fn holds(alloc: Global, plan: &Settled, goal: &Goal) -> Result<bool, AllocError>
    ensures { IfOk result (λ holds. IsTrue holds ↔ Holds plan.now.net (outcome_of plan.now) plan.now.net [] nothing_before (expectation_of goal.now)) }
{
    match goal {
        Goal::Root { tree, bridge } => is_root(alloc, plan, *tree, bridge),
        Goal::Forward { tree, port } => Ok(is_forwarding(plan, *tree, port)),
    }
}

/// Whether a bridge is the one root of a tree in its region.
fn is_root(alloc: Global, plan: &Settled, tree: Tree, bridge: &Name) -> Result<bool, AllocError>
    ensures { IfOk result (λ holds. IsTrue holds ↔ Holds plan.now.net (outcome_of plan.now) plan.now.net [] nothing_before (expect.Root tree bridge.now None)) }
{
    plan.known();
    told_where_broken();
    let leaving = Leaving::none(alloc);
    let before = Before::new(alloc, plan, &leaving)?;
    let homes = Homes::new(alloc, plan, &before, &VidSet::none())?;
    let expectation = Expectation::Root {
        tree,
        bridge: *bridge,
        next: None,
    };
    let reasons = reasons_alone(alloc, plan, &before, &homes, &leaving, &expectation)?;
    Ok(are_none(reasons.as_slice()))
}

/// Why an expectation doesn't hold in a network that no other one is prior to, where nothing is meant to leave.
fn reasons_alone<'a, 'b>(
    alloc: Global,
    plan: &'a Settled<'a>,
    before: &'a Before,
    homes: &'a Homes,
    leaving: &'a Leaving<'b>,
    expectation: &Expectation,
) -> Result<Vec<Reason>, AllocError>
    requires kept { AreKept plan.now before.now homes.now }
    requires lan { HasItsLan plan.now.net expectation.now }
    requires leaving { leaving.now ≡ [] }
    ensures { IfOk result (λ reasons. (first : Net) → IsBefore first before.now → AreReasons plan.now.net (outcome_of plan.now) first [] nothing_before expectation.now reasons.items) }
{
    let judged = Judged {
        plan,
        before,
        homes,
        lost: &[],
        prior: None,
        leaving,
    };
    reasons(alloc, &judged, expectation)
}

/// Whether there is no reason.
fn are_none(reasons: &[Reason]) -> bool
    ensures { result ≡ not (has_any reasons.now) }
{
    match reasons {
        [] => true,
        [..] => false,
    }
}

/// Whether the logical port of this name, if there is one, forwards in a tree.
fn is_forwarding(plan: &Settled, tree: Tree, name: &PortName) -> bool
    ensures { IsTrue result ↔ Holds plan.now.net (outcome_of plan.now) plan.now.net [] nothing_before (expect.Role tree (this_port name.now) forwarding) }
{
    plan.known();
    match port_named(plan, name) {
        None => true,
        Some(port) => forwards(plan, tree, port),
    }
}

/// Whether a logical port of the view forwards in a tree.
fn forwards(plan: &Settled, tree: Tree, port: &PortInView) -> bool
    requires { Contains plan.now.view.ports port.now }
    ensures { result ≡ is_wanted forwarding (role_in plan.now.net (outcome_of plan.now) tree (named_port port.now)) }
{
    match role_of(plan, port, tree) {
        None => false,
        Some(role) => role.forwards(),
    }
}
