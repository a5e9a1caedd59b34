ghost use Rattle.std.specs.Prelude.{◌≡◌, ◌++◌, not, ◌||◌, IfOk, OnOk, filter, map};
ghost use Rattle.mst_ids.specs.declared.name.PortName.{PortName as PortNameOf};
ghost use Rattle.mst_view.specs.Viewed.{named_port};
ghost use Rattle.mst_tables.specs.Tables.{Net, port_eq};
ghost use Rattle.mst_roles.specs.forest.Settled.{outcome_of};
ghost use Rattle.mst_judged.specs.reasons.Named.{ports_named as ports_named_in};
ghost use Rattle.mst_judged.specs.reasons.Holds.{is_wanted as is_wanted_of};
ghost use Rattle.mst_judged.specs.reasons.Reasons.{same_role, all_roles as all_the_roles, role_reasons as reasons_of_roles};
ghost use Rattle.mst_judged.specs.Seen.{IsBefore, seen_stopped, seen_ports_named};
ghost use Rattle.mst_tree_judges.specs.Seen.{seen_with_role, seen_role_reason};

use mst_ids::{PortName, Tree};
use mst_judged::{Before, Judged, PortNames, Reason};
use mst_policy::{PortList, Roles};
use mst_roles::{Role, Settled, port_role};
use mst_view::PortInView;
use std::alloc::{AllocError, Global};

/// All roles in their order, and none.
const ALL_ROLES: [Option<Role>; 7] = [
    Some(Role::Root),
    Some(Role::Designated),
    Some(Role::Alternate),
    Some(Role::Backup),
    Some(Role::Master),
    Some(Role::Disabled),
    None,
];

/// Whether a port isn't enabled that was so before the failure.
fn is_stopped(before: &Before, port: &PortInView) -> bool
    ensures { result ≡ seen_stopped before.now port.now }
{
    !port.is_enabled && before.enabled.contains(&port.name)
}

/// The logical ports of these: those that stopped are none of them.
fn ports_named(
    alloc: Global,
    judged: &Judged,
    ports: &PortList,
) -> Result<Vec<PortInView>, AllocError>
    ensures { IfOk result (λ named. named.items ≡ seen_ports_named judged.now.plan.now.view judged.now.before.now ports.now) }
{
    judged
        .plan
        .view()
        .ports()
        .iter()
        .filter(|port| ports.has(&port.name) && !is_stopped(judged.before, port))
        .copied()
        .collect(alloc)
}

/// Whether two are the same role, or both are none.
fn is_same(role: Option<Role>, other: Option<Role>) -> bool
    ensures { result ≡ same_role role other }
{
    match (role, other) {
        (None, None) => true,
        (Some(role), Some(other)) => role == other,
        _ => false,
    }
}

/// Whether a role is one of these.
fn is_wanted(roles: &Roles, role: Option<Role>) -> bool
    ensures { result ≡ is_wanted_of roles.now role }
{
    match role {
        None => false,
        Some(Role::Root) => roles.root,
        Some(Role::Designated) => roles.designated,
        Some(Role::Alternate) => roles.alternate,
        Some(Role::Backup) => roles.backup,
        Some(Role::Master) => roles.master,
        Some(Role::Disabled) => roles.disabled,
    }
}

/// The names of those of these ports that have a role in a tree.
fn with_role(
    alloc: Global,
    plan: &Settled,
    tree: Tree,
    ports: &[PortInView],
    role: Option<Role>,
) -> Result<Vec<PortName>, AllocError>
    ensures { IfOk result (λ names. names.items ≡ seen_with_role plan.now.view plan.now.forest tree ports.now role) }
{
    ports
        .iter()
        .filter(|port| is_same(port_role(plan.view(), plan.forest(), port, tree), role))
        .map(|port| port.name)
        .collect(alloc)
}

/// Adds the reason of the ports that have a role, if that isn't wanted and there are any.
fn add_role(
    alloc: Global,
    plan: &Settled,
    tree: Tree,
    ports: &[PortInView],
    roles: &Roles,
    role: Option<Role>,
    reasons: &mut Vec<Reason>,
) -> Result<(), AllocError>
    ensures { OnOk result (reasons.new.items ≡ reasons.old.items ++ seen_role_reason plan.now.view plan.now.forest tree ports.now roles.now role) }
{
    if is_wanted(roles, role) {
        return Ok(());
    }
    let names = with_role(alloc, plan, tree, ports, role)?;
    if names.is_empty() {
        return Ok(());
    }
    reasons.push(Reason::Role {
        tree,
        ports: PortNames::of(names),
        role,
    })?;
    Ok(())
}

/// Which of these ports have roles in a tree that aren't wanted, a reason for each such role. `AllocError`: memory was wanted and refused.
pub fn role_reasons(
    alloc: Global,
    judged: &Judged,
    tree: Tree,
    ports: &PortList,
    roles: &Roles,
) -> Result<Vec<Reason>, AllocError>
    ensures { IfOk result (λ reasons. (before : Net) → IsBefore before judged.now.before.now
        → reasons.items ≡ reasons_of_roles judged.now.plan.now.net (outcome_of judged.now.plan.now) tree (ports_named_in judged.now.plan.now.net before ports.now) roles.now) }
{
    let plan = judged.plan;
    plan.known();
    let named = ports_named(alloc, judged, ports)?;
    let mut reasons = Vec::new(alloc);
    for role in ALL_ROLES {
        add_role(
            alloc,
            plan,
            tree,
            named.as_slice(),
            roles,
            role,
            &mut reasons,
        )?;
    }
    Ok(reasons)
}
