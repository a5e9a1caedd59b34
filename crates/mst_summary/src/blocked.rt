ghost use Rattle.std.specs.Prelude.{◌≡◌, ◌++◌, ◌∷◌, [], List, IfOk, OnOk};
ghost use Rattle.std.specs.List.{Contains};
ghost use Rattle.mst_view.specs.Viewed.{named_port};
ghost use Rattle.mst_rows.specs.Rows.{Row};
ghost use Rattle.mst_vlan.specs.forest.Settled.{outcome_of};
ghost use Rattle.mst_summary.specs.Blocked.{stops as stops_of, is_blocked as blocks, blocked_row};
ghost use Rattle.mst_summary.specs.Seen.{blocked_of};

use crate::looked_up::role;
use mst_ids::{PortName, Tree};
use mst_kinds::{Kind, SummaryLine};
use mst_rows::{Rows, Value, put};
use mst_view::PortInView;
use mst_vlan::{Role, Settled};
use std::alloc::{AllocError, Global};

/// Whether there is a role, and it doesn't forward.
fn stops(role: Option<Role>) -> bool
    ensures { result ≡ stops_of role }
{
    match role {
        None => false,
        Some(role) => !role.forwards(),
    }
}

/// Whether a port is an enabled one of the tree and doesn't forward.
fn is_blocked(plan: &Settled, tree: Tree, port: &PortInView) -> bool
    requires { Contains plan.now.view.ports port.now }
    ensures { result ≡ blocks plan.now.net (outcome_of plan.now) tree (named_port port.now) }
{
    port.is_enabled && stops(role(plan, tree, port))
}

/// The enabled ports of a tree that don't forward.
fn blocked(alloc: Global, plan: &Settled, tree: Tree) -> Result<Vec<PortName>, AllocError>
    ensures { IfOk result (λ names. names.items ≡ blocked_of plan.now tree) }
{
    plan.view()
        .ports()
        .iter()
        .filter(|port| is_blocked(plan, tree, port))
        .map(|port| port.name)
        .collect(alloc)
}

/// Puts the row of these ports.
fn put_row<R: Rows>(tree: Tree, ports: &[PortName], out: &mut R) -> Result<(), AllocError>
    ensures { (first : R) (rows : List Row) → R.grew first out.old rows → OnOk result (R.grew first out.new (rows ++ blocked_row tree ports.now ∷ [])) }
{
    let values = [Value::Number(u64::from(tree.value())), Value::Ports(ports)];
    put::<R>(Kind::Summary(SummaryLine::Blocked), &values, out)
}

/// Puts the row of the enabled ports of a tree that don't forward.
pub(crate) fn put_blocked<R: Rows>(
    alloc: Global,
    plan: &Settled,
    tree: Tree,
    out: &mut R,
) -> Result<(), AllocError>
    ensures { (first : R) (rows : List Row) → R.grew first out.old rows → OnOk result (R.grew first out.new (rows ++ blocked_row tree (blocked_of plan.now tree) ∷ [])) }
{
    let ports = blocked(alloc, plan, tree)?;
    put_row(tree, ports.as_slice(), out)
}
