ghost use Rattle.std.specs.Prelude.{◌≡◌, ◌++◌, ◌∷◌, [], List, OnOk};
ghost use Rattle.std.specs.List.{Contains};
ghost use Rattle.mst_view.specs.Viewed.{named_port};
ghost use Rattle.mst_rows.specs.Rows.{Row};
ghost use Rattle.mst_text.specs.TreeRows.{cist_port_row, disabled_row, msti_port_row, port_row};
ghost use Rattle.mst_text.specs.TreeRuns.{port_of};

use mst_ids::Tree;
use mst_kinds::{Kind, TreeLine};
use mst_rows::{Rows, Value, put};
use mst_tables::TreeSettings;
use mst_vector::{CistPort, MstiPort};
use mst_view::PortInView;
use mst_vlan::{Role, Settled, cist_port, msti_port, role_of};
use std::alloc::AllocError;

/// Puts the row of a logical port, if its bridge has the tree.
pub(crate) fn put_port<R: Rows>(
    plan: &Settled,
    tree: Tree,
    port: &PortInView,
    out: &mut R,
) -> Result<(), AllocError>
    requires { Contains plan.now.view.ports port.now }
    ensures { (first : R) (rows : List Row) → R.grew first out.old rows → OnOk result (R.grew first out.new (rows ++ port_of plan.now tree port.now)) }
{
    match role_of(plan, port, tree) {
        None => Ok(()),
        Some(role) => put_with_role(plan.settings(), tree, port, role, out),
    }
}

/// Puts the row of a logical port with its role.
fn put_with_role<R: Rows>(
    settings: &TreeSettings,
    tree: Tree,
    port: &PortInView,
    role: Role,
    out: &mut R,
) -> Result<(), AllocError>
    ensures { (first : R) (rows : List Row) → R.grew first out.old rows → OnOk result (R.grew first out.new (rows ++ port_row settings.now.set tree (named_port port.now) role ∷ [])) }
{
    let role = role.name();
    if !port.is_enabled {
        return put_disabled(tree, port, role, out);
    }
    if tree.value() == 0 {
        put_in_cist(port, &cist_port(settings, port), role, out)
    } else {
        put_in_msti(tree, port, &msti_port(settings, tree, port), role, out)
    }
}

/// Puts the row of an enabled port in the CIST with the name of its role.
fn put_in_cist<'a, R: Rows>(
    port: &'a PortInView,
    cist: &CistPort,
    role: &'a str,
    out: &mut R,
) -> Result<(), AllocError>
    ensures { (first : R) (rows : List Row) → R.grew first out.old rows → OnOk result (R.grew first out.new (rows ++ cist_port_row port.now.name port.now.lan cist.now role.now ∷ [])) }
{
    let values = [
        Value::Number(0),
        Value::Name(&port.name.bridge),
        Value::Number(u64::from(port.name.number.value())),
        Value::Name(&port.lan),
        Value::PortId(cist.id),
        Value::Number(cist.external.value()),
        Value::Number(cist.internal.value()),
        Value::Word(role.as_bytes()),
    ];
    put::<R>(Kind::Tree(TreeLine::PortInCist), &values, out)
}

/// Puts the row of an enabled port in an MSTI with the name of its role.
fn put_in_msti<'a, R: Rows>(
    tree: Tree,
    port: &'a PortInView,
    msti: &MstiPort,
    role: &'a str,
    out: &mut R,
) -> Result<(), AllocError>
    ensures { (first : R) (rows : List Row) → R.grew first out.old rows → OnOk result (R.grew first out.new (rows ++ msti_port_row tree port.now.name port.now.lan msti.now role.now ∷ [])) }
{
    let values = [
        Value::Number(u64::from(tree.value())),
        Value::Name(&port.name.bridge),
        Value::Number(u64::from(port.name.number.value())),
        Value::Name(&port.lan),
        Value::PortId(msti.id),
        Value::Number(msti.internal.value()),
        Value::Word(role.as_bytes()),
    ];
    put::<R>(Kind::Tree(TreeLine::PortInMsti), &values, out)
}

/// Puts the row of a port that isn't enabled with the name of its role.
fn put_disabled<'a, R: Rows>(
    tree: Tree,
    port: &'a PortInView,
    role: &'a str,
    out: &mut R,
) -> Result<(), AllocError>
    ensures { (first : R) (rows : List Row) → R.grew first out.old rows → OnOk result (R.grew first out.new (rows ++ disabled_row tree port.now.name port.now.lan role.now ∷ [])) }
{
    let values = [
        Value::Number(u64::from(tree.value())),
        Value::Name(&port.name.bridge),
        Value::Number(u64::from(port.name.number.value())),
        Value::Name(&port.lan),
        Value::Word(role.as_bytes()),
    ];
    put::<R>(Kind::Tree(TreeLine::PortDisabled), &values, out)
}
