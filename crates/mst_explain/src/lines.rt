ghost use Rattle.std.specs.Prelude.{◌≡◌, ◌++◌, ◌∷◌, [], List, None, OnOk, Some};
ghost use Rattle.mst_kinds.specs.declared.kind.Kind.TheVariants as kind;
ghost use Rattle.mst_rows.specs.Cells.{number, port as named, word};
ghost use Rattle.mst_rows.specs.Rows.{Row, row_of};
ghost use Rattle.mst_explain.specs.Lines.{explain_rows, designated_contest as designated_in, root_contest as root_in, over_rows, alone_rows, restricted_rows, boundary_rows, disabled_rows};
ghost use Rattle.mst_explain.specs.Told.{fields_of};

use crate::field::{Difference, Values};
use mst_ids::{Name, PortName, Tree};
use mst_kinds::{ContestLine, ExplainLine, Kind};
use mst_roles::Role;
use mst_rows::{Rows, Value, put};
use std::alloc::AllocError;

/// What is told for a port in a tree, of which some vector is the first: the lines of its rows.
#[derive(Clone, Copy)]
pub(crate) struct Contest {
    pub(crate) tree: Tree,
    pub(crate) port: PortName,
    /// Where there is no other vector.
    pub(crate) alone: ContestLine,
    /// Where no component differs.
    pub(crate) over: ContestLine,
    pub(crate) by_cost: ContestLine,
    pub(crate) by_id: ContestLine,
}

/// Which port is its LAN's designated one.
pub(crate) fn designated_contest(tree: Tree, port: &PortName) -> Contest
    ensures { result ≡ designated_in tree port.now }
{
    Contest {
        tree,
        port: *port,
        alone: ContestLine::DesignatedAlone,
        over: ContestLine::DesignatedOver,
        by_cost: ContestLine::DesignatedByCost,
        by_id: ContestLine::DesignatedById,
    }
}

/// Whose vector is its bridge's.
pub(crate) fn root_contest(tree: Tree, port: &PortName) -> Contest
    ensures { result ≡ root_in tree port.now }
{
    Contest {
        tree,
        port: *port,
        alone: ContestLine::RootAlone,
        over: ContestLine::RootOver,
        by_cost: ContestLine::RootByCost,
        by_id: ContestLine::RootById,
    }
}

/// Puts the row of a port in a tree with its role.
pub(crate) fn put_heading<'a, R: Rows>(
    tree: Tree,
    port: &'a PortName,
    lan: &'a Name,
    role: Role,
    out: &mut R,
) -> Result<(), AllocError>
    ensures { (first : R) (rows : List Row) → R.grew first out.old rows → OnOk result (R.grew first out.new (rows ++ explain_rows tree port.now lan.now role)) }
{
    let values = [
        Value::Number(u64::from(tree.value())),
        Value::Port(port),
        Value::Name(lan),
        Value::Word(role.name().as_bytes()),
    ];
    put::<R>(Kind::Explain(ExplainLine::Port), &values, out)
}

/// Puts the row of the first of some, where there is no other one.
pub(crate) fn put_alone<'a, R: Rows>(
    contest: &'a Contest,
    giver: &'a Option<PortName>,
    out: &mut R,
) -> Result<(), AllocError>
    ensures { (first : R) (rows : List Row) → R.grew first out.old rows → OnOk result (R.grew first out.new (rows ++ alone_rows contest.now giver.now)) }
{
    let values = [
        Value::Number(u64::from(contest.tree.value())),
        Value::Port(&contest.port),
        Value::Giver(giver),
    ];
    put::<R>(Kind::Contest(contest.alone), &values, out)
}

/// Puts the row of the first of some, against another one.
pub(crate) fn put_over<'a, R: Rows>(
    contest: &'a Contest,
    giver: &'a Option<PortName>,
    other: &'a Option<PortName>,
    decided: &'a Option<Difference>,
    out: &mut R,
) -> Result<(), AllocError>
    ensures { (first : R) (rows : List Row) → R.grew first out.old rows → OnOk result (R.grew first out.new (rows ++ over_rows contest.now giver.now other.now (fields_of decided.now))) }
{
    match decided {
        None => put_equal(contest, giver, other, out),
        Some(difference) => put_differing(contest, giver, other, difference, out),
    }
}

/// Puts the row of two that have one vector.
fn put_equal<'a, R: Rows>(
    contest: &'a Contest,
    giver: &'a Option<PortName>,
    other: &'a Option<PortName>,
    out: &mut R,
) -> Result<(), AllocError>
    ensures { (first : R) (rows : List Row) → R.grew first out.old rows → OnOk result (R.grew first out.new (rows ++ over_rows contest.now giver.now other.now None)) }
{
    let values = [
        Value::Number(u64::from(contest.tree.value())),
        Value::Port(&contest.port),
        Value::Giver(giver),
        Value::Giver(other),
    ];
    put::<R>(Kind::Contest(contest.over), &values, out)
}

/// Puts the row of two whose vectors differ.
fn put_differing<'a, R: Rows>(
    contest: &'a Contest,
    giver: &'a Option<PortName>,
    other: &'a Option<PortName>,
    difference: &'a Difference,
    out: &mut R,
) -> Result<(), AllocError>
    ensures { (first : R) (rows : List Row) → R.grew first out.old rows → OnOk result (R.grew first out.new (rows ++ over_rows contest.now giver.now other.now (fields_of (Some difference.now)))) }
{
    let (line, x, y) = match difference.values {
        Values::Bridges(x, y) => (contest.by_id, Value::BridgeId(x), Value::BridgeId(y)),
        Values::Ports(x, y) => (contest.by_id, Value::PortId(x), Value::PortId(y)),
        Values::Costs(x, y) => (contest.by_cost, Value::Number(x), Value::Number(y)),
    };
    let values = [
        Value::Number(u64::from(contest.tree.value())),
        Value::Port(&contest.port),
        Value::Giver(giver),
        Value::Giver(other),
        Value::Word(difference.field.as_bytes()),
        x,
        y,
    ];
    put::<R>(Kind::Contest(line), &values, out)
}

/// Puts the row of a port whose role is restricted.
pub(crate) fn put_restricted<R: Rows>(
    tree: Tree,
    port: &PortName,
    out: &mut R,
) -> Result<(), AllocError>
    ensures { (first : R) (rows : List Row) → R.grew first out.old rows → OnOk result (R.grew first out.new (rows ++ restricted_rows tree port.now)) }
{
    let values = [Value::Number(u64::from(tree.value())), Value::Port(port)];
    put::<R>(Kind::Explain(ExplainLine::Restricted), &values, out)
}

/// Puts the row of a port that has received external information, with its role in the CIST.
pub(crate) fn put_boundary<'a, R: Rows>(
    tree: Tree,
    port: &'a PortName,
    role: Role,
    designated: &'a PortName,
    out: &mut R,
) -> Result<(), AllocError>
    ensures { (first : R) (rows : List Row) → R.grew first out.old rows → OnOk result (R.grew first out.new (rows ++ boundary_rows tree port.now role designated.now)) }
{
    let values = [
        Value::Number(u64::from(tree.value())),
        Value::Port(port),
        Value::Word(role.name().as_bytes()),
        Value::Port(designated),
    ];
    put::<R>(Kind::Explain(ExplainLine::Boundary), &values, out)
}

/// Puts why a port isn't enabled: that its bridge is off, that its LAN is down, or both.
pub(crate) fn put_disabled<'a, R: Rows>(
    tree: Tree,
    port: &'a PortName,
    is_on: bool,
    is_up: bool,
    lan: &'a Name,
    out: &mut R,
) -> Result<(), AllocError>
    ensures { (first : R) (rows : List Row) → R.grew first out.old rows → OnOk result (R.grew first out.new (rows ++ disabled_rows tree port.now is_on is_up lan.now)) }
{
    if !is_on {
        put_off(ExplainLine::BridgeOff, tree, port, &port.bridge, out)?;
    }
    if !is_up {
        put_off(ExplainLine::LanDown, tree, port, lan, out)?;
    }
    Ok(())
}

/// Puts the row of a port that isn't enabled because of this bridge or LAN.
fn put_off<'a, R: Rows>(
    line: ExplainLine,
    tree: Tree,
    port: &'a PortName,
    name: &'a Name,
    out: &mut R,
) -> Result<(), AllocError>
    ensures { (first : R) (rows : List Row) → R.grew first out.old rows → OnOk result (R.grew first out.new (rows ++ row_of (kind.Explain line) (number tree ∷ named port.now ∷ word name.now ∷ []) ∷ [])) }
{
    let values = [
        Value::Number(u64::from(tree.value())),
        Value::Port(port),
        Value::Name(name),
    ];
    put::<R>(Kind::Explain(line), &values, out)
}
