ghost use Rattle.std.specs.Prelude.{◌≡◌, ◌++◌, ◌∷◌, [], List, None, IfOk, OnOk, map};
ghost use Rattle.mst_rows.specs.Lines.{row_line};
ghost use Rattle.mst_rows.specs.Rows.{Row, cell};
ghost use Rattle.mst_ids.specs.Vids.{runs_from};
ghost use Rattle.mst_rows.specs.Cells as a_cell;
ghost use Rattle.mst_telling.specs.Rows.{front_cells, kind_at, limit_cells, name_or_none, place as place_of, reason_cells, reason_line, reason_row, role_or_none, row_at};

use crate::kept::KeptReason;
use mst_ids::{Name, Tree, VidSet};
use mst_kinds::{Kind, VerifyLine};
use mst_reasons::{Cause, Parts, Reason, Word, cause_value};
use mst_roles::Role;
use mst_rows::{Rows, Value, put};
use std::alloc::{AllocError, Global};

/// Where a row of a line stands: behind a step, if there is one, and the number of the line.
#[derive(Clone, Copy)]
pub(crate) struct At {
    pub step: Option<u64>,
    pub number: u64,
}

/// What failed, as a value.
fn place(cause: &Option<Cause>) -> Value<'_>
    ensures { cell result ≡ place_of cause.now }
{
    match cause {
        None => Value::NoFailure,
        Some(cause) => cause_value(cause),
    }
}

/// A name as a value, or `-`.
fn name_or_none(name: &Option<Name>) -> Value<'_>
    ensures { cell result ≡ name_or_none name.now }
{
    match name {
        None => Value::Absent,
        Some(name) => Value::Name(name),
    }
}

/// A role as a value, or `-`.
fn role_or_none(role: Option<Role>) -> Value<'static>
    ensures { cell result ≡ role_or_none role }
{
    match role {
        None => Value::Absent,
        Some(role) => Value::Word(role.name().as_bytes()),
    }
}

/// The number of a tree, as a value.
fn tree_number(tree: Tree) -> Value<'static>
    ensures { cell result ≡ a_cell.number tree }
{
    Value::Number(u64::from(tree.value()))
}

/// Which row of a policy tells a reason.
fn line_of(reason: &Reason) -> VerifyLine
    ensures { result ≡ reason_line reason.now }
{
    match reason {
        Reason::OtherRoot { .. } => VerifyLine::OtherRoot,
        Reason::NoRoot { .. } => VerifyLine::NoRoot,
        Reason::OtherNext { .. } => VerifyLine::OtherNext,
        Reason::Region { .. } => VerifyLine::Region,
        Reason::Role { .. } => VerifyLine::Role,
        Reason::Reach { .. } => VerifyLine::Reach,
        Reason::Apart { .. } => VerifyLine::Apart,
        Reason::Leaves { .. } => VerifyLine::Leaves,
        Reason::Together { .. } => VerifyLine::Together,
        Reason::Leaf { .. } => VerifyLine::Leaf,
        Reason::Depth { .. } => VerifyLine::Depth,
        Reason::TooManyHops { .. } => VerifyLine::TooManyHops,
        Reason::NotVia { .. } => VerifyLine::NotVia,
        Reason::Carries { .. } => VerifyLine::Carries,
        Reason::Avoids { .. } => VerifyLine::Avoids,
        Reason::Hops { .. } => VerifyLine::Hops,
        Reason::Age { .. } => VerifyLine::Age,
        Reason::ExternalCost { .. } => VerifyLine::ExternalCost,
        Reason::InternalCost { .. } => VerifyLine::InternalCost,
    }
}

/// Puts what a reason tells behind these values.
fn push_values<'a>(reason: &'a Reason, values: &mut Vec<Value<'a>>) -> Result<(), AllocError>
    ensures { OnOk result (map cell values.new.items ≡ map cell values.old.items ++ reason_cells reason.now) }
{
    match reason {
        Reason::OtherRoot { tree, root, count } => values.extend_from_slice(&[
            tree_number(*tree),
            Value::Name(root),
            Value::Number(*count),
        ]),
        Reason::NoRoot { tree } => values.extend_from_slice(&[tree_number(*tree), Value::Absent]),
        Reason::OtherNext { tree, root, next } => values.extend_from_slice(&[
            tree_number(*tree),
            Value::Name(root),
            name_or_none(next),
        ]),
        Reason::Region { parts } => values.extend_from_slice(&[Value::Groups(parts.as_slice())]),
        Reason::Role { tree, ports, role } => values.extend_from_slice(&[
            tree_number(*tree),
            Value::Ports(ports.as_slice()),
            role_or_none(*role),
        ]),
        Reason::Reach { vids, parts } => push_parts(vids, parts, values),
        Reason::Apart { vids, parts } => push_parts(vids, parts, values),
        Reason::Leaves { vids, parts } => push_parts(vids, parts, values),
        Reason::Together { vids, parts } => push_parts(vids, parts, values),
        Reason::Leaf {
            tree,
            bridge,
            children,
        } => values.extend_from_slice(&[
            tree_number(*tree),
            Value::Name(bridge),
            Value::Names(children.as_slice()),
        ]),
        Reason::Depth {
            tree,
            steps,
            bridges,
        } => values.extend_from_slice(&[
            tree_number(*tree),
            Value::Number(*steps),
            Value::Names(bridges.as_slice()),
        ]),
        Reason::TooManyHops {
            vids,
            hops,
            bridges,
        } => values.extend_from_slice(&[
            Value::Vids(vids),
            Value::Number(*hops),
            Value::Names(bridges.as_slice()),
        ]),
        Reason::NotVia { vids, bridges } => {
            values.extend_from_slice(&[Value::Vids(vids), Value::Names(bridges.as_slice())])
        }
        Reason::Carries { lan, vids } => push_lan(lan, vids, values),
        Reason::Avoids { lan, vids } => push_lan(lan, vids, values),
        Reason::Hops { .. }
        | Reason::Age { .. }
        | Reason::ExternalCost { .. }
        | Reason::InternalCost { .. } => push_limit(reason, values),
    }
}

/// Puts VIDs and the parts of their bridges behind these values.
fn push_parts<'a>(
    vids: &'a VidSet,
    parts: &'a Parts,
    values: &mut Vec<Value<'a>>,
) -> Result<(), AllocError>
    ensures { OnOk result (map cell values.new.items ≡ map cell values.old.items ++ a_cell.vids (runs_from 0 vids.now) ∷ a_cell.groups parts.now ∷ []) }
{
    values.extend_from_slice(&[Value::Vids(vids), Value::Groups(parts.as_slice())])
}

/// Puts a LAN and VIDs behind these values.
fn push_lan<'a>(
    lan: &'a Name,
    vids: &'a VidSet,
    values: &mut Vec<Value<'a>>,
) -> Result<(), AllocError>
    ensures { OnOk result (map cell values.new.items ≡ map cell values.old.items ++ a_cell.word lan.now ∷ a_cell.vids (runs_from 0 vids.now) ∷ []) }
{
    values.extend_from_slice(&[Value::Name(lan), Value::Vids(vids)])
}

/// Puts what a limit tells behind these values, if the reason is that.
fn push_limit<'a>(reason: &'a Reason, values: &mut Vec<Value<'a>>) -> Result<(), AllocError>
    ensures { OnOk result (map cell values.new.items ≡ map cell values.old.items ++ limit_cells reason.now) }
{
    match reason {
        Reason::Hops {
            tree,
            bridge,
            depth,
            limit,
        } => push_bound(*tree, bridge, *depth, *limit, values),
        Reason::Age {
            tree,
            bridge,
            depth,
            limit,
        } => push_bound(*tree, bridge, *depth, *limit, values),
        Reason::ExternalCost { tree, bridge, cost } => push_cost(*tree, bridge, *cost, values),
        Reason::InternalCost { tree, bridge, cost } => push_cost(*tree, bridge, *cost, values),
        _ => Ok(()),
    }
}

/// Puts a depth and its limit behind these values.
fn push_bound<'a>(
    tree: u64,
    bridge: &'a Word,
    depth: u64,
    limit: u64,
    values: &mut Vec<Value<'a>>,
) -> Result<(), AllocError>
    ensures { OnOk result (map cell values.new.items ≡ map cell values.old.items ++ a_cell.number tree ∷ a_cell.word bridge.now ∷ a_cell.number depth ∷ a_cell.number limit ∷ []) }
{
    values.extend_from_slice(&[
        Value::Number(tree),
        Value::Word(bridge.as_slice()),
        Value::Number(depth),
        Value::Number(limit),
    ])
}

/// Puts a cost behind these values.
fn push_cost<'a>(
    tree: u64,
    bridge: &'a Word,
    cost: u64,
    values: &mut Vec<Value<'a>>,
) -> Result<(), AllocError>
    ensures { OnOk result (map cell values.new.items ≡ map cell values.old.items ++ a_cell.number tree ∷ a_cell.word bridge.now ∷ a_cell.number cost ∷ []) }
{
    values.extend_from_slice(&[
        Value::Number(tree),
        Value::Word(bridge.as_slice()),
        Value::Number(cost),
    ])
}

/// The values in front of those of a reason: the step, if there is one, the number of the line, and what failed.
fn front(alloc: Global, at: At, cause: &Option<Cause>) -> Result<Vec<Value<'_>>, AllocError>
    ensures { IfOk result (λ values. map cell values.items ≡ front_cells at.step at.number cause.now) }
{
    match at.step {
        None => Vec::from_slice(alloc, &[Value::Number(at.number), place(cause)]),
        Some(step) => Vec::from_slice(
            alloc,
            &[Value::Number(step), Value::Number(at.number), place(cause)],
        ),
    }
}

/// The kind of a row of a policy, behind a step if there is one.
fn kind_of(step: Option<u64>, line: VerifyLine) -> Kind
    ensures { result ≡ kind_at step line }
{
    match step {
        None => Kind::Verify(line),
        Some(_) => Kind::StepVerify(line),
    }
}

/// Puts why the expectation of a line doesn't hold, by what failed.
fn put_own<R: Rows>(
    alloc: Global,
    at: At,
    cause: &Option<Cause>,
    reason: &Reason,
    out: &mut R,
) -> Result<(), AllocError>
    ensures { (first : R) (rows : List Row) → R.grew first out.old rows → OnOk result (R.grew first out.new (rows ++ row_at at.step (reason_row at.number cause.now reason.now) ∷ [])) }
{
    let mut values = front(alloc, at, cause)?;
    push_values(reason, &mut values)?;
    out.row(kind_of(at.step, line_of(reason)), values.as_slice())
}

/// The same by a reason as it is kept.
pub(crate) fn put_reason<R: Rows>(
    alloc: Global,
    at: At,
    cause: &Option<Cause>,
    reason: &KeptReason,
    out: &mut R,
) -> Result<(), AllocError>
    ensures { (first : R) (rows : List Row) → R.grew first out.old rows → OnOk result (R.grew first out.new (rows ++ row_at at.step (reason_row at.number cause.now reason.now) ∷ [])) }
{
    let told = reason.told(alloc)?;
    put_own(alloc, at, cause, told.reason(), out)
}

/// The line of text of that.
pub(crate) fn reason_text(
    alloc: Global,
    number: u64,
    cause: &Option<Cause>,
    reason: &KeptReason,
) -> Result<Vec<u8>, AllocError>
    ensures { IfOk result (λ text. text.items ≡ row_line (reason_row number cause.now reason.now)) }
{
    let mut text = Vec::new(alloc);
    let at = At { step: None, number };
    put_reason(alloc, at, cause, reason, &mut text)?;
    Ok(text)
}
