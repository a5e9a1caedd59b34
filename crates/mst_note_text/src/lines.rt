ghost use Rattle.std.specs.Prelude.{◌++◌, ◌∷◌, [], List, OnOk};
ghost use Rattle.mst_view.specs.Viewed.{named_port};
ghost use Rattle.mst_rows.specs.Rows.{Row};
ghost use Rattle.mst_note_text.specs.NotesText.{hops_note, age_note, external_note, internal_note, restricted_row, restricted_note};

use mst_ids::{MaxAge, MaxHops, Name, PortName, Tree};
use mst_kinds::{Kind, NoteLine};
use mst_rows::{Rows, Value, put};
use mst_view::PortInView;
use std::alloc::AllocError;

/// The greatest path cost that 32 bits hold, as in a BPDU.
const GREATEST_COST: u64 = 4_294_967_295;

/// Puts a note where a bridge of this depth is at least as deep as the limit of hops.
pub(crate) fn put_hops<R: Rows>(
    tree: Tree,
    name: &Name,
    depth: usize,
    limit: MaxHops,
    out: &mut R,
) -> Result<(), AllocError>
    ensures { (first : R) (rows : List Row) → R.grew first out.old rows → OnOk result (R.grew first out.new (rows ++ hops_note tree name.now depth limit)) }
{
    if (depth as u64) < limit.value() {
        return Ok(());
    }
    let values = [
        Value::Number(u64::from(tree.value())),
        Value::Name(name),
        Value::Number(depth as u64),
        Value::Number(limit.value()),
    ];
    put::<R>(Kind::Note(NoteLine::Hops), &values, out)
}

/// Puts a note where a bridge of this depth is deeper than the limit of age.
pub(crate) fn put_age<R: Rows>(
    name: &Name,
    depth: usize,
    limit: MaxAge,
    out: &mut R,
) -> Result<(), AllocError>
    ensures { (first : R) (rows : List Row) → R.grew first out.old rows → OnOk result (R.grew first out.new (rows ++ age_note name.now depth limit)) }
{
    if depth as u64 <= limit.value() {
        return Ok(());
    }
    let values = [
        Value::Number(0),
        Value::Name(name),
        Value::Number(depth as u64),
        Value::Number(limit.value()),
    ];
    put::<R>(Kind::Note(NoteLine::Age), &values, out)
}

/// Puts a note of an external root path cost that 32 bits don't hold.
pub(crate) fn put_external<R: Rows>(
    tree: Tree,
    name: &Name,
    cost: u64,
    out: &mut R,
) -> Result<(), AllocError>
    ensures { (first : R) (rows : List Row) → R.grew first out.old rows → OnOk result (R.grew first out.new (rows ++ external_note tree name.now cost)) }
{
    if cost <= GREATEST_COST {
        return Ok(());
    }
    let values = [
        Value::Number(u64::from(tree.value())),
        Value::Name(name),
        Value::Number(cost),
    ];
    put::<R>(Kind::Note(NoteLine::ExternalCost), &values, out)
}

/// Puts a note of an internal root path cost that 32 bits don't hold.
pub(crate) fn put_internal<R: Rows>(
    tree: Tree,
    name: &Name,
    cost: u64,
    out: &mut R,
) -> Result<(), AllocError>
    ensures { (first : R) (rows : List Row) → R.grew first out.old rows → OnOk result (R.grew first out.new (rows ++ internal_note tree name.now cost)) }
{
    if cost <= GREATEST_COST {
        return Ok(());
    }
    let values = [
        Value::Number(u64::from(tree.value())),
        Value::Name(name),
        Value::Number(cost),
    ];
    put::<R>(Kind::Note(NoteLine::InternalCost), &values, out)
}

/// Puts a note of a logical port, where its role is restricted.
pub(crate) fn put_restricted<R: Rows>(port: &PortInView, out: &mut R) -> Result<(), AllocError>
    ensures { (first : R) (rows : List Row) → R.grew first out.old rows → OnOk result (R.grew first out.new (rows ++ restricted_note (named_port port.now))) }
{
    if port.settings.is_restricted {
        put_restricted_name(&port.name, out)
    } else {
        Ok(())
    }
}

/// Puts a note of a port whose role is restricted.
fn put_restricted_name<R: Rows>(port: &PortName, out: &mut R) -> Result<(), AllocError>
    ensures { (first : R) (rows : List Row) → R.grew first out.old rows → OnOk result (R.grew first out.new (rows ++ restricted_row port.now ∷ [])) }
{
    let values = [
        Value::Name(&port.bridge),
        Value::Number(u64::from(port.number.value())),
    ];
    put::<R>(Kind::Note(NoteLine::Restricted), &values, out)
}
