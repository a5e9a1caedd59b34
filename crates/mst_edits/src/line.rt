ghost use Rattle.std.specs.Prelude.{◌++◌, ◌∷◌, [], List, OnOk};
ghost use Rattle.mst_rows.specs.Cells.{number as number_cell, word};
ghost use Rattle.mst_rows.specs.Rows.{Row, row_of};
ghost use Rattle.mst_edits.specs.EditRows.{of_port};

use mst_ids::{Name, PortName, Tree};
use mst_kinds::{Kind, PortCommand};
use mst_rows::{Rows, Value, put};
use std::alloc::AllocError;

/// Puts a command with a name.
pub(crate) fn put_named<R: Rows>(kind: Kind, name: &Name, out: &mut R) -> Result<(), AllocError>
    ensures { (first : R) (rows : List Row) → R.grew first out.old rows → OnOk result (R.grew first out.new (rows ++ row_of kind (word name.now ∷ []) ∷ [])) }
{
    let values = [Value::Name(name)];
    put::<R>(kind, &values, out)
}

/// Puts a command with a name and a number.
pub(crate) fn put_number<R: Rows>(
    kind: Kind,
    name: &Name,
    number: u64,
    out: &mut R,
) -> Result<(), AllocError>
    ensures { (first : R) (rows : List Row) → R.grew first out.old rows → OnOk result (R.grew first out.new (rows ++ row_of kind (word name.now ∷ number_cell number ∷ []) ∷ [])) }
{
    let values = [Value::Name(name), Value::Number(number)];
    put::<R>(kind, &values, out)
}

/// Puts a command of a port.
pub(crate) fn put_of_port<R: Rows>(
    command: PortCommand,
    port: &PortName,
    out: &mut R,
) -> Result<(), AllocError>
    ensures { (first : R) (rows : List Row) → R.grew first out.old rows → OnOk result (R.grew first out.new (rows ++ of_port command port.now [])) }
{
    let number = u64::from(port.number.value());
    let values = [Value::Name(&port.bridge), Value::Number(number)];
    put::<R>(Kind::OfPort(command), &values, out)
}

/// Puts a command of a port with a number.
pub(crate) fn put_port_number<R: Rows>(
    command: PortCommand,
    port: &PortName,
    number: u64,
    out: &mut R,
) -> Result<(), AllocError>
    ensures { (first : R) (rows : List Row) → R.grew first out.old rows → OnOk result (R.grew first out.new (rows ++ of_port command port.now (number_cell number ∷ []))) }
{
    let values = [
        Value::Name(&port.bridge),
        Value::Number(u64::from(port.number.value())),
        Value::Number(number),
    ];
    put::<R>(Kind::OfPort(command), &values, out)
}

/// Puts a command of a port with a tree and a number.
pub(crate) fn put_port_tree<R: Rows>(
    command: PortCommand,
    port: &PortName,
    tree: Tree,
    number: u64,
    out: &mut R,
) -> Result<(), AllocError>
    ensures { (first : R) (rows : List Row) → R.grew first out.old rows → OnOk result (R.grew first out.new (rows ++ of_port command port.now (number_cell tree ∷ number_cell number ∷ []))) }
{
    let values = [
        Value::Name(&port.bridge),
        Value::Number(u64::from(port.number.value())),
        Value::Number(u64::from(tree.value())),
        Value::Number(number),
    ];
    put::<R>(Kind::OfPort(command), &values, out)
}
