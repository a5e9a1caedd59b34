ghost use Rattle.std.specs.Prelude.{◌≡◌, ◌++◌, ◌∷◌, [], List, map, OnOk};
ghost use Rattle.mst_kinds.specs.declared.kind.Kind.TheVariants.{Capture};
ghost use Rattle.mst_rows.specs.Cells.{number as number_cell, port as port_cell, word};
ghost use Rattle.mst_rows.specs.Rows.{Row, row_of};
ghost use Rattle.mst_bpdu.specs.CaptureText.{comparison_rows, difference_row, fault_row, field_name, field_row, line_in, is_number, whole_row, agrees_row};
ghost use Rattle.mst_bpdu.specs.Shown.{shown_cell};

use crate::difference::{Difference, Field, Value};
use crate::fault::BpduFault;
use crate::shown::{Shown, row_value, value_shown};
use mst_ids::PortName;
use mst_kinds::{CaptureLine, Kind};
use mst_rows::{Rows, Value as RowValue, put};
use std::alloc::AllocError;

impl Field {
    /// The word that is printed for it.
    pub fn name(self) -> &'static str
        ensures { result.now ≡ field_name self }
    {
        match self {
            Field::Role => "role",
            Field::Learning => "learning",
            Field::Forwarding => "forwarding",
            Field::Root => "root",
            Field::ExternalCost => "ext",
            Field::RegionalRoot => "regional",
            Field::InternalCost => "int",
            Field::Bridge => "bridge",
            Field::Port => "port",
            Field::Selector => "selector",
            Field::Name => "name",
            Field::Revision => "revision",
            Field::Digest => "digest",
            Field::BridgePriority => "bridgeprio",
            Field::PortPriority => "portprio",
            Field::Unplanned => "unplanned",
            Field::Repeated => "repeated",
            Field::Missing => "missing",
        }
    }
}

/// Puts the rows of the capture on the line of this number, which comes from this port and was compared: that it
/// agrees, or a row for each difference. `AllocError`: memory was wanted and refused; part of them may have been put.
pub fn put_comparison<R: Rows>(
    number: u64,
    port: &PortName,
    differences: &[Difference],
    out: &mut R,
) -> Result<(), AllocError>
    ensures { (first : R) (rows : List Row) → R.grew first out.old rows → OnOk result (R.grew first out.new (rows ++ comparison_rows number port.now differences.now)) }
{
    if differences.is_empty() {
        return put_agrees(number, port, out);
    }
    put_differences(number, port, differences, out)
}

/// Puts the row of the capture on the line of this number, which wasn't read or compared. `AllocError`: memory was
/// wanted and refused; part of it may have been put.
pub fn put_fault<R: Rows>(number: u64, fault: BpduFault, out: &mut R) -> Result<(), AllocError>
    ensures { (first : R) (rows : List Row) → R.grew first out.old rows → OnOk result (R.grew first out.new (rows ++ fault_row number fault ∷ [])) }
{
    let values = [
        RowValue::Number(number),
        RowValue::Word(fault.code().as_bytes()),
        RowValue::Word(fault.text().as_bytes()),
    ];
    put::<R>(Kind::Capture(CaptureLine::Unread), &values, out)
}

fn put_agrees<R: Rows>(number: u64, port: &PortName, out: &mut R) -> Result<(), AllocError>
    ensures { (first : R) (rows : List Row) → R.grew first out.old rows → OnOk result (R.grew first out.new (rows ++ agrees_row number port.now ∷ [])) }
{
    let values = [RowValue::Number(number), RowValue::Port(port)];
    put::<R>(Kind::Capture(CaptureLine::Agrees), &values, out)
}

/// Puts a row for each difference.
fn put_differences<R: Rows>(
    number: u64,
    port: &PortName,
    differences: &[Difference],
    out: &mut R,
) -> Result<(), AllocError>
    ensures { (first : R) (rows : List Row) → R.grew first out.old rows → OnOk result (R.grew first out.new (rows ++ map (difference_row number port.now) differences.now)) }
{
    for difference in differences {
        put_difference(number, port, difference, out)?;
    }
    Ok(())
}

/// Puts the row of a difference.
fn put_difference<R: Rows>(
    number: u64,
    port: &PortName,
    difference: &Difference,
    out: &mut R,
) -> Result<(), AllocError>
    ensures { (first : R) (rows : List Row) → R.grew first out.old rows → OnOk result (R.grew first out.new (rows ++ difference_row number port.now difference.now ∷ [])) }
{
    let tree = difference.tree;
    match difference.field {
        Field::Unplanned => put_whole(CaptureLine::Unplanned, number, port, tree, out),
        Field::Repeated => put_whole(CaptureLine::Repeated, number, port, tree, out),
        Field::Missing => put_whole(CaptureLine::Missing, number, port, tree, out),
        _ => put_field(number, port, difference, out),
    }
}

/// Puts the row of an MSTI that differs as a whole.
fn put_whole<R: Rows>(
    line: CaptureLine,
    number: u64,
    port: &PortName,
    tree: u16,
    out: &mut R,
) -> Result<(), AllocError>
    ensures { (first : R) (rows : List Row) → R.grew first out.old rows → OnOk result (R.grew first out.new (rows ++ whole_row line number port.now tree ∷ [])) }
{
    let values = [
        RowValue::Number(number),
        RowValue::Port(port),
        RowValue::Number(u64::from(tree)),
    ];
    put::<R>(Kind::Capture(line), &values, out)
}

/// Puts the row of a field with its values.
fn put_field<R: Rows>(
    number: u64,
    port: &PortName,
    difference: &Difference,
    out: &mut R,
) -> Result<(), AllocError>
    ensures { (first : R) (rows : List Row) → R.grew first out.old rows → OnOk result (R.grew first out.new (rows ++ field_row number port.now difference.now ∷ [])) }
{
    let plan = value_shown(&difference.plan);
    let capture = value_shown(&difference.capture);
    let line = line_of(difference.tree, &difference.plan);
    let field = difference.field.name();
    put_shown(
        line,
        number,
        port,
        difference.tree,
        field,
        &plan,
        &capture,
        out,
    )
}

fn put_shown<'a, R: Rows>(
    line: CaptureLine,
    number: u64,
    port: &'a PortName,
    tree: u16,
    field: &'a str,
    plan: &'a Shown,
    capture: &'a Shown,
    out: &mut R,
) -> Result<(), AllocError>
    ensures { (first : R) (rows : List Row) → R.grew first out.old rows → OnOk result (R.grew first out.new (rows ++ row_of (Capture line) (number_cell number ∷ port_cell port.now ∷ number_cell tree ∷ word field.now ∷ shown_cell plan.now ∷ shown_cell capture.now ∷ []) ∷ [])) }
{
    let values = [
        RowValue::Number(number),
        RowValue::Port(port),
        RowValue::Number(u64::from(tree)),
        RowValue::Word(field.as_bytes()),
        row_value(plan),
        row_value(capture),
    ];
    put::<R>(Kind::Capture(line), &values, out)
}

/// The kind of the line of a value in a tree.
fn line_of(tree: u16, value: &Value) -> CaptureLine
    ensures { result ≡ line_in tree (is_number value.now) }
{
    let of_number = matches!(value, Value::Number(_));
    match (tree == 0, of_number) {
        (true, true) => CaptureLine::Number,
        (true, false) => CaptureLine::Text,
        (false, true) => CaptureLine::MstiNumber,
        (false, false) => CaptureLine::MstiText,
    }
}
