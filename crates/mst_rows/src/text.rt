ghost use Rattle.std.specs.Prelude.{◌≡◌, ◌∷◌, ◌++◌, OnOk, map, decimal, codes};
ghost use Rattle.std.specs.List.{flat_map};
ghost use Rattle.mst_ids.specs.Words.{after_space, comma_list, listed, port_text};
ghost use Rattle.mst_rows.specs.Rows.{cell, first_cell, giver, left_cells, region as region_of, row_of, vector as vector_of};
ghost use Rattle.mst_rows.specs.Cells.{object};
ghost use Rattle.mst_rows.specs.Fields.{bare, field};
ghost use Rattle.mst_rows.specs.Objects.{mstp_region as mstp_of};
ghost use Rattle.mst_rows.specs.Lines.{bare_text, cell_text, comma_text, part_text, parts_text, row_line};

use crate::object::{Field, Simple, cist_vector, msti_vector, mstp_region, rstp_region};
use crate::rows::Rows;
use crate::value::{ActivePort, RegionSide, Value, Vector};
use mst_ids::{
    ConfName, Name, PortName, Tree, VidSet, push_bytes, push_comma_list, push_decimal, push_end,
    push_listed, push_word,
};
use mst_kinds::{Kind, Part};
use std::alloc::AllocError;

/// Rows as lines, behind what it has.
impl Rows for Vec<u8> {
    ghost grew = { λ first now rows. now.items ≡ first.items ++ flat_map row_line rows };

    fn row(&mut self, kind: Kind, values: &[Value<'_>]) -> Result<(), AllocError> {
        push_row(kind, values, self)
    }
}

/// Appends the line of a row.
fn push_row(kind: Kind, values: &[Value<'_>], out: &mut Vec<u8>) -> Result<(), AllocError>
    ensures { OnOk result (out.new.items ≡ out.old.items ++ row_line (row_of kind (map cell values.now))) }
{
    push_bytes(kind.first().text(), out)?;
    push_parts(kind.parts(), values, out)?;
    push_end(out)
}

/// Appends the words of these parts with these values.
fn push_parts<'a, 'b>(
    parts: &[Part],
    values: &'a [Value<'b>],
    out: &mut Vec<u8>,
) -> Result<(), AllocError>
    ensures { OnOk result (out.new.items ≡ out.old.items ++ parts_text parts.now (map cell values.now)) }
{
    let mut rest = values;
    for part in parts {
        push_part(*part, rest, out)?;
        rest = left(*part, rest);
    }
    Ok(())
}

/// Appends the words of a part, if it has some, with the first of these values.
fn push_part(part: Part, values: &[Value<'_>], out: &mut Vec<u8>) -> Result<(), AllocError>
    ensures { OnOk result (out.new.items ≡ out.old.items ++ part_text part (map cell values.now)) }
{
    match part {
        Part::Mark(mark) => push_word(mark.text(), out),
        Part::Key(_) => push_first(values, out),
        Part::Commas(_) => push_first_list(values, out),
        Part::Above(_) => Ok(()),
        Part::Said(_, mark) => push_word(mark.text(), out),
        Part::Told(_, _) => Ok(()),
        Part::Port => push_first(values, out),
        Part::AbovePort => Ok(()),
    }
}

/// The values that are left behind a part.
pub(crate) fn left<'a, 'b>(part: Part, values: &'a [Value<'b>]) -> &'a [Value<'b>]
    ensures { map cell result.now ≡ left_cells part (map cell values.now) }
{
    match (part, values) {
        (Part::Mark(_), _) => values,
        (Part::Said(_, _), _) => values,
        (Part::Told(_, _), _) => values,
        (_, [_, rest @ ..]) => rest,
        (_, []) => values,
    }
}

/// Appends the words of the first value, each after a space.
fn push_first(values: &[Value<'_>], out: &mut Vec<u8>) -> Result<(), AllocError>
    ensures { OnOk result (out.new.items ≡ out.old.items ++ cell_text (first_cell (map cell values.now))) }
{
    match values {
        [value, ..] => push_value(value, out),
        [] => push_word(b"-", out),
    }
}

/// Appends the first value as one word after a space, if it is a list.
fn push_first_list(values: &[Value<'_>], out: &mut Vec<u8>) -> Result<(), AllocError>
    ensures { OnOk result (out.new.items ≡ out.old.items ++ comma_text (first_cell (map cell values.now))) }
{
    match values {
        [value, ..] => push_list(value, out),
        [] => push_word(b"-", out),
    }
}

/// Appends a value as one word after a space, if it is a list.
fn push_list(value: &Value<'_>, out: &mut Vec<u8>) -> Result<(), AllocError>
    ensures { OnOk result (out.new.items ≡ out.old.items ++ comma_text (cell value.now)) }
{
    match *value {
        Value::Names(names) => {
            push_bytes(b" ", out)?;
            push_comma_list::<Name>(names, out)
        }
        Value::Ports(ports) => {
            push_bytes(b" ", out)?;
            push_comma_list::<PortName>(ports, out)
        }
        Value::Trees(trees) => {
            push_bytes(b" ", out)?;
            push_comma_list::<Tree>(trees, out)
        }
        _ => push_value(value, out),
    }
}

/// Appends the words of a value, each after a space.
fn push_value(value: &Value<'_>, out: &mut Vec<u8>) -> Result<(), AllocError>
    ensures { OnOk result (out.new.items ≡ out.old.items ++ cell_text (cell value.now)) }
{
    match *value {
        Value::Absent => push_word(b"-", out),
        Value::Word(word) => push_word(word, out),
        Value::Name(name) => push_word(name.as_bytes(), out),
        Value::Number(number) => push_number(number, out),
        Value::BridgeId(id) => push_word(&id.text(), out),
        Value::PortId(id) => push_word(&id.text(), out),
        Value::Mac(mac) => {
            push_bytes(b" ", out)?;
            mac.push_text(out)
        }
        Value::Port(port) => {
            push_bytes(b" ", out)?;
            port.push_text(out)
        }
        Value::Vids(vids) => {
            push_bytes(b" ", out)?;
            vids.push_text(out)
        }
        Value::Names(names) => push_listed::<Name>(names, out),
        Value::Ports(ports) => push_listed::<PortName>(ports, out),
        Value::Trees(trees) => push_listed::<Tree>(trees, out),
        Value::Groups(groups) => push_groups(groups, out),
        Value::Active(ports) => push_listed::<ActivePort>(ports, out),
        Value::Giver(port) => push_giver(port, out),
        Value::Vector(vector) => push_vector(vector, out),
        Value::Region(region) => push_region(region, out),
        Value::FailedLan(lan) => push_failed(b"lan", lan, out),
        Value::FailedBridge(bridge) => push_failed(b"bridge", bridge, out),
        Value::FailedRisk(name) => push_failed(b"risk", name, out),
        Value::NoFailure => push_word(b"now", out),
        Value::Lines(first, last) => push_lines(first, last, out),
        Value::Promises(_) => Ok(()),
    }
}

fn push_number(number: u64, out: &mut Vec<u8>) -> Result<(), AllocError>
    ensures { OnOk result (out.new.items ≡ out.old.items ++ after_space (decimal number)) }
{
    push_bytes(b" ", out)?;
    push_decimal(number, out)
}

/// Appends what fails: its kind and its name, each after a space.
fn push_failed(kind: &[u8], name: &Name, out: &mut Vec<u8>) -> Result<(), AllocError>
    ensures { OnOk result (out.new.items ≡ out.old.items ++ after_space kind.now ++ after_space name.now) }
{
    push_word(kind, out)?;
    push_word(name.as_bytes(), out)
}

/// Appends `N-M` after a space.
fn push_lines(first: u64, last: u64, out: &mut Vec<u8>) -> Result<(), AllocError>
    ensures { OnOk result (out.new.items ≡ out.old.items ++ after_space (decimal first ++ 45 ∷ decimal last)) }
{
    push_number(first, out)?;
    push_bytes(b"-", out)?;
    push_decimal(last, out)
}

/// Appends each list of names as one word after a space, or `-` where there is none.
fn push_groups(groups: &[Vec<Name>], out: &mut Vec<u8>) -> Result<(), AllocError>
    ensures { OnOk result (out.new.items ≡ out.old.items ++ flat_map after_space (listed (map comma_list (map (λ g. g.items) groups.now)))) }
{
    if groups.is_empty() {
        return push_bytes(b" -", out);
    }
    for group in groups {
        push_bytes(b" ", out)?;
        push_comma_list::<Name>(group.as_slice(), out)?;
    }
    Ok(())
}

/// Appends a port, or `own` for a bridge's own vector, after a space.
fn push_giver(port: &Option<PortName>, out: &mut Vec<u8>) -> Result<(), AllocError>
    ensures { OnOk result (out.new.items ≡ out.old.items ++ cell_text (giver port.now)) }
{
    match port {
        None => push_word(b"own", out),
        Some(port) => {
            push_bytes(b" ", out)?;
            port.push_text(out)
        }
    }
}

/// Appends the components of a priority vector, each after a space.
fn push_vector(vector: &Vector, out: &mut Vec<u8>) -> Result<(), AllocError>
    ensures { OnOk result (out.new.items ≡ out.old.items ++ cell_text (object (vector_of vector.now.root vector.now))) }
{
    let regional = vector.regional.text();
    let designated = vector.designated.text();
    let port = vector.port.text();
    let receiver = vector.receiver.text();
    match vector.root {
        None => {
            let fields = msti_vector(&regional, vector.int, &designated, &port, &receiver);
            push_object(&fields, out)
        }
        Some((root, ext)) => {
            let root = root.text();
            let fields = cist_vector(
                &root,
                ext,
                &regional,
                vector.int,
                &designated,
                &port,
                &receiver,
            );
            push_object(&fields, out)
        }
    }
}

/// Appends what tells a region, each word after a space.
fn push_region(region: &RegionSide, out: &mut Vec<u8>) -> Result<(), AllocError>
    ensures { OnOk result (out.new.items ≡ out.old.items ++ cell_text (object (region_of region.now.configuration region.now.first))) }
{
    match &region.configuration {
        None => push_object(&rstp_region(region.first.as_bytes()), out),
        Some((name, revision)) => push_mstp(name, *revision, &region.first, out),
    }
}

fn push_mstp<'a>(
    name: &'a ConfName,
    revision: u16,
    first: &'a Name,
    out: &mut Vec<u8>,
) -> Result<(), AllocError>
    ensures { OnOk result (out.new.items ≡ out.old.items ++ cell_text (object (mstp_of name.now revision first.now))) }
{
    let fields = mstp_region(name.as_bytes(), u64::from(revision), first.as_bytes());
    push_object(&fields, out)
}

/// Appends the words of an object, each after a space.
fn push_object(fields: &[Field<'_>], out: &mut Vec<u8>) -> Result<(), AllocError>
    ensures { OnOk result (out.new.items ≡ out.old.items ++ cell_text (object (map field fields.now))) }
{
    push_fields(fields, out)
}

/// Appends the value of each field after a space.
fn push_fields(fields: &[Field<'_>], out: &mut Vec<u8>) -> Result<(), AllocError>
    ensures { OnOk result (out.new.items ≡ out.old.items ++ flat_map (λ f. after_space (bare_text f.1)) (map field fields.now)) }
{
    for field in fields {
        push_simple(&field.1, out)?;
    }
    Ok(())
}

/// Appends the value of a field after a space.
fn push_simple(value: &Simple<'_>, out: &mut Vec<u8>) -> Result<(), AllocError>
    ensures { OnOk result (out.new.items ≡ out.old.items ++ after_space (bare_text (bare value.now))) }
{
    match *value {
        Simple::Absent => push_word(b"-", out),
        Simple::Word(word) => push_word(word, out),
        Simple::Number(number) => push_number(number, out),
    }
}
