ghost use Rattle.std.specs.Prelude.{◌≡◌, ◌++◌, OnOk, map, false};
ghost use Rattle.mst_rows.specs.Fields.{bare, field as field_of};
ghost use Rattle.mst_rows.specs.Rows.{region as region_of, vector as vector_of};
ghost use Rattle.mst_rows.specs.Cells.{object};
ghost use Rattle.mst_rows.specs.Objects.{mstp_region as mstp_of};
ghost use Rattle.mst_rows.specs.Answers.{bare_json, field_json, joined, value_text};

use crate::answer::{push_comma, push_key};
use crate::escape::push_quoted;
use crate::object::{Field, Simple, cist_vector, msti_vector, mstp_region, rstp_region};
use crate::value::{RegionSide, Vector};
use mst_ids::{ConfName, Name, push_bytes, push_decimal};
use std::alloc::AllocError;

/// Appends the object of a priority vector.
pub(crate) fn push_vector(vector: &Vector, out: &mut Vec<u8>) -> Result<(), AllocError>
    ensures { OnOk result (out.new.items ≡ out.old.items ++ value_text (object (vector_of vector.now.root vector.now))) }
{
    let regional = vector.regional.text();
    let designated = vector.designated.text();
    let port = vector.port.text();
    let receiver = vector.receiver.text();
    match vector.root {
        None => {
            let fields = msti_vector(&regional, vector.int, &designated, &port, &receiver);
            push_object(&fields, out)
        }
        Some((root, ext)) => {
            let root = root.text();
            let fields = cist_vector(
                &root,
                ext,
                &regional,
                vector.int,
                &designated,
                &port,
                &receiver,
            );
            push_object(&fields, out)
        }
    }
}

/// Appends the object of what tells a region.
pub(crate) fn push_region(region: &RegionSide, out: &mut Vec<u8>) -> Result<(), AllocError>
    ensures { OnOk result (out.new.items ≡ out.old.items ++ value_text (object (region_of region.now.configuration region.now.first))) }
{
    match &region.configuration {
        None => push_object(&rstp_region(region.first.as_bytes()), out),
        Some((name, revision)) => push_mstp(name, *revision, &region.first, out),
    }
}

fn push_mstp<'a>(
    name: &'a ConfName,
    revision: u16,
    first: &'a Name,
    out: &mut Vec<u8>,
) -> Result<(), AllocError>
    ensures { OnOk result (out.new.items ≡ out.old.items ++ value_text (object (mstp_of name.now revision first.now))) }
{
    let fields = mstp_region(name.as_bytes(), u64::from(revision), first.as_bytes());
    push_object(&fields, out)
}

/// Appends an object.
fn push_object(fields: &[Field<'_>], out: &mut Vec<u8>) -> Result<(), AllocError>
    ensures { OnOk result (out.new.items ≡ out.old.items ++ value_text (object (map field_of fields.now))) }
{
    push_bytes(b"{", out)?;
    push_fields(fields, out)?;
    push_bytes(b"}", out)
}

/// Appends the members of an object.
fn push_fields(fields: &[Field<'_>], out: &mut Vec<u8>) -> Result<(), AllocError>
    ensures { OnOk result (out.new.items ≡ out.old.items ++ joined false (map field_json (map field_of fields.now))) }
{
    let mut follows = false;
    for field in fields {
        push_comma(follows, out)?;
        push_field(field, out)?;
        follows = true;
    }
    Ok(())
}

#[tactic(auto, unfolding(crate::specs::Answers::named))]
fn push_field(field: &Field<'_>, out: &mut Vec<u8>) -> Result<(), AllocError>
    ensures { OnOk result (out.new.items ≡ out.old.items ++ field_json (field_of field.now)) }
{
    push_key(field.0.text(), out)?;
    push_simple(&field.1, out)
}

fn push_simple(value: &Simple<'_>, out: &mut Vec<u8>) -> Result<(), AllocError>
    ensures { OnOk result (out.new.items ≡ out.old.items ++ bare_json (bare value.now)) }
{
    match *value {
        Simple::Absent => push_bytes(b"null", out),
        Simple::Word(word) => push_quoted(word, out),
        Simple::Number(number) => push_decimal(number, out),
    }
}
