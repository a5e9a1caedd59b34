ghost use Rattle.std.specs.Prelude.{◌≡◌, ◌++◌, ◌∷◌, [], List, IfOk, OnOk, length};
ghost use Rattle.mst_rows.specs.Rows.{Row};
ghost use Rattle.mst_changes.specs.ChangesText.{bridge_row, change_rows, item_row, port_row, role_cell, vector_cell};
ghost use Rattle.mst_changes.specs.Told.{told_role, told_vector};

use crate::subject::{Item, Subject};
use crate::value::{VectorOrRole, is_same};
use mst_ids::{Name, PortName, Tree};
use mst_kinds::{ChangeLine, Kind};
use mst_roles::Role;
use mst_rows::{Rows, Value, Vector, put};
use std::alloc::AllocError;

/// The root priority vector that an outcome has of a bridge, if it has one.
fn vector(side: &Option<VectorOrRole>) -> Option<Vector>
    ensures { told_vector result ≡ vector_cell side.now }
{
    match side {
        Some(VectorOrRole::InCist(vector)) => Some(Vector {
            root: Some((vector.root, vector.external)),
            regional: vector.regional,
            int: vector.internal,
            designated: vector.designated,
            port: vector.port,
            receiver: vector.receiver,
        }),
        Some(VectorOrRole::InMsti(vector)) => Some(Vector {
            root: None,
            regional: vector.regional,
            int: vector.internal,
            designated: vector.designated,
            port: vector.port,
            receiver: vector.receiver,
        }),
        Some(VectorOrRole::HasRole(_)) => None,
        None => None,
    }
}

/// The role that an outcome has of a port, if it has one.
fn role(side: &Option<VectorOrRole>) -> Option<Role>
    ensures { told_role result ≡ role_cell side.now }
{
    match side {
        Some(VectorOrRole::HasRole(role)) => Some(*role),
        Some(VectorOrRole::InCist(_)) => None,
        Some(VectorOrRole::InMsti(_)) => None,
        None => None,
    }
}

/// Puts the row of a bridge in a tree, with these vectors.
fn put_bridge<'a, R: Rows>(
    tree: Tree,
    name: &'a Name,
    old: &'a Option<Vector>,
    new: &'a Option<Vector>,
    out: &mut R,
) -> Result<(), AllocError>
    ensures { (first : R) (rows : List Row) → R.grew first out.old rows
        → OnOk result (R.grew first out.new (rows ++ bridge_row tree name.now (told_vector old.now) (told_vector new.now) ∷ [])) }
{
    let was = match old {
        None => Value::Absent,
        Some(vector) => Value::Vector(vector),
    };
    let is = match new {
        None => Value::Absent,
        Some(vector) => Value::Vector(vector),
    };
    let values = [
        Value::Number(u64::from(tree.value())),
        Value::Name(name),
        was,
        is,
    ];
    put::<R>(Kind::Change(ChangeLine::Bridge), &values, out)
}

/// Puts the row of a logical port in a tree, with these roles.
fn put_port<R: Rows>(
    tree: Tree,
    name: &PortName,
    old: Option<Role>,
    new: Option<Role>,
    out: &mut R,
) -> Result<(), AllocError>
    ensures { (first : R) (rows : List Row) → R.grew first out.old rows
        → OnOk result (R.grew first out.new (rows ++ port_row tree name.now (told_role old) (told_role new) ∷ [])) }
{
    let was = match old {
        None => Value::Absent,
        Some(role) => Value::Word(role.name().as_bytes()),
    };
    let is = match new {
        None => Value::Absent,
        Some(role) => Value::Word(role.name().as_bytes()),
    };
    let values = [
        Value::Number(u64::from(tree.value())),
        Value::Name(&name.bridge),
        Value::Number(u64::from(name.number.value())),
        was,
        is,
    ];
    put::<R>(Kind::Change(ChangeLine::Port), &values, out)
}

/// Puts the row of a subject of which two outcomes differ.
fn put_row<R: Rows>(
    subject: &Subject,
    old: &Option<VectorOrRole>,
    new: &Option<VectorOrRole>,
    out: &mut R,
) -> Result<(), AllocError>
    ensures { (first : R) (rows : List Row) → R.grew first out.old rows → OnOk result (R.grew first out.new (rows ++ item_row subject.now.tree subject.now.item old.now new.now ∷ [])) }
{
    match &subject.item {
        Item::Bridge(name) => put_bridge(subject.tree, name, &vector(old), &vector(new), out),
        Item::Port(name) => put_port(subject.tree, name, role(old), role(new), out),
    }
}

/// Puts the row of a subject, if two outcomes differ in it, and answers how many rows that is: one or none.
pub(crate) fn put_change<R: Rows>(
    subject: &Subject,
    old: &Option<VectorOrRole>,
    new: &Option<VectorOrRole>,
    out: &mut R,
) -> Result<u64, AllocError>
    ensures { (first : R) (rows : List Row) → R.grew first out.old rows
        → IfOk result (λ count. (count ≡ length (change_rows subject.now old.now new.now)) × R.grew first out.new (rows ++ change_rows subject.now old.now new.now)) }
{
    if is_same(old, new) {
        return Ok(0);
    }
    put_row(subject, old, new, out)?;
    Ok(1)
}
