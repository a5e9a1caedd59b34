ghost use Rattle.std.specs.Prelude.{◌++◌, ◌∷◌, ◌+◌, [], List, OnOk, map};
ghost use Rattle.mst_rows.specs.Rows.{Row};
ghost use Rattle.mst_path.specs.PathRows.{heading_row, hop_row, hop_rows, no_path_row, path_rows};
ghost use Rattle.mst_path.specs.Places.{named_hop, named_path};

use crate::hop::Hop;
use crate::trace::Trace;
use mst_kinds::{Kind, PathLine};
use mst_rows::{Rows, Value, put};
use std::alloc::AllocError;

/// Puts the row that says that there is no path.
fn put_no_path<'a, R: Rows>(trace: &'a Trace, out: &mut R) -> Result<(), AllocError>
    ensures { (first : R) (rows : List Row) → R.grew first out.old rows → OnOk result (R.grew first out.new (rows ++ no_path_row trace.now ∷ [])) }
{
    let values = [
        Value::Number(u64::from(trace.vid.value())),
        Value::Name(&trace.from),
        Value::Name(&trace.to),
    ];
    put::<R>(Kind::Path(PathLine::None), &values, out)
}

/// Puts the row that says how many hops a path has.
fn put_heading<'a, R: Rows>(trace: &'a Trace, hops: u64, out: &mut R) -> Result<(), AllocError>
    ensures { (first : R) (rows : List Row) → R.grew first out.old rows → OnOk result (R.grew first out.new (rows ++ heading_row trace.now hops ∷ [])) }
{
    let values = [
        Value::Number(u64::from(trace.vid.value())),
        Value::Name(&trace.from),
        Value::Name(&trace.to),
        Value::Number(hops),
    ];
    put::<R>(Kind::Path(PathLine::Path), &values, out)
}

/// Puts the row of a hop of this number.
fn put_hop<'a, R: Rows>(
    trace: &'a Trace,
    number: u64,
    hop: &'a Hop,
    out: &mut R,
) -> Result<(), AllocError>
    ensures { (first : R) (rows : List Row) → R.grew first out.old rows → OnOk result (R.grew first out.new (rows ++ hop_row trace.now number (named_hop hop.now) ∷ [])) }
{
    let values = [
        Value::Number(u64::from(trace.vid.value())),
        Value::Name(&trace.from),
        Value::Name(&trace.to),
        Value::Number(number),
        Value::Port(&hop.leaving.name),
        Value::Name(&hop.leaving.lan),
        Value::Port(&hop.arriving.name),
    ];
    put::<R>(Kind::Path(PathLine::Hop), &values, out)
}

/// Puts the rows of these hops, from 1 on.
fn put_hops<R: Rows>(trace: &Trace, hops: &[Hop], out: &mut R) -> Result<(), AllocError>
    ensures { (first : R) (rows : List Row) → R.grew first out.old rows → OnOk result (R.grew first out.new (rows ++ hop_rows trace.now 1 (map named_hop hops.now))) }
{
    let mut number = 0;
    for hop in hops {
        number += 1;
        put_hop(trace, number, hop, out)?;
    }
    Ok(())
}

/// Puts the rows of a path: how many hops it has, and each of them, or that there is none. `AllocError`: memory was wanted and refused;
/// some of the rows may have been put.
pub fn put_path<R: Rows>(
    trace: &Trace,
    path: &Option<Vec<Hop>>,
    out: &mut R,
) -> Result<(), AllocError>
    ensures { (first : R) (rows : List Row) → R.grew first out.old rows → OnOk result (R.grew first out.new (rows ++ path_rows trace.now (named_path path.now))) }
{
    match path {
        None => put_no_path(trace, out),
        Some(hops) => {
            put_heading(trace, hops.len() as u64, out)?;
            put_hops(trace, hops.as_slice(), out)
        }
    }
}
