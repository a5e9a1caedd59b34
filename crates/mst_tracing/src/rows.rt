ghost use Rattle.std.specs.Prelude.{◌++◌, ◌∷◌, [], List, OnOk, length, map};
ghost use Rattle.mst_rows.specs.Rows.{Row};
ghost use Rattle.mst_path.specs.Paths.{bridges_met as bridges_met_by};
ghost use Rattle.mst_path.specs.Places.{named_hop};
ghost use Rattle.mst_tracing.specs.Fates.{counts_row, no_path_row, other_path_row};

use crate::always::Fates;
use mst_ids::Name;
use mst_kinds::{Kind, PathLine};
use mst_path::{Hop, Trace, bridges_met};
use mst_rows::{Rows, Value, put};
use mst_sweeping::Failure;
use std::alloc::{AllocError, Global};

/// Puts the row of a LAN after whose failure the path is another one.
fn put_other_by_lan<'a, R: Rows>(
    trace: &'a Trace,
    lan: &'a Name,
    hops: u64,
    bridges: &'a [Name],
    out: &mut R,
) -> Result<(), AllocError>
    ensures { (first : R) (rows : List Row) → R.grew first out.old rows → OnOk result (R.grew first out.new (rows ++ other_path_row trace.now (Failure.Lan lan.now) hops bridges.now ∷ [])) }
{
    let values = [
        Value::Number(u64::from(trace.vid.value())),
        Value::Name(&trace.from),
        Value::Name(&trace.to),
        Value::FailedLan(lan),
        Value::Name(lan),
        Value::Number(hops),
        Value::Names(bridges),
    ];
    put::<R>(Kind::Path(PathLine::Lan), &values, out)
}

/// Puts the row of a bridge after whose failure the path is another one.
fn put_other_by_bridge<'a, R: Rows>(
    trace: &'a Trace,
    bridge: &'a Name,
    hops: u64,
    bridges: &'a [Name],
    out: &mut R,
) -> Result<(), AllocError>
    ensures { (first : R) (rows : List Row) → R.grew first out.old rows → OnOk result (R.grew first out.new (rows ++ other_path_row trace.now (Failure.Bridge bridge.now) hops bridges.now ∷ [])) }
{
    let values = [
        Value::Number(u64::from(trace.vid.value())),
        Value::Name(&trace.from),
        Value::Name(&trace.to),
        Value::FailedBridge(bridge),
        Value::Name(bridge),
        Value::Number(hops),
        Value::Names(bridges),
    ];
    put::<R>(Kind::Path(PathLine::Bridge), &values, out)
}

/// Puts the row of a failure after which the path has these hops. `AllocError`: memory was wanted and refused; part of the row may have
/// been put.
pub(crate) fn put_other<R: Rows>(
    alloc: Global,
    trace: &Trace,
    failure: &Failure,
    hops: &[Hop],
    out: &mut R,
) -> Result<(), AllocError>
    ensures { (first : R) (rows : List Row) → R.grew first out.old rows → OnOk result (R.grew first out.new (rows ++ other_path_row trace.now failure.now (length hops.now) (bridges_met_by trace.now.from (map named_hop hops.now)) ∷ [])) }
{
    let bridges = bridges_met(alloc, &trace.from, hops)?;
    let count = hops.len() as u64;
    match failure {
        Failure::Lan(lan) => put_other_by_lan(trace, lan, count, bridges.as_slice(), out),
        Failure::Bridge(bridge) => {
            put_other_by_bridge(trace, bridge, count, bridges.as_slice(), out)
        }
    }
}

/// Puts the row of a LAN after whose failure there is no path any more.
fn put_none_by_lan<'a, R: Rows>(
    trace: &'a Trace,
    lan: &'a Name,
    out: &mut R,
) -> Result<(), AllocError>
    ensures { (first : R) (rows : List Row) → R.grew first out.old rows → OnOk result (R.grew first out.new (rows ++ no_path_row trace.now (Failure.Lan lan.now) ∷ [])) }
{
    let values = [
        Value::Number(u64::from(trace.vid.value())),
        Value::Name(&trace.from),
        Value::Name(&trace.to),
        Value::FailedLan(lan),
        Value::Name(lan),
    ];
    put::<R>(Kind::Path(PathLine::NoneByLan), &values, out)
}

/// Puts the row of a bridge after whose failure there is no path any more.
fn put_none_by_bridge<'a, R: Rows>(
    trace: &'a Trace,
    bridge: &'a Name,
    out: &mut R,
) -> Result<(), AllocError>
    ensures { (first : R) (rows : List Row) → R.grew first out.old rows → OnOk result (R.grew first out.new (rows ++ no_path_row trace.now (Failure.Bridge bridge.now) ∷ [])) }
{
    let values = [
        Value::Number(u64::from(trace.vid.value())),
        Value::Name(&trace.from),
        Value::Name(&trace.to),
        Value::FailedBridge(bridge),
        Value::Name(bridge),
    ];
    put::<R>(Kind::Path(PathLine::NoneByBridge), &values, out)
}

/// Puts the row of a failure after which there is no path any more. `AllocError`: memory was wanted and refused; part of the row may have
/// been put.
pub(crate) fn put_none<R: Rows>(
    trace: &Trace,
    failure: &Failure,
    out: &mut R,
) -> Result<(), AllocError>
    ensures { (first : R) (rows : List Row) → R.grew first out.old rows → OnOk result (R.grew first out.new (rows ++ no_path_row trace.now failure.now ∷ [])) }
{
    match failure {
        Failure::Lan(lan) => put_none_by_lan(trace, lan, out),
        Failure::Bridge(bridge) => put_none_by_bridge(trace, bridge, out),
    }
}

/// Puts the last row: how many failures were looked at, after how many the path is another one, and after how many there is none any more.
/// `AllocError`: memory was wanted and refused; part of the row may have been put.
pub(crate) fn put_counts<'a, R: Rows>(
    trace: &'a Trace,
    fates: &Fates,
    out: &mut R,
) -> Result<(), AllocError>
    ensures { (first : R) (rows : List Row) → R.grew first out.old rows → OnOk result (R.grew first out.new (rows ++ counts_row trace.now fates.now ∷ [])) }
{
    let values = [
        Value::Number(u64::from(trace.vid.value())),
        Value::Name(&trace.from),
        Value::Name(&trace.to),
        Value::Number(fates.failures),
        Value::Number(fates.others),
        Value::Number(fates.nones),
    ];
    put::<R>(Kind::Path(PathLine::Counts), &values, out)
}
