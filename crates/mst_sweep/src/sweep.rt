ghost use Rattle.std.specs.Prelude.{◌≡◌, ◌++◌, ◌∷◌, [], List, IfOk, OnOk};
ghost use Rattle.std.specs.List.{count_by};
ghost use Rattle.mst_ids.specs.Vids.{runs_from};
ghost use Rattle.mst_rows.specs.Rows.{Row};
ghost use Rattle.mst_vlan.specs.forest.Agrees.{Known};
ghost use Rattle.mst_sweep.specs.Between.{OfNetworks};
ghost use Rattle.mst_sweep.specs.Failures.{failed};
ghost use Rattle.mst_sweep.specs.Baseline.{IsBaseline};
ghost use Rattle.mst_sweep.specs.SweepText.{event_line, event_row, AreEventRows, is_lan as is_lan_of, is_bridge as is_bridge_of, risks_row, sweep_row};

use crate::baseline::Baseline;
use crate::both_failed::are_some;
use crate::cuts::{CutBy, cuts_by_failures, put_cuts};
use crate::event::{Cause, Event, cause_value};
use crate::failure::Failure;
use crate::pairs::pairs;
use crate::ports::moved_ports;
use crate::roots::moved_roots;
use crate::touched::{places_of, touched};
use mst_facts::Planned;
use mst_ids::{Tree, VidSet};
use mst_kinds::{Kind, SweepLine};
use mst_rows::{Rows, Value, put};
use mst_vlan::set_of;
use std::alloc::{AllocError, Global};

/// The first word of the row of an event.
fn line_of(cause: &Cause) -> SweepLine
    ensures { result ≡ event_line cause.now }
{
    match cause {
        Cause::One(Failure::Lan(_)) => SweepLine::Lan,
        Cause::One(Failure::Bridge(_)) => SweepLine::Bridge,
        Cause::Risk(_) => SweepLine::Risk,
    }
}

/// Puts the row of an event.
fn put_event_row<'a, R: Rows>(
    cause: &'a Cause,
    roots: &'a [Tree],
    ports: u64,
    cut: &'a VidSet,
    out: &mut R,
) -> Result<(), AllocError>
    ensures { (first : R) (rows : List Row) → R.grew first out.old rows → OnOk result (R.grew first out.new (rows ++ event_row cause.now roots.now ports (runs_from 0 cut.now) ∷ [])) }
{
    let values = [
        cause_value(cause),
        Value::Name(cause.name()),
        Value::Trees(roots),
        Value::Number(ports),
        Value::Vids(cut),
    ];
    put::<R>(Kind::Sweep(line_of(cause)), &values, out)
}

/// Puts the rows of an event: which trees' roots move, how many roles, and which VIDs are cut into which parts, and
/// answers whether it cuts some. `old` is the plan of the network with what stays the same for all its failures, `new` the
/// plan of the network with all failures of the event. `AllocError`: memory was wanted and refused; some of the rows may have been put.
///
/// It looks at the roles of each logical port once for each tree, and makes islands once for each class of VIDs of which a link
/// that joined bridges goes.
pub fn put_event<R: Rows>(
    alloc: Global,
    event: &Event,
    old: &Planned,
    baseline: &Baseline,
    new: &Planned,
    out: &mut R,
) -> Result<bool, AllocError>
    requires old { Known old.now.view.now old.now.forest.now.regions }
    requires new { Known new.now.view.now new.now.forest.now.regions }
    requires baseline { IsBaseline old.now.view.now old.now.forest.now baseline.now }
    ensures { IfOk result (λ cuts. OfNetworks old.now new.now (λ a before b afterwards.
        failed event.now.failures a ≡ b → (own : List Row) × AreEventRows a before b afterwards event.now.cause own cuts
        × ((first : R) (rows : List Row) → R.grew first out.old rows → R.grew first out.new (rows ++ own)))) }
{
    let both = pairs(alloc, old, new)?;
    let roots = moved_roots(alloc, old, new, both.as_slice())?;
    let flags = touched(alloc, old, new)?;
    let touched = flags.as_slice();
    let places = places_of(alloc, touched)?;
    let ports = moved_ports(old, new, touched);
    let where_touched = places.as_slice();
    let cuts = cuts_by_failures(alloc, old, new, baseline, both.as_slice(), where_touched)?;
    let vids = cuts.vids.as_slice();
    let cause = event.cause();
    put_event_row(cause, roots.as_slice(), ports, &set_of(vids), out)?;
    put_cuts(&CutBy::One(*cause), &baseline.classes, &cuts, out)?;
    Ok(are_some(vids))
}

/// How many of these failures are of a LAN.
fn count_lans(failures: &[Failure]) -> u64
    ensures { result ≡ count_by is_lan_of failures.now }
{
    failures.iter().filter(|failure| is_lan(failure)).count() as u64
}

/// How many are of a bridge.
fn count_bridges(failures: &[Failure]) -> u64
    ensures { result ≡ count_by is_bridge_of failures.now }
{
    failures.iter().filter(|failure| !is_lan(failure)).count() as u64
}

/// Whether it is a LAN that fails.
fn is_lan(failure: &Failure) -> bool
    ensures { result ≡ is_lan_of failure.now }
{
    matches!(failure, Failure::Lan(_))
}

/// Puts the last row: how many failures of each kind there are, and how many of all of them cut some VID.
/// `AllocError`: memory was wanted and refused; part of the row may have been put.
pub fn put_last<R: Rows>(failures: &[Failure], cuts: u64, out: &mut R) -> Result<(), AllocError>
    ensures { (first : R) (rows : List Row) → R.grew first out.old rows → OnOk result (R.grew first out.new (rows ++ sweep_row failures.now cuts ∷ [])) }
{
    let values = [
        Value::Number(count_lans(failures)),
        Value::Number(count_bridges(failures)),
        Value::Number(cuts),
    ];
    put::<R>(Kind::Sweep(SweepLine::Counts), &values, out)
}

/// Puts the last row of a sweep through risks: how many there are, and how many of them cut some VID. `AllocError`: memory was wanted
/// and refused; part of the row may have been put.
pub fn put_last_risk<R: Rows>(risks: &[Event], cuts: u64, out: &mut R) -> Result<(), AllocError>
    ensures { (first : R) (rows : List Row) → R.grew first out.old rows → OnOk result (R.grew first out.new (rows ++ risks_row risks.now cuts ∷ [])) }
{
    let values = [Value::Number(risks.len() as u64), Value::Number(cuts)];
    put::<R>(Kind::Sweep(SweepLine::RiskCounts), &values, out)
}
