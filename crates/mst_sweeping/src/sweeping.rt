ghost use Rattle.std.specs.Prelude.{◌≤◌, List, IfOk, OnOk, length, map};
ghost use Rattle.mst_rows.specs.Rows.{Row};
ghost use Rattle.mst_plan.specs.forest.Agrees.{Known};
ghost use Rattle.mst_plan.specs.forest.Forest.{IsForest};
ghost use Rattle.mst_sweep.specs.Baseline.{IsBaseline};
ghost use Rattle.mst_sweep.specs.Failures.{alone};
ghost use Rattle.mst_sweep.specs.SweepText.{IsTold};
ghost use Rattle.mst_view.specs.Viewed.{IsView};
ghost use Rattle.mst_plan.specs.Plan.{IsPlan};
ghost use Rattle.mst_sweeping.specs.Sweeping.{SweepsPart, SweepsRisks, AreTold, Puts};

use crate::failing::{trees_failed, without_failures};
use mst_net::Network;
use mst_plan::{Plan, view};
use mst_rows::Rows;
use mst_sweep::{
    Baseline, Event, Failure, Planned, SweepPart, events_of, failures, put_event, put_last,
    put_last_risk,
};
use mst_view::View;
use std::alloc::{AllocError, Global};

/// Puts what each single failure of a part of a network's does, by its plan, each as soon as it is known, and answers how many
/// of them cut some VID. `AllocError`: memory was wanted and refused; some of the rows may have been put.
pub fn sweep_network<R: Rows>(
    alloc: Global,
    network: &Network,
    plan: &Plan,
    part: SweepPart,
    out: &mut R,
) -> Result<u64, AllocError>
    requires { IsPlan network.now.net network.now.numbers plan.now }
    ensures { IfOk result (λ cuts. (rows : List Row) × SweepsPart part network.now.net cuts rows × Puts R.grew out.old out.new rows) }
{
    let all = failures(alloc, &plan.view)?;
    let failures = part.of(all.as_slice());
    let baseline = baseline_of(alloc, plan)?;
    let mut seen = view(alloc, network)?;
    let cuts = sweep_failures(alloc, network, plan, &baseline, failures, &mut seen, out)?;
    put_last(failures, cuts, out)?;
    Ok(cuts)
}

/// What stays the same for all failures.
pub(crate) fn baseline_of(alloc: Global, plan: &Plan) -> Result<Baseline, AllocError>
    requires { Known plan.now.view plan.now.forest.regions }
    ensures { IfOk result (IsBaseline plan.now.view plan.now.forest) }
{
    let planned = Planned {
        view: &plan.view,
        forest: &plan.forest,
    };
    Baseline::new(alloc, &planned)
}

/// Puts what each of these failures does alone, but for the last row, and answers how many of them cut some VID. The view is the
/// network's.
fn sweep_failures<R: Rows>(
    alloc: Global,
    network: &Network,
    plan: &Plan,
    baseline: &Baseline,
    failures: &[Failure],
    seen: &mut View,
    out: &mut R,
) -> Result<u64, AllocError>
    requires of { IsPlan network.now.net network.now.numbers plan.now }
    requires baseline { IsBaseline plan.now.view plan.now.forest baseline.now }
    requires seen { IsView network.now.net network.now.numbers seen.old }
    ensures { IfOk result (λ cuts. (is : IsForest network.now.net network.now.numbers plan.now.forest)
        → (rows : List Row) × AreTold network.now.net is.outcome (map alone failures.now) cuts rows × Puts R.grew out.old out.new rows) }
{
    let events = events_of(alloc, failures)?;
    sweep_events(alloc, network, plan, baseline, events.as_slice(), seen, out)
}

/// Puts what each of these events does, and answers how many of them cut some VID. The view is the network's, and stays so.
fn sweep_events<R: Rows>(
    alloc: Global,
    network: &Network,
    plan: &Plan,
    baseline: &Baseline,
    events: &[Event],
    seen: &mut View,
    out: &mut R,
) -> Result<u64, AllocError>
    requires of { IsPlan network.now.net network.now.numbers plan.now }
    requires baseline { IsBaseline plan.now.view plan.now.forest baseline.now }
    requires seen { IsView network.now.net network.now.numbers seen.old }
    ensures told { IfOk result (λ cuts. (is : IsForest network.now.net network.now.numbers plan.now.forest)
        → (rows : List Row) × AreTold network.now.net is.outcome events.now cuts rows × Puts R.grew out.old out.new rows) }
    ensures few { IfOk result (λ cuts. cuts ≤ length events.now) }
    ensures seen { OnOk result (IsView network.now.net network.now.numbers seen.new) }
{
    let mut cuts = 0;
    for event in events {
        if put_failed(alloc, network, plan, baseline, event, seen, out)? {
            cuts += 1;
        }
    }
    Ok(cuts)
}

/// Puts what an event does, and answers whether it cuts some VID. The view is the network's, and stays so: it is renewed for
/// the failures of the event, and then back.
fn put_failed<R: Rows>(
    alloc: Global,
    network: &Network,
    plan: &Plan,
    baseline: &Baseline,
    event: &Event,
    seen: &mut View,
    out: &mut R,
) -> Result<bool, AllocError>
    requires of { IsPlan network.now.net network.now.numbers plan.now }
    requires baseline { IsBaseline plan.now.view plan.now.forest baseline.now }
    requires seen { IsView network.now.net network.now.numbers seen.old }
    ensures told { IfOk result (λ cuts. (is : IsForest network.now.net network.now.numbers plan.now.forest)
        → (rows : List Row) × IsTold network.now.net is.outcome event.now (record { rows = rows; cuts = cuts }) × Puts R.grew out.old out.new rows) }
    ensures seen { OnOk result (IsView network.now.net network.now.numbers seen.new) }
{
    let forest = trees_failed(alloc, network, plan, event.failures(), seen)?;
    let old = Planned {
        view: &plan.view,
        forest: &plan.forest,
    };
    let new = Planned {
        view: seen,
        forest: &forest,
    };
    let cuts = put_event(alloc, event, &old, baseline, &new, out)?;
    without_failures(alloc, network, event.failures(), seen)?;
    Ok(cuts)
}

/// Puts what each of these risks does to a network, by its plan, each as soon as it is known, and a last row that counts them, and answers
/// how many of them cut some VID. `AllocError`: memory was wanted and refused; some of the rows may have been put.
pub fn sweep_risks<R: Rows>(
    alloc: Global,
    network: &Network,
    plan: &Plan,
    risks: &[Event],
    out: &mut R,
) -> Result<u64, AllocError>
    requires { IsPlan network.now.net network.now.numbers plan.now }
    ensures told { IfOk result (λ cuts. (rows : List Row) × SweepsRisks network.now.net risks.now cuts rows × Puts R.grew out.old out.new rows) }
    ensures few { IfOk result (λ cuts. cuts ≤ length risks.now) }
{
    let baseline = baseline_of(alloc, plan)?;
    let mut seen = view(alloc, network)?;
    let cuts = sweep_events(alloc, network, plan, &baseline, risks, &mut seen, out)?;
    put_last_risk(risks, cuts, out)?;
    Ok(cuts)
}
