ghost use Rattle.std.specs.Prelude.{◌≡◌, ◌<◌, ◌≤◌, ◌^◌, ◌∷◌, [], List, IfOk, OnOk};
ghost use Rattle.mst_rows.specs.Rows.{Row};
ghost use Rattle.mst_view.specs.Viewed.{IsView};
ghost use Rattle.mst_path.specs.Places.{named_path};
ghost use Rattle.mst_sweeping.specs.plan.Plan.{IsPlan};
ghost use Rattle.mst_sweeping.specs.sweep.Failures.{failed};
ghost use Rattle.mst_sweeping.specs.Sweeping.{Puts};
ghost use Rattle.mst_tracing.specs.Fates.{AreFates, HasPathIn, IsFate, IsFateTold, counted_with, looked_at as looked_at_of, none_counted};

use crate::ends::is_of_end;
use crate::rows::{put_counts, put_none, put_other};
use mst_net::Network;
use mst_path::{Hop, Trace, is_same, path};
use mst_roles::Settled;
use mst_rows::Rows;
use mst_sweeping::{Failure, Plan, failures, trees_failed, view, without_failures};
use mst_view::View;
use std::alloc::{AllocError, Global};
use std::slice::from_ref;

/// What becomes of a path after single failures.
#[derive(Clone, Copy)]
pub struct Fates {
    /// How many failures were looked at.
    pub failures: u64,
    /// After how many of them the path is another one.
    pub others: u64,
    /// After how many of them there is none any more.
    pub nones: u64,
}

/// What becomes of a path after a failure.
#[derive(Clone, Copy)]
pub(crate) enum Fate {
    /// It is the same, or there is none as before.
    Same,
    /// It is another one.
    Other,
    /// There is none any more.
    None,
}

impl Fates {
    /// Before the first failure.
    fn none() -> Fates
        ensures { result ≡ none_counted }
    {
        Fates {
            failures: 0,
            others: 0,
            nones: 0,
        }
    }

    /// Counts what becomes of a path after one failure more.
    fn count(&mut self, fate: Fate)
        requires failures { self.old.failures < 2 ^ 63 }
        requires others { self.old.others ≤ self.old.failures }
        requires nones { self.old.nones ≤ self.old.failures }
        ensures { self.new ≡ counted_with self.old fate }
    {
        self.failures += 1;
        match fate {
            Fate::Same => {}
            Fate::Other => self.others += 1,
            Fate::None => self.nones += 1,
        }
    }
}

/// The path in the network with a failure, by one repair of the trees that stand. The view, which is the network's, is that network's then.
/// `AllocError`: memory was wanted and refused; the view may be of neither.
fn path_failed(
    alloc: Global,
    network: &Network,
    plan: &Plan,
    failure: &Failure,
    trace: &Trace,
    seen: &mut View,
) -> Result<Option<Vec<Hop>>, AllocError>
    requires of { IsPlan network.now.net network.now.numbers plan.now }
    requires seen { IsView network.now.net network.now.numbers seen.old }
    ensures path { IfOk result (λ path. HasPathIn (failed (failure.now ∷ []) network.now.net) trace.now (named_path path)) }
    ensures seen { OnOk result (IsView (failed (failure.now ∷ []) network.now.net) network.now.numbers seen.new) }
{
    let trees = trees_failed(alloc, network, plan, from_ref(failure), seen)?;
    let edits = [failure.edit()];
    let failed = Settled::ahead(network, &edits, seen, &trees);
    failed.known();
    path(alloc, &failed, trace)
}

/// Puts the row of a failure, if it changes the path, by what that is then, and answers what becomes of it.
fn put_fate<R: Rows>(
    alloc: Global,
    trace: &Trace,
    failure: &Failure,
    before: &Option<Vec<Hop>>,
    after: &Option<Vec<Hop>>,
    out: &mut R,
) -> Result<Fate, AllocError>
    ensures { IfOk result (λ fate. (rows : List Row) × IsFate trace.now failure.now (named_path before.now) (named_path after.now) fate rows × Puts R.grew out.old out.new rows) }
{
    if is_same(before, after) {
        return Ok(Fate::Same);
    }
    match after {
        None => {
            put_none(trace, failure, out)?;
            Ok(Fate::None)
        }
        Some(hops) => {
            put_other(alloc, trace, failure, hops.as_slice(), out)?;
            Ok(Fate::Other)
        }
    }
}

/// Puts the row of a failure, if it changes the path, and answers what becomes of it. The view is the network's, and stays so: it is
/// renewed for the failure, and then back.
fn put_failed<R: Rows>(
    alloc: Global,
    network: &Network,
    plan: &Plan,
    failure: &Failure,
    trace: &Trace,
    before: &Option<Vec<Hop>>,
    seen: &mut View,
    out: &mut R,
) -> Result<Fate, AllocError>
    requires of { IsPlan network.now.net network.now.numbers plan.now }
    requires seen { IsView network.now.net network.now.numbers seen.old }
    ensures told { IfOk result (λ fate. (rows : List Row) × IsFateTold network.now.net trace.now (named_path before.now) failure.now fate rows × Puts R.grew out.old out.new rows) }
    ensures seen { OnOk result (IsView network.now.net network.now.numbers seen.new) }
{
    let after = path_failed(alloc, network, plan, failure, trace, seen)?;
    without_failures(alloc, network, from_ref(failure), seen)?;
    put_fate(alloc, trace, failure, before, &after, out)
}

/// Those of these failures that aren't of the two bridges of a path.
fn looked_at(alloc: Global, trace: &Trace, failures: &[Failure]) -> Result<Vec<Failure>, AllocError>
    ensures { IfOk result (λ those. those.items ≡ looked_at_of trace.now failures.now) }
{
    failures
        .iter()
        .filter(|failure| !is_of_end(trace, failure))
        .copied()
        .collect(alloc)
}

/// Puts what becomes of a path after each single failure of the network, but those of its two bridges: a row of each that changes it, as
/// soon as it is known, and a last row that counts them. No failure is made. `AllocError`: memory was wanted and refused; some of the rows
/// may have been put.
pub(crate) fn put_fates<R: Rows>(
    alloc: Global,
    network: &Network,
    plan: &Plan,
    trace: &Trace,
    before: &Option<Vec<Hop>>,
    out: &mut R,
) -> Result<Fates, AllocError>
    requires { IsPlan network.now.net network.now.numbers plan.now }
    ensures { IfOk result (λ fates. (rows : List Row) × AreFates network.now.net trace.now (named_path before.now) fates rows × Puts R.grew out.old out.new rows) }
{
    let all = failures(alloc, &plan.view)?;
    let failures = looked_at(alloc, trace, all.as_slice())?;
    let mut seen = view(alloc, network)?;
    let mut fates = Fates::none();
    for failure in failures.as_slice() {
        let fate = put_failed(alloc, network, plan, failure, trace, before, &mut seen, out)?;
        fates.count(fate);
    }
    put_counts(trace, &fates, out)?;
    Ok(fates)
}
