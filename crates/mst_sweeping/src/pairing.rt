ghost use Rattle.std.specs.Prelude.{◌≡◌, ◌≤◌, ◌-◌, ◌*◌, ◌/◌, List, [], ◌∷◌, IfOk, OnOk, length, map};
ghost use Rattle.std.specs.List.{AllByRecursion};
ghost use Rattle.mst_view.specs.Viewed.{IsView};
ghost use Rattle.mst_plan.specs.forest.Forest.{IsForest};
ghost use Rattle.mst_plan.specs.Plan.{IsPlan, AreTrees};
ghost use Rattle.mst_sweeping.specs.Pairing.{SweepsPairs, AreSingles, HasHomes, IsSingle, IsPairing, ArePairsTold, TellsPair};
ghost use Rattle.mst_sweeping.specs.Sweeping.{Puts};
ghost use Rattle.mst_rows.specs.Rows.{Row};
ghost use Rattle.mst_sweep.specs.Baseline.{IsBaseline};
ghost use Rattle.mst_sweep.specs.Failures.{failed};
ghost use Rattle.mst_sweep.specs.Pairs.{with_each};

use crate::failing::{renew, trees_ahead, trees_failed, without_failures};
use crate::sweeping::baseline_of;
use mst_config::laws::regions_stay;
use mst_net::Network;
use mst_plan::{Forest, Plan, view};
use mst_rows::Rows;
use mst_sweep::{
    Baseline, Failing, Failure, Planned, Single, SweepPart, failures, kept_alone,
    put_last_of_pairs, put_pair,
};
use mst_view::View;
use std::alloc::{AllocError, Global};
use std::slice::from_ref;

/// What pairs are looked at by: the network, its plan, and what each failure does alone.
#[derive(Drop)]
pub(crate) struct Pairing<'a> {
    pub(crate) network: &'a Network,
    pub(crate) plan: &'a Plan,
    pub(crate) baseline: &'a Baseline,
    pub(crate) singles: &'a [Single],
}

/// Puts of which VIDs each pair of a part of those of a network's failures parts bridges that either failure alone leaves joined, by its
/// plan, each as soon as it is known, and answers how many of them cut some. `AllocError`: memory was wanted and refused; some of the rows may have been
/// put.
///
/// A failure is looked at once alone. For a first one of pairs the trees are repaired once, and from these once for each second.
pub fn sweep_pairs<R: Rows>(
    alloc: Global,
    network: &Network,
    plan: &Plan,
    part: SweepPart,
    out: &mut R,
) -> Result<u64, AllocError>
    requires { IsPlan network.now.net network.now.numbers plan.now }
    ensures { IfOk result (λ cuts. (rows : List Row) × SweepsPairs part network.now.net cuts rows × Puts R.grew out.old out.new rows) }
{
    let all = failures(alloc, &plan.view)?;
    let baseline = baseline_of(alloc, plan)?;
    let mut seen = view(alloc, network)?;
    let singles = singles_of(alloc, network, plan, &baseline, all.as_slice(), &mut seen)?;
    let pairing = Pairing {
        network,
        plan,
        baseline: &baseline,
        singles: singles.as_slice(),
    };
    put_pairs_of(alloc, &pairing, part, &mut seen, out)
}

/// What is kept of each of these failures alone. The view is the network's, and stays so.
fn singles_of(
    alloc: Global,
    network: &Network,
    plan: &Plan,
    baseline: &Baseline,
    failures: &[Failure],
    seen: &mut View,
) -> Result<Vec<Single>, AllocError>
    requires of { IsPlan network.now.net network.now.numbers plan.now }
    requires baseline { IsBaseline plan.now.view plan.now.forest baseline.now }
    requires seen { IsView network.now.net network.now.numbers seen.old }
    ensures singles { IfOk result (λ singles. (is : IsForest network.now.net network.now.numbers plan.now.forest) → AreSingles network.now.net network.now.numbers is.outcome baseline.now failures.now singles.items) }
    ensures seen { OnOk result (IsView network.now.net network.now.numbers seen.new) }
{
    let mut singles = Vec::new(alloc);
    for failure in failures {
        singles.push(single_of(alloc, network, plan, baseline, failure, seen)?)?;
    }
    Ok(singles)
}

/// What is kept of a failure alone. The view is the network's, and stays so: it is renewed for the failure, and then back.
fn single_of(
    alloc: Global,
    network: &Network,
    plan: &Plan,
    baseline: &Baseline,
    failure: &Failure,
    seen: &mut View,
) -> Result<Single, AllocError>
    requires of { IsPlan network.now.net network.now.numbers plan.now }
    requires baseline { IsBaseline plan.now.view plan.now.forest baseline.now }
    requires seen { IsView network.now.net network.now.numbers seen.old }
    ensures failure { IfOk result (λ single. single.failure ≡ failure.now) }
    ensures single { IfOk result (λ single. (is : IsForest network.now.net network.now.numbers plan.now.forest) → IsSingle network.now.net network.now.numbers is.outcome baseline.now single) }
    ensures seen { OnOk result (IsView network.now.net network.now.numbers seen.new) }
{
    let forest = trees_failed(alloc, network, plan, from_ref(failure), seen)?;
    let old = Planned {
        view: &plan.view,
        forest: &plan.forest,
    };
    let new = Planned {
        view: seen,
        forest: &forest,
    };
    let kept = kept_alone(alloc, failure, &old, baseline, &new)?;
    without_failures(alloc, network, from_ref(failure), seen)?;
    Ok(kept)
}

/// How many pairs so many failures have.
fn pairs_among(count: usize) -> usize
    requires { count ≤ 9216 }
    ensures { result ≡ count * (count - 1) / 2 }
{
    count * count.saturating_sub(1) / 2
}

/// Puts what the pairs of a part do, and the last row, and answers how many of them cut some VID. The view is the network's.
fn put_pairs_of<R: Rows>(
    alloc: Global,
    pairing: &Pairing,
    part: SweepPart,
    seen: &mut View,
    out: &mut R,
) -> Result<u64, AllocError>
    requires pairing { IsPairing pairing.now }
    requires seen { IsView pairing.now.network.now.net pairing.now.network.now.numbers seen.old }
    ensures { IfOk result (λ cuts. (rows : List Row) × SweepsPairs part pairing.now.network.now.net cuts rows × Puts R.grew out.old out.new rows) }
{
    let count = pairing.singles.len();
    let all = pairs_among(count);
    let mut begin = part.begin(all);
    let mut end = part.end(all);
    let pairs = end - begin;
    let mut cuts = 0;
    for first in 0..count {
        let behind = count - first - 1;
        let from = begin.min(behind);
        let to = end.min(behind);
        let one = &pairing.singles[first];
        let others = &pairing.singles[first + 1 + from..first + 1 + to];
        cuts += put_run(alloc, pairing, one, others, seen, out)?;
        begin -= from;
        end -= to;
    }
    put_last_of_pairs(pairs as u64, cuts, out)?;
    Ok(cuts)
}

/// Puts what the pairs of a failure with each of others do, and answers how many of them cut some VID together. The
/// view is the network's, and stays so.
fn put_run<R: Rows>(
    alloc: Global,
    pairing: &Pairing,
    one: &Single,
    others: &[Single],
    seen: &mut View,
    out: &mut R,
) -> Result<u64, AllocError>
    requires pairing { IsPairing pairing.now }
    requires one { HasHomes pairing.now.baseline.now one.now }
    requires others { AllByRecursion (HasHomes pairing.now.baseline.now) others.now }
    requires seen { IsView pairing.now.network.now.net pairing.now.network.now.numbers seen.old }
    ensures told { IfOk result (λ cuts. (is : IsPairing pairing.now) → IsSingle pairing.now.network.now.net pairing.now.network.now.numbers is.plan.forest.outcome pairing.now.baseline.now one.now
        → AllByRecursion (IsSingle pairing.now.network.now.net pairing.now.network.now.numbers is.plan.forest.outcome pairing.now.baseline.now) others.now
        → (rows : List Row) × ArePairsTold pairing.now.network.now.net is.plan.forest.outcome (with_each one.now.failure (map (λ s. s.failure) others.now)) cuts rows × Puts R.grew out.old out.new rows) }
    ensures few { IfOk result (λ cuts. cuts ≤ length others.now) }
    ensures seen { OnOk result (IsView pairing.now.network.now.net pairing.now.network.now.numbers seen.new) }
{
    if others.is_empty() {
        return Ok(0);
    }
    let forest = trees_failed(
        alloc,
        pairing.network,
        pairing.plan,
        from_ref(&one.failure),
        seen,
    )?;
    let mut cuts = 0;
    for other in others {
        if put_second(alloc, pairing, one, &forest, other, seen, out)? {
            cuts += 1;
        }
    }
    without_failures(alloc, pairing.network, from_ref(&one.failure), seen)?;
    Ok(cuts)
}

/// Puts what a pair does, and answers whether it cuts some VID together. The view is that of the network with the
/// first, and stays so: it is renewed for the second, and then back. The trees are repaired from these.
fn put_second<R: Rows>(
    alloc: Global,
    pairing: &Pairing,
    one: &Single,
    from: &Forest,
    other: &Single,
    seen: &mut View,
    out: &mut R,
) -> Result<bool, AllocError>
    requires pairing { IsPairing pairing.now }
    requires one { HasHomes pairing.now.baseline.now one.now }
    requires other { HasHomes pairing.now.baseline.now other.now }
    requires seen { IsView (failed (one.now.failure ∷ []) pairing.now.network.now.net) pairing.now.network.now.numbers seen.old }
    ensures told { IfOk result (λ cuts. (is : IsPairing pairing.now) → IsSingle pairing.now.network.now.net pairing.now.network.now.numbers is.plan.forest.outcome pairing.now.baseline.now one.now
        → IsSingle pairing.now.network.now.net pairing.now.network.now.numbers is.plan.forest.outcome pairing.now.baseline.now other.now
        → (rows : List Row) × TellsPair pairing.now.network.now.net is.plan.forest.outcome one.now other.now cuts rows × Puts R.grew out.old out.new rows) }
    ensures seen { OnOk result (IsView (failed (one.now.failure ∷ []) pairing.now.network.now.net) pairing.now.network.now.numbers seen.new) }
{
    let forest = trees_of_second(alloc, pairing, one, from, other, seen)?;
    let old = Planned {
        view: &pairing.plan.view,
        forest: &pairing.plan.forest,
    };
    let new = Planned {
        view: seen,
        forest: &forest,
    };
    let cuts = put_pair(alloc, one, other, &old, pairing.baseline, &new, out)?;
    back_to_first(alloc, pairing.network, &one.failure, &other.failure, seen)?;
    Ok(cuts)
}

/// Renews the view of a network with both failures for the network with the first.
fn back_to_first(
    alloc: Global,
    network: &Network,
    first: &Failure,
    second: &Failure,
    seen: &mut View,
) -> Result<(), AllocError>
    requires { IsView (failed (first.now ∷ second.now ∷ []) network.now.net) network.now.numbers seen.old }
    ensures { OnOk result (IsView (failed (first.now ∷ []) network.now.net) network.now.numbers seen.new) }
{
    let failures = [*first];
    let failing = Failing {
        network,
        failures: &failures,
    };
    renew(alloc, &failing, second, seen)
}

/// The trees of a network with both failures, repaired from these. The view, which is that of the network with the first, is that
/// network's then.
fn trees_of_second(
    alloc: Global,
    pairing: &Pairing,
    first: &Single,
    from: &Forest,
    second: &Single,
    seen: &mut View,
) -> Result<Forest, AllocError>
    requires pairing { IsPairing pairing.now }
    requires seen { IsView (failed (first.now.failure ∷ []) pairing.now.network.now.net) pairing.now.network.now.numbers seen.old }
    ensures trees { IfOk result (AreTrees (failed (first.now.failure ∷ second.now.failure ∷ []) pairing.now.network.now.net) pairing.now.network.now.numbers seen.new pairing.now.plan.now.regions) }
    ensures seen { OnOk result (IsView (failed (first.now.failure ∷ second.now.failure ∷ []) pairing.now.network.now.net) pairing.now.network.now.numbers seen.new) }
{
    regions_stay();
    let failures = [first.failure, second.failure];
    let failing = Failing {
        network: pairing.network,
        failures: &failures,
    };
    trees_ahead(
        alloc,
        &failing,
        from,
        &pairing.plan.regions,
        &second.failure,
        seen,
    )
}
