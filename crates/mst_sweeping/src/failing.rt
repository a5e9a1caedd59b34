ghost use Rattle.std.specs.Prelude.{IfOk, OnOk};
ghost use Rattle.mst_config.specs.Shared.{AreRegions};
ghost use Rattle.mst_view.specs.Viewed.{IsView};
ghost use Rattle.mst_plan.specs.Plan.{IsPlan, AreTrees};
ghost use Rattle.mst_sweep.specs.Failures.{failed};
ghost use Rattle.mst_sweeping.specs.Sweeping.{IsViewBut};

use mst_config::Regions;
use mst_config::laws::regions_stay;
use mst_net::{Contents, Network};
use mst_plan::{Forest, Plan, renew_bridge, renew_lan, repaired_forest};
use mst_sweep::{Failing, Failure};
use mst_view::View;
use std::alloc::{AllocError, Global};

/// The trees of a network with these failures, by one repair of those that stand. The view, which is the network's, is that network's
/// then. `AllocError`: memory was wanted and refused; the view may be of neither.
pub fn trees_failed(
    alloc: Global,
    network: &Network,
    plan: &Plan,
    failures: &[Failure],
    seen: &mut View,
) -> Result<Forest, AllocError>
    requires of { IsPlan network.now.net network.now.numbers plan.now }
    requires seen { IsView network.now.net network.now.numbers seen.old }
    ensures trees { IfOk result (AreTrees (failed failures.now network.now.net) network.now.numbers seen.new plan.now.regions) }
    ensures seen { OnOk result (IsView (failed failures.now network.now.net) network.now.numbers seen.new) }
{
    regions_stay();
    with_failures(alloc, network, failures, seen)?;
    let failing = Failing { network, failures };
    repaired(alloc, &failing, &plan.forest, &plan.regions, seen)
}

/// Renews the view of a network for the network with these failures. `AllocError`: memory was wanted and refused; the view may be of
/// neither.
fn with_failures(
    alloc: Global,
    network: &Network,
    failures: &[Failure],
    seen: &mut View,
) -> Result<(), AllocError>
    requires { IsView network.now.net network.now.numbers seen.old }
    ensures { OnOk result (IsView (failed failures.now network.now.net) network.now.numbers seen.new) }
{
    for n in 0..failures.len() {
        let failing = Failing {
            network,
            failures: &failures[..n + 1],
        };
        renew(alloc, &failing, &failures[n], seen)?;
    }
    Ok(())
}

/// Renews the view of a network with these failures for the network without them. `AllocError`: memory was wanted and refused; the view may be
/// of neither.
pub fn without_failures(
    alloc: Global,
    network: &Network,
    failures: &[Failure],
    seen: &mut View,
) -> Result<(), AllocError>
    requires { IsView (failed failures.now network.now.net) network.now.numbers seen.old }
    ensures { OnOk result (IsView network.now.net network.now.numbers seen.new) }
{
    let mut left = failures;
    while let Some((last, others)) = left.split_last() {
        let failing = Failing {
            network,
            failures: others,
        };
        renew(alloc, &failing, last, seen)?;
        left = others;
    }
    Ok(())
}

/// The trees of a network whose view is this one but for what fails, repaired from these: the view is renewed for that.
pub(crate) fn trees_ahead<C: Contents>(
    alloc: Global,
    contents: &C,
    from: &Forest,
    regions: &Regions,
    failure: &Failure,
    seen: &mut View,
) -> Result<Forest, AllocError>
    requires seen { IsViewBut failure.now (C.tables contents.now).net (C.tables contents.now).numbers seen.old }
    requires regions { AreRegions (C.tables contents.now).net (C.tables contents.now).numbers regions.now }
    ensures trees { IfOk result (AreTrees (C.tables contents.now).net (C.tables contents.now).numbers seen.new regions.now) }
    ensures seen { OnOk result (IsView (C.tables contents.now).net (C.tables contents.now).numbers seen.new) }
{
    renew(alloc, contents, failure, seen)?;
    repaired(alloc, contents, from, regions, seen)
}

/// The trees of a network whose view this is, repaired from these.
fn repaired<C: Contents>(
    alloc: Global,
    contents: &C,
    from: &Forest,
    regions: &Regions,
    seen: &View,
) -> Result<Forest, AllocError>
    requires seen { IsView (C.tables contents.now).net (C.tables contents.now).numbers seen.now }
    requires regions { AreRegions (C.tables contents.now).net (C.tables contents.now).numbers regions.now }
    ensures { IfOk result (AreTrees (C.tables contents.now).net (C.tables contents.now).numbers seen.now regions.now) }
{
    contents.known();
    repaired_forest(alloc, from, seen, regions)
}

/// Renews a view that is the network's but for what fails.
pub(crate) fn renew<C: Contents>(
    alloc: Global,
    contents: &C,
    failure: &Failure,
    seen: &mut View,
) -> Result<(), AllocError>
    requires { IsViewBut failure.now (C.tables contents.now).net (C.tables contents.now).numbers seen.old }
    ensures { OnOk result (IsView (C.tables contents.now).net (C.tables contents.now).numbers seen.new) }
{
    match failure {
        Failure::Lan(lan) => renew_lan(alloc, seen, contents, lan),
        Failure::Bridge(bridge) => renew_bridge(alloc, seen, contents, bridge),
    }
}
