//! The trees of a network, settled by its view and its regions: from nothing, or repaired from those that stand.
ghost use Rattle.std.specs.Prelude.{◌≡◌, ℕ, IfOk};
ghost use Rattle.mst_vector.specs.Cist.{cist_rules};
ghost use Rattle.mst_forest.specs.outcome.Assignment.{vector_of};
ghost use Rattle.mst_forest.specs.outcome.Held.{IsHeld};
ghost use Rattle.mst_net.specs.tables.Tables.{Net, Numbers};
ghost use Rattle.mst_forest.specs.Agrees.{AreOf, Known};
ghost use Rattle.mst_trees.specs.Internal.{KnownInternal};
ghost use Rattle.mst_forest.specs.Forest.{IsForest, msti_settlings, trees_seen};
ghost use Rattle.mst_trees.specs.Bound.{IsSettledOnce, KeepsBounds, SettlesNoUnused};
ghost use Rattle.mst_forest.specs.Mstis.{AreHeld, outcomes};
ghost use Rattle.mst_trees.specs.Mstis.{AreOutcomes};
ghost use Rattle.mst_trees.specs.SettledBy.{IsSettledBy};
ghost use Rattle.mst_forest.specs.Seen.{cist_seen};
ghost use Rattle.mst_trees.specs.Wirings.{AreOwn, msti_wires, own_in};
ghost use Rattle.mst_forest.specs.nested.Trees.{IsSettled};

use crate::cist::{cist_wiring, repaired_cist};
use crate::msti::{internal_ports, msti_wiring};
use crate::mstis::repaired_mstis;
use crate::own::{OwnSettings, own_of, own_settings};
use mst_forest::laws::{has_outcome, nested};
use mst_forest::outcome_laws::renamed;
use mst_forest::{Forest, Mstis, Regions, SpanningTree, Wiring};
use mst_ids::{BridgeNo, LanNo, Name, PortName, PortNo, Tree};
use mst_vector::{CistMetric, CistPort, MstiMetric, MstiPort};
use mst_view::{PortInView, View};
use std::alloc::{AllocError, Global};
use std::collections::BTreeMap;

/// Settles the trees of a network, by its view and its regions. `AllocError`: memory was wanted and refused.
pub fn forest_of(alloc: Global, view: &View, regions: &Regions) -> Result<Forest, AllocError>
    requires { Known view.now regions.now }
    ensures outcome { IfOk result (λ forest. (net : Net) (numbers : Numbers) → AreOf net numbers view.now regions.now → IsForest net numbers forest) }
    ensures nested { IfOk result (λ forest. IsSettled (trees_seen view.now forest)) }
    ensures once { IfOk result IsSettledOnce }
{
    let nothing = Forest::empty(alloc);
    repaired_forest(alloc, &nothing, view, regions)
}

/// The trees of another network, each repaired from the one that stands: a copy is repaired, and the forest
/// that stands stays. What is settled for a tree that stays the same is shared. `AllocError`: memory was wanted and refused.
pub fn repaired_forest(
    alloc: Global,
    standing: &Forest,
    view: &View,
    regions: &Regions,
) -> Result<Forest, AllocError>
    requires { Known view.now regions.now }
    ensures outcome { IfOk result (λ forest. (net : Net) (numbers : Numbers) → AreOf net numbers view.now regions.now → IsForest net numbers forest) }
    ensures nested { IfOk result (λ forest. IsSettled (trees_seen view.now forest)) }
    ensures bounds { IfOk result (KeepsBounds standing.now) }
    ensures unused { IfOk result (λ forest. (net : Net) (numbers : Numbers) → AreOf net numbers view.now regions.now → SettlesNoUnused net (msti_settlings forest)) }
{
    has_outcome();
    nested();
    renamed::<CistMetric, Name, Name, PortName, BridgeNo, LanNo, PortNo>();
    renamed::<MstiMetric, Name, Name, PortName, BridgeNo, LanNo, PortNo>();
    let own = own_settings(alloc, view)?;
    let (cist_wiring, cist) = next_cist(alloc, standing, view, regions, &own)?;
    let internal = internal_ports(alloc, view, regions, &cist)?;
    let msti_wiring = msti_wiring(alloc, internal.as_slice())?;
    let mstis = next_mstis(
        alloc,
        standing,
        view,
        internal.as_slice(),
        &own,
        &msti_wiring,
    )?;
    let regions = regions.copy()?;
    Ok(Forest::of(regions, cist_wiring, cist, msti_wiring, mstis))
}

/// The CIST of another network, repaired from the one that stands, on its wiring, with the settings that ports have in one tree
/// alone.
fn next_cist(
    alloc: Global,
    standing: &Forest,
    view: &View,
    regions: &Regions,
    own: &OwnSettings,
) -> Result<(Wiring<CistPort>, SpanningTree<CistMetric>), AllocError>
    requires known { Known view.now regions.now }
    requires own { AreOwn view.now view.now.ports 0 (own_in own.now.entries 0) }
    ensures settled { IfOk result (λ r. IsSettledBy cist_rules (cist_seen view.now regions.now) (vector_of standing.now.cist) r.1.outcome) }
    ensures held { IfOk result (λ r. IsHeld cist_rules r.0 r.1) }
{
    let (from, before) = standing.cist_wired();
    let none = BTreeMap::new(alloc);
    let wiring = cist_wiring(alloc, view, own_of(own, &none, Tree::cist()))?;
    let cist = repaired_cist(alloc, before, from, &wiring, view, regions)?;
    Ok((wiring, cist))
}

/// The MSTIs of another network of whose view these are the internal ports, on their wiring, with the settings that these have in
/// one tree alone: each is repaired from the one that stands, if there is one.
fn next_mstis(
    alloc: Global,
    standing: &Forest,
    view: &View,
    internal: &[PortInView],
    own: &OwnSettings,
    wiring: &Wiring<MstiPort>,
) -> Result<Mstis, AllocError>
    requires known { KnownInternal view.now internal.now }
    requires own { (tree : ℕ) → AreOwn view.now internal.now tree (own_in own.now.entries tree) }
    requires wiring { wiring.now ≡ msti_wires internal.now }
    ensures settled { IfOk result (λ mstis. AreOutcomes view.now internal.now standing.now.mstis (outcomes mstis.entries)) }
    ensures held { IfOk result (λ mstis. AreHeld wiring.now mstis.entries) }
{
    let (from, former) = standing.mstis_wired();
    let nothing = Wiring::new(alloc);
    repaired_mstis(alloc, former, view, internal, own, &nothing, from, wiring)
}
