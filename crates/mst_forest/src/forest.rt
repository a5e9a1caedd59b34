ghost use Rattle.std.specs.Prelude.{◌≡◌, ℕ, None};
ghost use Rattle.mst_vector.specs.Cist.{cist_rules};
ghost use Rattle.mst_outcome.specs.Assignment.{vector_of, designated_of};
ghost use Rattle.mst_outcome.specs.Held.{IsHeld};
ghost use Rattle.mst_config.specs.Shared.{same_in};
ghost use Rattle.mst_forest.specs.Forest.{msti_vector, designated_in, settlings_in};
ghost use Rattle.mst_forest.specs.Mstis.{AreHeld, outcomes};
ghost use Rattle.mst_forest.specs.Seen.{seen_internal};

use crate::internal::is_internal;
use indexmap::IndexMap;
use mst_config::Regions;
use mst_ids::{BridgeNo, LanNo, PortNo, Tree};
use mst_outcome::SpanningTree;
use mst_topology::Wiring;
use mst_vector::{CistMetric, CistPort, CistVector, MstiMetric, MstiPort, MstiVector};
use mst_view::{PortInView, View};
use std::alloc::Global;
use std::marker::Model;

/// The MSTIs by their numbers.
pub type Mstis = IndexMap<Tree, SpanningTree<MstiMetric>>;

/// The trees of a network, settled: the CIST, and each MSTI that some bridge has. They go by two wirings of its logical
/// ports: the CIST by that of the enabled ones, and the MSTIs by that of those whose LAN belongs to the region of their
/// bridge.
pub struct Forest {
    regions: Regions,
    cist_wiring: Wiring<CistPort>,
    cist: SpanningTree<CistMetric>,
    msti_wiring: Wiring<MstiPort>,
    mstis: Mstis,
}

// By hand, as a view's.
impl Drop for Forest {
    fn drop(self) {
        let Forest {
            regions: _,
            cist_wiring: _,
            cist: _,
            msti_wiring: _,
            mstis: _,
        } = self;
    }
}

impl Model for Forest {
    ghost use Rattle.mst_vector.specs.Cist.{cist_rules};
    ghost use Rattle.mst_outcome.specs.Held.{IsHeld};
    ghost use Rattle.mst_forest.specs.Forest.{Forest as ForestSeen};
    ghost use Rattle.mst_forest.specs.Mstis.{outcomes, AreHeld};

    ghost Value = { ForestSeen };

    ghost view = { λ f. record { regions = f.regions; cist = f.cist.outcome; mstis = outcomes f.mstis.entries } };

    ghost invariant = { λ f. IsHeld cist_rules f.cist_wiring f.cist × AreHeld f.msti_wiring f.mstis.entries };
}

impl Forest {
    /// The forest of no bridges. It takes no memory.
    pub fn empty(alloc: Global) -> Forest
        ensures cist { (n : ℕ) → vector_of result.cist n ≡ None }
        ensures mstis { (tree n : ℕ) → msti_vector result tree n ≡ None }
    {
        Forest {
            regions: Regions::none(alloc),
            cist_wiring: Wiring::new(alloc),
            cist: SpanningTree::new(alloc),
            msti_wiring: Wiring::new(alloc),
            mstis: IndexMap::new(alloc),
        }
    }

    /// The forest of these trees, each on its wiring, settled for these regions.
    pub fn of(
        regions: Regions,
        cist_wiring: Wiring<CistPort>,
        cist: SpanningTree<CistMetric>,
        msti_wiring: Wiring<MstiPort>,
        mstis: Mstis,
    ) -> Forest
        requires cist { IsHeld cist_rules cist_wiring cist }
        requires mstis { AreHeld msti_wiring mstis.entries }
        ensures { result ≡ record { regions = regions; cist = cist.outcome; mstis = outcomes mstis.entries } }
    {
        Forest {
            regions,
            cist_wiring,
            cist,
            msti_wiring,
            mstis,
        }
    }

    /// The CIST, with the wiring that it is on.
    pub fn cist_wired(&self) -> (&Wiring<CistPort>, &SpanningTree<CistMetric>)
        ensures outcome { result.1.now.outcome ≡ self.now.cist }
        ensures held { IsHeld cist_rules result.0.now result.1.now }
    {
        (&self.cist_wiring, &self.cist)
    }

    /// The MSTIs by their numbers, with the wiring that they are on.
    pub fn mstis_wired(&self) -> (&Wiring<MstiPort>, &Mstis)
        ensures outcomes { outcomes result.1.now.entries ≡ self.now.mstis }
        ensures held { AreHeld result.0.now result.1.now.entries }
    {
        (&self.msti_wiring, &self.mstis)
    }

    /// The root priority vector of a bridge in the CIST, or nothing where the bridge is off or isn't there.
    pub fn cist(&self, bridge: BridgeNo) -> Option<CistVector>
        ensures { result ≡ vector_of self.now.cist bridge }
    {
        self.cist.vector(bridge)
    }

    /// The root priority vector of a bridge in an MSTI, or nothing where the bridge isn't in it.
    pub fn msti(&self, tree: Tree, bridge: BridgeNo) -> Option<MstiVector>
        ensures { result ≡ msti_vector self.now tree bridge }
    {
        match self.mstis.get(&tree) {
            None => None,
            Some(msti) => msti.vector(bridge),
        }
    }

    /// The designated port of a LAN in a tree, or nothing where no port of the tree is on the LAN.
    pub fn designated(&self, tree: Tree, lan: LanNo) -> Option<PortNo>
        ensures { result ≡ designated_in self.now tree lan }
    {
        if tree.value() == 0 {
            return self.cist.designated(lan);
        }
        match self.mstis.get(&tree) {
            None => None,
            Some(msti) => msti.designated(lan),
        }
    }

    /// Whether two bridges are in one region, by the regions for which the trees are settled.
    pub fn same(&self, a: BridgeNo, b: BridgeNo) -> bool
        ensures { result ≡ same_in self.now.regions a b }
    {
        self.regions.same(a, b)
    }

    /// The regions for which the trees are settled.
    pub fn regions(&self) -> &Regions
        ensures { result.now ≡ self.now.regions }
    {
        &self.regions
    }

    /// Whether a port of the view is enabled and its LAN belongs to the region of its bridge, by the regions and the
    /// CIST of this forest: then MSTIs have it.
    pub fn is_internal(&self, view: &View, port: &PortInView) -> bool
        ensures { result ≡ seen_internal view.now self.now.regions (designated_of self.now.cist) port.now }
    {
        is_internal(view, &self.regions, &self.cist, port)
    }

    /// How often a bridge was settled in a tree, when this forest was made: 0 in an MSTI that no bridge has.
    pub fn settlings(&self, tree: Tree) -> u64
        ensures { result ≡ settlings_in self.now tree }
    {
        if tree.value() == 0 {
            return self.cist.settlings();
        }
        match self.mstis.get(&tree) {
            None => 0,
            Some(msti) => msti.settlings(),
        }
    }
}
