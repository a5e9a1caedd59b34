ghost use Rattle.std.specs.Prelude.{◌≡◌, ◌<◌, ◌+◌, IfOk, length, map, slice_index, vec_len};
ghost use Rattle.std.specs.List.{All, AllZip};
ghost use Rattle.mst_net.specs.tables.Tables.{Net, Numbers};
ghost use Rattle.mst_vlan.specs.forest.Agrees.{AreOf, Known};
ghost use Rattle.mst_vlan.specs.forest.Forest.{IsForest};
ghost use Rattle.mst_sweep.specs.Baseline.{AreHomes, IsBaseline};

use crate::homes::homes_by;
use indexmap::IndexMap;
use mst_facts::Planned;
use mst_graph::Numbering;
use mst_ids::{BridgeNo, Vid};
use mst_vlan::{Carriage, classes_of_vids};
use std::alloc::{AllocError, Global};

/// What stays the same for all failures of a network: the classes of its VIDs, and which island each bridge is in before.
#[derive(Drop)]
pub struct Baseline {
    pub(crate) classes: Numbering,
    // For the first VID of each class the places of islands, by the numbers of the bridges in them.
    pub(crate) homes: Vec<IndexMap<BridgeNo, usize>>,
}

/// The places of islands of the VIDs at these places, which are counted from 0.
fn homes_at(
    alloc: Global,
    carriage: &Carriage,
    places: &[usize],
) -> Result<Vec<IndexMap<BridgeNo, usize>>, AllocError>
    requires { All (λ place. place < 4094) places.now }
    ensures as_long { IfOk result (λ homes. vec_len homes ≡ length places.now) }
    ensures homes { IfOk result (λ homes. (net : Net) (k : Numbers) (is : IsForest net k carriage.now.forest) → AreOf net k carriage.now.view carriage.now.forest.regions
        → AllZip (λ place homes. AreHomes net k is.outcome (place + 1) homes) places.now (map (λ h. h.entries) homes.items)) }
{
    let mut homes = Vec::new(alloc);
    for place in places {
        let vid = Vid::new(*place as u64 + 1).unwrap();
        homes.push(homes_by(alloc, carriage, vid)?)?;
    }
    Ok(homes)
}

impl Baseline {
    /// What stays the same for all failures of a network, by its plan. `AllocError`: memory was wanted and refused.
    ///
    /// Islands are made once for VIDs that no table and no set of VLANs tells apart.
    pub fn new(alloc: Global, plan: &Planned) -> Result<Baseline, AllocError>
        requires { Known plan.now.view.now plan.now.forest.now.regions }
        ensures { IfOk result (IsBaseline plan.now.view.now plan.now.forest.now) }
    {
        let classes = classes_of_vids(alloc, plan.view)?;
        let carriage = Carriage::new(alloc, plan.view, plan.forest)?;
        let homes = homes_at(alloc, &carriage, classes.firsts.as_slice())?;
        Ok(Baseline { classes, homes })
    }
}

/// The first VID of a class.
pub(crate) fn first_vid(old: &Planned, baseline: &Baseline, class: usize) -> Vid
    requires baseline { IsBaseline old.now.view.now old.now.forest.now baseline.now }
    requires there { class < length baseline.now.classes.firsts.items }
    ensures { result ≡ slice_index baseline.now.classes.firsts.items class + 1 }
{
    let firsts = baseline.classes.firsts.as_slice();
    Vid::new(firsts[class] as u64 + 1).unwrap()
}

/// The places of its islands in the network before.
pub(crate) fn homes_before<'a>(
    old: &Planned,
    baseline: &'a Baseline,
    class: usize,
) -> &'a IndexMap<BridgeNo, usize>
    requires baseline { IsBaseline old.now.view.now old.now.forest.now baseline.now }
    requires there { class < length baseline.now.classes.firsts.items }
    ensures { (net : Net) (n : Numbers) (is : IsForest net n old.now.forest.now) → AreOf net n old.now.view.now old.now.forest.now.regions → AreHomes net n is.outcome (slice_index baseline.now.classes.firsts.items class + 1) result.now.entries }
{
    let homes = baseline.homes.as_slice();
    &homes[class]
}
