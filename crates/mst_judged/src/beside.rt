ghost use Rattle.std.specs.Prelude.{IfOk};
ghost use Rattle.mst_policy.specs.Leaving.{sets_of};
ghost use Rattle.mst_reasons.specs.sweep.vlan.classes.Classes.{AreInSame};
ghost use Rattle.mst_judged.specs.Islands.{AreBeside, IsOfPlan};

use crate::homes::{made_at, with_both};
use crate::vids::classes_asked;
use indexmap::IndexMap;
use mst_graph::Numbering;
use mst_ids::{BridgeNo, VidSet};
use mst_policy::Leaving;
use mst_reasons::{Carriage, classes_of_both_in, differing};
use mst_roles::Settled;
use std::alloc::{AllocError, Global};

/// What is kept of two networks of which the one came from the other: classes of VIDs that nothing tells apart in either, and the islands of some
/// classes in both.
#[derive(Drop)]
pub struct Beside {
    pub classes: Numbering,
    // For each class, if they are kept, the places of islands in the one network and in the other.
    pub olds: Vec<Option<IndexMap<BridgeNo, usize>>>,
    pub news: Vec<Option<IndexMap<BridgeNo, usize>>>,
    // For each class a flag, false only where the same ports carry its VIDs in both networks.
    pub differ: Vec<bool>,
}

impl Beside {
    /// Of a network and the one that is judged, with the islands of those classes that have one of these VIDs and that other ports carry in the
    /// one than in the other. `AllocError`: memory was wanted and refused.
    pub fn new(
        alloc: Global,
        old: &Carriage,
        new: &Carriage,
        plan: &Settled,
        vids: &VidSet,
        leaving: &Leaving,
    ) -> Result<Beside, AllocError>
        requires { IsOfPlan plan.now new.now }
        ensures beside { IfOk result (AreBeside old.now plan.now) }
        ensures same { IfOk result (λ beside. AreInSame (sets_of leaving.now) beside.classes) }
    {
        plan.known();
        let left = leaving.sets(alloc)?;
        let classes = classes_of_both_in(alloc, old.view(), plan.view(), left.as_slice())?;
        let places = classes.firsts.as_slice();
        let numbers = classes.numbers.as_slice();
        let asked = classes_asked(alloc, numbers, vids, places.len())?;
        let differ = differing(alloc, old, new, places)?;
        let flags = with_both(alloc, asked.as_slice(), differ.as_slice())?;
        let olds = made_at(alloc, old, places, flags.as_slice())?;
        let news = made_at(alloc, new, places, flags.as_slice())?;
        Ok(Beside {
            classes,
            olds,
            news,
            differ,
        })
    }
}
