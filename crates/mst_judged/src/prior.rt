ghost use Rattle.std.specs.Prelude.{◌≡◌};
ghost use Rattle.mst_reasons.specs.sweep.vlan.classes.Classes.{AreClasses};
ghost use Rattle.mst_judged.specs.Islands.{AreAlike, AreBeside, AreKept, HasIslandsOf, IsBeside};

use crate::before::Before;
use crate::beside::Beside;
use crate::homes::Homes;
use indexmap::IndexMap;
use mst_graph::Numbering;
use mst_ids::BridgeNo;
use mst_reasons::Carriage;
use mst_roles::Settled;

/// What is kept of the network that is prior to the one which is judged: what carries its VIDs, the classes of VIDs that nothing tells apart in
/// either network, and islands of both.
#[derive(Clone, Copy)]
pub struct Prior<'a> {
    pub old: &'a Carriage<'a>,
    pub classes: &'a Numbering,
    // For each class, if they are kept, the places of islands in the prior network, and in the one that is judged.
    pub olds: &'a [Option<IndexMap<BridgeNo, usize>>],
    pub news: &'a [Option<IndexMap<BridgeNo, usize>>],
    // For each class a flag, false only where the same ports carry its VIDs in both networks.
    pub differ: &'a [bool],
}

impl<'a> Prior<'a> {
    /// Of the network without the failure, where the one with it is judged.
    pub fn failed(
        old: &'a Carriage<'a>,
        plan: &Settled,
        before: &'a Before,
        homes: &'a Homes,
    ) -> Prior<'a>
        requires classes { AreClasses old.now.view before.now.classes }
        requires islands { HasIslandsOf old.now plan.now.numbers before.now }
        requires kept { AreKept plan.now before.now homes.now }
        requires alike { AreAlike old.now plan.now before.now.classes.firsts.items homes.now.differ.items }
        ensures old { result.old.now ≡ old.now }
        ensures classes { result.classes.now ≡ before.now.classes }
        ensures beside { IsBeside plan.now result }
    {
        let _plan = plan;
        Prior {
            old,
            classes: &before.classes,
            olds: before.homes.as_slice(),
            news: homes.made.as_slice(),
            differ: homes.differ.as_slice(),
        }
    }

    /// Of a network from which the one that is judged came, whatever was done between.
    pub fn beside(old: &'a Carriage<'a>, plan: &Settled, beside: &'a Beside) -> Prior<'a>
        requires { AreBeside old.now plan.now beside.now }
        ensures old { result.old.now ≡ old.now }
        ensures classes { result.classes.now ≡ beside.now.classes }
        ensures beside { IsBeside plan.now result }
    {
        let _plan = plan;
        Prior {
            old,
            classes: &beside.classes,
            olds: beside.olds.as_slice(),
            news: beside.news.as_slice(),
            differ: beside.differ.as_slice(),
        }
    }
}
