ghost use Rattle.std.specs.Prelude.{IfOk, MatchOption, ⊤};
ghost use Rattle.mst_net.specs.tables.Tables.{Net};
ghost use Rattle.mst_policy.specs.Leaving.{sets_of};
ghost use Rattle.mst_roles.specs.forest.Settled.{outcome_of};
ghost use Rattle.mst_island_judges.specs.judged.reasons.sweep.vlan.classes.Classes.{AreInSame};
ghost use Rattle.mst_island_judges.specs.judged.Islands.{AreKept, IsBeside, IsKeptOf};
ghost use Rattle.mst_island_judges.specs.judged.reasons.Named.{Prior};
ghost use Rattle.mst_island_judges.specs.judged.reasons.Over.{HasItsLan};
ghost use Rattle.mst_island_judges.specs.judged.reasons.Reasons.{AreReasons};
ghost use Rattle.mst_island_judges.specs.judged.Seen.{IsBefore};

use mst_island_judges::{
    Judged, Reason, apart_reasons, leaves_reasons, reach_reasons, together_reasons,
};
use mst_path_judges::{hops_reasons, via_reasons};
use mst_policy::Expectation;
use mst_tree_judges::{
    avoids_reasons, carries_reasons, depth_reasons, fits_reasons, leaf_reasons, region_reasons,
    role_reasons, root_reasons,
};
use std::alloc::{AllocError, Global};

/// Why an expectation doesn't hold in a network: no reason where it does. `AllocError`: memory was wanted and refused.
///
/// No expectation takes more than a few passes over the bridges and the ports, and one that asks for islands or for a path as many as there are
/// classes of the VIDs that it asks of. One that asks for the hops between bridges takes as many as that for each of its bridges.
pub fn reasons(
    alloc: Global,
    judged: &Judged,
    expectation: &Expectation,
) -> Result<Vec<Reason>, AllocError>
    requires kept { AreKept judged.now.plan.now judged.now.before.now judged.now.homes.now }
    requires lan { HasItsLan judged.now.plan.now.net expectation.now }
    requires prior { MatchOption judged.now.prior ⊤ (IsBeside judged.now.plan.now) }
    requires same { MatchOption judged.now.prior ⊤ (λ prior. AreInSame (sets_of judged.now.leaving.now) prior.classes.now) }
    ensures { IfOk result (λ reasons. (before : Net) (prior : Prior) → IsBefore before judged.now.before.now → IsKeptOf prior judged.now.prior judged.now.leaving.now
        → AreReasons judged.now.plan.now.net (outcome_of judged.now.plan.now) before judged.now.lost.now prior expectation.now reasons.items) }
{
    match expectation {
        Expectation::Root { tree, bridge, next } => {
            root_reasons(alloc, judged, *tree, bridge, next)
        }
        Expectation::Region { names } => region_reasons(alloc, judged, names),
        Expectation::Role { tree, ports, roles } => {
            role_reasons(alloc, judged, *tree, ports, roles)
        }
        Expectation::Reach { vids, names } => reach_reasons(alloc, judged, vids, names),
        Expectation::Apart {
            vids,
            names,
            others,
        } => apart_reasons(alloc, judged, vids, names, others),
        Expectation::Leaves { vids, names } => leaves_reasons(alloc, judged, vids, names),
        Expectation::Together { vids, names } => together_reasons(alloc, judged, vids, names),
        Expectation::Leaf { tree, names } => leaf_reasons(alloc, judged, *tree, names),
        Expectation::Depth { tree, steps } => depth_reasons(alloc, judged, *tree, *steps),
        Expectation::Hops { vids, most, names } => hops_reasons(alloc, judged, vids, *most, names),
        Expectation::Via { vids, from, to, by } => via_reasons(alloc, judged, vids, from, to, by),
        Expectation::Carries { lan, vids } => carries_reasons(alloc, judged, lan, vids),
        Expectation::Avoids { lan, vids } => avoids_reasons(alloc, judged, lan, vids),
        Expectation::Fits => fits_reasons(alloc, judged),
    }
}
