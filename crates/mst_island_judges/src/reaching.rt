ghost use Rattle.std.specs.Prelude.{◌≡◌, ◌+◌, ◌<◌, IfOk, length, map, slice_index, true, vec_len};
ghost use Rattle.mst_forest.specs.Settled.{outcome_of};
ghost use Rattle.mst_judged.specs.reasons.sweep.Cuts.{names_of};
ghost use Rattle.mst_judged.specs.reasons.Named.{named as named_in};
ghost use Rattle.mst_judged.specs.reasons.Seen.{names_in};
ghost use Rattle.mst_judged.specs.Islands.{AreKept, AreOfClasses, AreReachParts, HaveNumbers};
ghost use Rattle.mst_judged.specs.reasons.Reasons.{AreReachReasons};

use crate::grouping::{Telling, vid_reasons};
use crate::parting::parts_at;
use mst_ids::{Name, VidSet};
use mst_judged::{Judged, Reason, classes_asked, named};
use mst_policy::NameList;
use mst_view::BridgeInView;
use std::alloc::{AllocError, Global};

/// The parts of these bridges for the VIDs of a class, if it has a flag.
fn body_at(
    alloc: Global,
    judged: &Judged,
    bridges: &[BridgeInView],
    class: usize,
    flag: bool,
) -> Result<Vec<Vec<Name>>, AllocError>
    requires kept { AreKept judged.now.plan.now judged.now.before.now judged.now.homes.now }
    requires bridges { HaveNumbers judged.now.plan.now.numbers bridges.now }
    requires there { class < length judged.now.before.now.classes.firsts.items }
    ensures { IfOk result (λ parts. flag ≡ true → AreReachParts judged.now.plan.now.net (outcome_of judged.now.plan.now) (names_in bridges.now) (slice_index judged.now.before.now.classes.firsts.items class + 1) (names_of parts)) }
{
    if flag {
        return parts_at(alloc, judged, bridges, class);
    }
    Ok(Vec::new(alloc))
}

/// The parts of these bridges for the classes of VIDs that have a flag.
fn bodies(
    alloc: Global,
    judged: &Judged,
    bridges: &[BridgeInView],
    flags: &[bool],
) -> Result<Vec<Vec<Vec<Name>>>, AllocError>
    requires kept { AreKept judged.now.plan.now judged.now.before.now judged.now.homes.now }
    requires bridges { HaveNumbers judged.now.plan.now.numbers bridges.now }
    requires flags { length flags.now ≡ length judged.now.before.now.classes.firsts.items }
    ensures as_long { IfOk result (λ bodies. vec_len bodies ≡ length flags.now) }
    ensures parts { IfOk result (λ bodies. AreOfClasses (AreReachParts judged.now.plan.now.net (outcome_of judged.now.plan.now) (names_in bridges.now)) judged.now.before.now.classes.firsts.items flags.now (map names_of bodies.items)) }
{
    let mut bodies = Vec::new(alloc);
    for class in 0..flags.len() {
        bodies.push(body_at(alloc, judged, bridges, class, flags[class])?)?;
    }
    Ok(bodies)
}

/// For which VIDs bridges aren't all in one island, and in which parts they are then, VIDs of equal parts in one reason, by the least VID.
/// `AllocError`: memory was wanted and refused.
///
/// Islands are made once for VIDs that no table and no set of VLANs tells apart.
pub fn reach_reasons(
    alloc: Global,
    judged: &Judged,
    vids: &VidSet,
    names: &NameList,
) -> Result<Vec<Reason>, AllocError>
    requires { AreKept judged.now.plan.now judged.now.before.now judged.now.homes.now }
    ensures { IfOk result (λ reasons. AreReachReasons judged.now.plan.now.net (outcome_of judged.now.plan.now) vids.now (named_in judged.now.plan.now.net judged.now.lost.now names.now) reasons.items) }
{
    judged.plan.known();
    let numbers = judged.before.classes.numbers.as_slice();
    let count = judged.before.classes.firsts.len();
    let bridges = named(alloc, judged, names)?;
    let flags = classes_asked(alloc, numbers, vids, count)?;
    let bodies = bodies(alloc, judged, bridges.as_slice(), flags.as_slice())?;
    vid_reasons(alloc, Telling::Reach, numbers, vids, bodies.as_slice())
}
