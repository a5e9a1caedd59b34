ghost use Rattle.std.specs.Prelude.{◌≡◌, ◌+◌, ◌<◌, IfOk, filter, length, map, slice_index, true, vec_len};
ghost use Rattle.std.specs.List.{list_any};
ghost use Rattle.std.specs.Option.{option_copied};
ghost use Rattle.mst_forest.specs.Settled.{outcome_of};
ghost use Rattle.mst_judged.specs.reasons.sweep.Cuts.{names_of};
ghost use Rattle.mst_judged.specs.reasons.Named.{named as named_in, is_named as is_named_of, unnamed};
ghost use Rattle.mst_judged.specs.Islands.{AreKept, AreOfClasses};
ghost use Rattle.mst_island_judges.specs.Grouping.{tells};
ghost use Rattle.mst_island_judges.specs.Seen.{are_of_both, is_other as is_other_of, others_in, seen_either};
ghost use Rattle.mst_judged.specs.reasons.Reasons.{AreApartReasons, AreBoth, AreLeavesReasons, AreVidReasons};

use crate::grouping::{Telling, vid_reasons};
use crate::parting::parts_at;
use mst_ids::{Name, VidSet};
use mst_judged::{Judged, Reason, classes_asked, is_named};
use mst_policy::NameList;
use mst_view::BridgeInView;
use std::alloc::{AllocError, Global};

/// Whether a bridge is one of the others: of another list, or where there is none not of the first.
fn is_other(judged: &Judged, names: &NameList, others: Option<&NameList>, bridge: &Name) -> bool
    ensures { result ≡ is_other_of judged.now.lost.now names.now (option_copied others.entry) bridge.now }
{
    match others {
        Some(list) => is_named(judged.lost, list, bridge),
        None => !names.has(bridge),
    }
}

/// Whether a bridge is on, and one of a list or of the others.
fn is_either(
    judged: &Judged,
    names: &NameList,
    others: Option<&NameList>,
    bridge: &BridgeInView,
) -> bool
    ensures { result ≡ seen_either judged.now.lost.now names.now (option_copied others.entry) bridge.now }
{
    bridge.bridge.is_on()
        && (is_named(judged.lost, names, &bridge.name)
            || is_other(judged, names, others, &bridge.name))
}

/// The bridges of the list and the others that are on.
fn either_on(
    alloc: Global,
    judged: &Judged,
    names: &NameList,
    others: Option<&NameList>,
) -> Result<Vec<BridgeInView>, AllocError>
    ensures { IfOk result (λ bridges. bridges.items ≡ filter (seen_either judged.now.lost.now names.now (option_copied others.entry)) judged.now.plan.now.view.bridges) }
{
    judged
        .plan
        .view()
        .bridges()
        .iter()
        .filter(|bridge| is_either(judged, names, others, bridge))
        .copied()
        .collect(alloc)
}

/// Whether some of these bridges is one of these names.
fn has_some(judged: &Judged, names: &NameList, part: &[Name]) -> bool
    ensures { result ≡ list_any (is_named_of judged.now.lost.now names.now) part.now }
{
    part.iter()
        .any(|bridge| is_named(judged.lost, names, bridge))
}

/// Whether some of these bridges is one of the others.
fn has_other(judged: &Judged, names: &NameList, others: Option<&NameList>, part: &[Name]) -> bool
    ensures { result ≡ list_any (is_other_of judged.now.lost.now names.now (option_copied others.entry)) part.now }
{
    part.iter()
        .any(|bridge| is_other(judged, names, others, bridge))
}

/// Whether a part has bridges of both.
fn is_of_both(judged: &Judged, names: &NameList, others: Option<&NameList>, part: &[Name]) -> bool
    ensures { result ≡ are_of_both judged.now.lost.now names.now (option_copied others.entry) part.now }
{
    has_some(judged, names, part) && has_other(judged, names, others, part)
}

/// Those of these parts that have bridges of both.
fn of_both(
    alloc: Global,
    judged: &Judged,
    names: &NameList,
    others: Option<&NameList>,
    parts: Vec<Vec<Name>>,
) -> Result<Vec<Vec<Name>>, AllocError>
    ensures { IfOk result (λ both. names_of both ≡ filter (are_of_both judged.now.lost.now names.now (option_copied others.entry)) (names_of parts)) }
{
    let mut both = Vec::new(alloc);
    for part in parts {
        if is_of_both(judged, names, others, part.as_slice()) {
            both.push(part)?;
        }
    }
    Ok(both)
}

/// Of the parts of these bridges for the VIDs of a class, if it has a flag, those with bridges of both. The bridges are those of the
/// list and the others that are on.
fn body_at(
    alloc: Global,
    judged: &Judged,
    names: &NameList,
    others: Option<&NameList>,
    bridges: &[BridgeInView],
    class: usize,
    flag: bool,
) -> Result<Vec<Vec<Name>>, AllocError>
    requires kept { AreKept judged.now.plan.now judged.now.before.now judged.now.homes.now }
    requires bridges { bridges.now ≡ filter (seen_either judged.now.lost.now names.now (option_copied others)) judged.now.plan.now.view.bridges }
    requires there { class < length judged.now.before.now.classes.firsts.items }
    ensures { IfOk result (λ both. flag ≡ true → AreBoth judged.now.plan.now.net (outcome_of judged.now.plan.now) (named_in judged.now.plan.now.net judged.now.lost.now names.now) (others_in judged.now.plan.now.net judged.now.lost.now names.now (option_copied others.entry)) (slice_index judged.now.before.now.classes.firsts.items class + 1) (names_of both)) }
{
    judged.plan.known();
    if !flag {
        return Ok(Vec::new(alloc));
    }
    let parts = parts_at(alloc, judged, bridges, class)?;
    of_both(alloc, judged, names, others, parts)
}

/// The parts with bridges of both for the classes of VIDs that have a flag.
fn bodies(
    alloc: Global,
    judged: &Judged,
    names: &NameList,
    others: Option<&NameList>,
    flags: &[bool],
) -> Result<Vec<Vec<Vec<Name>>>, AllocError>
    requires kept { AreKept judged.now.plan.now judged.now.before.now judged.now.homes.now }
    requires flags { length flags.now ≡ length judged.now.before.now.classes.firsts.items }
    ensures as_long { IfOk result (λ bodies. vec_len bodies ≡ length flags.now) }
    ensures parts { IfOk result (λ bodies. AreOfClasses (AreBoth judged.now.plan.now.net (outcome_of judged.now.plan.now) (named_in judged.now.plan.now.net judged.now.lost.now names.now) (others_in judged.now.plan.now.net judged.now.lost.now names.now (option_copied others.entry))) judged.now.before.now.classes.firsts.items flags.now (map names_of bodies.items)) }
{
    let bridges = either_on(alloc, judged, names, others)?;
    let mut bodies = Vec::new(alloc);
    for class in 0..flags.len() {
        let flag = flags[class];
        let both = body_at(
            alloc,
            judged,
            names,
            others,
            bridges.as_slice(),
            class,
            flag,
        )?;
        bodies.push(both)?;
    }
    Ok(bodies)
}

/// For which VIDs bridges of a list are in one island with others, and which these are, VIDs of equal islands in one reason, by the least VID.
fn vids_joined(
    alloc: Global,
    judged: &Judged,
    telling: Telling,
    vids: &VidSet,
    names: &NameList,
    others: Option<&NameList>,
) -> Result<Vec<Reason>, AllocError>
    requires { AreKept judged.now.plan.now judged.now.before.now judged.now.homes.now }
    ensures { IfOk result (λ reasons. AreVidReasons (AreBoth judged.now.plan.now.net (outcome_of judged.now.plan.now) (named_in judged.now.plan.now.net judged.now.lost.now names.now) (others_in judged.now.plan.now.net judged.now.lost.now names.now (option_copied others.entry))) (tells telling) vids.now reasons.items) }
{
    judged.plan.known();
    let numbers = judged.before.classes.numbers.as_slice();
    let count = judged.before.classes.firsts.len();
    let flags = classes_asked(alloc, numbers, vids, count)?;
    let bodies = bodies(alloc, judged, names, others, flags.as_slice())?;
    vid_reasons(alloc, telling, numbers, vids, bodies.as_slice())
}

/// For which VIDs bridges of both lists are in one island, and which these are, VIDs of equal islands in one reason, by the least VID.
/// `AllocError`: memory was wanted and refused.
///
/// Islands are made once for VIDs that no table and no set of VLANs tells apart.
pub fn apart_reasons(
    alloc: Global,
    judged: &Judged,
    vids: &VidSet,
    names: &NameList,
    others: &NameList,
) -> Result<Vec<Reason>, AllocError>
    requires { AreKept judged.now.plan.now judged.now.before.now judged.now.homes.now }
    ensures { IfOk result (λ reasons. AreApartReasons judged.now.plan.now.net (outcome_of judged.now.plan.now) vids.now (named_in judged.now.plan.now.net judged.now.lost.now names.now) (named_in judged.now.plan.now.net judged.now.lost.now others.now) reasons.items) }
{
    vids_joined(alloc, judged, Telling::Apart, vids, names, Some(others))
}

/// For which VIDs bridges of a list are in one island with any that isn't of it, and which these are, VIDs of equal islands in one reason, by the
/// least VID. `AllocError`: memory was wanted and refused.
///
/// Islands are made as for `apart`.
pub fn leaves_reasons(
    alloc: Global,
    judged: &Judged,
    vids: &VidSet,
    names: &NameList,
) -> Result<Vec<Reason>, AllocError>
    requires { AreKept judged.now.plan.now judged.now.before.now judged.now.homes.now }
    ensures { IfOk result (λ reasons. AreLeavesReasons judged.now.plan.now.net (outcome_of judged.now.plan.now) vids.now (named_in judged.now.plan.now.net judged.now.lost.now names.now) (unnamed judged.now.plan.now.net names.now) reasons.items) }
{
    vids_joined(alloc, judged, Telling::Leaves, vids, names, None)
}
