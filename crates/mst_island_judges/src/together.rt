ghost use Rattle.std.specs.Prelude.{◌≡◌, ◌+◌, ◌<◌, not, IfOk, MatchOption, Some, false, filter, filter_map, length, map, slice_index, slice_index_or, true, vec_len, ⊤};
ghost use Rattle.mst_judged.specs.reasons.sweep.facts.Both.{seen_both};
ghost use Rattle.mst_forest.specs.Settled.{outcome_of};
ghost use Rattle.mst_judged.specs.reasons.sweep.Cuts.{names_of};
ghost use Rattle.mst_judged.specs.reasons.sweep.Parts.{all_parts as all_parts_of};
ghost use Rattle.mst_judged.specs.reasons.sweep.Seen.{seen_stays};
ghost use Rattle.mst_policy.specs.Leaving.{leaves, sets_of};
ghost use Rattle.mst_judged.specs.reasons.sweep.vlan.classes.Classes.{AreInSame};
ghost use Rattle.mst_judged.specs.reasons.Named.{is_named as is_named_of, Prior as PriorOf};
ghost use Rattle.mst_island_judges.specs.Compared.{HaveParts};
ghost use Rattle.mst_judged.specs.Islands.{AreOfClasses, HasHomesBy, IsBeside, IsKeptOf, kept_in};
ghost use Rattle.mst_judged.specs.reasons.Reasons.{AreTogetherReasons, AreVidReasons, together_reason};

use crate::compared::Compared;
use crate::grouping::{Telling, vid_reasons};
use indexmap::IndexMap;
use mst_ids::{BridgeNo, Name, Vid, VidSet};
use mst_judged::vlan_laws::islands_of_vid;
use mst_judged::{
    Both, Judged, Prior, Reason, all_parts, bridges_of_both, classes_asked, homes_by, homes_in,
    is_named, staying,
};
use mst_policy::{Leaving, NameList};
use std::alloc::{AllocError, Global};

/// The bridges of these names that both networks have.
fn both_named(
    alloc: Global,
    judged: &Judged,
    prior: &Prior,
    names: &NameList,
) -> Result<Vec<Both>, AllocError>
    ensures { IfOk result (λ both. both.items ≡ filter (λ b. is_named_of judged.now.lost.now names.now b.old.name) (seen_both prior.now.old.now.view judged.now.plan.now.view)) }
{
    let all = bridges_of_both(alloc, prior.old.view(), judged.plan.view())?;
    all.iter()
        .filter(|both| is_named(judged.lost, names, &both.old.name))
        .copied()
        .collect(alloc)
}

/// The islands that are kept for a class, if they are.
fn kept_at(
    kept: &[Option<IndexMap<BridgeNo, usize>>],
    class: usize,
) -> Option<&IndexMap<BridgeNo, usize>>
    ensures { MatchOption result ⊤ (λ h. kept_in kept.now class ≡ Some h.now.entries) }
{
    match kept.get(class) {
        Some(Some(homes)) => Some(homes),
        _ => None,
    }
}

/// Those of these bridges that aren't meant to leave a VID.
fn remaining(
    alloc: Global,
    leaving: &Leaving,
    both: &[Both],
    vid: Vid,
) -> Result<Vec<Both>, AllocError>
    ensures { IfOk result (λ rest. rest.items ≡ filter (λ bridge. not (leaves leaving.now vid bridge.old.name)) both.now) }
{
    both.iter()
        .filter(|bridge| !leaving.has(vid, &bridge.old.name))
        .copied()
        .collect(alloc)
}

/// The parts of those of these bridges that aren't meant to leave a VID, by the places of their islands in both networks.
fn parts_by(
    alloc: Global,
    compared: &Compared,
    olds: &IndexMap<BridgeNo, usize>,
    news: &IndexMap<BridgeNo, usize>,
    vid: Vid,
) -> Result<Vec<Vec<Name>>, AllocError>
    ensures { IfOk result (λ parts. names_of parts
        ≡ all_parts_of (filter_map (seen_stays olds.now.entries news.now.entries) (filter (λ bridge. not (leaves compared.now.judged.now.leaving.now vid bridge.old.name)) compared.now.both.now))) }
{
    let rest = remaining(alloc, compared.judged.leaving, compared.both, vid)?;
    let all = staying(alloc, olds, news, rest.as_slice())?;
    all_parts(alloc, all.as_slice())
}

/// The parts of these bridges in the first VID of a class, by the places of the islands that they had.
fn parts_from(
    alloc: Global,
    compared: &Compared,
    olds: &IndexMap<BridgeNo, usize>,
    class: usize,
) -> Result<Vec<Vec<Name>>, AllocError>
    requires beside { IsBeside compared.now.judged.now.plan.now compared.now.prior.now }
    requires there { class < length compared.now.prior.now.classes.now.firsts.items }
    requires olds { HasHomesBy compared.now.prior.now.old.now (slice_index compared.now.prior.now.classes.now.firsts.items class + 1) olds.now.entries }
    ensures { IfOk result (λ parts. HaveParts compared.now (slice_index compared.now.prior.now.classes.now.firsts.items class + 1) (names_of parts)) }
{
    compared.judged.plan.known();
    let firsts = compared.prior.classes.firsts.as_slice();
    let vid = Vid::new(firsts[class] as u64 + 1).unwrap();
    if let Some(news) = kept_at(compared.prior.news, class) {
        return parts_by(alloc, compared, olds, news, vid);
    }
    let news = homes_in(alloc, compared.judged.plan, vid)?;
    parts_by(alloc, compared, olds, &news, vid)
}

/// Whether the same ports carry the VIDs of a class in both networks, as its flag says.
fn is_alike(differ: &[bool], class: usize) -> bool
    ensures { result ≡ true → slice_index_or differ.now class true ≡ false }
{
    match differ.get(class) {
        Some(false) => true,
        _ => false,
    }
}

/// Their parts in the first VID of a class: none where the same ports carry it in both networks, so that no islands are made.
fn parts_of(alloc: Global, compared: &Compared, class: usize) -> Result<Vec<Vec<Name>>, AllocError>
    requires beside { IsBeside compared.now.judged.now.plan.now compared.now.prior.now }
    requires there { class < length compared.now.prior.now.classes.now.firsts.items }
    ensures { IfOk result (λ parts. HaveParts compared.now (slice_index compared.now.prior.now.classes.now.firsts.items class + 1) (names_of parts)) }
{
    islands_of_vid();
    compared.judged.plan.known();
    if is_alike(compared.prior.differ, class) {
        return Ok(Vec::new(alloc));
    }
    if let Some(olds) = kept_at(compared.prior.olds, class) {
        return parts_from(alloc, compared, olds, class);
    }
    let firsts = compared.prior.classes.firsts.as_slice();
    let vid = Vid::new(firsts[class] as u64 + 1).unwrap();
    let olds = homes_by(alloc, compared.prior.old, vid)?;
    parts_from(alloc, compared, &olds, class)
}

/// The same, if the class has a flag.
fn body_at(
    alloc: Global,
    compared: &Compared,
    class: usize,
    flag: bool,
) -> Result<Vec<Vec<Name>>, AllocError>
    requires beside { IsBeside compared.now.judged.now.plan.now compared.now.prior.now }
    requires there { class < length compared.now.prior.now.classes.now.firsts.items }
    ensures { IfOk result (λ parts. flag ≡ true → HaveParts compared.now (slice_index compared.now.prior.now.classes.now.firsts.items class + 1) (names_of parts)) }
{
    if flag {
        return parts_of(alloc, compared, class);
    }
    Ok(Vec::new(alloc))
}

/// The parts in the first VIDs of the classes that have a flag.
fn bodies(
    alloc: Global,
    compared: &Compared,
    flags: &[bool],
) -> Result<Vec<Vec<Vec<Name>>>, AllocError>
    requires beside { IsBeside compared.now.judged.now.plan.now compared.now.prior.now }
    requires flags { length flags.now ≡ length compared.now.prior.now.classes.now.firsts.items }
    ensures as_long { IfOk result (λ bodies. vec_len bodies ≡ length flags.now) }
    ensures parts { IfOk result (λ bodies. AreOfClasses (HaveParts compared.now) compared.now.prior.now.classes.now.firsts.items flags.now (map names_of bodies.items)) }
{
    let mut bodies = Vec::new(alloc);
    for class in 0..flags.len() {
        bodies.push(body_at(alloc, compared, class, flags[class])?)?;
    }
    Ok(bodies)
}

/// The reasons of VIDs in which these bridges came apart.
fn reasons_of(alloc: Global, compared: &Compared, vids: &VidSet) -> Result<Vec<Reason>, AllocError>
    requires beside { IsBeside compared.now.judged.now.plan.now compared.now.prior.now }
    requires same { AreInSame (sets_of compared.now.judged.now.leaving.now) compared.now.prior.now.classes.now }
    ensures { IfOk result (λ reasons. AreVidReasons (HaveParts compared.now) together_reason vids.now reasons.items) }
{
    compared.judged.plan.known();
    let classes = compared.prior.classes;
    let numbers = classes.numbers.as_slice();
    let count = classes.firsts.len();
    let flags = classes_asked(alloc, numbers, vids, count)?;
    let bodies = bodies(alloc, compared, flags.as_slice())?;
    vid_reasons(alloc, Telling::Together, numbers, vids, bodies.as_slice())
}

/// For which VIDs bridges that were in one island before are in several, and in which parts they are then, VIDs of equal parts in one reason, by
/// the least VID: none where nothing is before. Those that are meant to leave a VID are left out. `AllocError`: memory was wanted and refused.
///
/// Islands are made once for VIDs that no table and no set of VLANs tells apart, and only where other ports carry them than before.
pub fn together_reasons(
    alloc: Global,
    judged: &Judged,
    vids: &VidSet,
    names: &NameList,
) -> Result<Vec<Reason>, AllocError>
    requires prior { MatchOption judged.now.prior ⊤ (IsBeside judged.now.plan.now) }
    requires same { MatchOption judged.now.prior ⊤ (λ prior. AreInSame (sets_of judged.now.leaving.now) prior.classes.now) }
    ensures { IfOk result (λ reasons. (prior : PriorOf) → IsKeptOf prior judged.now.prior judged.now.leaving.now
        → AreTogetherReasons prior.before prior.leaving judged.now.plan.now.net (outcome_of judged.now.plan.now) vids.now judged.now.lost.now names.now reasons.items) }
{
    let Some(prior) = &judged.prior else {
        return Ok(Vec::new(alloc));
    };
    let both = both_named(alloc, judged, prior, names)?;
    let compared = Compared {
        judged,
        prior,
        names,
        both: both.as_slice(),
    };
    reasons_of(alloc, &compared, vids)
}
