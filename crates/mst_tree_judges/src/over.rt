ghost use Rattle.std.specs.Prelude.{◌≡◌, ◌+◌, ◌<◌, true, false, IfOk, filter, length, option_copied, vec_len};
ghost use Rattle.std.specs.List.{All, AllZip, find};
ghost use Rattle.mst_view.specs.Aggregation.{same_name};
ghost use Rattle.mst_roles.specs.forest.Settled.{outcome_of};
ghost use Rattle.mst_judged.specs.reasons.summary.Seen.{seen_on, seen_over};
ghost use Rattle.mst_judged.specs.Islands.{AreKept};
ghost use Rattle.mst_judged.specs.reasons.Over.{is_lan, is_wrong as wrong_of, not_as_wanted};
ghost use Rattle.mst_judged.specs.reasons.Reasons.{avoids_reason, carries_reason};
ghost use Rattle.mst_tree_judges.specs.Seen.{seen_logical};

use mst_ids::{Name, Vid, VidSet};
use mst_judged::{Judged, Reason, flagged, goes_over, set_of, vids_of};
use mst_roles::Settled;
use mst_view::{MemberLan, PortInView, View};
use std::alloc::{AllocError, Global};

/// The LAN of a name.
fn member_named<'a>(view: &'a View, lan: &Name) -> Option<&'a MemberLan>
    ensures { option_copied result ≡ find (λ m. same_name m.name lan.now) view.now.member_lans }
{
    view.member_lans().iter().find(|member| member.name == *lan)
}

/// The name of the logical LAN of a LAN.
fn logical_lan(view: &View, lan: &Name) -> Name
    ensures { result ≡ seen_logical view.now lan.now }
{
    match member_named(view, lan) {
        None => *lan,
        Some(member) => member.lan,
    }
}

/// The logical ports of a logical LAN.
fn ports_on(alloc: Global, view: &View, lan: &Name) -> Result<Vec<PortInView>, AllocError>
    ensures { IfOk result (λ ports. ports.items ≡ seen_on view.now lan.now) }
{
    view.ports()
        .iter()
        .filter(|port| port.lan == *lan)
        .copied()
        .collect(alloc)
}

/// Whether it isn't as it is wanted.
fn is_wrong(is_wanted: bool, is_over: bool) -> bool
    ensures { result ≡ wrong_of is_wanted is_over }
{
    if is_wanted { !is_over } else { is_over }
}

/// Whether it isn't so for the VIDs at these places, which are counted from 0.
fn flags_at(
    alloc: Global,
    plan: &Settled,
    ports: &[PortInView],
    is_wanted: bool,
    places: &[usize],
) -> Result<Vec<bool>, AllocError>
    requires { All (λ place. place < 4094) places.now }
    ensures as_long { IfOk result (λ flags. vec_len flags ≡ length places.now) }
    ensures flags { IfOk result (λ flags. AllZip (λ place flag. flag ≡ wrong_of is_wanted (seen_over plan.now.view plan.now.forest ports.now (place + 1))) places.now flags.items) }
{
    let mut flags = Vec::new(alloc);
    for place in places {
        let vid = Vid::new(*place as u64 + 1).unwrap();
        flags.push(is_wrong(is_wanted, goes_over(alloc, plan, vid, ports)?))?;
    }
    Ok(flags)
}

/// Those of these VIDs for which it isn't as it is wanted. It asks each port of the logical LAN once for each class of VIDs.
fn wrong_vids(
    alloc: Global,
    judged: &Judged,
    lan: &Name,
    vids: &VidSet,
    is_wanted: bool,
) -> Result<Vec<Vid>, AllocError>
    requires kept { AreKept judged.now.plan.now judged.now.before.now judged.now.homes.now }
    requires lan { is_lan judged.now.plan.now.net lan.now ≡ true }
    ensures { IfOk result (λ wrong. wrong.items ≡ not_as_wanted judged.now.plan.now.net (outcome_of judged.now.plan.now) lan.now is_wanted vids.now) }
{
    let plan = judged.plan;
    plan.known();
    let classes = &judged.before.classes;
    let logical = logical_lan(plan.view(), lan);
    let ports = ports_on(alloc, plan.view(), &logical)?;
    let places = classes.firsts.as_slice();
    let flags = flags_at(alloc, plan, ports.as_slice(), is_wanted, places)?;
    let vids = vids_of(alloc, vids)?;
    let numbers = classes.numbers.as_slice();
    flagged(alloc, vids.as_slice(), numbers, flags.as_slice())
}

/// Why not all of these VIDs go over a LAN. `AllocError`: memory was wanted and refused.
pub fn carries_reasons(
    alloc: Global,
    judged: &Judged,
    lan: &Name,
    vids: &VidSet,
) -> Result<Vec<Reason>, AllocError>
    requires kept { AreKept judged.now.plan.now judged.now.before.now judged.now.homes.now }
    requires lan { is_lan judged.now.plan.now.net lan.now ≡ true }
    ensures { IfOk result (λ reasons. reasons.items ≡ carries_reason lan.now (not_as_wanted judged.now.plan.now.net (outcome_of judged.now.plan.now) lan.now true vids.now)) }
{
    let wrong = wrong_vids(alloc, judged, lan, vids, true)?;
    carried(alloc, lan, wrong.as_slice())
}

/// Why none of these VIDs is to go over a LAN, and some do. `AllocError`: memory was wanted and refused.
pub fn avoids_reasons(
    alloc: Global,
    judged: &Judged,
    lan: &Name,
    vids: &VidSet,
) -> Result<Vec<Reason>, AllocError>
    requires kept { AreKept judged.now.plan.now judged.now.before.now judged.now.homes.now }
    requires lan { is_lan judged.now.plan.now.net lan.now ≡ true }
    ensures { IfOk result (λ reasons. reasons.items ≡ avoids_reason lan.now (not_as_wanted judged.now.plan.now.net (outcome_of judged.now.plan.now) lan.now false vids.now)) }
{
    let wrong = wrong_vids(alloc, judged, lan, vids, false)?;
    avoided(alloc, lan, wrong.as_slice())
}

/// The reason of the VIDs that don't go over a LAN, if there are any.
fn carried(alloc: Global, lan: &Name, wrong: &[Vid]) -> Result<Vec<Reason>, AllocError>
    ensures { IfOk result (λ reasons. reasons.items ≡ carries_reason lan.now wrong.now) }
{
    let mut reasons = Vec::new(alloc);
    if let [_, ..] = wrong {
        reasons.push(Reason::Carries {
            lan: *lan,
            vids: set_of(wrong),
        })?;
    }
    Ok(reasons)
}

/// The reason of the VIDs that go over a LAN, if there are any.
fn avoided(alloc: Global, lan: &Name, wrong: &[Vid]) -> Result<Vec<Reason>, AllocError>
    ensures { IfOk result (λ reasons. reasons.items ≡ avoids_reason lan.now wrong.now) }
{
    let mut reasons = Vec::new(alloc);
    if let [_, ..] = wrong {
        reasons.push(Reason::Avoids {
            lan: *lan,
            vids: set_of(wrong),
        })?;
    }
    Ok(reasons)
}
