ghost use Rattle.std.specs.Prelude.{◌≡◌, ◌++◌, ◌∷◌, [], ◌+◌, ◌<◌, ℕ, List, length, vec_len, IfOk, OnOk};
ghost use Rattle.std.specs.List.{All, AllZip, flat_map};
ghost use Rattle.mst_view.specs.Aggregation.{same_name};
ghost use Rattle.mst_rows.specs.Rows.{Row};
ghost use Rattle.mst_vlan.specs.Carried.{with_trees};
ghost use Rattle.mst_vlan.specs.classes.AllVids.{all_vids};
ghost use Rattle.mst_vlan.specs.forest.Settled.{outcome_of};
ghost use Rattle.mst_summary.specs.Carries.{all_carries, are_all as all_vids_are, carried as carried_over, carries_row, carries_rows, full_carries, full_of, full_rows, joining_lans as joining_lans_of};
ghost use Rattle.mst_summary.specs.Grouped.{group_at};
ghost use Rattle.mst_vlan.specs.classes.Classes.{AreClasses};
ghost use Rattle.mst_summary.specs.Places.{places_on, with_places};

use crate::crossing::goes_over_at;
use crate::grouped::group_for;
use crate::joining::joining_lans;
use crate::kept::ports_by_lan;
use crate::places::places_by_lan;
use indexmap::IndexMap;
use mst_graph::Numbering;
use mst_ids::{Name, Vid, VidSet};
use mst_kinds::{Kind, SummaryLine};
use mst_rows::{Rows, Value, put};
use mst_vlan::{Carriage, Settled, flagged, set_of, vids};
use std::alloc::{AllocError, Global};

/// What is kept of a settled network for all its logical LANs: which ports carry each VID, the classes of VIDs that nothing
/// tells apart, the places of the ports of each logical LAN, and all VIDs.
#[derive(Clone, Copy)]
struct Kept<'a> {
    plan: &'a Settled<'a>,
    carriage: &'a Carriage<'a>,
    classes: &'a Numbering,
    places: &'a IndexMap<Name, Vec<usize>>,
    vids: &'a [Vid],
    ghost is_carriage: { carriage.now ≡ with_trees plan.now },
    ghost are_places: { (lan : List ℕ) → group_at same_name places.now lan ≡ places_on plan.now.view lan },
    ghost are_vids: { vids.now ≡ all_vids },
}

/// Whether the VIDs at these places, which are counted from 0, go over the logical LAN whose ports stand at these.
fn flags_at(
    alloc: Global,
    carriage: &Carriage,
    ports: &[usize],
    places: &[usize],
) -> Result<Vec<bool>, AllocError>
    requires ports { All (λ place. place < length carriage.now.view.ports) ports.now }
    requires places { All (λ place. place < 4094) places.now }
    ensures as_long { IfOk result (λ flags. vec_len flags ≡ length places.now) }
    ensures flags { IfOk result (λ flags. AllZip (λ place flag. flag ≡ (with_places carriage.now.view carriage.now.forest (place + 1) ports.now).is_of_two) places.now flags.items) }
{
    let mut flags = Vec::new(alloc);
    for place in places {
        let vid = Vid::new(*place as u64 + 1).unwrap();
        flags.push(goes_over_at(carriage, ports, vid))?;
    }
    Ok(flags)
}

/// The VIDs that go over a logical LAN.
fn carried(alloc: Global, kept: &Kept, lan: &Name) -> Result<Vec<Vid>, AllocError>
    requires { AreClasses kept.now.plan.now.view kept.now.classes.now }
    ensures { IfOk result (λ vids. vids.items ≡ carried_over kept.now.plan.now.net (outcome_of kept.now.plan.now) lan.now) }
{
    kept.plan.known();
    let classes = kept.classes;
    let ports = group_for(kept.places, lan);
    let flags = flags_at(alloc, kept.carriage, ports, classes.firsts.as_slice())?;
    flagged(
        alloc,
        kept.vids,
        classes.numbers.as_slice(),
        flags.as_slice(),
    )
}

/// Whether these VIDs are all.
fn are_all(vids: &[Vid]) -> bool
    ensures { result ≡ all_vids_are vids.now }
{
    vids.len() == 4094
}

/// Puts the row of a logical LAN that carries the VIDs of this set.
fn put_row<'a, R: Rows>(lan: &'a Name, vids: &'a VidSet, out: &mut R) -> Result<(), AllocError>
    ensures { (first : R) (rows : List Row) → R.grew first out.old rows → OnOk result (R.grew first out.new (rows ++ carries_row lan.now vids.now ∷ [])) }
{
    let values = [Value::Name(lan), Value::Vids(vids)];
    put::<R>(Kind::Summary(SummaryLine::Carries), &values, out)
}

/// Puts the row of a logical LAN that carries these VIDs, if these aren't all.
fn put_some<R: Rows>(lan: &Name, vids: &[Vid], out: &mut R) -> Result<(), AllocError>
    ensures { (first : R) (rows : List Row) → R.grew first out.old rows → OnOk result (R.grew first out.new (rows ++ carries_rows lan.now vids.now)) }
{
    if are_all(vids) {
        return Ok(());
    }
    put_row(lan, &set_of(vids), out)
}

/// Puts the rows of those of these logical LANs that don't carry all VIDs, and gives those that do.
fn put_lans<R: Rows>(
    alloc: Global,
    kept: &Kept,
    lans: &[Name],
    out: &mut R,
) -> Result<Vec<Name>, AllocError>
    requires { AreClasses kept.now.plan.now.view kept.now.classes.now }
    ensures rows { (first : R) (rows : List Row) → R.grew first out.old rows
        → OnOk result (R.grew first out.new (rows ++ flat_map (λ lan. carries_rows lan (carried_over kept.now.plan.now.net (outcome_of kept.now.plan.now) lan)) lans.now)) }
    ensures full { IfOk result (λ full. full.items ≡ full_of kept.now.plan.now.net (outcome_of kept.now.plan.now) lans.now) }
{
    let mut full = Vec::new(alloc);
    for lan in lans {
        let vids = carried(alloc, kept, lan)?;
        put_some(lan, vids.as_slice(), out)?;
        if are_all(vids.as_slice()) {
            full.push(*lan)?;
        }
    }
    Ok(full)
}

/// Puts the row of the logical LANs that carry all VIDs, if there is one.
fn put_full<R: Rows>(lans: &[Name], out: &mut R) -> Result<(), AllocError>
    ensures { (first : R) (rows : List Row) → R.grew first out.old rows → OnOk result (R.grew first out.new (rows ++ full_rows lans.now)) }
{
    match lans {
        [] => Ok(()),
        [..] => put::<R>(
            Kind::Summary(SummaryLine::CarriesAll),
            &[Value::Names(lans)],
            out,
        ),
    }
}

/// Puts the rows of these logical LANs, by name those that carry some VIDs or none, and then those that carry all.
fn put_carried<R: Rows>(
    alloc: Global,
    plan: &Settled,
    carriage: &Carriage,
    classes: &Numbering,
    lans: &[Name],
    out: &mut R,
) -> Result<(), AllocError>
    requires carriage { carriage.now ≡ with_trees plan.now }
    requires classes { AreClasses plan.now.view classes.now }
    requires lans { lans.now ≡ joining_lans_of plan.now.net }
    ensures { (first : R) (rows : List Row) → R.grew first out.old rows
        → OnOk result (R.grew first out.new (rows ++ all_carries plan.now.net (outcome_of plan.now) ++ full_carries plan.now.net (outcome_of plan.now))) }
{
    let places = places_by_lan(alloc, plan.view())?;
    let vids = vids(alloc)?;
    let kept = Kept {
        plan,
        carriage,
        classes,
        places: &places,
        vids: vids.as_slice(),
    };
    let full = put_lans(alloc, &kept, lans, out)?;
    put_full(full.as_slice(), out)
}

/// Puts the rows of the logical LANs that are up and join bridges: of each that carries some VIDs or none, by name, and then of
/// those that carry all.
///
/// It asks each port once for each class of VIDs.
pub(crate) fn put_carries<R: Rows>(
    alloc: Global,
    plan: &Settled,
    carriage: &Carriage,
    classes: &Numbering,
    out: &mut R,
) -> Result<(), AllocError>
    requires carriage { carriage.now ≡ with_trees plan.now }
    requires classes { AreClasses plan.now.view classes.now }
    ensures { (first : R) (rows : List Row) → R.grew first out.old rows
        → OnOk result (R.grew first out.new (rows ++ all_carries plan.now.net (outcome_of plan.now) ++ full_carries plan.now.net (outcome_of plan.now))) }
{
    plan.known();
    let view = plan.view();
    let kept = ports_by_lan(alloc, view)?;
    let lans = joining_lans(alloc, view, &kept)?;
    put_carried(alloc, plan, carriage, classes, lans.as_slice(), out)
}
