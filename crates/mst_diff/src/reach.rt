ghost use Rattle.std.specs.Prelude.{◌≡◌, ◌++◌, ◌∷◌, [], ◌+◌, ◌<◌, List, IfOk, OnOk, length, map, vec_len};
ghost use Rattle.std.specs.List.{All, AllZip, flat_map, count_by};
ghost use Rattle.mst_ids.specs.Vids.{runs_from};
ghost use Rattle.mst_rows.specs.Rows.{Row};
ghost use Rattle.mst_vlan.specs.forest.Settled.{outcome_of};
ghost use Rattle.mst_vlan.specs.classes.AllVids.{NumberEach};
ghost use Rattle.mst_graph.specs.Lists.{has_any};
ghost use Rattle.mst_diff.specs.Reach.{differ, reach_row, reach_unless, group_rows, AreReachRows};
ghost use Rattle.mst_diff.specs.Seen.{AreSidesOf, seen_sides, sides_at as sides_at_vid};

use crate::carriages::Carriages;
use crate::sides::{Sides, copies, sides_unless};
use crate::unlike::unlike;
use mst_graph::groups_by_body;
use mst_ids::{Name, Vid, VidSet};
use mst_kinds::{ChangeLine, Kind};
use mst_rows::{Rows, Value, put};
use mst_vlan::{Carriage, Settled, classes_of_both, set_of, vids};
use std::alloc::{AllocError, Global};

/// The sides of the VIDs at these places, which are counted from 0.
fn sides_at(alloc: Global, both: &Carriages, places: &[usize]) -> Result<Vec<Sides>, AllocError>
    requires { All (λ place. place < 4094) places.now }
    ensures as_long { IfOk result (λ all. vec_len all ≡ length places.now) }
    ensures sides { IfOk result (λ all. AllZip (λ place sides. AreSidesOf both.now.old.now both.now.new.now (place + 1) sides) places.now (map seen_sides all.items)) }
{
    let flags = unlike(alloc, both, places)?;
    let mut all = Vec::new(alloc);
    for i in 0..places.len() {
        let vid = Vid::new(places[i] as u64 + 1).unwrap();
        all.push(sides_unless(alloc, both, vid, flags[i])?)?;
    }
    Ok(all)
}

/// The sides of the VIDs at these places, by tables that are made for it of the ports that carry each VID.
fn sides_between(
    alloc: Global,
    old: &Settled,
    new: &Settled,
    places: &[usize],
) -> Result<Vec<Sides>, AllocError>
    requires { All (λ place. place < 4094) places.now }
    ensures as_long { IfOk result (λ all. vec_len all ≡ length places.now) }
    ensures sides { IfOk result (λ all. AllZip (λ place sides. AreSidesOf old.now new.now (place + 1) sides) places.now (map seen_sides all.items)) }
{
    old.known();
    new.known();
    let before = Carriage::new(alloc, old.view(), old.forest())?;
    let after = Carriage::new(alloc, new.view(), new.forest())?;
    let both = Carriages {
        old,
        new,
        before: &before,
        after: &after,
    };
    sides_at(alloc, &both, places)
}

/// Whether there is an island.
fn is_any(groups: &[Vec<Name>]) -> bool
    ensures { result ≡ has_any (map (λ group. group.items) groups.now) }
{
    match groups {
        [] => false,
        [..] => true,
    }
}

/// Whether there is an island on one side.
fn differs(sides: &Sides) -> bool
    ensures { result ≡ differ (seen_sides sides.now) }
{
    is_any(sides.old.as_slice()) || is_any(sides.new.as_slice())
}

/// Puts the row of these VIDs, with these sides.
fn put_row<'a, R: Rows>(vids: &'a VidSet, sides: &'a Sides, out: &mut R) -> Result<(), AllocError>
    ensures { (first : R) (rows : List Row) → R.grew first out.old rows → OnOk result (R.grew first out.new (rows ++ reach_row (runs_from 0 vids.now) (seen_sides sides.now) ∷ [])) }
{
    let values = [
        Value::Vids(vids),
        Value::Groups(sides.old.as_slice()),
        Value::Groups(sides.new.as_slice()),
    ];
    put::<R>(Kind::Change(ChangeLine::Reach), &values, out)
}

/// Puts the row of a group of VIDs that have these sides, if there is an island.
fn put_sides<R: Rows>(group: &[Vid], sides: &Sides, out: &mut R) -> Result<(), AllocError>
    ensures { (first : R) (rows : List Row) → R.grew first out.old rows → OnOk result (R.grew first out.new (rows ++ reach_unless group.now (seen_sides sides.now))) }
{
    if differs(sides) {
        let vids = set_of(group);
        return put_row(&vids, sides, out);
    }
    Ok(())
}

/// Puts the row of a group, by the numbers of the VIDs and the sides of the numbers.
fn put_group<R: Rows>(
    group: &[Vid],
    numbers: &[usize],
    sides: &[Sides],
    out: &mut R,
) -> Result<(), AllocError>
    requires { NumberEach numbers.now (length sides.now) }
    ensures { (first : R) (rows : List Row) → R.grew first out.old rows
        → OnOk result (R.grew first out.new (rows ++ group_rows (sides_at_vid numbers.now (map seen_sides sides.now)) group.now)) }
{
    let Some(vid) = group.first() else {
        return Ok(());
    };
    let number = numbers[usize::from(vid.value()) - 1];
    put_sides(group, &sides[number], out)
}

/// Puts the rows of these groups.
fn put_groups<R: Rows>(
    groups: &[Vec<Vid>],
    numbers: &[usize],
    sides: &[Sides],
    out: &mut R,
) -> Result<(), AllocError>
    requires { NumberEach numbers.now (length sides.now) }
    ensures { (first : R) (rows : List Row) → R.grew first out.old rows
        → OnOk result (R.grew first out.new (rows ++ flat_map (λ group. group_rows (sides_at_vid numbers.now (map seen_sides sides.now)) group.items) groups.now)) }
{
    for group in groups {
        put_group(group.as_slice(), numbers, sides, out)?;
    }
    Ok(())
}

/// Whether a VID has an island on one side.
fn has_sides(vid: Vid, numbers: &[usize], sides: &[Sides]) -> bool
    requires { NumberEach numbers.now (length sides.now) }
    ensures { result ≡ differ (sides_at_vid numbers.now (map seen_sides sides.now) vid) }
{
    let number = numbers[usize::from(vid.value()) - 1];
    differs(&sides[number])
}

/// How many of these VIDs have an island on one side.
fn count(vids: &[Vid], numbers: &[usize], sides: &[Sides]) -> u64
    requires { NumberEach numbers.now (length sides.now) }
    ensures { result ≡ count_by (λ vid. differ (sides_at_vid numbers.now (map seen_sides sides.now) vid)) vids.now }
{
    let mut count = 0;
    for vid in vids {
        if has_sides(*vid, numbers, sides) {
            count += 1;
        }
    }
    count
}

/// Puts the rows of VIDs whose islands have other bridges, VIDs of equal sides in one row, and answers how many VIDs
/// there are in these rows. `AllocError`: memory was wanted and refused; some of them may have been put.
///
/// Islands are made once for VIDs that no table and no set of VLANs of either network tells apart, and for none that the
/// same ports carry before and after.
pub(crate) fn put_reach<R: Rows>(
    alloc: Global,
    old: &Settled,
    new: &Settled,
    out: &mut R,
) -> Result<u64, AllocError>
    ensures { (first : R) (rows : List Row) → R.grew first out.old rows
        → IfOk result (λ vlans. (own : List Row) × AreReachRows old.now.net (outcome_of old.now) new.now.net (outcome_of new.now) own vlans × R.grew first out.new (rows ++ own)) }
{
    old.known();
    new.known();
    let before = old.view();
    let after = new.view();
    let classes = classes_of_both(alloc, before, after)?;
    let sides = sides_between(alloc, old, new, classes.firsts.as_slice())?;
    let kept = copies(alloc, sides.as_slice())?;
    let vids = vids(alloc)?;
    let groups = groups_by_body(alloc, vids.as_slice(), classes.numbers.as_slice(), sides)?;
    put_groups(
        groups.as_slice(),
        classes.numbers.as_slice(),
        kept.as_slice(),
        out,
    )?;
    Ok(count(vids.as_slice(), classes.numbers.as_slice(), kept.as_slice()))
}
