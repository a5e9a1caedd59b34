ghost use Rattle.std.specs.Prelude.{◌≡◌, ◌++◌, ◌∷◌, [], ◌+◌, ◌<◌, List, IfOk, OnOk, length, map, vec_len};
ghost use Rattle.std.specs.List.{All, AllZip, flat_map};
ghost use Rattle.mst_rows.specs.Rows.{Row};
ghost use Rattle.mst_vlan.specs.Carried.{with_trees};
ghost use Rattle.mst_vlan.specs.forest.Settled.{outcome_of};
ghost use Rattle.mst_vlan.specs.classes.AllVids.{NumberEach};
ghost use Rattle.mst_vlan.specs.classes.Classes.{AreClasses};
ghost use Rattle.mst_summary.specs.Kept.{count_at};
ghost use Rattle.mst_summary.specs.Seen.{seen_with_bridge};
ghost use Rattle.mst_summary.specs.Vlans.{HasIslands, islands_row, group_rows, AreVlanRows};

use mst_graph::{Numbering, groups_by_body};
use mst_ids::Vid;
use mst_kinds::{Kind, SummaryLine};
use mst_rows::{Rows, Value, put};
use mst_vlan::{Carriage, Island, Settled, has_bridge, set_of, vids};
use std::alloc::{AllocError, Global};

/// How many of these islands have a bridge.
fn with_bridge(islands: &[Island]) -> u64
    ensures { result ≡ seen_with_bridge islands.now }
{
    islands.iter().filter(|island| has_bridge(island)).count() as u64
}

/// How many islands with a bridge a VID has, from the table of what carries each VID.
fn islands_of(
    alloc: Global,
    plan: &Settled,
    carriage: &Carriage,
    vid: Vid,
) -> Result<u64, AllocError>
    requires { carriage.now ≡ with_trees plan.now }
    ensures { IfOk result (HasIslands plan.now.net (outcome_of plan.now) vid) }
{
    plan.known();
    let islands = carriage.islands(alloc, vid)?;
    Ok(with_bridge(islands.as_slice()))
}

/// How many the VIDs at these places have, which are counted from 0.
fn counts_at(
    alloc: Global,
    plan: &Settled,
    carriage: &Carriage,
    places: &[usize],
) -> Result<Vec<u64>, AllocError>
    requires carriage { carriage.now ≡ with_trees plan.now }
    requires places { All (λ place. place < 4094) places.now }
    ensures as_long { IfOk result (λ counts. vec_len counts ≡ length places.now) }
    ensures counts { IfOk result (λ counts. AllZip (λ place count. HasIslands plan.now.net (outcome_of plan.now) (place + 1) count) places.now counts.items) }
{
    let mut counts = Vec::new(alloc);
    for place in places {
        let vid = Vid::new(*place as u64 + 1).unwrap();
        counts.push(islands_of(alloc, plan, carriage, vid)?)?;
    }
    Ok(counts)
}

/// Puts the row of a group of VIDs that have this many.
fn put_row<R: Rows>(group: &[Vid], count: u64, out: &mut R) -> Result<(), AllocError>
    ensures { (first : R) (rows : List Row) → R.grew first out.old rows → OnOk result (R.grew first out.new (rows ++ islands_row group.now count ∷ [])) }
{
    let vids = set_of(group);
    let values = [Value::Vids(&vids), Value::Number(count)];
    put::<R>(Kind::Summary(SummaryLine::Vlan), &values, out)
}

/// Puts the row of a group, by the numbers of the VIDs and the counts of the numbers.
fn put_group<R: Rows>(
    group: &[Vid],
    numbers: &[usize],
    counts: &[u64],
    out: &mut R,
) -> Result<(), AllocError>
    requires { NumberEach numbers.now (length counts.now) }
    ensures { (first : R) (rows : List Row) → R.grew first out.old rows → OnOk result (R.grew first out.new (rows ++ group_rows (count_at numbers.now counts.now) group.now)) }
{
    let Some(vid) = group.first() else {
        return Ok(());
    };
    let number = numbers[usize::from(vid.value()) - 1];
    put_row(group, counts[number], out)
}

/// Puts the rows of these groups.
fn put_groups<R: Rows>(
    groups: &[Vec<Vid>],
    numbers: &[usize],
    counts: &[u64],
    out: &mut R,
) -> Result<(), AllocError>
    requires { NumberEach numbers.now (length counts.now) }
    ensures { (first : R) (rows : List Row) → R.grew first out.old rows → OnOk result (R.grew first out.new (rows ++ flat_map (group_rows (count_at numbers.now counts.now)) (map (λ group. group.items) groups.now))) }
{
    for group in groups {
        put_group(group.as_slice(), numbers, counts, out)?;
    }
    Ok(())
}

/// Puts the rows of how many islands with a bridge VIDs have, VIDs that have equally many in one row, by the least.
///
/// Islands are made once for each class of VIDs.
pub(crate) fn put_vlans<R: Rows>(
    alloc: Global,
    plan: &Settled,
    carriage: &Carriage,
    classes: &Numbering,
    out: &mut R,
) -> Result<(), AllocError>
    requires carriage { carriage.now ≡ with_trees plan.now }
    requires classes { AreClasses plan.now.view classes.now }
    ensures { (first : R) (rows : List Row) → R.grew first out.old rows
        → OnOk result ((own : List Row) × AreVlanRows plan.now.net (outcome_of plan.now) own × R.grew first out.new (rows ++ own)) }
{
    plan.known();
    let counts = counts_at(alloc, plan, carriage, classes.firsts.as_slice())?;
    let kept = Vec::from_slice(alloc, counts.as_slice())?;
    let vids = vids(alloc)?;
    let groups = groups_by_body(alloc, vids.as_slice(), classes.numbers.as_slice(), counts)?;
    put_groups(
        groups.as_slice(),
        classes.numbers.as_slice(),
        kept.as_slice(),
        out,
    )
}
