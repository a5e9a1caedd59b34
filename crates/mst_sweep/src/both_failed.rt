ghost use Rattle.std.specs.Prelude.{◌≡◌, ◌++◌, ◌<◌, ◌+◌, ◌∷◌, ℕ, false, true, List, [], IfOk, OnOk, length, map, slice_index, slice_index_or, vec_len};
ghost use Rattle.std.specs.Option.{ForSome, option_copied};
ghost use Rattle.mst_ids.specs.Vids.{runs_from};
ghost use Rattle.mst_rows.specs.Rows.{Row};
ghost use Rattle.mst_vlan.specs.forest.Agrees.{Known};
ghost use Rattle.mst_vlan.specs.classes.AllVids.{NumberEach};
ghost use Rattle.mst_graph.specs.Lists.{has_any};
ghost use Rattle.mst_facts.specs.Both.{seen_both};
ghost use Rattle.mst_sweep.specs.Between.{OfPair, pair_of};
ghost use Rattle.mst_sweep.specs.Baseline.{IsBaseline};
ghost use Rattle.mst_sweep.specs.Breaking.{HasNoParts, IsCarriageOf};
ghost use Rattle.mst_sweep.specs.CutClasses.{IsPartsOfClass};
ghost use Rattle.mst_sweep.specs.Cuts.{names_of, rows_of};
ghost use Rattle.mst_sweep.specs.declared.cuts.CutBy.TheVariants.{Both as BothOf};
ghost use Rattle.mst_sweep.specs.Pairs.{pair_row, pair_rows, pairs_row, ArePairRows};

use crate::baseline::{Baseline, first_vid, homes_before};
use crate::breaking::{breaking, carriage_if_many};
use crate::cuts::{CutBy, Cuts, cuts_of, homes_after, put_cuts};
use crate::event::failure_value;
use crate::failure::Failure;
use crate::pairs::pairs;
use crate::parts::all_parts;
use crate::single::{Single, where_touched};
use crate::with_both::{Homes, staying_with_both};
use mst_facts::{Both, Planned};
use mst_graph::Numbering;
use mst_ids::{Name, Vid, VidSet};
use mst_kinds::{Kind, SweepLine};
use mst_rows::{Rows, Value, put};
use mst_vlan::laws::islands_of_vid;
use mst_vlan::{Carriage, set_of};
use std::alloc::{AllocError, Global};

/// The parts that both failures of a pair make of a class of VIDs: none where no link between bridges goes of it.
fn parts_by_pair(
    alloc: Global,
    first: &Single,
    second: &Single,
    old: &Planned,
    new: &Planned,
    carriage: Option<&Carriage>,
    baseline: &Baseline,
    both: &[Both],
    class: usize,
    breaks: bool,
) -> Result<Vec<Vec<Name>>, AllocError>
    requires new { Known new.now.view.now new.now.forest.now.regions }
    requires carriage { ForSome (option_copied carriage) (IsCarriageOf new.now) }
    requires baseline { IsBaseline old.now.view.now old.now.forest.now baseline.now }
    requires both { both.now ≡ seen_both old.now.view.now new.now.view.now }
    requires there { class < length baseline.now.classes.firsts.items }
    requires first { length first.now.homes.items ≡ length baseline.now.classes.firsts.items }
    requires second { length second.now.homes.items ≡ length baseline.now.classes.firsts.items }
    requires others { breaks ≡ false → HasNoParts old.now new.now (slice_index baseline.now.classes.firsts.items class + 1) }
    ensures { IfOk result (λ parts. OfPair old.now new.now first.now second.now baseline.now.classes (λ net outcomes.
        IsPartsOfClass net (pair_of first.now second.now) outcomes baseline.now.classes class (names_of parts))) }
{
    islands_of_vid();
    if !breaks {
        return Ok(Vec::new(alloc));
    }
    let news = homes_after(alloc, new, carriage, first_vid(old, baseline, class))?;
    let firsts = first.homes.as_slice();
    let seconds = second.homes.as_slice();
    let homes = Homes {
        none: homes_before(old, baseline, class),
        first: &firsts[class],
        second: &seconds[class],
    };
    let all = staying_with_both(alloc, &homes, &news, both)?;
    all_parts(alloc, all.as_slice())
}

/// The parts of each class, by which of them a link between bridges goes of.
fn parts_by_breaking(
    alloc: Global,
    first: &Single,
    second: &Single,
    old: &Planned,
    new: &Planned,
    carriage: Option<&Carriage>,
    baseline: &Baseline,
    both: &[Both],
    breaking: &[bool],
) -> Result<Vec<Vec<Vec<Name>>>, AllocError>
    requires new { Known new.now.view.now new.now.forest.now.regions }
    requires carriage { ForSome (option_copied carriage) (IsCarriageOf new.now) }
    requires baseline { IsBaseline old.now.view.now old.now.forest.now baseline.now }
    requires both { both.now ≡ seen_both old.now.view.now new.now.view.now }
    requires first { length first.now.homes.items ≡ length baseline.now.classes.firsts.items }
    requires second { length second.now.homes.items ≡ length baseline.now.classes.firsts.items }
    requires as_long { length breaking.now ≡ length baseline.now.classes.firsts.items }
    requires others { (class : ℕ) → slice_index_or breaking.now class true ≡ false → HasNoParts old.now new.now (slice_index baseline.now.classes.firsts.items class + 1) }
    ensures as_long { IfOk result (λ parts. vec_len parts ≡ length baseline.now.classes.firsts.items) }
    ensures parts { IfOk result (λ parts. OfPair old.now new.now first.now second.now baseline.now.classes (λ net outcomes.
        (class : ℕ) → class < vec_len parts → IsPartsOfClass net (pair_of first.now second.now) outcomes baseline.now.classes class (slice_index_or (map names_of parts.items) class []))) }
{
    let mut parts = Vec::new(alloc);
    for class in 0..breaking.len() {
        let breaks = breaking[class];
        let of = parts_by_pair(
            alloc, first, second, old, new, carriage, baseline, both, class, breaks,
        )?;
        parts.push(of)?;
    }
    Ok(parts)
}

/// The parts that both failures of a pair make of each class of VIDs.
fn parts_by_both(
    alloc: Global,
    first: &Single,
    second: &Single,
    old: &Planned,
    baseline: &Baseline,
    new: &Planned,
) -> Result<Vec<Vec<Vec<Name>>>, AllocError>
    requires new { Known new.now.view.now new.now.forest.now.regions }
    requires baseline { IsBaseline old.now.view.now old.now.forest.now baseline.now }
    requires first { length first.now.homes.items ≡ length baseline.now.classes.firsts.items }
    requires second { length second.now.homes.items ≡ length baseline.now.classes.firsts.items }
    ensures as_long { IfOk result (λ parts. vec_len parts ≡ length baseline.now.classes.firsts.items) }
    ensures parts { IfOk result (λ parts. OfPair old.now new.now first.now second.now baseline.now.classes (λ net outcomes.
        (class : ℕ) → class < vec_len parts → IsPartsOfClass net (pair_of first.now second.now) outcomes baseline.now.classes class (slice_index_or (map names_of parts.items) class []))) }
{
    let both = pairs(alloc, old, new)?;
    let touched = where_touched(alloc, old, new)?;
    let flags = breaking(alloc, old, new, baseline, touched.as_slice())?;
    let carriage = carriage_if_many(alloc, new, flags.as_slice())?;
    parts_by_breaking(
        alloc,
        first,
        second,
        old,
        new,
        carriage.as_ref(),
        baseline,
        both.as_slice(),
        flags.as_slice(),
    )
}

/// Puts the row of a pair.
fn put_pair_row<'a, R: Rows>(
    first: &'a Failure,
    second: &'a Failure,
    cut: &'a VidSet,
    out: &mut R,
) -> Result<(), AllocError>
    ensures { (grown : R) (rows : List Row) → R.grew grown out.old rows
        → OnOk result (R.grew grown out.new (rows ++ pair_row (record { first = first.now; second = second.now }) (runs_from 0 cut.now) ∷ [])) }
{
    let values = [
        failure_value(first),
        failure_value(second),
        Value::Vids(cut),
    ];
    put::<R>(Kind::Sweep(SweepLine::Pair), &values, out)
}

/// Whether there are VIDs.
pub(crate) fn are_some(vids: &[Vid]) -> bool
    ensures { result ≡ has_any vids.now }
{
    match vids {
        [] => false,
        [..] => true,
    }
}

/// Puts the row of a pair that cuts VIDs, and the rows of their parts, if it cuts some.
fn put_if_cut<R: Rows>(
    first: &Failure,
    second: &Failure,
    classes: &Numbering,
    cuts: &Cuts,
    out: &mut R,
) -> Result<(), AllocError>
    requires { NumberEach classes.now.numbers.items (vec_len cuts.now.parts) }
    ensures { (grown : R) (rows : List Row) → R.grew grown out.old rows
        → OnOk result (R.grew grown out.new (rows ++ pair_rows (record { first = first.now; second = second.now }) cuts.now.vids.items (rows_of (BothOf first.now second.now) classes.now.numbers.items cuts.now))) }
{
    let vids = cuts.vids.as_slice();
    if are_some(vids) {
        put_pair_row(first, second, &set_of(vids), out)?;
        return put_cuts(&CutBy::Both(*first, *second), classes, cuts, out);
    }
    Ok(())
}

/// Puts the rows of a pair of failures: of which VIDs both together part bridges that either alone leaves joined, and into which parts,
/// if there are such VIDs, and answers whether there are. `old` is the plan of the network with what stays the same for all its failures, `new` the
/// plan of the network in which both failed. `AllocError`: memory was wanted and refused; some of the rows may have been put.
///
/// Islands are made once for each class of VIDs of which a link that joined bridges goes.
pub fn put_pair<R: Rows>(
    alloc: Global,
    first: &Single,
    second: &Single,
    old: &Planned,
    baseline: &Baseline,
    new: &Planned,
    out: &mut R,
) -> Result<bool, AllocError>
    requires old { Known old.now.view.now old.now.forest.now.regions }
    requires new { Known new.now.view.now new.now.forest.now.regions }
    requires baseline { IsBaseline old.now.view.now old.now.forest.now baseline.now }
    requires first { length first.now.homes.items ≡ length baseline.now.classes.firsts.items }
    requires second { length second.now.homes.items ≡ length baseline.now.classes.firsts.items }
    ensures { IfOk result (λ cuts. OfPair old.now new.now first.now second.now baseline.now.classes (λ net outcomes.
        (pair : List Row) × ArePairRows net (pair_of first.now second.now) outcomes pair cuts × ((grown : R) (rows : List Row) → R.grew grown out.old rows → R.grew grown out.new (rows ++ pair)))) }
{
    let parts = parts_by_both(alloc, first, second, old, baseline, new)?;
    let cuts = cuts_of(alloc, &baseline.classes, parts)?;
    put_if_cut(
        &first.failure,
        &second.failure,
        &baseline.classes,
        &cuts,
        out,
    )?;
    Ok(are_some(cuts.vids.as_slice()))
}

/// Puts the last row: how many pairs were looked at, and how many of them cut some VID together.
/// `AllocError`: memory was wanted and refused; part of the row may have been put.
pub fn put_last_of_pairs<R: Rows>(pairs: u64, cuts: u64, out: &mut R) -> Result<(), AllocError>
    ensures { (first : R) (rows : List Row) → R.grew first out.old rows → OnOk result (R.grew first out.new (rows ++ pairs_row pairs cuts ∷ [])) }
{
    let values = [Value::Number(pairs), Value::Number(cuts)];
    put::<R>(Kind::Sweep(SweepLine::PairCounts), &values, out)
}
