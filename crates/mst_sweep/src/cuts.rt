ghost use Rattle.std.specs.Prelude.{◌≡◌, ◌<◌, ◌+◌, ◌++◌, ◌∷◌, [], ℕ, List, false, true, IfOk, OnOk, length, map, filter, slice_index, slice_index_or, vec_len};
ghost use Rattle.std.specs.List.{AllZip, flat_map, list_any};
ghost use Rattle.std.specs.Option.{ForSome, option_copied};
ghost use Rattle.mst_ids.specs.Vids.{runs_from};
ghost use Rattle.mst_rows.specs.Rows.{Row};
ghost use Rattle.mst_net.specs.tables.Tables.{Net, Numbers};
ghost use Rattle.mst_vlan.specs.forest.Agrees.{AreOf, Known};
ghost use Rattle.mst_vlan.specs.forest.Forest.{IsForest};
ghost use Rattle.mst_vlan.specs.classes.AllVids.{NumberEach};
ghost use Rattle.mst_graph.specs.Lists.{has_any};
ghost use Rattle.mst_facts.specs.Both.{seen_both};
ghost use Rattle.mst_sweep.specs.Between.{OfNetworks, OfNumbered};
ghost use Rattle.mst_sweep.specs.Left.{AreLeft};
ghost use Rattle.mst_sweep.specs.Parts.{AreParts};
ghost use Rattle.mst_sweep.specs.Cuts.{cut_row, group_row, group_rows, names_of, parts_at as parts_of_vid, rows_of, AreCuts, AreCutsBy};
ghost use Rattle.mst_sweep.specs.declared.cuts.CutBy.{CutBy as CutByOf};
ghost use Rattle.mst_sweep.specs.declared.cuts.CutBy.TheVariants.{One as OneOf, Both as BothOf, Step as StepOf, Edits as EditsOf};
ghost use Rattle.mst_sweep.specs.declared.event.Cause.{Cause as CauseOf};
ghost use Rattle.mst_sweep.specs.CutClasses.{AreClasses};
ghost use Rattle.mst_sweep.specs.Baseline.{AreHomes, IsBaseline};
ghost use Rattle.mst_sweep.specs.Breaking.{HasNoParts, IsCarriageOf};
ghost use Rattle.mst_sweep.specs.Touched.{AreWhereTouched};

use crate::baseline::{Baseline, first_vid, homes_before};
use crate::breaking::{breaking, carriage_if_many};
use crate::event::{Cause, cause_value, failure_value};
use crate::failure::Failure;
use crate::homes::{homes_by, homes_of};
use crate::parts::{all_parts, staying};
use indexmap::IndexMap;
use mst_facts::{Both, Planned};
use mst_graph::laws::group_lists;
use mst_graph::{Numbering, groups_by_body};
use mst_ids::{BridgeNo, Name, Vid, VidSet};
use mst_kinds::{AdviseLine, Kind, StepLine, SweepLine};
use mst_rows::{Rows, Value, put};
use mst_vlan::{Carriage, set_of, vids};
use std::alloc::{AllocError, Global};

/// What cuts VIDs.
#[derive(Clone, Copy)]
pub enum CutBy {
    /// What fails at once, by what it is told by.
    One(Cause),
    /// Two failures together.
    Both(Failure, Failure),
    /// The step of this number, of a change.
    Step(u64),
    /// Edits that are advised.
    Edits,
}

/// The VIDs that are cut: the groups of all VIDs, those of equal parts in one, and the parts of the first VID of each class.
#[derive(Drop)]
pub struct Cuts {
    /// Those that have parts, rising.
    pub vids: Vec<Vid>,
    pub(crate) groups: Vec<Vec<Vid>>,
    pub(crate) parts: Vec<Vec<Vec<Name>>>,
}

/// The places of the islands of a VID in the network after a failure, by what carries each VID there if that is known.
pub(crate) fn homes_after(
    alloc: Global,
    new: &Planned,
    carriage: Option<&Carriage>,
    vid: Vid,
) -> Result<IndexMap<BridgeNo, usize>, AllocError>
    requires new { Known new.now.view.now new.now.forest.now.regions }
    requires carriage { ForSome (option_copied carriage) (IsCarriageOf new.now) }
    ensures { IfOk result (λ homes. (net : Net) (numbers : Numbers) (is : IsForest net numbers new.now.forest.now) → AreOf net numbers new.now.view.now new.now.forest.now.regions → AreHomes net numbers is.outcome vid homes.entries) }
{
    match carriage {
        Some(carriage) => homes_by(alloc, carriage, vid),
        None => homes_of(alloc, new, vid),
    }
}

/// The parts of a VID, by the places of its islands before.
fn parts(
    alloc: Global,
    old: &Planned,
    new: &Planned,
    carriage: Option<&Carriage>,
    homes: &IndexMap<BridgeNo, usize>,
    both: &[Both],
    vid: Vid,
) -> Result<Vec<Vec<Name>>, AllocError>
    requires new { Known new.now.view.now new.now.forest.now.regions }
    requires carriage { ForSome (option_copied carriage) (IsCarriageOf new.now) }
    requires both { both.now ≡ seen_both old.now.view.now new.now.view.now }
    ensures { IfOk result (λ parts. OfNumbered old.now new.now (λ a n before b k afterwards.
        AreHomes a n before vid homes.now.entries → AreParts a before b afterwards vid (names_of parts))) }
{
    let news = homes_after(alloc, new, carriage, vid)?;
    let all = staying(alloc, homes, &news, both)?;
    all_parts(alloc, all.as_slice())
}

/// The parts of the first VID of a class: none where no link between bridges goes of it, so that no islands are made.
pub(crate) fn parts_at(
    alloc: Global,
    old: &Planned,
    new: &Planned,
    carriage: Option<&Carriage>,
    baseline: &Baseline,
    both: &[Both],
    class: usize,
    breaks: bool,
) -> Result<Vec<Vec<Name>>, AllocError>
    requires new { Known new.now.view.now new.now.forest.now.regions }
    requires carriage { ForSome (option_copied carriage) (IsCarriageOf new.now) }
    requires baseline { IsBaseline old.now.view.now old.now.forest.now baseline.now }
    requires both { both.now ≡ seen_both old.now.view.now new.now.view.now }
    requires there { class < length baseline.now.classes.firsts.items }
    requires others { breaks ≡ false → HasNoParts old.now new.now (slice_index baseline.now.classes.firsts.items class + 1) }
    ensures { IfOk result (λ parts. OfNetworks old.now new.now (λ a before b afterwards.
        AreLeft a b → AreParts a before b afterwards (slice_index baseline.now.classes.firsts.items class + 1) (names_of parts))) }
{
    if !breaks {
        return Ok(Vec::new(alloc));
    }
    let homes = homes_before(old, baseline, class);
    let vid = first_vid(old, baseline, class);
    parts(alloc, old, new, carriage, homes, both, vid)
}

/// The parts of the first VID of each class, by which of them a link between bridges goes of.
fn parts_of_breaking(
    alloc: Global,
    old: &Planned,
    new: &Planned,
    carriage: Option<&Carriage>,
    baseline: &Baseline,
    both: &[Both],
    breaking: &[bool],
) -> Result<Vec<Vec<Vec<Name>>>, AllocError>
    requires new { Known new.now.view.now new.now.forest.now.regions }
    requires carriage { ForSome (option_copied carriage) (IsCarriageOf new.now) }
    requires baseline { IsBaseline old.now.view.now old.now.forest.now baseline.now }
    requires both { both.now ≡ seen_both old.now.view.now new.now.view.now }
    requires as_long { length breaking.now ≡ length baseline.now.classes.firsts.items }
    requires others { (class : ℕ) → slice_index_or breaking.now class true ≡ false → HasNoParts old.now new.now (slice_index baseline.now.classes.firsts.items class + 1) }
    ensures as_long { IfOk result (λ parts. vec_len parts ≡ length baseline.now.classes.firsts.items) }
    ensures parts { IfOk result (λ parts. OfNetworks old.now new.now (λ a before b afterwards.
        AreLeft a b → AllZip (λ place parts. AreParts a before b afterwards (place + 1) parts) baseline.now.classes.firsts.items (map names_of parts.items))) }
{
    let mut parts = Vec::new(alloc);
    for class in 0..breaking.len() {
        let breaks = breaking[class];
        parts.push(parts_at(alloc, old, new, carriage, baseline, both, class, breaks)?)?;
    }
    Ok(parts)
}

/// The parts of the first VID of each class.
pub(crate) fn parts_of_firsts(
    alloc: Global,
    old: &Planned,
    new: &Planned,
    baseline: &Baseline,
    both: &[Both],
    touched: &[usize],
) -> Result<Vec<Vec<Vec<Name>>>, AllocError>
    requires new { Known new.now.view.now new.now.forest.now.regions }
    requires both { both.now ≡ seen_both old.now.view.now new.now.view.now }
    requires touched { AreWhereTouched old.now.view.now old.now.forest.now new.now.view.now new.now.forest.now touched.now }
    requires baseline { IsBaseline old.now.view.now old.now.forest.now baseline.now }
    ensures as_long { IfOk result (λ parts. vec_len parts ≡ length baseline.now.classes.firsts.items) }
    ensures parts { IfOk result (λ parts. OfNetworks old.now new.now (λ a before b afterwards.
        AreLeft a b → AllZip (λ place parts. AreParts a before b afterwards (place + 1) parts) baseline.now.classes.firsts.items (map names_of parts.items))) }
{
    let flags = breaking(alloc, old, new, baseline, touched)?;
    let breaking = flags.as_slice();
    let carriage = carriage_if_many(alloc, new, breaking)?;
    parts_of_breaking(alloc, old, new, carriage.as_ref(), baseline, both, breaking)
}

/// Whether there are parts.
pub(crate) fn is_any(parts: &[Vec<Name>]) -> bool
    ensures { result ≡ has_any (map (λ names. names.items) parts.now) }
{
    match parts {
        [] => false,
        [..] => true,
    }
}

/// Whether there are parts in some of these.
fn are_any(each: &[Vec<Vec<Name>>]) -> bool
    ensures { result ≡ list_any (λ parts. has_any (names_of parts)) each.now }
{
    each.iter().any(|parts| is_any(parts.as_slice()))
}

/// Copies of these parts.
fn copy(alloc: Global, parts: &[Vec<Name>]) -> Result<Vec<Vec<Name>>, AllocError>
    ensures { IfOk result (λ copy. names_of copy ≡ map (λ names. names.items) parts.now) }
{
    let mut copy = Vec::new(alloc);
    for names in parts {
        copy.push(Vec::from_slice(alloc, names.as_slice())?)?;
    }
    Ok(copy)
}

fn copies(alloc: Global, each: &[Vec<Vec<Name>>]) -> Result<Vec<Vec<Vec<Name>>>, AllocError>
    ensures { IfOk result (λ copies. map names_of copies.items ≡ map names_of each.now) }
{
    let mut copies = Vec::new(alloc);
    for parts in each {
        copies.push(copy(alloc, parts.as_slice())?)?;
    }
    Ok(copies)
}

/// Puts the row of VIDs that an event cuts, with these parts.
fn put_cut_by_one<'a, R: Rows>(
    cause: &'a Cause,
    vids: &'a VidSet,
    parts: &'a [Vec<Name>],
    out: &mut R,
) -> Result<(), AllocError>
    ensures { (first : R) (rows : List Row) → R.grew first out.old rows
        → OnOk result (R.grew first out.new (rows ++ cut_row (OneOf cause.now) (runs_from 0 vids.now) (map (λ names. names.items) parts.now) ∷ [])) }
{
    let values = [cause_value(cause), Value::Vids(vids), Value::Groups(parts)];
    put::<R>(Kind::Sweep(SweepLine::Cut), &values, out)
}

/// Puts the row of VIDs that a pair of failures cuts, with these parts.
fn put_cut_by_both<'a, R: Rows>(
    first: &'a Failure,
    second: &'a Failure,
    vids: &'a VidSet,
    parts: &'a [Vec<Name>],
    out: &mut R,
) -> Result<(), AllocError>
    ensures { (grown : R) (rows : List Row) → R.grew grown out.old rows
        → OnOk result (R.grew grown out.new (rows ++ cut_row (BothOf first.now second.now) (runs_from 0 vids.now) (map (λ names. names.items) parts.now) ∷ [])) }
{
    let values = [
        failure_value(first),
        failure_value(second),
        Value::Vids(vids),
        Value::Groups(parts),
    ];
    put::<R>(Kind::Sweep(SweepLine::CutByPair), &values, out)
}

/// Puts the row of VIDs that a step cuts, with these parts.
fn put_cut_by_step<'a, R: Rows>(
    step: u64,
    vids: &'a VidSet,
    parts: &'a [Vec<Name>],
    out: &mut R,
) -> Result<(), AllocError>
    ensures { (first : R) (rows : List Row) → R.grew first out.old rows
        → OnOk result (R.grew first out.new (rows ++ cut_row (StepOf step) (runs_from 0 vids.now) (map (λ names. names.items) parts.now) ∷ [])) }
{
    let values = [Value::Number(step), Value::Vids(vids), Value::Groups(parts)];
    put::<R>(Kind::Step(StepLine::Cut), &values, out)
}

/// Puts the row of VIDs that edits which are advised cut, with these parts.
fn put_cut_by_edits<'a, R: Rows>(
    vids: &'a VidSet,
    parts: &'a [Vec<Name>],
    out: &mut R,
) -> Result<(), AllocError>
    ensures { (first : R) (rows : List Row) → R.grew first out.old rows
        → OnOk result (R.grew first out.new (rows ++ cut_row EditsOf (runs_from 0 vids.now) (map (λ names. names.items) parts.now) ∷ [])) }
{
    let values = [Value::Vids(vids), Value::Groups(parts)];
    put::<R>(Kind::Advise(AdviseLine::Cut), &values, out)
}

/// Puts the row of VIDs that are cut, with these parts.
fn put_cut<R: Rows>(
    by: &CutBy,
    vids: &VidSet,
    parts: &[Vec<Name>],
    out: &mut R,
) -> Result<(), AllocError>
    ensures { (first : R) (rows : List Row) → R.grew first out.old rows
        → OnOk result (R.grew first out.new (rows ++ cut_row by.now (runs_from 0 vids.now) (map (λ names. names.items) parts.now) ∷ [])) }
{
    match by {
        CutBy::One(cause) => put_cut_by_one(cause, vids, parts, out),
        CutBy::Both(first, second) => put_cut_by_both(first, second, vids, parts, out),
        CutBy::Step(step) => put_cut_by_step(*step, vids, parts, out),
        CutBy::Edits => put_cut_by_edits(vids, parts, out),
    }
}

/// Puts the row of a group of VIDs that have these parts, if there are any.
fn put_if_cut<R: Rows>(
    by: &CutBy,
    group: &[Vid],
    parts: &[Vec<Name>],
    out: &mut R,
) -> Result<(), AllocError>
    ensures { (first : R) (rows : List Row) → R.grew first out.old rows
        → OnOk result (R.grew first out.new (rows ++ group_row by.now group.now (map (λ names. names.items) parts.now))) }
{
    if is_any(parts) {
        return put_cut(by, &set_of(group), parts, out);
    }
    Ok(())
}

/// Puts the row of a group, by the numbers of the VIDs and the parts of the numbers.
fn put_group<R: Rows>(
    by: &CutBy,
    group: &[Vid],
    numbers: &[usize],
    each: &[Vec<Vec<Name>>],
    out: &mut R,
) -> Result<(), AllocError>
    requires { NumberEach numbers.now (length each.now) }
    ensures { (first : R) (rows : List Row) → R.grew first out.old rows
        → OnOk result (R.grew first out.new (rows ++ group_rows by.now (parts_of_vid numbers.now (map names_of each.now)) group.now)) }
{
    let Some(vid) = group.first() else {
        return Ok(());
    };
    let number = numbers[usize::from(vid.value()) - 1];
    put_if_cut(by, group, each[number].as_slice(), out)
}

/// Puts the rows of these groups.
fn put_groups<R: Rows>(
    by: &CutBy,
    groups: &[Vec<Vid>],
    numbers: &[usize],
    each: &[Vec<Vec<Name>>],
    out: &mut R,
) -> Result<(), AllocError>
    requires { NumberEach numbers.now (length each.now) }
    ensures { (first : R) (rows : List Row) → R.grew first out.old rows
        → OnOk result (R.grew first out.new (rows ++ flat_map (λ group. group_rows by.now (parts_of_vid numbers.now (map names_of each.now)) group.items) groups.now)) }
{
    for group in groups {
        put_group(by, group.as_slice(), numbers, each, out)?;
    }
    Ok(())
}

/// Puts the rows of the VIDs that are cut, VIDs of equal parts in one row. `AllocError`: memory was wanted and refused; some of them may
/// have been put.
pub fn put_cuts<R: Rows>(
    by: &CutBy,
    classes: &Numbering,
    cuts: &Cuts,
    out: &mut R,
) -> Result<(), AllocError>
    requires { NumberEach classes.now.numbers.items (vec_len cuts.now.parts) }
    ensures { (first : R) (rows : List Row) → R.grew first out.old rows → OnOk result (R.grew first out.new (rows ++ rows_of by.now classes.now.numbers.items cuts.now)) }
{
    let numbers = classes.numbers.as_slice();
    put_groups(
        by,
        cuts.groups.as_slice(),
        numbers,
        cuts.parts.as_slice(),
        out,
    )
}

/// Whether a VID has parts.
fn has_parts(vid: Vid, numbers: &[usize], each: &[Vec<Vec<Name>>]) -> bool
    requires { NumberEach numbers.now (length each.now) }
    ensures { result ≡ has_any (parts_of_vid numbers.now (map names_of each.now) vid) }
{
    let number = numbers[usize::from(vid.value()) - 1];
    is_any(each[number].as_slice())
}

/// Those of these VIDs that have parts.
fn cut_of(
    alloc: Global,
    vids: &[Vid],
    numbers: &[usize],
    each: &[Vec<Vec<Name>>],
) -> Result<Vec<Vid>, AllocError>
    requires { NumberEach numbers.now (length each.now) }
    ensures { IfOk result (λ cut. cut.items ≡ filter (λ vid. has_any (parts_of_vid numbers.now (map names_of each.now) vid)) vids.now) }
{
    let mut cut = Vec::new(alloc);
    for vid in vids {
        if has_parts(*vid, numbers, each) {
            cut.push(*vid)?;
        }
    }
    Ok(cut)
}

/// The VIDs that are cut, by the parts of the first VID of each class. `AllocError`: memory was wanted and refused.
pub fn cuts_of(
    alloc: Global,
    classes: &Numbering,
    parts: Vec<Vec<Vec<Name>>>,
) -> Result<Cuts, AllocError>
    requires classes { AreClasses classes.now }
    requires as_long { vec_len parts ≡ length classes.now.firsts.items }
    ensures numbered { IfOk result (λ cuts. NumberEach classes.now.numbers.items (vec_len cuts.parts)) }
    ensures cut { IfOk result (λ cuts. (by : CutByOf) → AreCutsBy (λ vid of. of ≡ parts_of_vid classes.now.numbers.items (map names_of parts.items) vid) by cuts.vids.items (rows_of by classes.now.numbers.items cuts)) }
{
    group_lists::<Vid>();
    if !are_any(parts.as_slice()) {
        return Ok(Cuts {
            vids: Vec::new(alloc),
            groups: Vec::new(alloc),
            parts,
        });
    }
    let kept = copies(alloc, parts.as_slice())?;
    let all = vids(alloc)?;
    let numbers = classes.numbers.as_slice();
    let vids = cut_of(alloc, all.as_slice(), numbers, kept.as_slice())?;
    let groups = groups_by_body(alloc, all.as_slice(), numbers, parts)?;
    Ok(Cuts {
        vids,
        groups,
        parts: kept,
    })
}

/// The VIDs that failures cut. `AllocError`: memory was wanted and refused.
///
/// Islands are made once for VIDs that no table and no set of VLANs tells apart, and only where a link of a VID that joined
/// bridges goes. Failures leave tables and sets. `touched` are the places of the ports that have other roles.
pub(crate) fn cuts_by_failures(
    alloc: Global,
    old: &Planned,
    new: &Planned,
    baseline: &Baseline,
    both: &[Both],
    touched: &[usize],
) -> Result<Cuts, AllocError>
    requires new { Known new.now.view.now new.now.forest.now.regions }
    requires both { both.now ≡ seen_both old.now.view.now new.now.view.now }
    requires touched { AreWhereTouched old.now.view.now old.now.forest.now new.now.view.now new.now.forest.now touched.now }
    requires baseline { IsBaseline old.now.view.now old.now.forest.now baseline.now }
    ensures numbered { IfOk result (λ cuts. NumberEach baseline.now.classes.numbers.items (vec_len cuts.parts)) }
    ensures cut { IfOk result (λ cuts. OfNetworks old.now new.now (λ a before b afterwards.
        AreLeft a b → (cause : CauseOf) → AreCuts a before b afterwards cause cuts.vids.items (rows_of (OneOf cause) baseline.now.classes.numbers.items cuts))) }
{
    let parts = parts_of_firsts(alloc, old, new, baseline, both, touched)?;
    cuts_of(alloc, &baseline.classes, parts)
}
