ghost use Rattle.std.specs.Prelude.{◌≡◌, ◌<◌, ◌+◌, ℕ, false, true, IfOk, length, map, slice_index, slice_index_or, vec_len};
ghost use Rattle.std.specs.List.{AllZip};
ghost use Rattle.std.specs.Option.{ForSome, option_copied, option_map};
ghost use Rattle.mst_vlan.specs.forest.Agrees.{Known};
ghost use Rattle.mst_facts.specs.Both.{seen_both};
ghost use Rattle.mst_sweep.specs.Between.{OfNumbered};
ghost use Rattle.mst_sweep.specs.Baseline.{IsBaseline};
ghost use Rattle.mst_sweep.specs.Breaking.{HasNoParts, IsCarriageOf};
ghost use Rattle.mst_sweep.specs.CutClasses.{AreKeptAlone, IsKeptAlone, kept_of};
ghost use Rattle.mst_sweep.specs.Left.{AreLeft};
ghost use Rattle.mst_sweep.specs.Touched.{AreWhereTouched};

use crate::baseline::{Baseline, first_vid, homes_before};
use crate::breaking::{breaking, carriage_if_many};
use crate::cuts::homes_after;
use crate::failure::Failure;
use crate::pairs::pairs;
use crate::parts::staying;
use crate::touched::{places_of, touched};
use crate::whole::is_whole;
use indexmap::IndexMap;
use mst_facts::{Both, Planned};
use mst_ids::BridgeNo;
use mst_vlan::Carriage;
use std::alloc::{AllocError, Global};

/// A single failure, and for each class of VIDs the places of the islands of its first VID with that failure alone, by the numbers of the
/// bridges in them. None are kept where it parts no bridges of the class.
#[derive(Drop)]
pub struct Single {
    pub failure: Failure,
    pub homes: Vec<Option<IndexMap<BridgeNo, usize>>>,
}

/// Where the ports stand that have another role than they had.
pub(crate) fn where_touched(
    alloc: Global,
    old: &Planned,
    new: &Planned,
) -> Result<Vec<usize>, AllocError>
    ensures { IfOk result (λ places. AreWhereTouched old.now.view.now old.now.forest.now new.now.view.now new.now.forest.now places.items) }
{
    let flags = touched(alloc, old, new)?;
    places_of(alloc, flags.as_slice())
}

/// The places of the islands of a class with a failure alone, if that parts bridges of it.
fn homes_alone(
    alloc: Global,
    old: &Planned,
    new: &Planned,
    carriage: Option<&Carriage>,
    baseline: &Baseline,
    both: &[Both],
    class: usize,
    breaks: bool,
) -> Result<Option<IndexMap<BridgeNo, usize>>, AllocError>
    requires new { Known new.now.view.now new.now.forest.now.regions }
    requires carriage { ForSome (option_copied carriage) (IsCarriageOf new.now) }
    requires baseline { IsBaseline old.now.view.now old.now.forest.now baseline.now }
    requires both { both.now ≡ seen_both old.now.view.now new.now.view.now }
    requires there { class < length baseline.now.classes.firsts.items }
    requires others { breaks ≡ false → HasNoParts old.now new.now (slice_index baseline.now.classes.firsts.items class + 1) }
    ensures { IfOk result (λ homes. OfNumbered old.now new.now (λ a n before b k afterwards.
        AreLeft a b → IsKeptAlone a before b k afterwards (slice_index baseline.now.classes.firsts.items class + 1) (option_map (λ h. h.entries) homes))) }
{
    if !breaks {
        return Ok(None);
    }
    let olds = homes_before(old, baseline, class);
    let news = homes_after(alloc, new, carriage, first_vid(old, baseline, class))?;
    let all = staying(alloc, olds, &news, both)?;
    if is_whole(alloc, all.as_slice())? {
        return Ok(None);
    }
    Ok(Some(news))
}

/// The same of each class, by which of them a link between bridges goes of.
fn homes_of_breaking(
    alloc: Global,
    old: &Planned,
    new: &Planned,
    carriage: Option<&Carriage>,
    baseline: &Baseline,
    both: &[Both],
    breaking: &[bool],
) -> Result<Vec<Option<IndexMap<BridgeNo, usize>>>, AllocError>
    requires new { Known new.now.view.now new.now.forest.now.regions }
    requires carriage { ForSome (option_copied carriage) (IsCarriageOf new.now) }
    requires baseline { IsBaseline old.now.view.now old.now.forest.now baseline.now }
    requires both { both.now ≡ seen_both old.now.view.now new.now.view.now }
    requires as_long { length breaking.now ≡ length baseline.now.classes.firsts.items }
    requires others { (class : ℕ) → slice_index_or breaking.now class true ≡ false → HasNoParts old.now new.now (slice_index baseline.now.classes.firsts.items class + 1) }
    ensures as_long { IfOk result (λ homes. vec_len homes ≡ length baseline.now.classes.firsts.items) }
    ensures homes { IfOk result (λ homes. OfNumbered old.now new.now (λ a n before b k afterwards.
        AreLeft a b → AllZip (λ place kept. IsKeptAlone a before b k afterwards (place + 1) kept) baseline.now.classes.firsts.items (map (option_map (λ h. h.entries)) homes.items))) }
{
    let mut homes = Vec::new(alloc);
    for class in 0..breaking.len() {
        let breaks = breaking[class];
        homes.push(homes_alone(alloc, old, new, carriage, baseline, both, class, breaks)?)?;
    }
    Ok(homes)
}

/// What is kept of a failure alone, for the pairs that it is in. `old` is the plan of the network with what stays the same for all its
/// failures, `new` the plan of the network that failed. `AllocError`: memory was wanted and refused.
///
/// Islands are made once for each class of VIDs of which a link that joined bridges goes.
pub fn kept_alone(
    alloc: Global,
    failure: &Failure,
    old: &Planned,
    baseline: &Baseline,
    new: &Planned,
) -> Result<Single, AllocError>
    requires new { Known new.now.view.now new.now.forest.now.regions }
    requires baseline { IsBaseline old.now.view.now old.now.forest.now baseline.now }
    ensures failure { IfOk result (λ single. single.failure ≡ failure.now) }
    ensures kept { IfOk result (λ single. OfNumbered old.now new.now (λ a n before b k afterwards. AreLeft a b → AreKeptAlone a before b k afterwards baseline.now.classes (kept_of single))) }
{
    let both = pairs(alloc, old, new)?;
    let touched = where_touched(alloc, old, new)?;
    let flags = breaking(alloc, old, new, baseline, touched.as_slice())?;
    let carriage = carriage_if_many(alloc, new, flags.as_slice())?;
    let homes = homes_of_breaking(
        alloc,
        old,
        new,
        carriage.as_ref(),
        baseline,
        both.as_slice(),
        flags.as_slice(),
    )?;
    Ok(Single {
        failure: *failure,
        homes,
    })
}
