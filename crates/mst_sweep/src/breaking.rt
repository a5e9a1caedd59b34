ghost use Rattle.std.specs.Prelude.{◌≡◌, ◌<◌, ◌+◌, ℕ, false, true, IfOk, length, slice_index, slice_index_or, vec_len};
ghost use Rattle.std.specs.Option.{ForSome};
ghost use Rattle.mst_vlan.specs.forest.Agrees.{Known};
ghost use Rattle.mst_sweep.specs.Baseline.{IsBaseline};
ghost use Rattle.mst_sweep.specs.Breaking.{HasNoParts, IsCarriageOf};
ghost use Rattle.mst_sweep.specs.Touched.{AreWhereTouched};

use crate::baseline::Baseline;
use crate::links::breaks_no_link;
use mst_facts::Planned;
use mst_ids::Vid;
use mst_vlan::Carriage;
use mst_vlan::laws::islands_of_vid;
use std::alloc::{AllocError, Global};

// Of so many classes islands are made quicker by what carries each VID than one after the other.
const MANY: usize = 4;

/// Whether a link between bridges goes of the first VID of a class: if none does, it has no parts.
pub(crate) fn breaks(
    old: &Planned,
    new: &Planned,
    baseline: &Baseline,
    touched: &[usize],
    class: usize,
) -> bool
    requires touched { AreWhereTouched old.now.view.now old.now.forest.now new.now.view.now new.now.forest.now touched.now }
    requires baseline { IsBaseline old.now.view.now old.now.forest.now baseline.now }
    requires there { class < length baseline.now.classes.firsts.items }
    ensures { result ≡ false → HasNoParts old.now new.now (slice_index baseline.now.classes.firsts.items class + 1) }
{
    islands_of_vid();
    let firsts = baseline.classes.firsts.as_slice();
    let vid = Vid::new(firsts[class] as u64 + 1).unwrap();
    !breaks_no_link(old, new, vid, touched)
}

/// For each class whether a link between bridges goes of its first VID. `AllocError`: memory was wanted and refused.
pub(crate) fn breaking(
    alloc: Global,
    old: &Planned,
    new: &Planned,
    baseline: &Baseline,
    touched: &[usize],
) -> Result<Vec<bool>, AllocError>
    requires touched { AreWhereTouched old.now.view.now old.now.forest.now new.now.view.now new.now.forest.now touched.now }
    requires baseline { IsBaseline old.now.view.now old.now.forest.now baseline.now }
    ensures as_long { IfOk result (λ flags. vec_len flags ≡ length baseline.now.classes.firsts.items) }
    ensures others { IfOk result (λ flags. (class : ℕ) → slice_index_or flags.items class true ≡ false → HasNoParts old.now new.now (slice_index baseline.now.classes.firsts.items class + 1)) }
{
    let mut flags = Vec::new(alloc);
    for class in 0..baseline.classes.firsts.len() {
        flags.push(breaks(old, new, baseline, touched, class))?;
    }
    Ok(flags)
}

/// Whether many of these flags are set.
fn are_many(flags: &[bool]) -> bool {
    flags.iter().filter(|flag| **flag).count() > MANY
}

/// What carries each VID in the network after a failure, if islands of many classes are wanted: those with a flag. `AllocError`:
/// memory was wanted and refused.
pub(crate) fn carriage_if_many<'a>(
    alloc: Global,
    new: &Planned<'a>,
    breaking: &[bool],
) -> Result<Option<Carriage<'a>>, AllocError>
    requires { Known new.now.view.now new.now.forest.now.regions }
    ensures { IfOk result (λ carriage. ForSome carriage (IsCarriageOf new.now)) }
{
    if !are_many(breaking) {
        return Ok(None);
    }
    let carriage = Carriage::new(alloc, new.view, new.forest)?;
    Ok(Some(carriage))
}
