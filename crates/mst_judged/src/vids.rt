ghost use Rattle.std.specs.Prelude.{◌≡◌, ◌-◌, ◌<◌, ℕ, IfOk, length, map, slice_index, true};
ghost use Rattle.std.specs.List.{All, Contains};
ghost use Rattle.mst_reasons.specs.sweep.vlan.classes.Flags.{flag_at};
ghost use Rattle.mst_reasons.specs.sweep.vlan.classes.AllVids.{NumberEach};
ghost use Rattle.mst_reasons.specs.Named.{vids_in};

use mst_graph::Numbering;
use mst_ids::{Vid, VidSet};
use mst_reasons::vids;
use std::alloc::{AllocError, Global};

/// The VIDs of a set, rising. `AllocError`: memory was wanted and refused.
pub fn vids_of(alloc: Global, set: &VidSet) -> Result<Vec<Vid>, AllocError>
    ensures { IfOk result (λ vids. vids.items ≡ vids_in set.now) }
{
    let all = vids(alloc)?;
    all.iter()
        .filter(|vid| set.contains(vid.value()))
        .copied()
        .collect(alloc)
}

/// The number of the class of a VID.
pub fn class_of(numbers: &[usize], vid: Vid, count: usize) -> usize
    requires { NumberEach numbers.now count }
    ensures value { result ≡ slice_index numbers.now (vid - 1) }
    ensures below { result < count }
{
    let _count = count;
    numbers[usize::from(vid.value()) - 1]
}

/// The numbers of the classes of these VIDs.
pub fn classes_of(
    alloc: Global,
    numbers: &[usize],
    vids: &[Vid],
    count: usize,
) -> Result<Vec<usize>, AllocError>
    requires { NumberEach numbers.now count }
    ensures value { IfOk result (λ classes. classes.items ≡ map (λ vid. slice_index numbers.now (vid - 1)) vids.now) }
    ensures below { IfOk result (λ classes. All (λ class. class < count) classes.items) }
{
    let mut classes = Vec::new(alloc);
    for vid in vids {
        classes.push(class_of(numbers, *vid, count))?;
    }
    Ok(classes)
}

/// A flag for each of so many classes: whether one of these VIDs is of it.
pub fn classes_asked(
    alloc: Global,
    numbers: &[usize],
    set: &VidSet,
    count: usize,
) -> Result<Vec<bool>, AllocError>
    requires { NumberEach numbers.now count }
    ensures as_long { IfOk result (λ flags. length flags.items ≡ count) }
    ensures asked { IfOk result (λ flags. (vid : ℕ) → Contains (vids_in set.now) vid → flag_at numbers.now flags.items vid ≡ true) }
{
    let vids = vids_of(alloc, set)?;
    let mut flags = vec![in alloc; false; count]?;
    for vid in vids.as_slice() {
        flags[class_of(numbers, *vid, count)] = true;
    }
    Ok(flags)
}
