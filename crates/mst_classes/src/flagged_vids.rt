ghost use Rattle.std.specs.Prelude.{◌≡◌, IfOk, filter, length};
ghost use Rattle.mst_classes.specs.AllVids.{NumberEach};
ghost use Rattle.mst_classes.specs.Flags.{flag_at};

use mst_ids::Vid;
use std::alloc::{AllocError, Global};

/// Those of these VIDs whose classes have the flag. `AllocError`: memory was wanted and refused.
pub fn flagged(
    alloc: Global,
    vids: &[Vid],
    numbers: &[usize],
    flags: &[bool],
) -> Result<Vec<Vid>, AllocError>
    requires { NumberEach numbers.now (length flags.now) }
    ensures { IfOk result (λ flagged. flagged.items ≡ filter (flag_at numbers.now flags.now) vids.now) }
{
    let mut flagged = Vec::new(alloc);
    for vid in vids {
        if flags[numbers[usize::from(vid.value()) - 1]] {
            flagged.push(*vid)?;
        }
    }
    Ok(flagged)
}
