ghost use Rattle.std.specs.Prelude.{◌≡◌, IfOk};
ghost use Rattle.mst_ids.specs.Vids.{set_where};
ghost use Rattle.mst_view.specs.Trees.{is_among};
ghost use Rattle.mst_classes.specs.AllVids.{all_vids};

use mst_ids::{Vid, VidSet};
use std::alloc::{AllocError, Global};

/// The VIDs 1 to 4094. `AllocError`: memory was wanted and refused.
pub fn vids(alloc: Global) -> Result<Vec<Vid>, AllocError>
    ensures { IfOk result (λ vids. vids.items ≡ all_vids) }
{
    let mut vids = Vec::new(alloc);
    for place in 0..4094u64 {
        vids.push(Vid::new(place + 1).unwrap())?;
    }
    Ok(vids)
}

/// The set of these VIDs.
pub fn set_of(group: &[Vid]) -> VidSet
    ensures { result ≡ set_where (is_among group.now) }
{
    let mut set = VidSet::none();
    for vid in group {
        set.insert(*vid);
    }
    set
}
