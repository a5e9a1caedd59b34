ghost use Rattle.std.specs.Prelude.{◌≡◌, ◌&&◌, ℕ, List, IfOk};
ghost use Rattle.std.specs.HashSet.{contains};
ghost use Rattle.mst_view.specs.Aggregation.{same_name};
ghost use Rattle.mst_sweeping.specs.Seen.{seen_on};

use indexmap::IndexSet;
use mst_ids::Name;
use mst_view::View;
use std::alloc::{AllocError, Global};

/// The names of the bridges that are on. `AllocError`: memory was wanted and refused.
pub(crate) fn bridges_on(alloc: Global, view: &View) -> Result<IndexSet<Name>, AllocError>
    ensures { IfOk result (λ on. (name : List ℕ) → contains same_name on name ≡ seen_on view.now name) }
{
    let mut on = IndexSet::new(alloc);
    for bridge in view.bridges() {
        if bridge.bridge.is_on() {
            on.insert(bridge.name)?;
        }
    }
    Ok(on)
}
