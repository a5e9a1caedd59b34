ghost use Rattle.std.specs.Prelude.{◌≡◌, List, ℕ, IfOk};
ghost use Rattle.mst_view.specs.Aggregation.{same_name};
ghost use Rattle.mst_summary.specs.Grouped.{group_at};
ghost use Rattle.mst_summary.specs.Places.{places_on};

use crate::grouped::add;
use indexmap::IndexMap;
use mst_ids::Name;
use mst_view::View;
use std::alloc::{AllocError, Global};

/// The places in the view of the logical ports of each logical LAN that has one, by the names of the LANs. It goes over the
/// ports once. `AllocError`: memory was wanted and refused.
pub(crate) fn places_by_lan(
    alloc: Global,
    view: &View,
) -> Result<IndexMap<Name, Vec<usize>>, AllocError>
    ensures { IfOk result (λ places. (lan : List ℕ) → group_at same_name places lan ≡ places_on view.now lan) }
{
    let ports = view.ports();
    let mut places = IndexMap::new(alloc);
    for place in 0..ports.len() {
        add(alloc, ports[place].lan, place, &mut places)?;
    }
    Ok(places)
}
