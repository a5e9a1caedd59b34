ghost use Rattle.std.specs.Prelude.{◌≡◌, List, ℕ, IfOk};
ghost use Rattle.mst_slips.specs.Kept.{kept_at};
ghost use Rattle.mst_summary.specs.Seen.{seen_on};

use indexmap::IndexMap;
use mst_ids::Name;
use mst_slips::add_port;
use mst_view::{PortInView, View};
use std::alloc::{AllocError, Global};

/// The logical ports of each logical LAN that has one, by the names of the LANs. It goes over the ports once. `AllocError`:
/// memory was wanted and refused.
pub fn ports_by_lan(
    alloc: Global,
    view: &View,
) -> Result<IndexMap<Name, Vec<PortInView>>, AllocError>
    ensures { IfOk result (λ kept. (lan : List ℕ) → kept_at kept lan ≡ seen_on view.now lan) }
{
    let mut kept = IndexMap::new(alloc);
    for port in view.ports() {
        add_port(alloc, &port.lan, port, &mut kept)?;
    }
    Ok(kept)
}
