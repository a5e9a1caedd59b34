ghost use Rattle.std.specs.Prelude.{IfOk};
ghost use Rattle.mst_graph.specs.Islands.{AreIslands, HaveEnds};

use crate::filling::islands_by;
use crate::island::Island;
use crate::labelling::labels_by;
use crate::node::Link;
use crate::places::Places;
use mst_ids::{BridgeNo, LanNo};
use std::alloc::{AllocError, Global};

/// The islands of bridges and LANs that links join: those with a bridge by their first bridges, and then
/// the others by their first LANs. Bridges and LANs stand in an island in the order in which they are given.
/// For n bridges, LANs and links it takes at most about n log n steps. `AllocError`: memory was wanted and refused.
pub fn islands(
    alloc: Global,
    bridges: &[BridgeNo],
    lans: &[LanNo],
    links: &[Link],
) -> Result<Vec<Island>, AllocError>
    requires { HaveEnds bridges.now lans.now links.now }
    ensures { IfOk result (λ v. AreIslands bridges.now lans.now links.now v.items) }
{
    let places = Places::new(alloc, bridges, lans)?;
    let labels = labels_by(alloc, &places, links)?;
    islands_by(alloc, &places, labels.as_slice(), bridges, lans)
}
