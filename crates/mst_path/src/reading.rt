ghost use Rattle.std.specs.Prelude.{◌≡◌, ◌<◌, IfOk, length, slice_index};
ghost use Rattle.mst_path.specs.Places.{AreNodes, AreApart, AreWaysOn, IsTree, IsBridgeNode, IsFirstPlacePath};

use crate::hop::PlaceHop;
use crate::leading::Ways;
use std::alloc::{AllocError, Global};

/// The number at a place.
fn entry(numbers: &[usize], place: usize) -> usize
    requires { place < length numbers.now }
    ensures { result ≡ slice_index numbers.now place }
{
    numbers[place]
}

/// The hops from a bridge's node to the root, by the port by which frames go on from each node. `AllocError`: memory was wanted and
/// refused.
pub(crate) fn read_off(
    alloc: Global,
    bridges: &[usize],
    lans: &[usize],
    ways: &Ways,
    start: usize,
    root: usize,
) -> Result<Vec<PlaceHop>, AllocError>
    requires nodes { AreNodes bridges.now lans.now (length ways.now.depths.items) }
    requires apart { AreApart bridges.now lans.now }
    requires root { IsBridgeNode bridges.now lans.now root }
    requires start { IsBridgeNode bridges.now lans.now start }
    requires tree { IsTree bridges.now lans.now root ways.now.depths.items }
    requires ways { AreWaysOn bridges.now lans.now ways.now.depths.items ways.now.ups.items }
    requires reached { 0 < slice_index ways.now.depths.items start }
    ensures { IfOk result (λ hops. IsFirstPlacePath bridges.now lans.now start root hops.items) }
{
    let mut hops = Vec::new(alloc);
    let mut at = start;
    while at != root {
        let leaving = ways.ups[at];
        let lan = entry(lans, leaving);
        let arriving = ways.ups[lan];
        hops.push(PlaceHop { leaving, arriving })?;
        let next = entry(bridges, arriving);
        at = next;
    }
    Ok(hops)
}
