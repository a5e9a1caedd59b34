ghost use Rattle.std.specs.Prelude.{◌≡◌, ◌<◌, IfOk, IsTrue};
ghost use Rattle.std.specs.List.{All};
ghost use Rattle.mst_diff.specs.Seen.{seen_names_on, seen_names_up, HaveSameEnds, TellUnlike};

use crate::carriages::Carriages;
use mst_ids::Name;
use mst_view::View;
use mst_vlan::differing;
use mst_vlan::laws::islands_of_vid;
use std::alloc::{AllocError, Global};

/// The names of the bridges that are on.
fn names_on(alloc: Global, view: &View) -> Result<Vec<Name>, AllocError>
    ensures { IfOk result (λ names. names.items ≡ seen_names_on view.now) }
{
    view.bridges()
        .iter()
        .filter(|bridge| bridge.bridge.is_on())
        .map(|bridge| bridge.name)
        .collect(alloc)
}

/// The names of the logical LANs that are up.
fn names_up(alloc: Global, view: &View) -> Result<Vec<Name>, AllocError>
    ensures { IfOk result (λ names. names.items ≡ seen_names_up view.now) }
{
    view.lans()
        .iter()
        .filter(|lan| lan.is_up)
        .map(|lan| lan.name)
        .collect(alloc)
}

/// Whether the same bridges are on and the same logical LANs are up in two networks.
fn have_same_ends(alloc: Global, old: &View, new: &View) -> Result<bool, AllocError>
    ensures { IfOk result (λ same. IsTrue same → HaveSameEnds old.now new.now) }
{
    let bridges = names_on(alloc, old)?;
    let bridges_after = names_on(alloc, new)?;
    let lans = names_up(alloc, old)?;
    let lans_after = names_up(alloc, new)?;
    Ok(bridges.as_slice() == bridges_after.as_slice() && lans.as_slice() == lans_after.as_slice())
}

/// A flag for each of the VIDs at these places, which are counted from 0: it is set unless the VID is seen to have the
/// same islands before and after, since the same ports carry it. `AllocError`: memory was wanted and refused.
pub(crate) fn unlike(
    alloc: Global,
    both: &Carriages,
    places: &[usize],
) -> Result<Vec<bool>, AllocError>
    requires { All (λ place. place < 4094) places.now }
    ensures { IfOk result (λ flags. TellUnlike both.now.old.now both.now.new.now places.now flags.items) }
{
    both.old.known();
    both.new.known();
    islands_of_vid();
    if have_same_ends(alloc, both.old.view(), both.new.view())? {
        return differing(alloc, both.before, both.after, places);
    }
    vec![in alloc; true; places.len()]
}
