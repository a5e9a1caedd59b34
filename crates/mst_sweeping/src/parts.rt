ghost use Rattle.std.specs.Prelude.{◌≡◌, not, filter, map, IfOk};
ghost use Rattle.mst_graph.specs.Lists.{has_any};
ghost use Rattle.mst_sweep.specs.facts.Both.{seen_both};
ghost use Rattle.mst_sweep.specs.Cuts.{names_of};
ghost use Rattle.mst_sweep.specs.Parts.{AreParts};
ghost use Rattle.mst_policy.specs.Leaving.{leaves};
ghost use Rattle.mst_sweeping.specs.MovedVids.{ArePartsBut};
ghost use Rattle.mst_sweeping.specs.Seen.{OfHomes};

use indexmap::IndexMap;
use mst_ids::{BridgeNo, Name, Vid};
use mst_policy::Leaving;
use mst_sweep::{Both, Planned, all_parts, staying};
use std::alloc::{AllocError, Global};

/// The parts into which the islands of a VID come apart, by the places of its islands in two networks. `AllocError`: memory was wanted and
/// refused.
pub(crate) fn parts(
    alloc: Global,
    old: &Planned,
    new: &Planned,
    olds: &IndexMap<BridgeNo, usize>,
    news: &IndexMap<BridgeNo, usize>,
    both: &[Both],
    vid: Vid,
) -> Result<Vec<Vec<Name>>, AllocError>
    requires { both.now ≡ seen_both old.now.view.now new.now.view.now }
    ensures { IfOk result (λ parts. OfHomes old.now new.now vid olds.now.entries news.now.entries
        (λ a before b afterwards. AreParts a before b afterwards vid (names_of parts))) }
{
    let all = staying(alloc, olds, news, both)?;
    all_parts(alloc, all.as_slice())
}

/// Those of these bridges that aren't meant to leave a VID.
fn remaining(
    alloc: Global,
    leaving: &Leaving,
    both: &[Both],
    vid: Vid,
) -> Result<Vec<Both>, AllocError>
    ensures { IfOk result (λ rest. rest.items ≡ filter (λ bridge. not (leaves leaving.now vid bridge.old.name)) both.now) }
{
    both.iter()
        .filter(|bridge| !leaving.has(vid, &bridge.old.name))
        .copied()
        .collect(alloc)
}

/// The same parts, of the bridges alone that aren't meant to leave the VID. `AllocError`: memory was wanted and refused.
pub(crate) fn parts_but(
    alloc: Global,
    leaving: &Leaving,
    old: &Planned,
    new: &Planned,
    olds: &IndexMap<BridgeNo, usize>,
    news: &IndexMap<BridgeNo, usize>,
    both: &[Both],
    vid: Vid,
) -> Result<Vec<Vec<Name>>, AllocError>
    requires { both.now ≡ seen_both old.now.view.now new.now.view.now }
    ensures { IfOk result (λ parts. OfHomes old.now new.now vid olds.now.entries news.now.entries
        (λ a before b afterwards. ArePartsBut leaving.now a before b afterwards vid (names_of parts))) }
{
    let rest = remaining(alloc, leaving, both, vid)?;
    let all = staying(alloc, olds, news, rest.as_slice())?;
    all_parts(alloc, all.as_slice())
}

/// Whether there are parts.
pub(crate) fn is_any(parts: &[Vec<Name>]) -> bool
    ensures { result ≡ has_any (map (λ names. names.items) parts.now) }
{
    match parts {
        [] => false,
        [..] => true,
    }
}
