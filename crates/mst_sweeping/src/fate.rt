ghost use Rattle.std.specs.Prelude.{◌≡◌, ◌||◌, false, map, IfOk};
ghost use Rattle.mst_sweep.specs.vlan.Carried.{CarryAlike};
ghost use Rattle.mst_graph.specs.Lists.{has_any};
ghost use Rattle.mst_sweep.specs.Between.{OfNetworks};
ghost use Rattle.mst_sweep.specs.Cuts.{names_of};
ghost use Rattle.mst_sweep.specs.Parts.{AreParts};
ghost use Rattle.mst_sweeping.specs.MovedVids.{ArePartsBut, IsJoined, IsJoinedBut, IsMoved};
ghost use Rattle.mst_sweeping.specs.Seen.{seen_carried, seen_differ, OfHomes};

use crate::change::Change;
use crate::links::{Link, are_same, between, carried};
use crate::parts::{is_any, parts, parts_but};
use indexmap::IndexMap;
use mst_ids::{BridgeNo, Name, Vid};
use mst_sweep::homes_by;
use mst_sweep::vlan_laws::islands_of_vid;
use std::alloc::{AllocError, Global};

/// What becomes of a VID: the parts that it is cut into, whether it is joined, and whether it moves. Bridges that are meant to leave it aren't cut
/// off nor joined, and it moves by them, too.
#[derive(Drop)]
pub(crate) struct Fate {
    pub(crate) parts: Vec<Vec<Name>>,
    pub(crate) joins: bool,
    pub(crate) moves: bool,
}

/// Whether the links between bridges that are on in both networks, of these before and afterwards, aren't the same.
fn differ(
    alloc: Global,
    change: &Change,
    before: &[Link],
    afterwards: &[Link],
) -> Result<bool, AllocError>
    ensures { IfOk result (λ differ. differ ≡ seen_differ change.now.old.now.view.now change.now.new.now.view.now before.now afterwards.now) }
{
    let olds = between(alloc, change, before)?;
    let news = between(alloc, change, afterwards)?;
    Ok(!are_same(olds.as_slice(), news.as_slice()))
}

/// Whether a VID of these parts moves.
fn is_moved(parts: &[Vec<Name>], joins: bool, differ: bool) -> bool
    ensures { result ≡ (has_any (map (λ names. names.items) parts.now) || joins || differ) }
{
    is_any(parts) || joins || differ
}

/// What becomes of a VID by all bridges, whether or not they are meant to leave it, by the places of its islands.
fn fate_by_all(
    alloc: Global,
    change: &Change,
    olds: &IndexMap<BridgeNo, usize>,
    news: &IndexMap<BridgeNo, usize>,
    before: &[Link],
    afterwards: &[Link],
    vid: Vid,
) -> Result<Fate, AllocError>
    requires before { before.now ≡ seen_carried change.now.old.now.view.now change.now.old.now.forest.now vid }
    requires afterwards { afterwards.now ≡ seen_carried change.now.new.now.view.now change.now.new.now.forest.now vid }
    ensures parts { IfOk result (λ fate. OfHomes change.now.old.now change.now.new.now vid olds.now.entries news.now.entries
        (λ a before b afterwards. AreParts a before b afterwards vid (names_of fate.parts))) }
    ensures joins { IfOk result (λ fate. OfHomes change.now.old.now change.now.new.now vid olds.now.entries news.now.entries
        (λ a before b afterwards. IsJoined a before b afterwards vid fate.joins)) }
    ensures moves { IfOk result (λ fate. OfHomes change.now.old.now change.now.new.now vid olds.now.entries news.now.entries
        (λ a before b afterwards. IsMoved a before b afterwards vid fate.moves)) }
{
    let old = change.old;
    let new = change.new;
    let apart = parts(alloc, old, new, olds, news, change.both, vid)?;
    let joined = parts(alloc, new, old, news, olds, change.turned, vid)?;
    let joins = is_any(joined.as_slice());
    let differ = differ(alloc, change, before, afterwards)?;
    let moves = is_moved(apart.as_slice(), joins, differ);
    Ok(Fate {
        parts: apart,
        joins,
        moves,
    })
}

/// What becomes of a VID but for the bridges that are meant to leave it, by the places of its islands. Whether it moves is known.
fn fate_but(
    alloc: Global,
    change: &Change,
    olds: &IndexMap<BridgeNo, usize>,
    news: &IndexMap<BridgeNo, usize>,
    vid: Vid,
    moves: bool,
) -> Result<Fate, AllocError>
    ensures parts { IfOk result (λ fate. OfHomes change.now.old.now change.now.new.now vid olds.now.entries news.now.entries
        (λ a before b afterwards. ArePartsBut change.now.leaving.now a before b afterwards vid (names_of fate.parts))) }
    ensures joins { IfOk result (λ fate. OfHomes change.now.old.now change.now.new.now vid olds.now.entries news.now.entries
        (λ a before b afterwards. IsJoinedBut change.now.leaving.now a before b afterwards vid fate.joins)) }
    ensures moves { IfOk result (λ fate. fate.moves ≡ moves) }
{
    let old = change.old;
    let new = change.new;
    let leaving = change.leaving;
    let apart = parts_but(alloc, leaving, old, new, olds, news, change.both, vid)?;
    let joined = parts_but(alloc, leaving, new, old, news, olds, change.turned, vid)?;
    Ok(Fate {
        parts: apart,
        joins: is_any(joined.as_slice()),
        moves,
    })
}

/// What becomes of a VID, by what carries it before and afterwards.
fn fate_by(
    alloc: Global,
    change: &Change,
    before: &[Link],
    afterwards: &[Link],
    vid: Vid,
) -> Result<Fate, AllocError>
    requires before { before.now ≡ seen_carried change.now.old.now.view.now change.now.old.now.forest.now vid }
    requires afterwards { afterwards.now ≡ seen_carried change.now.new.now.view.now change.now.new.now.forest.now vid }
    ensures parts { IfOk result (λ fate. OfNetworks change.now.old.now change.now.new.now (λ a before b afterwards. ArePartsBut change.now.leaving.now a before b afterwards vid (names_of fate.parts))) }
    ensures joins { IfOk result (λ fate. OfNetworks change.now.old.now change.now.new.now (λ a before b afterwards. IsJoinedBut change.now.leaving.now a before b afterwards vid fate.joins)) }
    ensures moves { IfOk result (λ fate. OfNetworks change.now.old.now change.now.new.now (λ a before b afterwards. IsMoved a before b afterwards vid fate.moves)) }
{
    let olds = homes_by(alloc, change.before, vid)?;
    let news = homes_by(alloc, change.afterwards, vid)?;
    let fate = fate_by_all(alloc, change, &olds, &news, before, afterwards, vid)?;
    if change.leaving.is_of(vid) {
        return fate_but(alloc, change, &olds, &news, vid, fate.moves);
    }
    Ok(fate)
}

/// What becomes of a VID. Where the same ports carry it on the same LANs before and afterwards, no islands are made. `AllocError`:
/// memory was wanted and refused.
pub(crate) fn fate_of(
    alloc: Global,
    change: &Change,
    vid: Vid,
    differs: bool,
) -> Result<Fate, AllocError>
    requires { differs ≡ false → CarryAlike change.now.before.now change.now.afterwards.now vid }
    ensures parts { IfOk result (λ fate. OfNetworks change.now.old.now change.now.new.now (λ a before b afterwards. ArePartsBut change.now.leaving.now a before b afterwards vid (names_of fate.parts))) }
    ensures joins { IfOk result (λ fate. OfNetworks change.now.old.now change.now.new.now (λ a before b afterwards. IsJoinedBut change.now.leaving.now a before b afterwards vid fate.joins)) }
    ensures moves { IfOk result (λ fate. OfNetworks change.now.old.now change.now.new.now (λ a before b afterwards. IsMoved a before b afterwards vid fate.moves)) }
{
    islands_of_vid();
    if !differs {
        return Ok(Fate {
            parts: Vec::new(alloc),
            joins: false,
            moves: false,
        });
    }
    let before = carried(alloc, change.before, vid)?;
    let afterwards = carried(alloc, change.afterwards, vid)?;
    fate_by(alloc, change, before.as_slice(), afterwards.as_slice(), vid)
}
