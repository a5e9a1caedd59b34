ghost use Rattle.std.specs.Prelude.{◌≡◌, ◌<◌, ◌+◌, IfOk, length, map, vec_len};
ghost use Rattle.std.specs.List.{All, AllZip};
ghost use Rattle.mst_graph.specs.Lists.{has_any};
ghost use Rattle.mst_sweep.specs.Between.{OfNetworks};
ghost use Rattle.mst_sweep.specs.Cuts.{names_of};
ghost use Rattle.mst_sweeping.specs.MovedVids.{ArePartsBut, IsJoinedBut, IsMoved};

use crate::change::Change;
use crate::fate::fate_of;
use mst_ids::{Name, Vid};
use mst_sweep::differing;
use std::alloc::{AllocError, Global};

/// What becomes of the first VID of each class: the parts that it is cut into, whether it is joined, and whether it moves.
#[derive(Drop)]
pub(crate) struct Fates {
    pub(crate) parts: Vec<Vec<Vec<Name>>>,
    pub(crate) joins: Vec<bool>,
    pub(crate) moves: Vec<bool>,
}

/// What becomes of the VIDs at these places, which are counted from 0. `AllocError`: memory was wanted and refused.
pub(crate) fn fates_at(
    alloc: Global,
    change: &Change,
    places: &[usize],
) -> Result<Fates, AllocError>
    requires { All (λ place. place < 4094) places.now }
    ensures as_long { IfOk result (λ fates. (vec_len fates.parts ≡ length places.now) × (vec_len fates.joins ≡ length places.now) × (vec_len fates.moves ≡ length places.now)) }
    ensures parts { IfOk result (λ fates. OfNetworks change.now.old.now change.now.new.now (λ a before b afterwards.
        AllZip (λ place parts. ArePartsBut change.now.leaving.now a before b afterwards (place + 1) parts) places.now (map names_of fates.parts.items))) }
    ensures joins { IfOk result (λ fates. OfNetworks change.now.old.now change.now.new.now (λ a before b afterwards.
        AllZip (λ place joins. IsJoinedBut change.now.leaving.now a before b afterwards (place + 1) joins) places.now fates.joins.items)) }
    ensures moves { IfOk result (λ fates. OfNetworks change.now.old.now change.now.new.now (λ a before b afterwards.
        AllZip (λ place moves. IsMoved a before b afterwards (place + 1) moves) places.now fates.moves.items)) }
{
    let differing = differing(alloc, change.before, change.afterwards, places)?;
    let mut parts = Vec::new(alloc);
    let mut joins = Vec::new(alloc);
    let mut moves = Vec::new(alloc);
    for index in 0..places.len() {
        let vid = Vid::new(places[index] as u64 + 1).unwrap();
        let of = fate_of(alloc, change, vid, differing[index])?;
        parts.push(of.parts)?;
        joins.push(of.joins)?;
        moves.push(of.moves)?;
    }
    Ok(Fates {
        parts,
        joins,
        moves,
    })
}

/// Whether there are VIDs.
pub(crate) fn are_some(vids: &[Vid]) -> bool
    ensures { result ≡ has_any vids.now }
{
    match vids {
        [] => false,
        [..] => true,
    }
}
