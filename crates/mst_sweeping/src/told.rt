ghost use Rattle.std.specs.Prelude.{◌≡◌, ◌∷◌, ℕ, IfOk, vec_len};
ghost use Rattle.mst_sweep.specs.vlan.classes.AllVids.{NumberEach};
ghost use Rattle.mst_sweep.specs.Between.{OfNetworks};
ghost use Rattle.mst_sweep.specs.declared.cuts.CutBy.{CutBy as CutByOf};
ghost use Rattle.mst_sweep.specs.Cuts.{rows_of, AreCutsBy};
ghost use Rattle.mst_sweeping.specs.MovedVids.{ArePartsBut, AreVidsWhere, IsJoinedBut, IsMoved};

use crate::change::Change;
use crate::fates::fates_at;
use mst_graph::Numbering;
use mst_ids::Vid;
use mst_sweep::{Cuts, classes_of_both_in, cuts_of, flagged, vids};
use std::alloc::{AllocError, Global};

/// What is told of VIDs: those that are cut, by classes, those that are joined, and those that move.
#[derive(Drop)]
pub(crate) struct Told {
    pub(crate) classes: Numbering,
    pub(crate) cuts: Cuts,
    pub(crate) joined: Vec<Vid>,
    pub(crate) moved: Vec<Vid>,
}

/// The VIDs that a step cuts, joins and moves. `AllocError`: memory was wanted and refused.
///
/// It looks once at what carries each class of VIDs that nothing tells apart in either network, nor what is meant to leave, and makes islands where that isn't the same.
pub(crate) fn told_of(alloc: Global, change: &Change) -> Result<Told, AllocError>
    ensures numbered { IfOk result (λ told. NumberEach told.classes.numbers.items (vec_len told.cuts.parts)) }
    ensures cut { IfOk result (λ told. OfNetworks change.now.old.now change.now.new.now (λ a before b afterwards.
        (by : CutByOf) → AreCutsBy (ArePartsBut change.now.leaving.now a before b afterwards) by told.cuts.vids.items (rows_of by told.classes.numbers.items told.cuts))) }
    ensures joined { IfOk result (λ told. OfNetworks change.now.old.now change.now.new.now (λ a before b afterwards.
        AreVidsWhere (IsJoinedBut change.now.leaving.now a before b afterwards) told.joined.items)) }
    ensures moved { IfOk result (λ told. OfNetworks change.now.old.now change.now.new.now (λ a before b afterwards.
        AreVidsWhere (IsMoved a before b afterwards) told.moved.items)) }
{
    let left = change.leaving.sets(alloc)?;
    let classes = classes_of_both_in(alloc, change.old.view, change.new.view, left.as_slice())?;
    let of = fates_at(alloc, change, classes.firsts.as_slice())?;
    let all = vids(alloc)?;
    let vids = all.as_slice();
    let numbers = classes.numbers.as_slice();
    let joined = flagged(alloc, vids, numbers, of.joins.as_slice())?;
    let moved = flagged(alloc, vids, numbers, of.moves.as_slice())?;
    let cuts = cuts_of(alloc, &classes, of.parts)?;
    Ok(Told {
        classes,
        cuts,
        joined,
        moved,
    })
}
