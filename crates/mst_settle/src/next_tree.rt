//! A tree on the wiring after an edit, from the one that stands: shared where it is the same tree, and else a repaired copy.
ghost use Rattle.std.specs.Prelude.{◌≡◌, ◌≤◌, IfOk, IsTrue, length};
ghost use Rattle.mst_topology.specs.Topology.{IsTopology};
ghost use Rattle.mst_topology.specs.Wiring.{topology_of};
ghost use Rattle.mst_outcome.specs.Assignment.{vector_of, IsSettledFor};
ghost use Rattle.mst_settle.specs.Settler.{HasSpaceFor, KeepsSpace};
ghost use Rattle.mst_topology.specs.Repair.{WithinBounds};
ghost use Rattle.mst_settle.specs.Differences.{HasSpaceForBoth};
ghost use Rattle.mst_outcome.specs.Held.{IsHeld, topology_on};
ghost use Rattle.mst_settle.specs.Repaired.{IsSettledOn};
ghost use Rattle.mst_outcome.specs.Shared.{own_of};
ghost use Rattle.std.specs.Option.{option_map};

use crate::differences::{is_same, reserve_bridges, touch_differences};
use crate::rewiring::Rewiring;
use crate::settler::Settler;
use mst_outcome::own::{Own, holds, shared, table};
use mst_outcome::{Outcome, SpanningTree, TellsApart};
use mst_topology::{Bridges, ByNumber, Topology};
use mst_vector::Metric;
use std::alloc::{AllocError, Global};
use std::collections::BTreeMap;
use std::rc::Rc;

/// Has a settler settle the tree after an edit: from nothing, where nothing is settled for the one that stands, and else by taking
/// over what is settled and repairing that. It takes no memory.
fn settle_next<M: TellsApart>(
    alloc: Global,
    standing: &SpanningTree<M>,
    rewiring: &Rewiring<M>,
    from: &Topology<M>,
    to: &Topology<M>,
    before: &ByNumber<M::Port>,
    own: &ByNumber<M::Port>,
    same: bool,
    settler: &mut Settler<M>,
)
    requires before { before.now ≡ standing.now.own }
    requires same { IsTrue same → before.now ≡ own.now }
    requires held { IsHeld M.rules rewiring.now.from standing.now }
    requires from { from.now ≡ topology_on rewiring.now.from standing.now }
    requires to { to.now ≡ topology_of rewiring.now.to to.now.bridges own.now }
    requires size { length to.now.bridges ≤ 1024 }
    requires space_from { HasSpaceFor from.now settler.old }
    requires space_to { HasSpaceFor to.now settler.old }
    ensures settled { IsSettledFor M.rules to.now settler.new }
    ensures bounds { WithinBounds (vector_of standing.now.outcome) (vector_of settler.new) settler.new.settlings }
    ensures space { KeepsSpace settler.old settler.new }
{
    match standing.outcome() {
        None => {
            settler.load(&Outcome::new(alloc));
            settler.settle_first(to);
        }
        Some(outcome) => {
            settler.load(outcome);
            touch_differences::<M>(settler, rewiring, from, to, before, own, same);
            settler.repair(to);
        }
    }
}

/// The tree of these bridges on the wiring after an edit, in which the ports of these numbers have settings of
/// their own: a copy, shared where the tree that stands has the same ones. Where it is the same tree its outcome is shared and no
/// bridge is settled; or else a settler that has space for both wirings takes the outcome over and repairs it, with at least
/// as many settlings as bridges whose vector changes, and at most twice as many. `AllocError`: memory was wanted and
/// refused. The settler keeps its space.
pub fn repaired_tree<M: TellsApart>(
    alloc: Global,
    standing: &SpanningTree<M>,
    rewiring: &Rewiring<M>,
    bridges: Bridges<M>,
    own: &BTreeMap<usize, M::Port>,
    settler: &mut Settler<M>,
) -> Result<SpanningTree<M>, AllocError>
    requires held { IsHeld M.rules rewiring.now.from standing.now }
    requires topology { IsTopology M.rules (topology_of rewiring.now.to bridges own.now.entries) }
    requires size { length bridges ≤ 1024 }
    requires space { HasSpaceForBoth rewiring.now settler.old }
    ensures bridges { IfOk result (λ tree. tree.bridges ≡ bridges) }
    ensures own { IfOk result (λ tree. tree.own ≡ own.now.entries) }
    ensures held { IfOk result (IsHeld M.rules rewiring.now.to) }
    ensures bounds { IfOk result (λ tree. WithinBounds (vector_of standing.now.outcome) (vector_of tree.outcome) tree.outcome.settlings) }
    ensures space { KeepsSpace settler.old settler.new }
{
    let before = standing.own();
    let same = holds::<M>(before, own);
    let own = shared(alloc, before, own, same)?;
    let (outcome, settlings) = settled_with(
        alloc, standing, rewiring, &bridges, &own, same, settler,
    )?;
    Ok(SpanningTree::of(bridges, own, outcome, settlings))
}

/// What is settled for the tree of these bridges on the wiring after an edit that holds these settings, and how often
/// bridges were settled for that. `same` says that this tree is known to hold the same.
fn settled_with<M: TellsApart>(
    alloc: Global,
    standing: &SpanningTree<M>,
    rewiring: &Rewiring<M>,
    bridges: &Bridges<M>,
    held: &Option<Rc<Own<M::Port>>>,
    same: bool,
    settler: &mut Settler<M>,
) -> Result<(Option<Rc<Outcome<M>>>, u64), AllocError>
    requires same { IsTrue same → standing.now.own ≡ own_of (option_map (λ r. r.value) held.now) }
    requires held { IsHeld M.rules rewiring.now.from standing.now }
    requires topology { IsTopology M.rules (topology_of rewiring.now.to bridges.now (own_of (option_map (λ r. r.value) held.now))) }
    requires size { length bridges.now ≤ 1024 }
    requires space { HasSpaceForBoth rewiring.now settler.old }
    ensures settled { IfOk result (λ r. IsSettledOn M.rules (topology_of rewiring.now.to bridges.now (own_of (option_map (λ r. r.value) held.now))) (vector_of standing.now.outcome) (option_map (λ o. o.value) r.0) r.1) }
    ensures space { KeepsSpace settler.old settler.new }
{
    let none = ByNumber::new(alloc);
    let before = table(standing.own(), &none);
    let own = table(held, &none);
    settled(
        alloc, standing, rewiring, bridges, before, own, same, settler,
    )
}

/// What is settled for the tree of these bridges on the wiring after an edit, and how often bridges were settled for
/// that. Of both trees it is given the settings that ports have in them alone, and whether these are known to be the same.
fn settled<M: TellsApart>(
    alloc: Global,
    standing: &SpanningTree<M>,
    rewiring: &Rewiring<M>,
    bridges: &Bridges<M>,
    before: &ByNumber<M::Port>,
    own: &ByNumber<M::Port>,
    same: bool,
    settler: &mut Settler<M>,
) -> Result<(Option<Rc<Outcome<M>>>, u64), AllocError>
    requires before { before.now ≡ standing.now.own }
    requires same { IsTrue same → before.now ≡ own.now }
    requires held { IsHeld M.rules rewiring.now.from standing.now }
    requires topology { IsTopology M.rules (topology_of rewiring.now.to bridges.now own.now) }
    requires size { length bridges.now ≤ 1024 }
    requires space { HasSpaceForBoth rewiring.now settler.old }
    ensures settled { IfOk result (λ r. IsSettledOn M.rules (topology_of rewiring.now.to bridges.now own.now) (vector_of standing.now.outcome) (option_map (λ o. o.value) r.0) r.1) }
    ensures space { KeepsSpace settler.old settler.new }
{
    let from = Topology::new(rewiring.from(), standing.bridges(), before);
    let to = Topology::new(rewiring.to(), bridges, own);
    if is_same::<M>(rewiring, &from, &to, before, own, same) {
        return match standing.outcome() {
            None => Ok((None, 0)),
            Some(outcome) => Ok((Some(outcome.clone()?), 0)),
        };
    }
    reserve_bridges::<M>(settler, &from)?;
    reserve_bridges::<M>(settler, &to)?;
    settle_next(
        alloc, standing, rewiring, &from, &to, before, own, same, settler,
    );
    let settlings = settler.settlings();
    let settled = settler.outcome(alloc)?;
    let outcome = Rc::new(alloc, settled)?;
    Ok((Some(outcome), settlings))
}
