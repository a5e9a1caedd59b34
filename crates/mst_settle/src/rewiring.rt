ghost use Rattle.std.specs.Prelude.{◌≡◌, IfOk, OnOk, IsTrue};
ghost use Rattle.std.specs.List.{Contains};
ghost use Rattle.mst_settle.specs.Differences.{CoversDifferences, HasSpaceForBoth, NotesMissing};

use crate::settler::Settler;
use mst_ids::PortNo;
use mst_outcome::{TellsApart, same_tree_port};
use mst_topology::{TreePort, Wiring};
use std::alloc::{AllocError, Global};
use std::marker::Model;

/// Two wirings, of a network before and after an edit, and the numbers of the ports that are in one of them and
/// aren't the same in the other. It is found once for all trees.
#[derive(Drop)]
pub struct Rewiring<'a, M: TellsApart> {
    from: &'a Wiring<M::Port>,
    to: &'a Wiring<M::Port>,
    differing: Vec<PortNo>,
}

impl<'a, M: TellsApart> Model for Rewiring<'a, M> {
    ghost use Rattle.mst_settle.specs.Differences.{Wirings, CoversDifferences};

    ghost Value = { Wirings M.Port };

    ghost view = { λ r. record { from = r.from.now; to = r.to.now } };

    ghost invariant = { λ r. CoversDifferences r.from.now r.to.now r.differing.items };
}

/// Whether a wiring has this port.
fn is_wired<M: TellsApart>(wiring: &Wiring<M::Port>, port: &TreePort<M::Port>) -> bool
    ensures { IsTrue result → Contains wiring.now port.now }
{
    match wiring.place(port.number) {
        None => false,
        Some(place) => same_tree_port::<M>(&wiring.ports()[place], port),
    }
}

/// Notes the ports of the first wiring that the second hasn't.
fn note_missing<M: TellsApart>(
    here: &Wiring<M::Port>,
    there: &Wiring<M::Port>,
    numbers: &mut Vec<PortNo>,
) -> Result<(), AllocError>
    ensures { OnOk result (NotesMissing here.now there.now numbers.old.items numbers.new.items) }
{
    for port in here.ports() {
        if !is_wired::<M>(there, port) {
            numbers.push(port.number)?;
        }
    }
    Ok(())
}

impl<'a, M: TellsApart> Rewiring<'a, M> {
    /// Finds where two wirings differ. `AllocError`: memory was wanted and refused.
    pub fn new(
        alloc: Global,
        from: &'a Wiring<M::Port>,
        to: &'a Wiring<M::Port>,
    ) -> Result<Self, AllocError>
        ensures from { IfOk result (λ rewiring. rewiring.from ≡ from.now) }
        ensures to { IfOk result (λ rewiring. rewiring.to ≡ to.now) }
    {
        let mut differing = Vec::new(alloc);
        note_missing::<M>(from, to, &mut differing)?;
        note_missing::<M>(to, from, &mut differing)?;
        Ok(Rewiring {
            from,
            to,
            differing,
        })
    }

    /// A settler with space for all ports of both wirings: each tree that goes from the one to the other can use it in turn.
    /// `AllocError`: memory was wanted and refused.
    pub fn settler(&self, alloc: Global) -> Result<Settler<M>, AllocError>
        ensures { IfOk result (HasSpaceForBoth self.now) }
    {
        let bridges = self.from.bridge_bound().max(self.to.bridge_bound());
        let lans = self.from.lan_bound().max(self.to.lan_bound());
        Settler::with_space(alloc, bridges, lans)
    }

    /// The wiring before.
    pub fn from(&self) -> &'a Wiring<M::Port>
        ensures { result.now ≡ self.now.from }
    {
        self.from
    }

    /// The wiring after.
    pub fn to(&self) -> &'a Wiring<M::Port>
        ensures { result.now ≡ self.now.to }
    {
        self.to
    }

    /// The numbers of the ports that are in one of the two and aren't the same in the other.
    pub fn differing(&self) -> &[PortNo]
        ensures { CoversDifferences self.now.from self.now.to result.now }
    {
        &self.differing
    }
}
