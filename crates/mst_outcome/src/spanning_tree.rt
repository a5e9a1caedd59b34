ghost use Rattle.std.specs.Prelude.{◌≡◌, ℕ, [], None};
ghost use Rattle.std.specs.Option.{option_map};
ghost use Rattle.mst_outcome.specs.Assignment.{vector_of, designated_of};
ghost use Rattle.mst_outcome.specs.Held.{IsHeld};
ghost use Rattle.mst_outcome.specs.Shared.{outcome_of, own_of};

use crate::outcome::Outcome;
use crate::own::Own;
use mst_ids::{BridgeNo, LanNo, PortNo};
use mst_topology::Bridges;
use mst_vector::Metric;
use std::alloc::Global;
use std::marker::Model;
use std::rc::Rc;

/// One spanning tree on a wiring that it shares with others: its bridges, the settings that ports have in it alone, and
/// the outcome, the vectors of its bridges and the designated ports of its LANs. The outcome is shared with the tree
/// of another network, where the tree is the same in both, and so are the settings where these are the same. It has at
/// most 1,024 bridges.
pub struct SpanningTree<M: Metric> {
    bridges: Bridges<M>,
    // None where no port has such settings.
    own: Option<Rc<Own<M::Port>>>,
    // None where no bridge was ever in the tree.
    outcome: Option<Rc<Outcome<M>>>,
    settlings: u64,
}

// By hand, so that a caller's check takes a drop as one call and not field by field.
impl<M: Metric> Drop for SpanningTree<M> {
    fn drop(self) {
        let SpanningTree {
            bridges: _,
            own: _,
            outcome: _,
            settlings: _,
        } = self;
    }
}

impl<M: Metric> Model for SpanningTree<M> {
    ghost use Rattle.std.specs.Option.{option_map};
    ghost use Rattle.mst_outcome.specs.Held.{Tree};
    ghost use Rattle.mst_outcome.specs.Shared.{outcome_of, own_of};

    ghost Value = { Tree M.Bridge M.Port M.Vector };

    ghost view = { λ s. record { bridges = s.bridges; own = own_of (option_map (λ r. r.value) s.own); outcome = outcome_of (option_map (λ r. r.value) s.outcome) s.settlings } };
}

impl<M: Metric> SpanningTree<M> {
    /// The tree of no bridges. It takes no memory.
    pub fn new(alloc: Global) -> Self
        ensures vectors { (n : ℕ) → vector_of result.outcome n ≡ None }
        ensures designated { (lan : ℕ) → designated_of result.outcome lan ≡ None }
        ensures settlings { result.outcome.settlings ≡ 0 }
        ensures held { IsHeld M.rules [] result }
    {
        SpanningTree {
            bridges: Bridges::new(alloc),
            own: None,
            outcome: None,
            settlings: 0,
        }
    }

    /// The tree of these parts, settled so often.
    pub fn of(
        bridges: Bridges<M>,
        own: Option<Rc<Own<M::Port>>>,
        outcome: Option<Rc<Outcome<M>>>,
        settlings: u64,
    ) -> Self
        ensures { result ≡ record { bridges = bridges; own = own_of (option_map (λ r. r.value) own); outcome = outcome_of (option_map (λ r. r.value) outcome) settlings } }
    {
        SpanningTree {
            bridges,
            own,
            outcome,
            settlings,
        }
    }

    /// The bridges.
    pub fn bridges(&self) -> &Bridges<M>
        ensures { result.now ≡ self.now.bridges }
    {
        &self.bridges
    }

    /// The settings that ports have in it alone, or nothing where no port has such settings.
    pub fn own(&self) -> &Option<Rc<Own<M::Port>>>
        ensures { own_of (option_map (λ r. r.value) result.now) ≡ self.now.own }
    {
        &self.own
    }

    /// What is settled, or nothing where no bridge was ever in the tree.
    pub fn outcome(&self) -> &Option<Rc<Outcome<M>>>
        ensures { outcome_of (option_map (λ r. r.value) result.now) self.now.outcome.settlings ≡ self.now.outcome }
    {
        &self.outcome
    }

    /// The settled vector of the bridge of that number, or nothing where there is no such bridge.
    pub fn vector(&self, bridge: BridgeNo) -> Option<M::Vector>
        ensures { result ≡ vector_of self.now.outcome bridge }
    {
        match &self.outcome {
            None => None,
            Some(outcome) => outcome.vector(bridge),
        }
    }

    /// The number of the LAN's designated port, or nothing where no port is on the LAN.
    pub fn designated(&self, lan: LanNo) -> Option<PortNo>
        ensures { result ≡ designated_of self.now.outcome lan }
    {
        match &self.outcome {
            None => None,
            Some(outcome) => outcome.designated(lan),
        }
    }

    /// How often a vector was written when the network of this tree took the place of the one before.
    pub fn settlings(&self) -> u64
        ensures { result ≡ self.now.outcome.settlings }
    {
        self.settlings
    }
}
