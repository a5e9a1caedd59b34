ghost use Rattle.std.specs.Prelude.{◌≡◌, ℕ, [], None};
ghost use Rattle.mst_outcome.specs.Assignment.{vector_of, designated_of};

use mst_ids::{BridgeNo, LanNo, PortNo};
use mst_topology::ByNumber;
use mst_vector::Metric;
use std::alloc::Global;
use std::marker::Model;

/// The outcome of one tree: the settled vectors of its bridges, and the designated ports of its LANs. It has no space for
/// touches: a settler takes it over to repair it.
#[derive(Drop)]
pub struct Outcome<M: Metric> {
    vectors: ByNumber<Option<M::Vector>>,
    ports: ByNumber<Option<PortNo>>,
}

impl<M: Metric> Model for Outcome<M> {
    ghost use Rattle.std.specs.Prelude.{[]};
    ghost use Rattle.mst_outcome.specs.Assignment.{Assignment};

    ghost Value = { Assignment M.Vector };

    ghost view = { λ o. record { bridges = o.vectors; lans = o.ports; touched_bridges = []; touched_lans = []; settlings = 0 } };
}

impl<M: Metric> Outcome<M> {
    /// The outcome of no bridges. It takes no memory.
    pub fn new(alloc: Global) -> Self
        ensures vectors { (n : ℕ) → vector_of result n ≡ None }
        ensures designated { (lan : ℕ) → designated_of result lan ≡ None }
    {
        Outcome {
            vectors: ByNumber::new(alloc),
            ports: ByNumber::new(alloc),
        }
    }

    /// The outcome of these vectors and designated ports.
    pub fn of(vectors: ByNumber<Option<M::Vector>>, ports: ByNumber<Option<PortNo>>) -> Self
        ensures { result ≡ record { bridges = vectors; lans = ports; touched_bridges = []; touched_lans = []; settlings = 0 } }
    {
        Outcome { vectors, ports }
    }

    /// The vectors of all bridges that have a place, by the bridges' numbers.
    pub fn vectors(&self) -> &ByNumber<Option<M::Vector>>
        ensures { result.now ≡ self.now.bridges }
    {
        &self.vectors
    }

    /// The designated ports of all LANs that have a place, by the LANs' numbers.
    pub fn ports(&self) -> &ByNumber<Option<PortNo>>
        ensures { result.now ≡ self.now.lans }
    {
        &self.ports
    }

    /// The settled vector of the bridge of that number, or nothing where there is no such bridge.
    pub fn vector(&self, bridge: BridgeNo) -> Option<M::Vector>
        ensures { result ≡ vector_of self.now bridge }
    {
        self.vectors.get(bridge.0).flatten()
    }

    /// The number of the LAN's designated port, or nothing where no port is on the LAN.
    pub fn designated(&self, lan: LanNo) -> Option<PortNo>
        ensures { result ≡ designated_of self.now lan }
    {
        self.ports.get(lan.0).flatten()
    }
}
