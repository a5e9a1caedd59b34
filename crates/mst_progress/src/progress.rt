ghost use Rattle.std.specs.Prelude.{◌≡◌, ℕ, ◌^◌, ◌≤◌, Option, Some, None, false};
ghost use Rattle.std.specs.Option.{ForSome};
ghost use Rattle.mst_topology.specs.Places.{option_at};
ghost use Rattle.mst_topology.specs.Topology.{TreePort as TreePortOf, HasPort};
ghost use Rattle.mst_topology.specs.Settled.{Designates, IsSilent, IsDesignated};
ghost use Rattle.mst_topology.specs.Effects.{IsUnconcerned};
ghost use Rattle.mst_topology.specs.Settling.{IsLowest, Offers, OffersOf};
ghost use Rattle.mst_topology.specs.Repair.{IsDue, key_of};
ghost use Rattle.mst_progress.specs.Progress.{IsProgress, vector_of, vectors_with};

use mst_ids::{BridgeNo, LanNo, PortNo};
use mst_topology::{
    ByNumber, Heard, Topology, TreePort, designated_vector, designated_vector_with, key, lower,
};
use mst_vector::Metric;
use std::marker::Model;

/// The vector of a bridge, if another bridge, or this one, had this vector.
fn vector_with<V: Copy>(
    vectors: &ByNumber<Option<V>>,
    bridge: BridgeNo,
    stored: Option<V>,
    number: BridgeNo,
) -> Option<V>
    ensures { result ≡ vectors_with (option_at vectors.now) bridge stored number }
{
    if number == bridge {
        stored
    } else {
        vectors.get(number.0).flatten()
    }
}

/// A topology, the vectors of its bridges so far, and the designated ports of its LANs by these: what is
/// due at a bridge follows from them.
#[derive(Drop)]
pub struct Progress<'t, 'w, 's, M: Metric> {
    topology: &'t Topology<'w, M>,
    vectors: &'s ByNumber<Option<M::Vector>>,
    ports: &'s ByNumber<Option<PortNo>>,
}

impl<'t, 'w, 's, M: Metric> Model for Progress<'t, 'w, 's, M> {
    ghost use Rattle.mst_topology.specs.Places.{option_at};
    ghost use Rattle.mst_progress.specs.Progress.{Progress as ProgressOf, IsProgress};

    ghost Value = { ProgressOf M.Bridge M.Port M.Vector };

    ghost view = { λ s. record { topology = s.topology.now; vectors = s.vectors.now } };

    ghost invariant = { λ s. IsProgress M.rules s.topology.now (option_at s.vectors.now) (option_at s.ports.now) };
}

impl<'t, 'w, 's, M: Metric> Progress<'t, 'w, 's, M> {
    /// These vectors and designated ports in a topology. It borrows all three, and takes no memory.
    pub fn new(
        topology: &'t Topology<'w, M>,
        vectors: &'s ByNumber<Option<M::Vector>>,
        ports: &'s ByNumber<Option<PortNo>>,
    ) -> Self
        requires { IsProgress M.rules topology.now (option_at vectors.now) (option_at ports.now) }
        ensures { result ≡ record { topology = topology.now; vectors = vectors.now } }
    {
        Progress {
            topology,
            vectors,
            ports,
        }
    }

    /// The topology.
    pub fn topology(&self) -> &Topology<'w, M>
        ensures { result.now ≡ self.now.topology }
    {
        self.topology
    }

    /// The LAN's designated port with what it says.
    fn best_on(&self, lan: LanNo) -> Option<Heard<M::Vector>>
        ensures some { ForSome result (λ h. (p : TreePortOf ℕ ℕ ℕ M.Port) × (p.number ≡ h.port) × Designates M.rules self.now.topology (vector_of self.now) lan p h.message) }
        ensures none { result ≡ None → IsSilent M.rules self.now.topology (vector_of self.now) lan }
    {
        let designated = self.ports.get(lan.0).flatten()?;
        let from = self.topology.port(designated)?;
        let message = designated_vector::<M>(self.topology, self.vectors, &from)?;
        Some(Heard {
            port: designated,
            message,
        })
    }

    /// Whether what a port says, or said when its bridge had this vector, may be the best on its LAN.
    pub fn concerns(&self, port: &TreePort<M::Port>, stored: Option<M::Vector>) -> bool
        requires { HasPort self.now.topology port.now }
        ensures { result ≡ false → IsUnconcerned M.rules self.now.topology (vector_of self.now) stored port.now }
    {
        let before = designated_vector_with::<M>(self.topology, stored, port);
        match self.best_on(port.lan) {
            None => before.is_some(),
            Some(best) => {
                if best.port == port.number {
                    return true;
                }
                match before {
                    None => false,
                    Some(message) => M::order(best.message, message).is_gt(),
                }
            }
        }
    }

    /// The vector of a bridge.
    pub fn vector(&self, bridge: BridgeNo) -> Option<M::Vector>
        ensures { result ≡ vector_of self.now bridge }
    {
        self.vectors.get(bridge.0).flatten()
    }

    /// The root path priority vector of a bridge at one of its ports, if another bridge is heard there.
    pub fn offered(&self, port: &TreePort<M::Port>) -> Option<M::Vector>
        requires { HasPort self.now.topology port.now }
        ensures some { ForSome result (λ x. Offers M.rules self.now.topology (vector_of self.now) port.now x) }
        ensures none { result ≡ None → (x : M.Vector) → Offers M.rules self.now.topology (vector_of self.now) port.now x → ⊥ }
    {
        let is_restricted = port.is_restricted;
        if !port.is_part || is_restricted {
            return None;
        }
        let lan = port.lan;
        let designated = self.ports.get(lan.0).flatten()?;
        let from = self.topology.port(designated)?;
        if from.bridge == port.bridge {
            return None;
        }
        let message = designated_vector::<M>(self.topology, self.vectors, &from)?;
        let bridge = self.topology.bridge(port.bridge)?;
        let sender = self.topology.bridge(from.bridge)?;
        Some(M::root_path_vector(message, sender, bridge, &port.settings))
    }

    /// The root path priority vector of a bridge at one of its ports, if another bridge was heard there: when the
    /// LAN had this designated port, and a bridge this vector.
    pub fn offered_before(
        &self,
        port: &TreePort<M::Port>,
        designated: Option<PortNo>,
        written: BridgeNo,
        stored: Option<M::Vector>,
    ) -> Option<M::Vector>
        requires port { HasPort self.now.topology port.now }
        requires designated { IsDesignated M.rules self.now.topology (vectors_with (vector_of self.now) written stored) port.now.lan designated }
        requires cost { (x : M.Vector) → stored ≡ Some x → M.rules.cost x ≤ 2 ^ 62 }
        ensures some { ForSome result (λ x. Offers M.rules self.now.topology (vectors_with (vector_of self.now) written stored) port.now x) }
        ensures none { result ≡ None → (x : M.Vector) → Offers M.rules self.now.topology (vectors_with (vector_of self.now) written stored) port.now x → ⊥ }
    {
        if !port.is_part || port.is_restricted {
            return None;
        }
        let designated = designated?;
        let from = self.topology.port(designated)?;
        if from.bridge == port.bridge {
            return None;
        }
        let root = vector_with(self.vectors, written, stored, from.bridge);
        let message = designated_vector_with::<M>(self.topology, root, &from)?;
        let receiver = self.topology.bridge(port.bridge)?;
        let sender = self.topology.bridge(from.bridge)?;
        Some(M::root_path_vector(message, sender, receiver, &port.settings))
    }

    /// The best root path priority vector of a bridge, with its port.
    fn least_offered(&self, number: BridgeNo) -> Option<Heard<M::Vector>>
        ensures { IsLowest M.rules.order (OffersOf M.rules self.now.topology (vector_of self.now) number) result }
    {
        let topology = self.topology;
        let mut best = None;
        let mut next = topology.last_of(number);
        while let Some(place) = next {
            let port = topology.at(place);
            best = lower::<M>(best, port.number, self.offered(&port));
            next = topology.before_of(place);
        }
        best
    }

    /// What is due at a bridge: the best that it can take, or nothing where there is no such bridge.
    fn due(&self, number: BridgeNo) -> Option<M::Vector>
        ensures { IsDue M.rules self.now.topology (vector_of self.now) number result }
    {
        let bridge_vector = M::bridge_vector(self.topology.bridge(number)?);
        match self.least_offered(number) {
            None => Some(bridge_vector),
            Some(best) => {
                if M::order(bridge_vector, best.message).is_gt() {
                    Some(best.message)
                } else {
                    Some(bridge_vector)
                }
            }
        }
    }

    /// The key of a bridge: the lower of its vector and what is due, or none where they are the same.
    pub fn key(&self, bridge: BridgeNo) -> Option<M::Vector>
        ensures { (o : Option M.Vector) → IsDue M.rules self.now.topology (vector_of self.now) bridge o → result ≡ key_of M.rules.order (vector_of self.now bridge) o }
    {
        let due = self.due(bridge);
        let stored = self.vectors.get(bridge.0).flatten();
        key::<M>(stored, due)
    }
}
