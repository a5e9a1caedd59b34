ghost use Rattle.std.specs.Prelude.{◌≡◌, ◌≢◌, ℕ, Some, true, false};
ghost use Rattle.mst_topology.specs.Places.{in_map};
ghost use Rattle.mst_topology.specs.Topology.{HasPort};
ghost use Rattle.mst_topology.specs.Settling.{Offers};
ghost use Rattle.mst_topology.specs.Repair.{is_above};
ghost use Rattle.mst_topology.specs.Effects.{LooksAnew, HasRightKey, KeysAreRight, IsUnconcerned, IsConcerned, IsLanOf};
ghost use Rattle.mst_progress.specs.Progress.{vector_of, vectors_with};
ghost use Rattle.mst_settle.specs.Mixed.{is_upto as is_upto_of, lower_by as lower_of_key, IsTaking, TakesIn};

use crate::looking::look_once;
use crate::queue::Queue;
use mst_ids::{BridgeNo, LanNo};
use mst_progress::Progress;
use mst_topology::{TreePort, key};
use mst_vector::Metric;

/// Whether there is a vector, and it is not above the other, where no vector is above each vector.
fn is_upto<M: Metric>(vector: Option<M::Vector>, bound: Option<M::Vector>) -> bool
    ensures { result ≡ is_upto_of M.rules.order vector bound }
{
    match (vector, bound) {
        (None, _) => false,
        (Some(_), None) => true,
        (Some(x), Some(y)) => !M::order(x, y).is_gt(),
    }
}

/// The lower of a bridge's vector and what is due, from its key.
fn lower_by<V: Copy>(key: Option<V>, stored: Option<V>) -> Option<V>
    ensures { result ≡ lower_of_key key stored }
{
    match key {
        None => stored,
        Some(lower) => Some(lower),
    }
}

impl<M: Metric> Queue<M> {
    /// Whether what a port was offered before, at most this high, may be the best that its bridge could take.
    fn was_due(
        &self,
        progress: &Progress<M>,
        port: &TreePort<M::Port>,
        written: BridgeNo,
        stored: Option<M::Vector>,
        lower: Option<M::Vector>,
    ) -> bool
        requires port { HasPort progress.now.topology port.now }
        requires lan { IsLanOf progress.now.topology written port.now.lan }
        requires taking { IsTaking M.rules progress.now.topology (vector_of progress.now) written stored (in_map self.now.former) self.now.keys }
        ensures { result ≡ false → (x : M.Vector) → Offers M.rules progress.now.topology (vectors_with (vector_of progress.now) written stored) port.now x → is_above M.rules.order (Some x) lower ≡ true }
    {
        let lan = port.lan;
        match self.former.get(lan.0) {
            None => true,
            Some(designated) => {
                let before = progress.offered_before(port, designated, written, stored);
                is_upto::<M>(before, lower)
            }
        }
    }

    /// Takes what a port of another bridge is offered now into its bridge's key.
    fn take_in_other(
        &mut self,
        progress: &Progress<M>,
        port: &TreePort<M::Port>,
        written: BridgeNo,
        stored: Option<M::Vector>,
    )
        requires port { HasPort progress.now.topology port.now }
        requires lan { IsLanOf progress.now.topology written port.now.lan }
        requires other { port.now.bridge ≢ written }
        requires taking { IsTaking M.rules progress.now.topology (vector_of progress.now) written stored (in_map self.old.former) self.old.keys }
        requires seen { KeysAreRight M.rules progress.now.topology (vector_of progress.now) self.old.looked self.old.keys }
        ensures taken { TakesIn M.rules progress.now.topology (vectors_with (vector_of progress.now) written stored) (vector_of progress.now) written self.old.looked_on self.old.keys self.new.looked_on self.new.keys (λ p. p ≡ port.now) }
        ensures seen { KeysAreRight M.rules progress.now.topology (vector_of progress.now) self.new.looked self.new.keys }
        ensures former { self.new.former ≡ self.old.former }
        ensures looked_on { self.new.looked_on ≡ self.old.looked_on }
    {
        let number = port.bridge;
        let Some(known) = self.keys.get(number.0) else {
            look_once::<M>(&mut self.keys, &mut self.looked, progress, number);
            return;
        };
        let vector = progress.vector(number);
        let lower = lower_by(known, vector);
        let now = progress.offered(port);
        if is_upto::<M>(now, lower) {
            self.keys.set(number.0, key::<M>(vector, now));
        } else if self.was_due(progress, port, written, stored, lower) {
            look_once::<M>(&mut self.keys, &mut self.looked, progress, number);
        }
    }

    /// Takes what a port is offered now into its bridge's key, if that is another bridge, which wasn't looked at in this round.
    fn take_in(
        &mut self,
        progress: &Progress<M>,
        port: &TreePort<M::Port>,
        written: BridgeNo,
        stored: Option<M::Vector>,
    )
        requires port { HasPort progress.now.topology port.now }
        requires lan { IsLanOf progress.now.topology written port.now.lan }
        requires taking { IsTaking M.rules progress.now.topology (vector_of progress.now) written stored (in_map self.old.former) self.old.keys }
        requires seen { KeysAreRight M.rules progress.now.topology (vector_of progress.now) self.old.looked self.old.keys }
        ensures taken { TakesIn M.rules progress.now.topology (vectors_with (vector_of progress.now) written stored) (vector_of progress.now) written self.old.looked_on self.old.keys self.new.looked_on self.new.keys (λ p. p ≡ port.now) }
        ensures seen { KeysAreRight M.rules progress.now.topology (vector_of progress.now) self.new.looked self.new.keys }
        ensures former { self.new.former ≡ self.old.former }
        ensures looked_on { self.new.looked_on ≡ self.old.looked_on }
    {
        let number = port.bridge;
        if number == written {
            return;
        }
        if !self.looked.has(number.0) {
            self.take_in_other(progress, port, written, stored);
        }
    }

    /// Takes what the ports on a LAN are offered now into the keys of their bridges.
    fn take_in_on(
        &mut self,
        progress: &Progress<M>,
        lan: LanNo,
        written: BridgeNo,
        stored: Option<M::Vector>,
    )
        requires lan { IsLanOf progress.now.topology written lan }
        requires taking { IsTaking M.rules progress.now.topology (vector_of progress.now) written stored (in_map self.old.former) self.old.keys }
        requires seen { KeysAreRight M.rules progress.now.topology (vector_of progress.now) self.old.looked self.old.keys }
        ensures taken { TakesIn M.rules progress.now.topology (vectors_with (vector_of progress.now) written stored) (vector_of progress.now) written self.old.looked_on self.old.keys self.new.looked_on self.new.keys (λ p. p.lan ≡ lan) }
        ensures seen { KeysAreRight M.rules progress.now.topology (vector_of progress.now) self.new.looked self.new.keys }
        ensures former { self.new.former ≡ self.old.former }
        ensures looked_on { self.new.looked_on ≡ self.old.looked_on }
    {
        let topology = progress.topology();
        let mut next = topology.last_on(lan);
        while let Some(place) = next {
            let port = topology.at(place);
            self.take_in(progress, &port, written, stored);
            next = topology.before_on(place);
        }
    }

    /// Takes what the ports on a LAN are offered now into the keys of their bridges, if it is another LAN than those before in this round.
    fn take_in_new(
        &mut self,
        progress: &Progress<M>,
        lan: LanNo,
        written: BridgeNo,
        stored: Option<M::Vector>,
    )
        requires lan { IsLanOf progress.now.topology written lan }
        requires taking { IsTaking M.rules progress.now.topology (vector_of progress.now) written stored (in_map self.old.former) self.old.keys }
        requires seen { KeysAreRight M.rules progress.now.topology (vector_of progress.now) self.old.looked self.old.keys }
        ensures taken { TakesIn M.rules progress.now.topology (vectors_with (vector_of progress.now) written stored) (vector_of progress.now) written self.old.looked_on self.old.keys self.new.looked_on self.new.keys (λ p. p.lan ≡ lan) }
        ensures seen { KeysAreRight M.rules progress.now.topology (vector_of progress.now) self.new.looked self.new.keys }
        ensures former { self.new.former ≡ self.old.former }
    {
        if !self.looked_on.has(lan.0) {
            self.take_in_on(progress, lan, written, stored);
            self.looked_on.put(lan.0);
        }
    }

    /// Takes what the ports on a port's LAN are offered now into the keys of their bridges, once in a round, if that port concerns them.
    fn take_in_along(
        &mut self,
        progress: &Progress<M>,
        port: &TreePort<M::Port>,
        written: BridgeNo,
        stored: Option<M::Vector>,
    )
        requires port { HasPort progress.now.topology port.now }
        requires lan { IsLanOf progress.now.topology written port.now.lan }
        requires taking { IsTaking M.rules progress.now.topology (vector_of progress.now) written stored (in_map self.old.former) self.old.keys }
        requires seen { KeysAreRight M.rules progress.now.topology (vector_of progress.now) self.old.looked self.old.keys }
        ensures taken { TakesIn M.rules progress.now.topology (vectors_with (vector_of progress.now) written stored) (vector_of progress.now) written self.old.looked_on self.old.keys self.new.looked_on self.new.keys (λ p. (p.lan ≡ port.now.lan) × (IsUnconcerned M.rules progress.now.topology (vector_of progress.now) stored port.now → ⊥)) }
        ensures seen { KeysAreRight M.rules progress.now.topology (vector_of progress.now) self.new.looked self.new.keys }
        ensures former { self.new.former ≡ self.old.former }
    {
        if progress.concerns(port, stored) {
            self.take_in_new(progress, port.lan, written, stored);
        }
    }

    /// Finds the keys of the bridges anew, each once, that a bridge concerns whose vector was written over another, or none:
    /// the keys were right before, and the designated ports of the bridge's LANs are noted as they were before.
    pub fn look_after(
        &mut self,
        progress: &Progress<M>,
        bridge: BridgeNo,
        stored: Option<M::Vector>,
    )
        requires taking { IsTaking M.rules progress.now.topology (vector_of progress.now) bridge stored (in_map self.old.former) self.old.keys }
        requires before { (n : ℕ) → n ≢ bridge → HasRightKey M.rules progress.now.topology (vectors_with (vector_of progress.now) bridge stored) self.old.keys n }
        requires own { HasRightKey M.rules progress.now.topology (vector_of progress.now) self.old.keys bridge }
        ensures { LooksAnew M.rules progress.now.topology (vector_of progress.now) self.old.keys self.new.keys (IsConcerned M.rules progress.now.topology (vector_of progress.now) stored bridge) }
    {
        self.looked_on.clear();
        self.looked.clear();
        let topology = progress.topology();
        let mut next = topology.last_of(bridge);
        while let Some(place) = next {
            let port = topology.at(place);
            self.take_in_along(progress, &port, bridge, stored);
            next = topology.before_of(place);
        }
    }
}
