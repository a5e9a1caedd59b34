ghost use Rattle.std.specs.Prelude.{◌≡◌, ◌≢◌, ℕ, [], Bool, Option, Some, true, false};
ghost use Rattle.std.specs.Map.{keys_of};
ghost use Rattle.std.specs.List.{Contains};
ghost use Rattle.mst_topology.specs.Places.{option_at, HasRoomAt};
ghost use Rattle.mst_topology.specs.Slots.{HasRoom};
ghost use Rattle.mst_topology.specs.Topology.{TreePort as TreePortOf, HasPort};
ghost use Rattle.mst_topology.specs.Settled.{IsDesignatedVector};
ghost use Rattle.mst_topology.specs.declared.heard.Heard.{Heard as HeardOf};
ghost use Rattle.mst_topology.specs.Settling.{IsLowest, Speaks, port_of as port_of_best};
ghost use Rattle.mst_topology.specs.Repair.{IsWritten};
ghost use Rattle.mst_topology.specs.Effects.{HearsAnew, HearsPort, LansAreRight, IsMarked, IsLanOf, IsLanOfMarked, IsLeft, IsLowerPort, IsPortOf};

use crate::best::{lower, port_of};
use crate::by_number::ByNumber;
use crate::heard::Heard;
use crate::messages::designated_vector;
use crate::seen::Seen;
use crate::slots::Slots;
use crate::topology::Topology;
use crate::wiring::TreePort;
use mst_ids::{BridgeNo, LanNo, PortNo};
use mst_vector::Metric;
use std::alloc::{AllocError, Global};

/// The best of what the ports on a LAN say, with its port.
fn least_heard<M: Metric>(
    topology: &Topology<M>,
    vectors: &ByNumber<Option<M::Vector>>,
    lan: LanNo,
) -> Option<Heard<M::Vector>>
    ensures { IsLowest M.rules.order (Speaks M.rules topology.now (option_at vectors.now) lan) result }
{
    topology.known();
    let mut best = None;
    let mut next = topology.last_on(lan);
    while let Some(place) = next {
        let port = topology.at(place);
        let message = designated_vector::<M>(topology, vectors, &port);
        best = lower::<M>(best, port.number, message);
        next = topology.before_on(place);
    }
    best
}

/// Whether the port of that number, if there is one, is the bridge's.
fn is_port_of<M: Metric>(topology: &Topology<M>, number: Option<PortNo>, bridge: BridgeNo) -> bool
    ensures yes { result ≡ true → IsPortOf topology.now bridge number }
    ensures no { result ≡ false → IsPortOf topology.now bridge number → ⊥ }
{
    topology.known();
    let Some(number) = number else {
        return false;
    };
    match topology.port(number) {
        None => false,
        Some(port) => port.bridge == bridge,
    }
}

/// What the port of that number says, with the number, if there is such a port and it says anything.
fn heard_from<M: Metric>(
    topology: &Topology<M>,
    vectors: &ByNumber<Option<M::Vector>>,
    number: Option<PortNo>,
) -> Option<Heard<M::Vector>>
    ensures { IsLowest M.rules.order (λ q x. (number ≡ Some q.number) × IsDesignatedVector M.rules topology.now (option_at vectors.now) q x) result }
{
    topology.known();
    let port = topology.port(number?)?;
    let message = designated_vector::<M>(topology, vectors, &port)?;
    Some(Heard {
        port: port.number,
        message,
    })
}

/// The lower of what the port of that number and another port say, with its port.
fn lower_heard<M: Metric>(
    topology: &Topology<M>,
    vectors: &ByNumber<Option<M::Vector>>,
    number: Option<PortNo>,
    port: &TreePort<M::Port>,
) -> Option<Heard<M::Vector>>
    requires { HasPort topology.now port.now }
    ensures { IsLowerPort M.rules topology.now (option_at vectors.now) number port.now result }
{
    topology.known();
    let best = heard_from::<M>(topology, vectors, number);
    let message = designated_vector::<M>(topology, vectors, port);
    lower::<M>(best, port.number, message)
}

/// Finds the designated port of a LAN anew.
fn hear<M: Metric>(
    ports: &mut ByNumber<Option<PortNo>>,
    topology: &Topology<M>,
    vectors: &ByNumber<Option<M::Vector>>,
    lan: LanNo,
)
    requires { HasRoomAt ports.old lan }
    ensures heard { HearsAnew M.rules topology.now (option_at vectors.now) (option_at ports.old) (option_at ports.new) (λ k. k ≡ lan) }
    ensures others { (k : ℕ) → k ≢ lan → option_at ports.new k ≡ option_at ports.old k }
    ensures keys { keys_of ports.new ≡ keys_of ports.old }
{
    let port = port_of(least_heard::<M>(topology, vectors, lan));
    ports.write_at(lan.0, port);
}

/// Compares what a port says with what the designated port of its LAN says, and makes the one that says less the designated one.
fn take_lower<M: Metric>(
    ports: &mut ByNumber<Option<PortNo>>,
    topology: &Topology<M>,
    vectors: &ByNumber<Option<M::Vector>>,
    port: &TreePort<M::Port>,
)
    requires port { HasPort topology.now port.now }
    requires room { HasRoomAt ports.old port.now.lan }
    ensures lower { (h : Option (HeardOf M.Vector)) × IsLowerPort M.rules topology.now (option_at vectors.now) (option_at ports.old port.now.lan) port.now h × IsWritten (option_at ports.old) port.now.lan (port_of_best h) (option_at ports.new) }
    ensures keys { keys_of ports.new ≡ keys_of ports.old }
{
    let standing = ports.get(port.lan.0).flatten();
    let lower = port_of(lower_heard::<M>(topology, vectors, standing, port));
    ports.write_at(port.lan.0, lower);
}

/// Finds the designated port of a LAN, if it is marked, anew.
fn hear_if_marked<M: Metric>(
    ports: &mut ByNumber<Option<PortNo>>,
    topology: &Topology<M>,
    vectors: &ByNumber<Option<M::Vector>>,
    entry: (usize, bool),
)
    requires { HasRoomAt ports.old entry.0 }
    ensures heard { HearsAnew M.rules topology.now (option_at vectors.now) (option_at ports.old) (option_at ports.new) (IsMarked entry) }
    ensures keys { keys_of ports.new ≡ keys_of ports.old }
{
    if entry.1 {
        hear::<M>(ports, topology, vectors, LanNo(entry.0));
    }
}

/// The designated ports of the LANs of one tree, and the LANs that were heard in this round.
#[derive(Drop)]
pub struct Designations {
    pub ports: ByNumber<Option<PortNo>>,
    pub heard: Seen,
}

impl Designations {
    /// No LAN has a designated port, and there is no room.
    pub fn new(alloc: Global) -> Self
        ensures { result.ports ≡ [] }
    {
        Designations {
            ports: ByNumber::new(alloc),
            heard: Seen::new(alloc),
        }
    }

    /// Finds the designated port of a LAN anew, if it wasn't heard in this round.
    fn hear_once<M: Metric>(
        &mut self,
        topology: &Topology<M>,
        vectors: &ByNumber<Option<M::Vector>>,
        lan: LanNo,
    )
        requires room { HasRoomAt self.old.ports lan }
        requires seen { LansAreRight M.rules topology.now (option_at vectors.now) self.old.heard (option_at self.old.ports) }
        ensures heard { HearsAnew M.rules topology.now (option_at vectors.now) (option_at self.old.ports) (option_at self.new.ports) (λ k. k ≡ lan) }
        ensures others { (k : ℕ) → k ≢ lan → option_at self.new.ports k ≡ option_at self.old.ports k }
        ensures keys { keys_of self.new.ports ≡ keys_of self.old.ports }
        ensures seen { LansAreRight M.rules topology.now (option_at vectors.now) self.new.heard (option_at self.new.ports) }
    {
        if !self.heard.has(lan.0) {
            hear::<M>(&mut self.ports, topology, vectors, lan);
            self.heard.put(lan.0);
        }
    }

    /// Finds the designated ports of a bridge's LANs anew that weren't heard in this round.
    fn hear_around_once<M: Metric>(
        &mut self,
        topology: &Topology<M>,
        vectors: &ByNumber<Option<M::Vector>>,
        bridge: BridgeNo,
    )
        requires rooms { (p : TreePortOf ℕ ℕ ℕ M.Port) → HasPort topology.now p → HasRoomAt self.old.ports p.lan }
        requires seen { LansAreRight M.rules topology.now (option_at vectors.now) self.old.heard (option_at self.old.ports) }
        ensures heard { HearsAnew M.rules topology.now (option_at vectors.now) (option_at self.old.ports) (option_at self.new.ports) (IsLanOf topology.now bridge) }
        ensures keys { keys_of self.new.ports ≡ keys_of self.old.ports }
        ensures seen { LansAreRight M.rules topology.now (option_at vectors.now) self.new.heard (option_at self.new.ports) }
    {
        let mut next = topology.last_of(bridge);
        while let Some(place) = next {
            let port = topology.at(place);
            self.hear_once::<M>(topology, vectors, port.lan);
            next = topology.before_of(place);
        }
    }

    /// Finds the designated port of a port's LAN anew after a write at its bridge: it is the one that stands there, or this
    /// port, if the one that stands is another bridge's. Else all ports on the LAN are heard, once in a round.
    fn hear_port<M: Metric>(
        &mut self,
        topology: &Topology<M>,
        vectors: &ByNumber<Option<M::Vector>>,
        port: &TreePort<M::Port>,
    )
        requires port { HasPort topology.now port.now }
        requires room { HasRoomAt self.old.ports port.now.lan }
        requires seen { LansAreRight M.rules topology.now (option_at vectors.now) self.old.heard (option_at self.old.ports) }
        ensures heard { HearsPort M.rules topology.now (option_at vectors.now) port.now (option_at self.old.ports) (option_at self.new.ports) }
        ensures keys { keys_of self.new.ports ≡ keys_of self.old.ports }
        ensures seen { LansAreRight M.rules topology.now (option_at vectors.now) self.new.heard (option_at self.new.ports) }
    {
        topology.known();
        let standing = self.ports.get(port.lan.0).flatten();
        if is_port_of::<M>(topology, standing, port.bridge) {
            self.hear_once::<M>(topology, vectors, port.lan);
        } else {
            take_lower::<M>(&mut self.ports, topology, vectors, port);
        }
    }

    /// Finds the designated ports of a bridge's LANs anew after a write of its vector, where they were right before: what other
    /// bridges say stays, so on each LAN the bridge's own ports are compared with the one that stands.
    pub fn hear_around<M: Metric>(
        &mut self,
        topology: &Topology<M>,
        vectors: &ByNumber<Option<M::Vector>>,
        bridge: BridgeNo,
    )
        requires rooms { (p : TreePortOf ℕ ℕ ℕ M.Port) → HasPort topology.now p → HasRoomAt self.old.ports p.lan }
        requires left { (lan : ℕ) → IsLeft M.rules topology.now (option_at vectors.now) bridge lan (option_at self.old.ports lan) }
        ensures heard { HearsAnew M.rules topology.now (option_at vectors.now) (option_at self.old.ports) (option_at self.new.ports) (IsLanOf topology.now bridge) }
        ensures keys { keys_of self.new.ports ≡ keys_of self.old.ports }
    {
        topology.known();
        self.heard.clear();
        let mut next = topology.last_of(bridge);
        while let Some(place) = next {
            let port = topology.at(place);
            self.hear_port::<M>(topology, vectors, &port);
            next = topology.before_of(place);
        }
    }

    /// Finds the designated ports of the marked LANs anew.
    pub fn hear_marked<M: Metric>(
        &mut self,
        topology: &Topology<M>,
        vectors: &ByNumber<Option<M::Vector>>,
        lans: &Slots<bool>,
    )
        requires { (k : ℕ) → HasRoom lans.now k → HasRoomAt self.old.ports k }
        ensures heard { HearsAnew M.rules topology.now (option_at vectors.now) (option_at self.old.ports) (option_at self.new.ports) (λ k. (e : ℕ × Bool) × Contains lans.now e × IsMarked e k) }
        ensures keys { keys_of self.new.ports ≡ keys_of self.old.ports }
    {
        for entry in lans.entries() {
            hear_if_marked::<M>(&mut self.ports, topology, vectors, *entry);
        }
    }

    /// Finds the designated ports of the LANs of a bridge, if it is marked, anew.
    fn hear_around_if_marked<M: Metric>(
        &mut self,
        topology: &Topology<M>,
        vectors: &ByNumber<Option<M::Vector>>,
        entry: (usize, bool),
    )
        requires rooms { (p : TreePortOf ℕ ℕ ℕ M.Port) → HasPort topology.now p → HasRoomAt self.old.ports p.lan }
        requires seen { LansAreRight M.rules topology.now (option_at vectors.now) self.old.heard (option_at self.old.ports) }
        ensures heard { HearsAnew M.rules topology.now (option_at vectors.now) (option_at self.old.ports) (option_at self.new.ports) (IsLanOfMarked topology.now entry) }
        ensures keys { keys_of self.new.ports ≡ keys_of self.old.ports }
        ensures seen { LansAreRight M.rules topology.now (option_at vectors.now) self.new.heard (option_at self.new.ports) }
    {
        if entry.1 {
            self.hear_around_once::<M>(topology, vectors, BridgeNo(entry.0));
        }
    }

    /// Finds the designated ports of the LANs of marked bridges anew, each once.
    pub fn hear_around_marked<M: Metric>(
        &mut self,
        topology: &Topology<M>,
        vectors: &ByNumber<Option<M::Vector>>,
        bridges: &Slots<bool>,
    )
        requires { (p : TreePortOf ℕ ℕ ℕ M.Port) → HasPort topology.now p → HasRoomAt self.old.ports p.lan }
        ensures heard { HearsAnew M.rules topology.now (option_at vectors.now) (option_at self.old.ports) (option_at self.new.ports) (λ k. (e : ℕ × Bool) × Contains bridges.now e × IsLanOfMarked topology.now e k) }
        ensures keys { keys_of self.new.ports ≡ keys_of self.old.ports }
    {
        self.heard.clear();
        for entry in bridges.entries() {
            self.hear_around_if_marked::<M>(topology, vectors, *entry);
        }
    }
}
