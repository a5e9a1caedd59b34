ghost use Rattle.std.specs.Prelude.{◌≡◌, ◌≢◌, ℕ, ◌<◌, length, None};
ghost use Rattle.std.specs.Option.{ForSome};
ghost use Rattle.mst_topology.specs.Topology.{TreePort as TreePortOf, HasBridge, HasPort, IsTopology};
ghost use Rattle.mst_topology.specs.Wiring.{topology_of, settings_in as settings_of_port};
ghost use Rattle.mst_topology.specs.Chains.{IsAt, IsLast};

use crate::bridges::Bridges;
use crate::by_number::ByNumber;
use crate::wiring::{TreePort, Wiring};
use mst_ids::{BridgeNo, LanNo, PortNo};
use mst_vector::Metric;
use std::marker::Model;

/// The bridges and ports of one tree: the bridges that are in it, on a wiring that it shares with other trees. Those ports
/// take part in the tree whose bridge is in it. Some have other settings in this tree than the wiring says.
///
/// Bridges and ports have distinct numbers, bridges have distinct Bridge Identifiers, and those ports of one bridge that
/// take part distinct Port Identifiers (802.1Q-2022, 13.26.2 and 13.27.46). Costs are from 1 to 200,000,000.
#[derive(Drop)]
pub struct Topology<'a, M: Metric> {
    wiring: &'a Wiring<M::Port>,
    bridges: &'a Bridges<M>,
    own: &'a ByNumber<M::Port>,
}

impl<'a, M: Metric> Model for Topology<'a, M> {
    ghost use Rattle.std.specs.Prelude.{ℕ};
    ghost use Rattle.mst_topology.specs.Topology.{Topology as TopologyOf};
    ghost use Rattle.mst_topology.specs.Wiring.{topology_of};

    ghost Value = { TopologyOf ℕ ℕ ℕ M.Bridge M.Port };

    ghost view = { λ t. topology_of t.wiring.now t.bridges.now t.own.now };

    ghost use Rattle.mst_topology.specs.Topology.{IsTopology};

    ghost invariant = { λ t. IsTopology M.rules (topology_of t.wiring.now t.bridges.now t.own.now) };
}

/// The settings of a port in a tree: its own ones, if it has such there, and else those of the wiring.
fn settings_in<P: Copy>(own: &ByNumber<P>, port: &TreePort<P>) -> P
    ensures { result ≡ settings_of_port own.now port.now }
{
    match own.get(port.number.0) {
        None => port.settings,
        Some(settings) => settings,
    }
}

impl<'a, M: Metric> Topology<'a, M> {
    /// The topology of these bridges on a wiring, in which the ports of these numbers have settings of their own. It borrows
    /// all three, and takes no memory.
    pub fn new(
        wiring: &'a Wiring<M::Port>,
        bridges: &'a Bridges<M>,
        own: &'a ByNumber<M::Port>,
    ) -> Self
        requires { IsTopology M.rules (topology_of wiring.now bridges.now own.now) }
        ensures { result ≡ topology_of wiring.now bridges.now own.now }
    {
        Topology {
            wiring,
            bridges,
            own,
        }
    }

    /// The bridge of that number.
    pub fn bridge(&self, number: BridgeNo) -> Option<&M::Bridge>
        ensures some { ForSome result (λ b. HasBridge self.now number b.now) }
        ensures none { result ≡ None → (b : M.Bridge) → HasBridge self.now number b → ⊥ }
    {
        self.bridges.get(number)
    }

    /// The bridges with their numbers, in the order in which they were added.
    pub fn bridges(&self) -> &[(BridgeNo, M::Bridge)]
        ensures { result.now ≡ self.now.bridges }
    {
        self.bridges.as_slice()
    }

    /// How many ports there are.
    pub fn port_count(&self) -> usize
        ensures { result ≡ length self.now.ports }
    {
        self.wiring.ports().len()
    }

    /// Does nothing: its clause says that numbers and identifiers are distinct, that each port that takes part has its
    /// bridge in the tree, and that costs are in range.
    pub fn known(&self)
        ensures { IsTopology M.rules self.now }
    {
        let _ports = self.wiring.ports().len();
    }

    /// The port at a place.
    pub fn at(&self, place: usize) -> TreePort<M::Port>
        requires { place < length self.now.ports }
        ensures { IsAt self.now.ports place result }
    {
        let port = &self.wiring.ports()[place];
        TreePort {
            number: port.number,
            bridge: port.bridge,
            lan: port.lan,
            settings: settings_in(self.own, port),
            is_part: port.is_part && self.bridges.has(port.bridge),
            is_restricted: port.is_restricted,
        }
    }

    /// The port of that number.
    pub fn port(&self, number: PortNo) -> Option<TreePort<M::Port>>
        ensures some { ForSome result (λ p. HasPort self.now p × (p.number ≡ number)) }
        ensures none { result ≡ None → (p : TreePortOf ℕ ℕ ℕ M.Port) → HasPort self.now p → p.number ≢ number }
    {
        let place = self.wiring.place(number)?;
        Some(self.at(place))
    }

    /// The place of the last port on the LAN.
    pub fn last_on(&self, lan: LanNo) -> Option<usize>
        ensures { IsLast self.now.ports (λ p. p.lan ≡ lan) (length self.now.ports) result }
    {
        self.wiring.last_on(lan)
    }

    /// The place of the last port of the bridge.
    pub fn last_of(&self, bridge: BridgeNo) -> Option<usize>
        ensures { IsLast self.now.ports (λ p. p.bridge ≡ bridge) (length self.now.ports) result }
    {
        self.wiring.last_of(bridge)
    }

    /// The place of the port before this one on the same LAN.
    pub fn before_on(&self, place: usize) -> Option<usize>
        requires { place < length self.now.ports }
        ensures { (p : TreePortOf ℕ ℕ ℕ M.Port) → IsAt self.now.ports place p → IsLast self.now.ports (λ q. q.lan ≡ p.lan) place result }
    {
        self.wiring.before_on(place)
    }

    /// The place of the port before this one of the same bridge.
    pub fn before_of(&self, place: usize) -> Option<usize>
        requires { place < length self.now.ports }
        ensures { (p : TreePortOf ℕ ℕ ℕ M.Port) → IsAt self.now.ports place p → IsLast self.now.ports (λ q. q.bridge ≡ p.bridge) place result }
    {
        self.wiring.before_of(place)
    }
}
