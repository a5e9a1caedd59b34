ghost use Rattle.std.specs.Prelude.{◌≡◌, ◌≢◌, ℕ, ◌<◌, ◌∷◌, ◌++◌, [], length, None, OnOk, OnErr};
ghost use Rattle.std.specs.List.{Contains};
ghost use Rattle.std.specs.Option.{ForSome};
ghost use Rattle.mst_topology.specs.Topology.{TreePort as TreePortOf};
ghost use Rattle.mst_topology.specs.Chains.{IsAt, IsLast};

use crate::by_number::ByNumber;
use crate::link::Link;
use mst_ids::{BridgeNo, LanNo, PortNo};
use std::alloc::{AllocError, Global};
use std::marker::Model;

/// A port under the numbers of its bridge and its LAN, with what a tree has to know of it.
#[derive(Drop)]
pub struct TreePort<P> {
    /// The port's number.
    pub number: PortNo,
    /// The number of the port's bridge.
    pub bridge: BridgeNo,
    /// The number of the LAN that the port is on.
    pub lan: LanNo,
    /// What the tree has to know of the port.
    pub settings: P,
    /// Whether the port takes part in the tree: others neither speak nor hear.
    pub is_part: bool,
    /// Whether the port's role is restricted (restrictedRole of 802.1Q-2022, 13.27): then its bridge
    /// makes no root path priority vector there.
    pub is_restricted: bool,
}

impl<P> Model for TreePort<P> {
    ghost use Rattle.std.specs.Prelude.{ℕ};
    ghost use Rattle.mst_topology.specs.Topology.{TreePort as TreePortOf};

    ghost Value = { TreePortOf ℕ ℕ ℕ P };

    ghost view = { λ p. record { number = p.number; bridge = p.bridge; lan = p.lan; settings = p.settings; is_part = p.is_part; is_restricted = p.is_restricted } };
}

/// The ports of a network, each on its bridge and its LAN: they are found by number, and those on one LAN or of one
/// bridge one after the other. The trees of the network share it.
#[derive(Drop)]
pub struct Wiring<P> {
    ports: Vec<TreePort<P>>,
    places: ByNumber<usize>,
    links: Vec<Link>,
    last_on: ByNumber<Option<usize>>,
    last_of: ByNumber<Option<usize>>,
}

impl<P> Model for Wiring<P> {
    ghost use Rattle.std.specs.Prelude.{ℕ, List};
    ghost use Rattle.mst_topology.specs.Topology.{TreePort as TreePortOf};

    ghost Value = { List (TreePortOf ℕ ℕ ℕ P) };

    ghost view = { λ w. w.ports.items };

    ghost use Rattle.mst_topology.specs.Places.{in_map, option_at};
    ghost use Rattle.mst_topology.specs.Chains.{IsWired};

    ghost invariant = { λ w. IsWired w.ports.items (in_map w.places) (option_at w.last_on) (option_at w.last_of) w.links.items };
}

impl<P: Copy> Wiring<P> {
    /// The wiring of no ports. It takes no memory.
    pub fn new(alloc: Global) -> Self
        ensures { result ≡ [] }
    {
        Wiring {
            ports: Vec::new(alloc),
            places: ByNumber::new(alloc),
            links: Vec::new(alloc),
            last_on: ByNumber::new(alloc),
            last_of: ByNumber::new(alloc),
        }
    }

    /// Adds a port whose number is new. `AllocError`: memory was wanted and refused, and nothing changes.
    pub fn add(&mut self, port: TreePort<P>) -> Result<(), AllocError>
        requires { (p : TreePortOf ℕ ℕ ℕ P) → Contains self.old p → p.number ≢ port.number }
        ensures ok { OnOk result (self.new ≡ self.old ++ port ∷ []) }
        ensures err { OnErr result (self.new ≡ self.old) }
    {
        let place = self.ports.len();
        let lan = port.lan;
        let bridge = port.bridge;
        let number = port.number;
        self.ports.reserve(1)?;
        self.links.reserve(1)?;
        self.last_on.make_room(lan.0, None)?;
        self.last_of.make_room(bridge.0, None)?;
        self.places.insert(number.0, place)?;
        self.links.push_reserved(Link {
            on_lan: self.last_on.get(lan.0).flatten(),
            of_bridge: self.last_of.get(bridge.0).flatten(),
        });
        self.last_on.write_at(lan.0, Some(place));
        self.last_of.write_at(bridge.0, Some(place));
        self.ports.push_reserved(port);
        Ok(())
    }

    /// The ports, in the order in which they were added.
    pub fn ports(&self) -> &[TreePort<P>]
        ensures { result.now ≡ self.now }
    {
        &self.ports
    }

    /// The place of the port of that number.
    pub fn place(&self, number: PortNo) -> Option<usize>
        ensures some { ForSome result (λ k. (p : TreePortOf ℕ ℕ ℕ P) × IsAt self.now k p × (p.number ≡ number)) }
        ensures none { result ≡ None → (p : TreePortOf ℕ ℕ ℕ P) → Contains self.now p → p.number ≢ number }
    {
        self.places.get(number.0)
    }

    /// The place of the last port on the LAN.
    pub fn last_on(&self, lan: LanNo) -> Option<usize>
        ensures { IsLast self.now (λ p. p.lan ≡ lan) (length self.now) result }
    {
        self.last_on.get(lan.0).flatten()
    }

    /// A number that is above those of the LANs of all ports.
    pub fn lan_bound(&self) -> usize
        ensures { (p : TreePortOf ℕ ℕ ℕ P) → Contains self.now p → p.lan < result }
    {
        self.last_on.bound()
    }

    /// A number that is above those of the bridges of all ports.
    pub fn bridge_bound(&self) -> usize
        ensures { (p : TreePortOf ℕ ℕ ℕ P) → Contains self.now p → p.bridge < result }
    {
        self.last_of.bound()
    }

    /// The place of the last port of the bridge.
    pub fn last_of(&self, bridge: BridgeNo) -> Option<usize>
        ensures { IsLast self.now (λ p. p.bridge ≡ bridge) (length self.now) result }
    {
        self.last_of.get(bridge.0).flatten()
    }

    /// The place of the port before this one on the same LAN.
    pub fn before_on(&self, place: usize) -> Option<usize>
        requires { place < length self.now }
        ensures { (p : TreePortOf ℕ ℕ ℕ P) → IsAt self.now place p → IsLast self.now (λ q. q.lan ≡ p.lan) place result }
    {
        self.links[place].on_lan
    }

    /// The place of the port before this one of the same bridge.
    pub fn before_of(&self, place: usize) -> Option<usize>
        requires { place < length self.now }
        ensures { (p : TreePortOf ℕ ℕ ℕ P) → IsAt self.now place p → IsLast self.now (λ q. q.bridge ≡ p.bridge) place result }
    {
        self.links[place].of_bridge
    }
}
