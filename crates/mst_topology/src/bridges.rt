ghost use Rattle.std.specs.Prelude.{◌≡◌, ◌∷◌, ◌++◌, [], is_some, None, nat_eq, OnOk, OnErr};
ghost use Rattle.std.specs.List.{Contains};
ghost use Rattle.std.specs.Map.{lookup};
ghost use Rattle.std.specs.Option.{ForSome};

use crate::by_number::ByNumber;
use mst_ids::BridgeNo;
use mst_vector::Metric;
use std::alloc::{AllocError, Global};
use std::marker::Model;

/// The bridges of one tree, under their numbers.
#[derive(Drop)]
pub struct Bridges<M: Metric> {
    bridges: Vec<(BridgeNo, M::Bridge)>,
    places: ByNumber<usize>,
}

impl<M: Metric> Model for Bridges<M> {
    ghost use Rattle.std.specs.Prelude.{ℕ, List};

    ghost Value = { List (ℕ × M.Bridge) };

    ghost view = { λ b. b.bridges.items };

    ghost use Rattle.mst_topology.specs.Places.{in_map, IsIndex};

    ghost invariant = { λ b. IsIndex (in_map b.places) b.bridges.items };
}

impl<M: Metric> Bridges<M> {
    /// No bridges. It takes no memory.
    pub fn new(alloc: Global) -> Self
        ensures { result ≡ [] }
    {
        Bridges {
            bridges: Vec::new(alloc),
            places: ByNumber::new(alloc),
        }
    }

    /// Adds a bridge whose number is new. `AllocError`: memory was wanted and refused, and nothing changes.
    pub fn add(&mut self, number: BridgeNo, bridge: M::Bridge) -> Result<(), AllocError>
        requires { (b : M.Bridge) → Contains self.old (number, b) → ⊥ }
        ensures ok { OnOk result (self.new ≡ self.old ++ (number, bridge) ∷ []) }
        ensures err { OnErr result (self.new ≡ self.old) }
    {
        let place = self.bridges.len();
        self.bridges.reserve(1)?;
        self.places.insert(number.0, place)?;
        self.bridges.push_reserved((number, bridge));
        Ok(())
    }

    /// The bridge of that number.
    pub fn get(&self, number: BridgeNo) -> Option<&M::Bridge>
        ensures some { ForSome result (λ b. Contains self.now (number, b.now)) }
        ensures none { result ≡ None → (b : M.Bridge) → Contains self.now (number, b) → ⊥ }
    {
        let place = self.places.get(number.0)?;
        let (_, bridge) = &self.bridges[place];
        Some(bridge)
    }

    /// Whether there is a bridge of that number.
    pub fn has(&self, number: BridgeNo) -> bool
        ensures { result ≡ is_some (lookup (nat_eq number) self.now) }
    {
        self.places.has(number.0)
    }

    /// The bridges with their numbers, in the order in which they were added.
    pub fn as_slice(&self) -> &[(BridgeNo, M::Bridge)]
        ensures { result.now ≡ self.now }
    {
        &self.bridges
    }
}
