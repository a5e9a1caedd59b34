ghost use Rattle.std.specs.Prelude.{◌≡◌, ℕ, [], Option, Some, None, OnOk, OnErr};
ghost use Rattle.std.specs.List.{Contains};
ghost use Rattle.std.specs.Option.{ForSome};
ghost use Rattle.mst_topology.specs.Slots.{HasRoom, IsReserved, IsSetAt, IsLeastKey};

use mst_topology::{ByNumber, Keys};
use mst_vector::Metric;
use std::alloc::{AllocError, Global};
use std::marker::Model;

/// The keys of bridges, each by the bridge's number, of which those are known that were set.
#[derive(Drop)]
pub struct KnownKeys<M: Metric> {
    keys: Keys<M>,
    known: ByNumber<Option<Option<M::Vector>>>,
}

impl<M: Metric> Model for KnownKeys<M> {
    ghost use Rattle.std.specs.Prelude.{ℕ, List, Option};
    ghost use Rattle.mst_topology.specs.Places.{in_map};
    ghost use Rattle.mst_settle.specs.Known.{AreKnown};

    ghost Value = { List (ℕ × Option M.Vector) };

    ghost view = { λ s. s.keys };

    ghost invariant = { λ s. AreKnown s.keys (in_map s.known) };
}

impl<M: Metric> KnownKeys<M> {
    /// No bridge has room.
    pub fn new(alloc: Global) -> Self
        ensures { result ≡ [] }
    {
        KnownKeys {
            keys: Keys::new(alloc),
            known: ByNumber::new(alloc),
        }
    }

    /// Makes room for a bridge's key. `AllocError`: memory was wanted and refused, and no key changes.
    pub fn reserve(&mut self, number: usize) -> Result<(), AllocError>
        ensures ok { OnOk result (IsReserved self.old number None self.new) }
        ensures err { OnErr result (self.new ≡ self.old) }
    {
        if self.known.get(number).flatten().is_some() {
            return Ok(());
        }
        self.known.make_room(number, None)?;
        self.keys.reserve(number)?;
        Ok(())
    }

    /// The key of a bridge, or that it has none, if that is known.
    pub fn get(&self, number: usize) -> Option<Option<M::Vector>>
        ensures some { ForSome result (λ k. Contains self.now (number, k)) }
        ensures alone { (k l : Option M.Vector) → result ≡ Some k → Contains self.now (number, l) → l ≡ k }
    {
        self.known.get(number).flatten()
    }

    /// Sets a bridge's key, or that it has none.
    pub fn set(&mut self, number: usize, key: Option<M::Vector>)
        requires { HasRoom self.old number }
        ensures { IsSetAt self.old number key self.new }
    {
        self.keys.set(number, key);
        if self.known.has(number) {
            self.known.write_at(number, Some(key));
        }
    }

    /// The number of the bridge with the least key, and the key.
    pub fn least(&self) -> Option<(usize, M::Vector)>
        ensures some { ForSome result (λ r. IsLeastKey M.rules.order self.now r.0 r.1) }
        ensures none { result ≡ None → (n : ℕ) (x : M.Vector) → Contains self.now (n, Some x) → ⊥ }
    {
        self.keys.least()
    }
}
