ghost use Rattle.std.specs.Prelude.{◌≡◌, ℕ, ◌*◌, ◌<◌, ◌/◌, [], Some, None, true, length, OnOk, OnErr};
ghost use Rattle.std.specs.List.{Contains};
ghost use Rattle.std.specs.Option.{ForSome};
ghost use Rattle.mst_topology.specs.Best.{IsBestOf};
ghost use Rattle.mst_topology.specs.Slots.{HasRoom, IsReserved, IsSetAt, IsLeastKey};
ghost use Rattle.mst_topology.specs.Keys.{IsKeyIn, IsOtherKeyIn, IsElsewhere};

use crate::best::{lesser, lesser_best};
use crate::slots::Slots;
use mst_vector::Metric;
use std::alloc::{AllocError, Global};
use std::marker::Model;

/// How many keys a block has.
const BLOCK: usize = 32;

/// The least key in a block, with its place.
fn best_in<M: Metric>(
    entries: &[(usize, Option<M::Vector>)],
    block: usize,
) -> Option<(usize, M::Vector)>
    requires { block * 32 < length entries.now }
    ensures { IsBestOf M.rules.order (IsKeyIn entries.now block) (length entries.now) result }
{
    let first = block * BLOCK;
    let end = first + (entries.len() - first).min(BLOCK);
    let mut best = None;
    for place in first..end {
        best = lesser::<M>(best, place, entries[place].1);
    }
    best
}

/// Whether the best of a block stays the first of the least ones, or the key that was written at a place, if any, is it.
fn stays_first<V: Copy>(former: Option<(usize, V)>, place: usize, has_key: bool) -> bool
    ensures { result ≡ true → IsElsewhere place former }
{
    match former {
        None => true,
        Some((best, _)) => best < place || (place < best && !has_key),
    }
}

/// The least key in the block of a place, with its place, after the key there was written.
fn best_after<M: Metric>(
    entries: &[(usize, Option<M::Vector>)],
    former: Option<(usize, M::Vector)>,
    place: usize,
) -> Option<(usize, M::Vector)>
    requires place { place < length entries.now }
    requires former { IsElsewhere place former → IsBestOf M.rules.order (IsOtherKeyIn entries.now (place / 32) place) (length entries.now) former }
    ensures { IsBestOf M.rules.order (IsKeyIn entries.now (place / 32)) (length entries.now) result }
{
    let (_, key) = entries[place];
    if stays_first::<M::Vector>(former, place, key.is_some()) {
        lesser::<M>(former, place, key)
    } else {
        best_in::<M>(entries, place / BLOCK)
    }
}

/// The keys of bridges, each by the bridge's number. Of each block of keys the least one is known, so the least of all is
/// found by one comparison for each block.
#[derive(Drop)]
pub struct Keys<M: Metric> {
    slots: Slots<Option<M::Vector>>,
    bests: Vec<Option<(usize, M::Vector)>>,
}

impl<M: Metric> Model for Keys<M> {
    ghost use Rattle.std.specs.Prelude.{ℕ, List, Option};
    ghost use Rattle.mst_topology.specs.Keys.{AreBests};

    ghost Value = { List (ℕ × Option M.Vector) };

    ghost view = { λ s. s.slots };

    ghost invariant = { λ s. AreBests M.rules.order s.slots s.bests.items };
}

impl<M: Metric> Keys<M> {
    /// No bridge has room.
    pub fn new(alloc: Global) -> Self
        ensures { result ≡ [] }
    {
        Keys {
            slots: Slots::new(alloc),
            bests: Vec::new(alloc),
        }
    }

    /// Makes room for a bridge's key. `AllocError`: memory was wanted and refused, and nothing changes.
    pub fn reserve(&mut self, number: usize) -> Result<(), AllocError>
        ensures ok { OnOk result (IsReserved self.old number None self.new) }
        ensures err { OnErr result (self.new ≡ self.old) }
    {
        self.bests.reserve(1)?;
        self.slots.reserve(number, None)?;
        if self.bests.len() <= self.slots.entries().len() / BLOCK {
            self.bests.push_reserved(None);
        }
        Ok(())
    }

    /// Sets a bridge's key, or that it has none.
    pub fn set(&mut self, number: usize, key: Option<M::Vector>)
        requires { HasRoom self.old number }
        ensures { IsSetAt self.old number key self.new }
    {
        self.slots.set(number, key);
        if let Some(place) = self.slots.place(number) {
            let block = place / BLOCK;
            let best = best_after::<M>(self.slots.entries(), self.bests[block], place);
            self.bests[block] = best;
        }
    }

    /// The number of the bridge with the least key, and the key.
    pub fn least(&self) -> Option<(usize, M::Vector)>
        ensures some { ForSome result (λ r. IsLeastKey M.rules.order self.now r.0 r.1) }
        ensures none { result ≡ None → (n : ℕ) (x : M.Vector) → Contains self.now (n, Some x) → ⊥ }
    {
        let mut least = None;
        for best in &self.bests {
            least = lesser_best::<M>(least, *best);
        }
        let (place, key) = least?;
        let (number, _) = self.slots.entries()[place];
        Some((number, key))
    }
}
