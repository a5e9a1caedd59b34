ghost use Rattle.std.specs.Prelude.{◌≡◌, ℕ, [], None, IsTrue, OnOk, OnErr, length, slice_set};
ghost use Rattle.std.specs.Option.{ForSome};
ghost use Rattle.std.specs.List.{Contains};
ghost use Rattle.mst_topology.specs.Chains.{IsAt};
ghost use Rattle.mst_topology.specs.Slots.{HasRoom, IsReserved, IsSetAt};

use crate::by_number::ByNumber;
use std::alloc::{AllocError, Global};
use std::marker::Model;

/// A table of numbers, each with a value. Room is made for a number before it is used.
#[derive(Drop)]
pub struct Slots<T> {
    places: ByNumber<usize>,
    entries: Vec<(usize, T)>,
}

impl<T> Model for Slots<T> {
    ghost use Rattle.std.specs.Prelude.{ℕ, List};
    ghost use Rattle.mst_topology.specs.Places.{in_map};
    ghost use Rattle.mst_topology.specs.Chains.{IsAt};
    ghost use Rattle.mst_topology.specs.Slots.{IsSlots};

    ghost Value = { List (ℕ × T) };

    ghost view = { λ s. s.entries.items };

    ghost invariant = { λ s. IsSlots (in_map s.places) s.entries.items };
}

impl<T: Copy> Slots<T> {
    /// The table with no room.
    pub fn new(alloc: Global) -> Self
        ensures { result ≡ [] }
    {
        Slots {
            places: ByNumber::new(alloc),
            entries: Vec::new(alloc),
        }
    }

    /// Makes room for a number, with a value where there was none. `AllocError`: memory was wanted and refused,
    /// and nothing changes.
    pub fn reserve(&mut self, number: usize, value: T) -> Result<(), AllocError>
        ensures ok { OnOk result (IsReserved self.old number value self.new) }
        ensures err { OnErr result (self.new ≡ self.old) }
    {
        if self.places.has(number) {
            return Ok(());
        }
        let place = self.entries.len();
        self.entries.reserve(1)?;
        self.places.insert(number, place)?;
        self.entries.push_reserved((number, value));
        Ok(())
    }

    /// Sets a number's value.
    pub fn set(&mut self, number: usize, value: T)
        requires { HasRoom self.old number }
        ensures set { IsSetAt self.old number value self.new }
        ensures at { (i : ℕ) (x : T) → IsAt self.old i (number, x) → self.new ≡ slice_set self.old i (number, value) }
        ensures len { length self.new ≡ length self.old }
    {
        if let Some(place) = self.places.get(number) {
            self.entries[place] = (number, value);
        }
    }

    /// The numbers with their values, in the order in which room was made.
    pub fn entries(&self) -> &[(usize, T)]
        ensures value { result.now ≡ self.now }
        ensures once { (i j n : ℕ) (x y : T) → IsAt self.now i (n, x) → IsAt self.now j (n, y) → i ≡ j }
    {
        &self.entries
    }

    /// The place of a number among the entries, if there is room for it.
    pub fn place(&self, number: usize) -> Option<usize>
        ensures some { ForSome result (λ i. (x : T) × IsAt self.now i (number, x)) }
        ensures none { result ≡ None → HasRoom self.now number → ⊥ }
    {
        self.places.get(number)
    }

    /// Whether there is room for a number.
    pub fn has_room(&self, number: usize) -> bool
        ensures yes { IsTrue result → HasRoom self.now number }
        ensures no { HasRoom self.now number → IsTrue result }
    {
        self.places.has(number)
    }

    /// Gives each number this value.
    pub fn fill(&mut self, value: T)
        ensures values { (n : ℕ) (x : T) → Contains self.new (n, x) → x ≡ value }
        ensures rooms { (n : ℕ) → HasRoom self.old n → HasRoom self.new n }
        ensures back { (n : ℕ) → HasRoom self.new n → HasRoom self.old n }
        ensures len { length self.new ≡ length self.old }
    {
        for place in 0..self.entries.len() {
            let (number, _) = self.entries[place];
            self.entries[place] = (number, value);
        }
    }
}
