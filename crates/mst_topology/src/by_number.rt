ghost use Rattle.std.specs.Prelude.{◌≡◌, ℕ, ◌^◌, ◌<◌, [], length, is_some, None, IfOk, OnOk, OnErr};
ghost use Rattle.std.specs.List.Sorted.{IsStrictlySortedBy};
ghost use Rattle.std.specs.Map.{keys_of};
ghost use Rattle.std.specs.Ordering.{nat_cmp};
ghost use Rattle.mst_topology.specs.Places.{in_map, option_at, HasRoomAt, MakesRoom};
ghost use Rattle.mst_topology.specs.Settling.{IsPut};

use std::alloc::{AllocError, Global};
use std::marker::Model;

/// The most slots that a table has: no number reaches it.
const MOST: usize = 4_294_967_296;

/// A table of values by number. It has a slot for each number up to the greatest that has a value, so it is
/// for small and dense numbers, as those of records are.
#[derive(Drop)]
pub struct ByNumber<T> {
    slots: Vec<Option<T>>,
}

impl<T> Model for ByNumber<T> {
    ghost use Rattle.std.specs.Prelude.{ℕ, ◌^◌, ◌≤◌, List, length};
    ghost use Rattle.mst_topology.specs.ByNumber.{entries_from};

    ghost Value = { List (ℕ × T) };

    ghost view = { λ s. entries_from 0 s.slots.items };

    ghost invariant = { λ s. length s.slots.items ≤ 2 ^ 32 };
}

impl<T: Copy> ByNumber<T> {
    /// The table with no values.
    pub fn new(alloc: Global) -> Self
        ensures { result ≡ [] }
    {
        ByNumber {
            slots: Vec::new(alloc),
        }
    }

    /// The value at a number.
    pub fn get(&self, number: usize) -> Option<T>
        ensures { result ≡ in_map self.now number }
    {
        if number < self.slots.len() {
            self.slots[number]
        } else {
            None
        }
    }

    /// Whether there is a value at a number.
    pub fn has(&self, number: usize) -> bool
        ensures { result ≡ is_some (in_map self.now number) }
    {
        self.get(number).is_some()
    }

    /// Does nothing: its clauses say that numbers ascend, and that there are few.
    pub fn known(&self)
        ensures ordered { IsStrictlySortedBy nat_cmp (keys_of self.now) }
        ensures few { length self.now < 2 ^ 63 }
    {
        let _slots = self.slots.len();
    }

    /// Puts a value at a number. `AllocError`: memory for slots up to that number was wanted and refused, and
    /// nothing changes.
    pub fn insert(&mut self, number: usize, value: T) -> Result<(), AllocError>
        ensures ok { OnOk result (IsPut (in_map self.old) number value (in_map self.new)) }
        ensures err { OnErr result (self.new ≡ self.old) }
    {
        if number >= MOST {
            return Err(AllocError);
        }
        if self.slots.len() <= number {
            self.slots.resize(number + 1, None)?;
        }
        self.slots[number] = Some(value);
        Ok(())
    }

    /// Makes room for a number: puts the value there if there is none. `AllocError`: memory was wanted and
    /// refused, and nothing changes.
    pub fn make_room(&mut self, number: usize, value: T) -> Result<(), AllocError>
        ensures ok { OnOk result (MakesRoom self.old self.new number value) }
        ensures err { OnErr result (self.new ≡ self.old) }
    {
        if self.has(number) {
            return Ok(());
        }
        self.insert(number, value)
    }

    /// Writes a value at a number for which there is room, which takes no memory.
    pub fn write_at(&mut self, number: usize, value: T)
        requires { HasRoomAt self.old number }
        ensures put { IsPut (in_map self.old) number value (in_map self.new) }
        ensures keys { keys_of self.new ≡ keys_of self.old }
    {
        self.slots[number] = Some(value);
    }

    /// A number that is above each that has a value.
    pub fn bound(&self) -> usize
        ensures { (n : ℕ) → HasRoomAt self.now n → n < result }
    {
        self.slots.len()
    }

    /// A copy. `AllocError`: memory was wanted and refused.
    pub fn copy(&self, alloc: Global) -> Result<Self, AllocError>
        ensures { IfOk result (λ copy. copy ≡ self.now) }
    {
        Ok(ByNumber {
            slots: Vec::from_slice(alloc, self.slots.as_slice())?,
        })
    }
}

/// Gives each number for which a table has room what another table has there, or nothing. It takes no memory.
pub fn overwrite<T: Copy>(table: &mut ByNumber<Option<T>>, other: &ByNumber<Option<T>>)
    ensures values { (n : ℕ) → HasRoomAt table.old n → option_at table.new n ≡ option_at other.now n }
    ensures keys { keys_of table.new ≡ keys_of table.old }
{
    for number in 0..table.bound() {
        if table.has(number) {
            table.write_at(number, other.get(number).flatten());
        }
    }
}
