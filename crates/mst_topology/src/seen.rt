ghost use Rattle.std.specs.Prelude.{◌≡◌, ◌⊎◌, ℕ, [], true, OnOk};
ghost use Rattle.mst_topology.specs.Places.{HasRoomAt};
ghost use Rattle.mst_topology.specs.Seen.{IsSeen, IsEmpty};

use crate::by_number::ByNumber;
use std::alloc::{AllocError, Global};
use std::marker::Model;

/// A set of numbers that is emptied at once: a number is in it if it has the mark of this round. Where a number has
/// no room, and in the last round that a `u64` counts, it is never in the set.
#[derive(Drop)]
pub struct Seen {
    marks: ByNumber<u64>,
    round: u64,
}

impl Model for Seen {
    ghost use Rattle.std.specs.Prelude.{◌≡◌, ◌≤◌, ℕ, Some};
    ghost use Rattle.mst_topology.specs.Places.{in_map};
    ghost use Rattle.mst_topology.specs.Seen.{Marks};

    ghost Value = { Marks };

    ghost view = { λ s. record { marks = s.marks; round = s.round } };

    ghost invariant = { λ s. (n x : ℕ) → in_map s.marks n ≡ Some x → x ≤ s.round };
}

impl Seen {
    /// The empty set, with no room.
    pub fn new(alloc: Global) -> Self
        ensures { IsEmpty result }
    {
        Seen {
            marks: ByNumber::new(alloc),
            round: 0,
        }
    }

    /// Makes room for a number. `AllocError`: memory was wanted and refused.
    pub fn make_place(&mut self, number: usize) -> Result<(), AllocError>
        ensures { OnOk result (HasRoomAt self.new.marks number) }
    {
        self.marks.make_room(number, 0)
    }

    /// Empties the set.
    pub fn clear(&mut self)
        ensures { IsEmpty self.new }
    {
        if self.round < u64::MAX {
            self.round += 1;
        }
    }

    /// Whether a number is in the set.
    pub fn has(&self, number: usize) -> bool
        ensures { result ≡ true → IsSeen self.now number }
    {
        match self.marks.get(number) {
            None => false,
            Some(mark) => mark == self.round && mark < u64::MAX,
        }
    }

    /// Puts a number into the set, if it has room.
    pub fn put(&mut self, number: usize)
        ensures { (n : ℕ) → IsSeen self.new n → (n ≡ number) ⊎ IsSeen self.old n }
    {
        if self.marks.has(number) {
            self.marks.write_at(number, self.round);
        }
    }
}
