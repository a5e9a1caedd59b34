ghost use Rattle.std.specs.Prelude.{◌≡◌, ℕ, ◌+◌, ◌-◌, ◌^◌, ◌<◌, ◌≤◌, [], cond, nat_lt, OnOk, OnErr};
ghost use Rattle.mst_records.specs.Tally.{count_in};

use indexmap::IndexMap;
use std::alloc::{AllocError, Global};
use std::hash::Hash;
use std::marker::Model;

/// How many records there are for each key.
pub struct Tally<K: Eq + Hash> {
    counts: IndexMap<K, usize>,
}

// By hand, as that of records.
impl<K: Eq + Hash + Drop> Drop for Tally<K> {
    fn drop(self) {
        let Tally { counts: _ } = self;
    }
}

impl<K: Eq + Hash> Model for Tally<K> {
    ghost use Rattle.indexmap.specs.IndexMap.{spare};
    ghost use Rattle.mst_records.specs.Tally.{Tallies, tallies_code, AreCounts};

    ghost Value = { Tallies K };

    ghost coded = { tallies_code K.code };

    ghost view = { λ a. record { counts = a.counts.entries; room = spare a.counts } };

    ghost invariant = { λ a. AreCounts K.eq a.counts.entries };
}

impl<K: Copy + Eq + Hash> Tally<K> {
    /// No records for any key, which takes no memory.
    pub fn new(alloc: Global) -> Self
        ensures counts { result.counts ≡ [] }
        ensures none { (q : K) → count_in K.eq result q ≡ 0 }
    {
        Tally {
            counts: IndexMap::new(alloc),
        }
    }

    /// How many records there are for the key.
    fn count(&self, key: &K) -> usize
        ensures { result ≡ count_in K.eq self.now key.now }
    {
        self.counts.get(key).copied().unwrap_or(0)
    }

    /// Whether there is a record for the key.
    pub fn has(&self, key: &K) -> bool
        ensures { result ≡ nat_lt 0 (count_in K.eq self.now key.now) }
    {
        self.count(key) > 0
    }

    /// Makes room for one more key.
    pub fn reserve(&mut self) -> Result<(), AllocError>
        ensures counts { self.new.counts ≡ self.old.counts }
        ensures room { OnOk result (0 < self.new.room) }
        ensures no_room { OnErr result (self.old.room ≡ 0) }
    {
        self.counts.reserve(1)
    }

    /// Counts one more record for the key. It takes no memory.
    pub fn raise(&mut self, key: K)
        requires room { 0 < self.old.room }
        requires few { count_in K.eq self.old key < 2 ^ 32 }
        ensures { (q : K) → count_in K.eq self.new q ≡ cond (K.eq key q) (count_in K.eq self.old q + 1) (count_in K.eq self.old q) }
    {
        let count = self.count(&key) + 1;
        let _ = self.counts.insert(key, count).unwrap();
    }

    /// Counts one record less for a key that has one. It takes no memory.
    pub fn lower(&mut self, key: &K)
        requires { 1 ≤ count_in K.eq self.old key.now }
        ensures { (q : K) → count_in K.eq self.new q ≡ cond (K.eq key.now q) (count_in K.eq self.old q - 1) (count_in K.eq self.old q) }
    {
        let count = self.count(key) - 1;
        if count == 0 {
            let _ = self.counts.swap_remove(key);
        } else {
            let _ = self.counts.insert(*key, count).unwrap();
        }
    }
}
