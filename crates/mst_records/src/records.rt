ghost use Rattle.std.specs.Prelude.{◌≡◌, ℕ, ◌<◌, List, [], length, cond, Some, None, is_some, IsSome, OnOk, OnErr, IfOk};
ghost use Rattle.std.specs.Option.{option_map, ForSome};
ghost use Rattle.std.specs.List.{IsDistinct};
ghost use Rattle.std.specs.Map.{lookup, keys_of};
ghost use Rattle.indexmap.specs.IndexMap.{keys};
ghost use Rattle.mst_records.specs.Rows.{IsNumberedBy};

use indexmap::IndexMap;
use slab::Slab;
use std::alloc::{AllocError, Global};
use std::hash::Hash;
use std::marker::Model;

/// What is kept under a key.
#[derive(Clone, Copy)]
pub struct Record<R> {
    pub number: usize,
    pub row: R,
}

/// Rows by key, each with a number of its own that it keeps.
pub struct Records<K: Eq + Hash, R> {
    records: IndexMap<K, Record<R>>,
    keys: Slab<K>,
}

// By hand, so that the check of a network's drop takes this one as one call.
impl<K: Eq + Hash + Drop, R: Drop> Drop for Records<K, R> {
    fn drop(self) {
        let Records {
            records: _,
            keys: _,
        } = self;
    }
}

impl<K: Eq + Hash, R> Model for Records<K, R> {
    ghost use Rattle.std.specs.Prelude.{◌-◌, min};
    ghost use Rattle.slab.specs.Slab.{slab_len};
    ghost use Rattle.indexmap.specs.IndexMap.{spare};
    ghost use Rattle.mst_records.specs.Rows.{Rows, rows_code};

    ghost Value = { Rows K R };

    ghost coded = { rows_code K.code R.code };

    ghost use Rattle.mst_records.specs.Kept.{rows_of, numbers_of, IsKept};

    ghost view = { λ a. record {
      rows = rows_of a.records.entries;
      numbers = numbers_of a.records.entries;
      next = a.keys.vacant_key;
      room = min (spare a.records) (a.keys.capacity - slab_len a.keys);
    } };

    ghost invariant = { λ a. IsKept K.eq a.records.entries a.keys };
}

impl<K: Copy + Eq + Hash, R: Copy> Records<K, R> {
    /// No rows, which takes no memory.
    pub fn new(alloc: Global) -> Self
        ensures rows { result.rows ≡ [] }
        ensures numbers { result.numbers ≡ [] }
        ensures numbered { IsNumberedBy K.eq result }
    {
        Records {
            records: IndexMap::new(alloc),
            keys: Slab::new(alloc),
        }
    }

    /// Whether there is a row under the key.
    pub fn contains(&self, key: &K) -> bool
        ensures { result ≡ is_some (lookup (K.eq key.now) self.now.rows) }
    {
        self.records.contains_key(key)
    }

    /// The row under the key, and its number.
    pub fn get(&self, key: &K) -> Option<Record<R>>
        ensures row { option_map (λ record_. record_.row) result ≡ lookup (K.eq key.now) self.now.rows }
        ensures number { option_map (λ record_. record_.number) result ≡ lookup (K.eq key.now) self.now.numbers }
    {
        self.records.get(key).copied()
    }

    /// The key of the row that has the number.
    pub fn key(&self, number: usize) -> Option<K>
        ensures found { ForSome result (λ key. lookup (K.eq key) self.now.numbers ≡ Some number) }
        ensures none { result ≡ None → (key : K) → lookup (K.eq key) self.now.numbers ≡ Some number → ⊥ }
    {
        let key = *self.keys.get(number)?;
        let record = self.get(&key)?;
        if record.number == number {
            Some(key)
        } else {
            None
        }
    }

    /// How many rows there are.
    pub fn len(&self) -> usize
        ensures len { result ≡ length self.now.rows }
        ensures distinct { IsDistinct K.eq (keys_of self.now.rows) }
    {
        self.records.len()
    }

    /// The number that the next row gets.
    pub fn next(&self) -> usize
        ensures next { result ≡ self.now.next }
        ensures fresh { (q : K) → lookup (K.eq q) self.now.numbers ≡ Some result → ⊥ }
    {
        self.keys.vacant_key()
    }

    /// Makes room for one more row.
    pub fn reserve(&mut self) -> Result<(), AllocError>
        ensures rows { self.new.rows ≡ self.old.rows }
        ensures numbers { self.new.numbers ≡ self.old.numbers }
        ensures next { self.new.next ≡ self.old.next }
        ensures room { OnOk result (0 < self.new.room) }
        ensures no_room { OnErr result (self.old.room ≡ 0) }
    {
        self.records.reserve(1)?;
        self.keys.reserve(1)
    }

    /// Adds a row under a key that has none. It takes no memory.
    pub fn add(&mut self, key: K, row: R)
        requires absent { lookup (K.eq key) self.old.rows ≡ None }
        requires room { 0 < self.old.room }
        ensures rows { (q : K) → lookup (K.eq q) self.new.rows ≡ cond (K.eq key q) (Some row) (lookup (K.eq q) self.old.rows) }
        ensures numbers { (q : K) → lookup (K.eq q) self.new.numbers ≡ cond (K.eq key q) (Some self.old.next) (lookup (K.eq q) self.old.numbers) }
        ensures numbered { IsNumberedBy K.eq self.new }
    {
        let number = self.keys.insert_reserved(key);
        let _ = self.records.insert(key, Record { number, row }).unwrap();
    }

    /// Changes the row under a key that has one. It keeps its number.
    pub fn set(&mut self, key: &K, row: R)
        requires { IsSome (lookup (K.eq key.now) self.old.rows) }
        ensures rows { (q : K) → lookup (K.eq q) self.new.rows ≡ cond (K.eq key.now q) (Some row) (lookup (K.eq q) self.old.rows) }
        ensures numbers { self.new.numbers ≡ self.old.numbers }
        ensures numbered { IsNumberedBy K.eq self.new }
    {
        let record = self.records.get_mut(key).unwrap();
        record.row = row;
    }

    /// Takes away the row under a key that has one. Its number is the one that the next row gets; the other
    /// rows keep theirs. It takes no memory.
    pub fn remove(&mut self, key: &K)
        requires { IsSome (lookup (K.eq key.now) self.old.rows) }
        ensures rows { (q : K) → lookup (K.eq q) self.new.rows ≡ cond (K.eq key.now q) None (lookup (K.eq q) self.old.rows) }
        ensures numbers { (q : K) → lookup (K.eq q) self.new.numbers ≡ cond (K.eq key.now q) None (lookup (K.eq q) self.old.numbers) }
        ensures next { lookup (K.eq key.now) self.old.numbers ≡ Some self.new.next }
        ensures numbered { IsNumberedBy K.eq self.new }
    {
        let record = self.records.swap_remove(key).unwrap();
        let _ = self.keys.remove(record.number);
    }

    /// The keys, in no order that is promised.
    pub fn keys(&self, alloc: Global) -> Result<Vec<K>, AllocError>
        ensures keys { IfOk result (λ found. found.items ≡ keys_of self.now.rows) }
        ensures distinct { IsDistinct K.eq (keys_of self.now.rows) }
    {
        collect_keys(&self.records, alloc)
    }
}

fn collect_keys<K: Copy + Eq + Hash, V>(
    map: &IndexMap<K, V>,
    alloc: Global,
) -> Result<Vec<K>, AllocError>
    ensures { IfOk result (λ found. found.items ≡ keys map.now) }
{
    map.keys().copied().collect(alloc)
}
