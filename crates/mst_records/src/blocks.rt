ghost use Rattle.std.specs.Prelude.{◌≡◌, ℕ, ◌<◌, ◌≤◌, ◌/◌, true, false, cond, None, Some};
ghost use Rattle.std.specs.Map.{lookup};
ghost use Rattle.std.specs.Option.{unwrap_or};
ghost use Rattle.indexmap.specs.IndexMap.{spare};
ghost use Rattle.mst_records.specs.Blocks.{in_block, is_marked, no_marks, with_tree};

use crate::keeping::keep;
use indexmap::IndexMap;
use mst_ids::Tree;
use std::hash::Hash;
use std::marker::Model;

/// Marks of trees, from 0 to 4095, of which those that aren't marked have nothing set: flags of the blocks of 64
/// trees, and then of the places in a block. A tree is marked where its block and its place have their flags, so
/// there may be others than those that were marked, but few.
#[derive(Clone, Copy)]
pub struct Blocks {
    flags: [bool; 128],
}

impl Model for Blocks {
    ghost use Rattle.std.specs.Prelude.{◌≡◌, List, Bool, length};
    ghost use Rattle.std.specs.Coded.{coded_bool, coded_list};

    ghost Value = { List Bool };

    ghost coded = { coded_list coded_bool };

    ghost view = { λ a. a.flags };

    ghost invariant = { λ a. length a.flags ≡ 128 };

    ghost inverse = { λ flags. record { flags = flags } };
}

impl Blocks {
    /// No tree is marked.
    pub fn none() -> Blocks
        ensures marks { result ≡ no_marks }
        ensures none { (tree : ℕ) → in_block result tree ≡ false }
    {
        Blocks {
            flags: [false; 128],
        }
    }

    /// Whether a tree is marked.
    pub fn has(&self, tree: u64) -> bool
        requires { tree < 4096 }
        ensures { result ≡ in_block self.now tree }
    {
        self.flags[(tree / 64) as usize] && self.flags[64 + (tree % 64) as usize]
    }

    /// The first tree behind one that isn't marked which may be marked, or 4095 where there is none. It passes by
    /// what is left of a block that has no flag.
    pub fn after(&self, tree: u64) -> u64
        requires tree { tree < 4095 }
        requires none { in_block self.now tree ≡ false }
        ensures above { tree < result }
        ensures within { result ≤ 4095 }
        ensures passed { (other : ℕ) → tree ≤ other → other < result → in_block self.now other ≡ false }
    {
        if self.flags[(tree / 64) as usize] {
            tree + 1
        } else {
            next_block(tree)
        }
    }

    /// These marks and that of the tree.
    fn with(self, tree: Tree) -> Blocks
        ensures marks { result ≡ with_tree self tree }
        ensures marked { in_block result tree ≡ true }
        ensures still { (other : ℕ) → in_block self other ≡ true → in_block result other ≡ true }
    {
        let number = usize::from(tree.value());
        let mut flags = self.flags;
        flags[number / 64] = true;
        flags[64 + number % 64] = true;
        Blocks { flags }
    }
}

/// Marks the tree for the key. It takes no memory.
pub fn mark<K: Copy + Eq + Hash>(marks: &mut IndexMap<K, Blocks>, key: &K, tree: Tree)
    requires { 0 < spare marks.old }
    ensures marks { (q : K) → lookup (K.eq q) marks.new.entries
        ≡ cond (K.eq key.now q) (Some (with_tree (unwrap_or (lookup (K.eq key.now) marks.old.entries) no_marks) tree)) (lookup (K.eq q) marks.old.entries) }
    ensures marked { (q : K) → K.eq key.now q ≡ true → is_marked K.eq marks.new.entries q tree ≡ true }
    ensures still { (q : K) (other : ℕ) → cond (K.eq key.now q) (is_marked K.eq marks.old.entries key.now other) (is_marked K.eq marks.old.entries q other) ≡ true
        → is_marked K.eq marks.new.entries q other ≡ true }
{
    let blocks = marks.get(key).copied().unwrap_or(Blocks::none());
    keep(marks, *key, Some(blocks.with(tree)));
}

/// The marks for the key, which are taken away.
pub fn take<K: Copy + Eq + Hash>(marks: &mut IndexMap<K, Blocks>, key: &K) -> Blocks
    ensures blocks { (tree : ℕ) → in_block result tree ≡ is_marked K.eq marks.old.entries key.now tree }
    ensures left { (q : K) → lookup (K.eq q) marks.new.entries ≡ cond (K.eq key.now q) None (lookup (K.eq q) marks.old.entries) }
{
    marks.swap_remove(key).unwrap_or(Blocks::none())
}

/// The first tree of the next block, or 4095 after the last.
fn next_block(tree: u64) -> u64
    requires { tree < 4095 }
    ensures above { tree < result }
    ensures within { result ≤ 4095 }
    ensures same { (other : ℕ) → tree ≤ other → other < result → other / 64 ≡ tree / 64 }
{
    (tree / 64 * 64 + 64).min(4095)
}
