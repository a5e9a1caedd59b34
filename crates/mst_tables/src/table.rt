ghost use Rattle.std.specs.Prelude.{◌≡◌, ◌==◌, ℕ, ◌<◌, ◌↔◌, List, Some, false, length, count_by, slice_index_or, IsTrue, IfOk};
ghost use Rattle.std.specs.FinMap as fin;
ghost use Rattle.std.specs.List.{list_all};
ghost use Rattle.mst_tables.specs.After.{table_of};
ghost use Rattle.mst_tables.specs.Table.{no_table, tree_in, mapped, has_tree, mstis_in, tree_count};

use crate::contents::Contents;
use mst_ids::{BridgeNo, Tree, Vid, VidSet};
use std::alloc::{AllocError, Global};
use std::marker::Model;

/// The tree of each VID from 1 to 4094 in rising order, as its MSTID, of which 0 is the CIST. It is of fixed
/// size.
#[derive(Clone, Copy, PartialEq, Eq, Hash)]
pub struct Table {
    trees: [Tree; 4094],
}

impl Model for Table {
    ghost use Rattle.std.specs.Prelude.{◌≡◌, ℕ, List, length};
    ghost use Rattle.std.specs.Coded.{coded_ℕ, coded_list};

    ghost Value = { List ℕ };

    ghost coded = { coded_list coded_ℕ };

    ghost view = { λ a. a.trees };

    ghost invariant = { λ a. length a.trees ≡ 4094 };

    ghost inverse = { λ trees. record { trees = trees } };
}

impl Table {
    /// The table of the bridge of this number, which some bridge has. It takes no memory.
    pub fn of<C: Contents>(contents: &C, bridge: BridgeNo) -> Table
        requires { (name : List ℕ) × (fin.get (C.tables contents.now).numbers.bridges name ≡ Some bridge) }
        ensures { (name : List ℕ) → fin.get (C.tables contents.now).numbers.bridges name ≡ Some bridge → result ≡ table_of (C.tables contents.now).net name }
    {
        contents.known();
        match contents.bridge_name(bridge) {
            Some(name) => contents.table(&name),
            None => Table::new(),
        }
    }

    /// Every VID in the CIST.
    pub fn new() -> Table
        ensures { result ≡ no_table }
    {
        let cist = Tree::cist();
        Table {
            trees: [cist; 4094],
        }
    }

    /// The tree that a VID is mapped to.
    pub fn tree(&self, vid: Vid) -> Tree
        ensures { result ≡ tree_in self.now vid }
    {
        self.trees[usize::from(vid.value()) - 1]
    }

    /// The trees, those of the VIDs 1 to 4094 in rising order.
    pub fn trees(&self) -> &[Tree]
        ensures trees { result.now ≡ self.now }
        ensures long { length self.now ≡ 4094 }
    {
        &self.trees
    }

    /// Maps the VIDs of the set to the tree; the other VIDs stay where they are. It looks at the VIDs of those blocks
    /// of 64 alone of which some are in the set.
    pub fn map(&mut self, vids: &VidSet, tree: Tree)
        ensures { self.new ≡ mapped vids.now tree self.old }
    {
        for block in 0..64u16 {
            if !vids.misses(block) {
                let first = usize::from(block * 64).max(1) - 1;
                let end = usize::from(block * 64 + 63).min(4094);
                for index in first..end {
                    if vids.contains(index as u16 + 1) {
                        self.trees[index] = tree;
                    }
                }
            }
        }
    }

    /// How many of the trees 1 to 4094 some VID is mapped to.
    pub fn tree_count(&self) -> usize
        ensures { result ≡ tree_count self.now }
    {
        let seen = self.trees_seen();
        count(&seen[1..])
    }

    /// Whether each VID is in the CIST.
    pub(crate) fn is_default(&self) -> bool
        ensures default { IsTrue result ↔ (self.now ≡ no_table) }
        ensures all { result ≡ list_all (λ tree. tree == 0) self.now }
    {
        self.all_in_cist()
    }

    /// Whether some VID is mapped to the tree, so that the bridge has it. It takes no memory, and looks at each
    /// VID.
    pub fn has(&self, tree: Tree) -> bool
        ensures { result ≡ has_tree self.now tree }
    {
        self.trees
            .iter()
            .any(|mapped| mapped.value() == tree.value())
    }

    /// The trees beside the CIST that some VID is mapped to, in rising order of their MSTIDs, 1 to 4094: the
    /// MSTIs of a bridge that has this table (802.1Q-2022, 13). It goes once over the VIDs and once over the
    /// trees. An `Err` is want of memory.
    pub fn mstis(&self, alloc: Global) -> Result<Vec<Tree>, AllocError>
        ensures { IfOk result (λ trees. trees.items ≡ mstis_in self.now) }
    {
        let seen = self.trees_seen();
        let mut trees = Vec::new(alloc);
        for index in 0..4094u16 {
            let number = index + 1;
            if seen[usize::from(number)] {
                trees.push(Tree::new(u64::from(number)).unwrap())?;
            }
        }
        Ok(trees)
    }

    /// A flag for each tree, 0 to 4094: whether some VID is mapped to it. It takes no memory.
    pub fn trees_seen(&self) -> [bool; 4095]
        ensures long { length result ≡ 4095 }
        ensures seen { (tree : ℕ) → tree < 4095 → slice_index_or result tree false ≡ has_tree self.now tree }
    {
        let mut seen = [false; 4095];
        for index in 0..4094 {
            let tree = self.trees[index];
            seen[usize::from(tree.value())] = true;
        }
        seen
    }

    fn all_in_cist(&self) -> bool
        ensures all { result ≡ list_all (λ tree. tree == 0) self.now }
        ensures long { length self.now ≡ 4094 }
    {
        self.trees.iter().all(|tree| tree.value() == 0)
    }
}

/// How many of the flags are set.
fn count(flags: &[bool]) -> usize
    ensures { result ≡ count_by (λ flag. flag) flags.now }
{
    flags.iter().filter(|flag| **flag).count()
}
