ghost use Rattle.std.specs.Prelude.{◌≡◌, ◌<◌, IsTrue};
ghost use Rattle.mst_tables.specs.Table.{no_table, mapped, tree_count};

use crate::table::Table;
use mst_ids::{Tree, VidSet};
use std::marker::Model;

/// What is kept of a bridge's table: beside it a bound of its trees, so that few edits of it have to count them.
#[derive(Clone, Drop)]
pub struct KeptTable {
    table: Table,
    // No fewer than the trees beside the CIST that some VID is mapped to.
    bound: usize,
}

impl Model for KeptTable {
    ghost use Rattle.std.specs.Prelude.{ℕ, ◌≤◌, List};
    ghost use Rattle.std.specs.Coded.{coded_ℕ, coded_list};
    ghost use Rattle.mst_tables.specs.Table.{tree_count};

    ghost Value = { List ℕ };

    ghost coded = { coded_list coded_ℕ };

    ghost view = { λ a. a.table };

    ghost invariant = { λ a. tree_count a.table ≤ a.bound };
}

impl KeptTable {
    /// Every VID in the CIST.
    pub fn new() -> KeptTable
        ensures { result ≡ no_table }
    {
        KeptTable {
            table: Table::new(),
            bound: 0,
        }
    }

    /// The table.
    pub fn table(&self) -> &Table
        ensures { result.now ≡ self.now }
    {
        &self.table
    }

    /// Whether there is room for one more tree by the bound. It counts none.
    pub(crate) fn has_room(&self) -> bool
        ensures { IsTrue result → tree_count self.now < 64 }
    {
        self.bound < TREE_LIMIT
    }

    /// Maps the VIDs of the set to the tree; the other VIDs stay where they are. The trees are counted only where
    /// the bound says that there may be no room for one more.
    pub fn map(&mut self, vids: &VidSet, tree: Tree)
        ensures { self.new ≡ mapped vids.now tree self.old }
    {
        self.table.map(vids, tree);
        self.bound = if self.bound < TREE_LIMIT {
            self.bound + 1
        } else {
            self.table.tree_count()
        };
    }
}

/// How many trees a bridge can have beside the CIST.
pub const TREE_LIMIT: usize = 64;
