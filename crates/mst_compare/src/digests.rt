//! Configuration Digests that are kept from one BPDU to the next.
ghost use Rattle.std.specs.Prelude.{◌≡◌, ◌↔◌, [], IsTrue};
ghost use Rattle.mst_roles.specs.forest.config.Digest.{digest_of};

use mst_roles::digest;
use mst_tables::Table;
use std::alloc::Global;
use std::marker::Model;

/// How many tables are kept at most. The bridges of a region have one table.
const MOST_KEPT: usize = 16;

/// A table and its Configuration Digest (802.1Q-2022, 13.8).
#[derive(Clone, Copy)]
struct Digested {
    table: Table,
    digest: [u8; 16],
}

impl Model for Digested {
    ghost use Rattle.std.specs.Prelude.{◌≡◌, ℕ, List};
    ghost use Rattle.std.specs.Coded.{coded_ℕ, coded_list};
    ghost use Rattle.mst_roles.specs.forest.config.Digest.{digest_of};

    ghost Value = { List ℕ };

    ghost coded = { coded_list coded_ℕ };

    ghost view = { λ d. d.table };

    ghost invariant = { λ d. d.digest ≡ digest_of d.table };

    ghost inverse = { λ table. record { table = table; digest = digest_of table } };
}

impl Digested {
    /// A table, and its digest beside it.
    fn new(table: &Table) -> Digested
        ensures { result ≡ table.now }
    {
        Digested {
            table: *table,
            digest: digest(table),
        }
    }

    /// Whether it is of this table.
    fn is_of(&self, table: &Table) -> bool
        ensures { IsTrue result ↔ (self.now ≡ table.now) }
    {
        self.table == *table
    }

    /// The digest of its table.
    fn digest(&self) -> [u8; 16]
        ensures { result ≡ digest_of self.now }
    {
        self.digest
    }
}

/// The Configuration Digests of the tables that were met first, so that MD5 goes over such a table once, and not for each
/// BPDU. Each stands beside its table: so whatever network they are asked for, they are right.
#[derive(Drop)]
pub struct Digests {
    kept: Vec<Digested>,
}

impl Digests {
    /// None yet. It takes no memory.
    pub fn new(alloc: Global) -> Digests
        ensures { result.kept.items ≡ [] }
    {
        Digests {
            kept: Vec::new(alloc),
        }
    }

    /// The Configuration Digest of a table, which is kept if there is room.
    pub(crate) fn of(&mut self, table: &Table) -> [u8; 16]
        ensures { result ≡ digest_of table.now }
    {
        for kept in &self.kept {
            if kept.is_of(table) {
                return kept.digest();
            }
        }
        self.digested(table)
    }

    /// The Configuration Digest of a table that isn't kept yet.
    fn digested(&mut self, table: &Table) -> [u8; 16]
        ensures { result ≡ digest_of table.now }
    {
        let digested = Digested::new(table);
        if self.kept.len() < MOST_KEPT {
            let _ = self.kept.push(digested);
        }
        digested.digest()
    }
}
