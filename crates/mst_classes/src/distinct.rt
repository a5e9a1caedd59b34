ghost use Rattle.std.specs.Prelude.{◌≡◌, nat_eq, List, ℕ, Bool, IfOk, OnOk, IsTrue};
ghost use Rattle.std.specs.Cmp.Lexicographic.{pointwise};
ghost use Rattle.std.specs.List.{AllByRecursion, Contains};
ghost use Rattle.mst_tables.specs.ByTree.{table_in, vlans_in};

use indexmap::IndexSet;
use mst_ids::VidSet;
use mst_tables::Table;
use mst_view::View;
use std::alloc::{AllocError, Global};

/// The tables of the bridges, each once. `AllocError`: memory was wanted and refused.
pub(crate) fn tables(alloc: Global, view: &View) -> Result<Vec<Table>, AllocError>
    ensures { IfOk result (λ tables. AllByRecursion (λ b. Contains tables.items (table_in view.now.settings.tables b.name)) view.now.bridges) }
{
    let mut met = IndexSet::new(alloc);
    meet_tables(view, &mut met)?;
    let mut tables = Vec::new(alloc);
    tables.extend_from_slice(met.as_slice())?;
    Ok(tables)
}

/// Adds the tables of the bridges to those that were met. One that is the same as the last that was new takes no more than
/// to compare the two.
pub(crate) fn meet_tables(view: &View, met: &mut IndexSet<Table>) -> Result<(), AllocError>
    ensures there { OnOk result (AllByRecursion (λ b. Contains met.new.keys (table_in view.now.settings.tables b.name)) view.now.bridges) }
    ensures before { OnOk result ((table : List ℕ) → Contains met.old.keys table → Contains met.new.keys table) }
{
    for bridge in view.bridges() {
        let table = view.settings().table(&bridge.name);
        if !is_last_table(met.as_slice(), &table) {
            met.insert(table)?;
        }
    }
    Ok(())
}

/// Whether the table is the last of these.
fn is_last_table(tables: &[Table], table: &Table) -> bool
    ensures { IsTrue result → Contains tables.now table.now }
{
    let count = tables.len();
    count > 0 && is_same(&tables[count - 1], table)
}

/// Whether two tables are the same. It goes over the VIDs itself, which takes a third of the time of comparing slices.
fn is_same(table: &Table, other: &Table) -> bool
    ensures { result ≡ pointwise nat_eq table.now other.now }
{
    let ours = table.trees();
    let theirs = other.trees();
    for place in 0..4094 {
        if ours[place] != theirs[place] {
            return false;
        }
    }
    true
}

/// Adds the sets of VLANs of the logical ports to those that were met. One that is the same as the last that was new takes
/// no more than to compare the two.
pub(crate) fn meet_sets(view: &View, met: &mut IndexSet<VidSet>) -> Result<(), AllocError>
    ensures there { OnOk result (AllByRecursion (λ p. Contains met.new.keys (vlans_in view.now.settings.vlans p.name)) view.now.ports) }
    ensures before { OnOk result ((set : List Bool) → Contains met.old.keys set → Contains met.new.keys set) }
{
    for port in view.ports() {
        let vlans = view.settings().port_vlans(&port.name);
        if !is_last_set(met.as_slice(), &vlans) {
            met.insert(vlans)?;
        }
    }
    Ok(())
}

/// Whether the set is the last of these.
fn is_last_set(sets: &[VidSet], set: &VidSet) -> bool
    ensures { IsTrue result → Contains sets.now set.now }
{
    let count = sets.len();
    count > 0 && sets[count - 1] == *set
}
