ghost use Rattle.std.specs.Prelude.{◌<◌, Bool, List, IfOk, OnOk};
ghost use Rattle.std.specs.List.{All, AllByRecursion, Contains};
ghost use Rattle.mst_classes.specs.Classes.{AreClasses, AreClassesByTables, AreClassesOf, AreInSame};

use crate::alike::numbers_of_vids;
use crate::distinct::{meet_sets, meet_tables, tables};
use indexmap::IndexSet;
use mst_graph::{Numbering, number_keys};
use mst_ids::VidSet;
use mst_view::View;
use std::alloc::{AllocError, Global};

/// Classes of VIDs that no table and no set of VLANs of a port tells apart. `AllocError`: memory was wanted and refused.
pub fn classes_of_vids(alloc: Global, view: &View) -> Result<Numbering, AllocError>
    ensures { IfOk result (AreClasses view.now) }
{
    classes_of_vids_in(alloc, view, &[])
}

/// Classes of VIDs that no table and no set of VLANs of a port tells apart, and none of these sets. `AllocError`: memory was
/// wanted and refused.
pub fn classes_of_vids_in(
    alloc: Global,
    view: &View,
    others: &[VidSet],
) -> Result<Numbering, AllocError>
    ensures classes { IfOk result (AreClasses view.now) }
    ensures same { IfOk result (AreInSame others.now) }
{
    let tables = tables(alloc, view)?;
    let mut sets = IndexSet::new(alloc);
    meet_sets(view, &mut sets)?;
    meet_all(others, &mut sets)?;
    let numbers = numbers_of_vids(alloc, tables.as_slice(), sets.as_slice())?;
    number_keys(alloc, numbers)
}

/// Classes of VIDs that no table tells apart, whatever sets of VLANs they are in. `AllocError`: memory was wanted and refused.
pub fn classes_by_tables(alloc: Global, view: &View) -> Result<Numbering, AllocError>
    ensures { IfOk result (AreClassesByTables view.now) }
{
    let tables = tables(alloc, view)?;
    let numbers = numbers_of_vids(alloc, tables.as_slice(), &[])?;
    number_keys(alloc, numbers)
}

/// Classes of VIDs that no table and no set of VLANs of either network tells apart. `AllocError`: memory was wanted and
/// refused.
pub fn classes_of_both(alloc: Global, old: &View, new: &View) -> Result<Numbering, AllocError>
    ensures classes { IfOk result (AreClassesOf old.now new.now) }
    ensures vids { IfOk result (λ classes. All (λ place. place < 4094) classes.firsts.items) }
{
    classes_of_both_in(alloc, old, new, &[])
}

/// Classes of VIDs that no table and no set of VLANs of either network tells apart, and none of these sets. `AllocError`:
/// memory was wanted and refused.
pub fn classes_of_both_in(
    alloc: Global,
    old: &View,
    new: &View,
    others: &[VidSet],
) -> Result<Numbering, AllocError>
    ensures classes { IfOk result (AreClassesOf old.now new.now) }
    ensures same { IfOk result (AreInSame others.now) }
    ensures vids { IfOk result (λ classes. All (λ place. place < 4094) classes.firsts.items) }
{
    let mut tables = IndexSet::new(alloc);
    meet_tables(old, &mut tables)?;
    meet_tables(new, &mut tables)?;
    let mut sets = IndexSet::new(alloc);
    meet_sets(old, &mut sets)?;
    meet_sets(new, &mut sets)?;
    meet_all(others, &mut sets)?;
    let numbers = numbers_of_vids(alloc, tables.as_slice(), sets.as_slice())?;
    number_keys(alloc, numbers)
}

/// Adds sets to those that were met.
fn meet_all(sets: &[VidSet], met: &mut IndexSet<VidSet>) -> Result<(), AllocError>
    ensures there { OnOk result (AllByRecursion (Contains met.new.keys) sets.now) }
    ensures before { OnOk result ((set : List Bool) → Contains met.old.keys set → Contains met.new.keys set) }
{
    for set in sets {
        met.insert(*set)?;
    }
    Ok(())
}
