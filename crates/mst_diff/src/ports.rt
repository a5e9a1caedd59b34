ghost use Rattle.std.specs.Prelude.{◌≡◌, ◌++◌, List, IfOk};
ghost use Rattle.std.specs.List.{flat_map};
ghost use Rattle.mst_changes.specs.PortChanges.{counted};
ghost use Rattle.mst_vlan.specs.forest.AllTrees.{all_trees};
ghost use Rattle.mst_rows.specs.Rows.{Row};
ghost use Rattle.mst_diff.specs.Seen.{ports_of};

use crate::change::Change;
use mst_changes::put_port_changes;
use mst_ids::Tree;
use mst_rows::Rows;
use mst_vlan::is_had;
use std::alloc::{AllocError, Global};

/// Puts the rows of ports in a tree, and answers how many they are: none where no bridge of either network has it.
fn put_ports_in<R: Rows>(
    alloc: Global,
    change: &Change,
    tree: Tree,
    out: &mut R,
) -> Result<u64, AllocError>
    ensures { (first : R) (rows : List Row) → R.grew first out.old rows
        → let own = ports_of change.now.old.now change.now.new.now tree in IfOk result (λ count. (count ≡ counted own) × R.grew first out.new (rows ++ own)) }
{
    change.old.known();
    change.new.known();
    if is_had(change.used, tree) || is_had(change.used_too, tree) {
        return put_port_changes(alloc, change.old, change.new, tree, out);
    }
    Ok(0)
}

/// Puts the rows of logical ports whose roles differ, by trees, and answers how many they are, to the greatest number of 64
/// bits. `AllocError`: memory was wanted and refused; some of them may have been put.
///
/// It goes over the logical ports of both networks once for each tree that some bridge has.
pub(crate) fn put_ports<R: Rows>(
    alloc: Global,
    change: &Change,
    out: &mut R,
) -> Result<u64, AllocError>
    ensures { (first : R) (rows : List Row) → R.grew first out.old rows
        → let own = flat_map (ports_of change.now.old.now change.now.new.now) all_trees in IfOk result (λ count. (count ≡ counted own) × R.grew first out.new (rows ++ own)) }
{
    let mut count = 0u64;
    for number in 0..4095 {
        if let Some(tree) = Tree::new(number) {
            let put = put_ports_in(alloc, change, tree, out)?;
            count = count.saturating_add(put);
        }
    }
    Ok(count)
}
