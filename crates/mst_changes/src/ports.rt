ghost use Rattle.std.specs.Prelude.{◌≡◌, ◌++◌, List, IfOk};
ghost use Rattle.mst_rows.specs.Rows.{Row};
ghost use Rattle.mst_roles.specs.forest.Settled.{outcome_of};
ghost use Rattle.mst_changes.specs.PortChanges.{counted, port_change_rows};

use crate::merge::put_merged;
use crate::rows::push_ports;
use mst_ids::Tree;
use mst_roles::Settled;
use mst_rows::Rows;
use std::alloc::{AllocError, Global};

/// Puts the rows of the logical ports of either of two settled networks whose roles in a tree differ, by bridge and
/// number: those that the changes have of ports in that tree. It answers how many they are, to the greatest number of 64
/// bits. `AllocError`: memory was wanted and refused; some of them may have been put.
///
/// It goes once over the logical ports of both.
pub fn put_port_changes<R: Rows>(
    alloc: Global,
    old: &Settled,
    new: &Settled,
    tree: Tree,
    out: &mut R,
) -> Result<u64, AllocError>
    ensures { (first : R) (rows : List Row) → R.grew first out.old rows
        → let own = port_change_rows old.now.net (outcome_of old.now) new.now.net (outcome_of new.now) tree in IfOk result (λ count. (count ≡ counted own) × R.grew first out.new (rows ++ own)) }
{
    old.known();
    new.known();
    let mut olds = Vec::new(alloc);
    push_ports(old.view(), old.forest(), tree, &mut olds)?;
    let mut news = Vec::new(alloc);
    push_ports(new.view(), new.forest(), tree, &mut news)?;
    put_merged(olds.as_slice(), news.as_slice(), out)
}
