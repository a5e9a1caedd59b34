ghost use Rattle.std.specs.Prelude.{◌≡◌, ◌++◌, true, List, IfOk};
ghost use Rattle.mst_rows.specs.Rows.{Row};
ghost use Rattle.mst_between.specs.Differing.{Differs};

use mst_diff::{Differing, put_diff};
use mst_rows::Rows;
use mst_tool::Planner;
use std::alloc::AllocError;

/// Puts what the change from this planner's network to another's does, both settled: the rows of what differs, in
/// regions, roots, roles and islands of VIDs, and answers how much of each. The networks alone settle it.
/// `AllocError`: memory was wanted and refused; some of the rows may have been put.
pub fn put_difference<R: Rows>(
    planner: &Planner,
    new: &Planner,
    out: &mut R,
) -> Result<Differing, AllocError>
    requires old { planner.now.is_settled ≡ true }
    requires new { new.now.is_settled ≡ true }
    ensures { (first : R) (before : List Row) → R.grew first out.old before
        → IfOk result (λ counts. (rows : List Row) × Differs planner.now.contents.net new.now.contents.net counts rows × R.grew first out.new (before ++ rows)) }
{
    let before = planner.settled();
    let after = new.settled();
    before.known();
    after.known();
    put_diff(planner.alloc(), &before, &after, out)
}
