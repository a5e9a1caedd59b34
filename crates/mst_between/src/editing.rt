ghost use Rattle.std.specs.Prelude.{◌++◌, List, IfOk};
ghost use Rattle.mst_rows.specs.Rows.{Row};
ghost use Rattle.mst_between.specs.Editing.{EditsTo};

use mst_edits::put_edits;
use mst_rows::Rows;
use mst_tool::Planner;
use std::alloc::AllocError;

/// Puts the lines of a script of version 2 that make another planner's network of this one's, the line that says the version first, and
/// answers whether there is an edit. The networks alone settle it, so neither planner need be settled. `AllocError`: memory was wanted
/// and refused; some of the rows may have been put.
pub fn put_edits_of<R: Rows>(
    planner: &Planner,
    new: &Planner,
    out: &mut R,
) -> Result<bool, AllocError>
    ensures { (first : R) (before : List Row) → R.grew first out.old before
        → IfOk result (λ differs. (rows : List Row) × EditsTo planner.now.contents.net new.now.contents.net differs rows × R.grew first out.new (before ++ rows)) }
{
    put_edits(planner.alloc(), planner.network(), new.network(), out)
}
