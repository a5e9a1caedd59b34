ghost use Rattle.std.specs.Prelude.{◌≡◌, ◌++◌, true, List, OnOk};
ghost use Rattle.mst_rows.specs.Rows.{Row};
ghost use Rattle.mst_questions.specs.Summarizing.{Summarizes};

use mst_picture::put_summary;
use mst_roles::Settled;
use mst_rows::Rows;
use mst_tool::Planner;
use std::alloc::AllocError;

/// Puts the summary of the network: how much there is, the roots and the ports that block in each tree, how many islands
/// VIDs have, and the logical LANs that don't carry all of them. The network alone settles it. `AllocError`: memory was
/// wanted and refused; some of the rows may have been put.
pub fn put_summary_of<R: Rows>(planner: &Planner, out: &mut R) -> Result<(), AllocError>
    requires { planner.now.is_settled ≡ true }
    ensures { (first : R) (before : List Row) → R.grew first out.old before
        → OnOk result ((rows : List Row) × Summarizes planner.now.contents.net rows × R.grew first out.new (before ++ rows)) }
{
    let plan = planner.plan();
    let settled = Settled::new(planner.network(), &plan.view, &plan.forest);
    settled.known();
    put_summary(planner.alloc(), &settled, &plan.regions, out)
}
