ghost use Rattle.std.specs.Prelude.{◌≡◌, ◌++◌, true, List, None, IfOk};
ghost use Rattle.mst_advise.specs.Advising.{Advises};
ghost use Rattle.mst_questions.specs.Unadvised.{unadvised_of};
ghost use Rattle.mst_rows.specs.Rows.{Row};

use mst_advise::{Advised, Goal, advise_network};
use mst_rows::Rows;
use mst_tool::Planner;
use std::alloc::AllocError;

/// Puts which settings bring about what is wanted of the network, which nothing leaves [unadvised](unadvised_in): the first of
/// its candidates after which the goal holds, with what they do. `AllocError`: memory was wanted and refused; some of the rows may
/// have been put. In either case the planner is then of any network, and isn't settled; it keeps its mark.
pub fn put_advice<R: Rows>(
    planner: &mut Planner,
    goal: &Goal,
    out: &mut R,
) -> Result<Advised, AllocError>
    requires settled { planner.old.is_settled ≡ true }
    requires advised { unadvised_of planner.old.contents.net goal.now ≡ None }
    ensures told { (first : R) (before : List Row) → R.grew first out.old before
        → IfOk result (λ advice. (rows : List Row) × Advises planner.old.contents.net goal.now advice rows × R.grew first out.new (before ++ rows)) }
    ensures mark { planner.new.mark ≡ planner.old.mark }
{
    let (mut network, plan) = planner.take();
    advise_network(planner.alloc(), goal, &mut network, &plan, out)
}
