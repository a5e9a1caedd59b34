ghost use Rattle.std.specs.Prelude.{◌≡◌, ◌++◌, ◌||◌, true, nat_lt, List, IfOk};
ghost use Rattle.mst_rows.specs.Rows.{Row};
ghost use Rattle.mst_sweeping.specs.Sweeping.{Puts};
ghost use Rattle.mst_path.specs.Places.{named_path};
ghost use Rattle.mst_tracing.specs.Tracing.{AreTold, Traces, is_none};

use crate::always::{Fates, put_fates};
use crate::asked::Asked;
use mst_path::{Hop, path, put_path};
use mst_rows::Rows;
use mst_tool::Planner;
use std::alloc::AllocError;

/// Puts the path that is asked for, and where that is asked what becomes of it after each single failure of the network but those of its two
/// bridges: a row of each failure after which it is another one or there is none any more, and a last row that counts them. The answer
/// is whether there is no path, in the network or after some of these failures. `AllocError`: memory was wanted and refused; some of the rows
/// may have been put.
///
/// The path takes about a step for each port; what becomes of it as many for each failure, beside one repair of the plan that stands.
pub fn put_trace<R: Rows>(planner: &Planner, asked: &Asked, out: &mut R) -> Result<bool, AllocError>
    requires { planner.now.is_settled ≡ true }
    ensures { (first : R) (before : List Row) → R.grew first out.old before
        → IfOk result (λ is_broken. (rows : List Row) × Traces planner.now.contents.net asked.now is_broken rows × R.grew first out.new (before ++ rows)) }
{
    let plan = planner.settled();
    plan.known();
    let found = path(planner.alloc(), &plan, &asked.trace)?;
    put_path(&asked.trace, &found, out)?;
    put_after_failures(planner, asked, &found, out)
}

/// Puts what becomes of this path after failures, where that is asked, and answers whether there is no path, now or then.
fn put_after_failures<R: Rows>(
    planner: &Planner,
    asked: &Asked,
    found: &Option<Vec<Hop>>,
    out: &mut R,
) -> Result<bool, AllocError>
    requires { planner.now.is_settled ≡ true }
    ensures { IfOk result (λ is_broken. (rows : List Row) × AreTold planner.now.contents.net asked.now (named_path found.now) is_broken rows × Puts R.grew out.old out.new rows) }
{
    if !asked.is_always {
        return Ok(is_lost(found));
    }
    let network = planner.network();
    let fates = put_fates(
        planner.alloc(),
        network,
        planner.plan(),
        &asked.trace,
        found,
        out,
    )?;
    Ok(is_broken(found, &fates))
}

/// Whether there is no path.
fn is_lost(found: &Option<Vec<Hop>>) -> bool
    ensures { result ≡ is_none (named_path found.now) }
{
    match found {
        None => true,
        Some(_) => false,
    }
}

/// Whether there is no path, or after some failure there is none any more.
fn is_broken(found: &Option<Vec<Hop>>, fates: &Fates) -> bool
    ensures { result ≡ (is_none (named_path found.now) || nat_lt 0 fates.now.nones) }
{
    is_lost(found) || fates.nones > 0
}
