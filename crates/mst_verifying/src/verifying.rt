ghost use Rattle.std.specs.Prelude.{◌≡◌, ◌≤◌, ◌+◌, ◌++◌, true, length, List, IfOk};
ghost use Rattle.mst_verdict.specs.Verifying.{Verifies};
ghost use Rattle.mst_verdict.specs.Risking.{TellsRisks};
ghost use Rattle.mst_verdict.specs.telling.Judged.{counts_of};
ghost use Rattle.mst_rows.specs.Rows.{Row};

use mst_policy::Policy;
use mst_rows::Rows;
use mst_tool::Planner;
use mst_verdict::{RiskCounts, Verdict, sweep_policy, verify_network};
use std::alloc::AllocError;

/// Puts whether the network does what a policy promises: the policy's refused lines, then for each line that is judged why it isn't
/// kept, in the network itself and then in that of each failure and of each risk for which it asks, and a last row that counts them. What is so without
/// a failure is told once, with after how many failures it is so, too. A line that is judged has no rows just where its promise is
/// kept. A policy of which no line is judged and none refused is refused as a whole, and so counts as a refused line. Each failure that some line asks for is looked at once, by one repair of the plan that stands, and isn't made. `AllocError`: memory was wanted and
/// refused; some of the rows may have been put.
pub fn put_verification<R: Rows>(
    planner: &Planner,
    policy: &Policy,
    out: &mut R,
) -> Result<Verdict, AllocError>
    requires { planner.now.is_settled ≡ true }
    ensures told { (first : R) (before : List Row) → R.grew first out.old before
        → IfOk result (λ verdict. (rows : List Row) × Verifies planner.now.contents.net policy.now (counts_of verdict) rows × R.grew first out.new (before ++ rows)) }
    ensures few { IfOk result (λ verdict. verdict.refused ≤ length policy.now + 1) }
{
    verify_network(
        planner.alloc(),
        planner.network(),
        planner.plan(),
        policy.as_slice(),
        out,
    )
}

/// Puts what each risk of a policy does to the network: the policy's lines that can't be read, or are of risks and refused, then what each risk does, all its
/// failures at once, and a last row that counts them. Each is looked at by one repair of the plan that stands, and isn't made. `AllocError`:
/// memory was wanted and refused; some of the rows may have been put.
pub fn put_risks<R: Rows>(
    planner: &Planner,
    policy: &Policy,
    out: &mut R,
) -> Result<RiskCounts, AllocError>
    requires { planner.now.is_settled ≡ true }
    ensures told { (first : R) (before : List Row) → R.grew first out.old before
        → IfOk result (λ counts. (rows : List Row) × TellsRisks planner.now.contents.net policy.now counts rows × R.grew first out.new (before ++ rows)) }
    ensures few { IfOk result (λ counts. counts.refused ≤ length policy.now) }
{
    sweep_policy(
        planner.alloc(),
        planner.network(),
        planner.plan(),
        policy.as_slice(),
        out,
    )
}
