ghost use Rattle.std.specs.Prelude.{◌+◌, ◌≤◌, List, IfOk, length};
ghost use Rattle.mst_sweeping.specs.plan.Plan.{IsPlan};
ghost use Rattle.mst_rows.specs.Rows.{Row};
ghost use Rattle.mst_verdict.specs.Verifying.{Verifies};
ghost use Rattle.mst_telling.specs.Judged.{Puts, counts_of};

use crate::judging::{Asking, judge_lines};
use crate::laws::told_where_unkept;
use mst_net::Network;
use mst_policy::{Leaving, PolicyLine};
use mst_rows::Rows;
use mst_sweeping::Plan;
use mst_telling::{Hazards, Verdict, put_verdict};
use std::alloc::{AllocError, Global};

/// Puts whether a network does what the lines of a policy promise, by its plan. `AllocError`: memory was wanted and refused; some of the
/// rows may have been put.
pub fn verify_network<R: Rows>(
    alloc: Global,
    network: &Network,
    plan: &Plan,
    lines: &[PolicyLine],
    out: &mut R,
) -> Result<Verdict, AllocError>
    requires { IsPlan network.now.net network.now.numbers plan.now }
    ensures told { IfOk result (λ verdict. (rows : List Row) × Verifies network.now.net lines.now (counts_of verdict) rows × Puts R.grew out.old out.new rows) }
    ensures few { IfOk result (λ verdict. verdict.refused ≤ length lines.now + 1) }
{
    told_where_unkept();
    let hazards = Hazards::new(alloc, &plan.view, lines)?;
    let events = hazards.events(alloc)?;
    let leaving = Leaving::none(alloc);
    let asking = Asking {
        prior: None,
        leaving: &leaving,
        is_last: true,
        events: events.as_slice(),
    };
    let judgement = judge_lines(alloc, network, plan, lines, &asking)?;
    put_verdict(alloc, lines, events.as_slice(), &judgement, out)
}
