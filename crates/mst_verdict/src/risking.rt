ghost use Rattle.std.specs.Prelude.{◌≡◌, ◌≤◌, ◌++◌, List, IfOk, OnOk, length};
ghost use Rattle.mst_rows.specs.Rows.{Row};
ghost use Rattle.mst_sweeping.specs.Sweeping.{Puts};
ghost use Rattle.mst_sweeping.specs.plan.Plan.{IsPlan};
ghost use Rattle.mst_graph.specs.Lists.{has_any};
ghost use Rattle.mst_verdict.specs.Risking.{TellsRisks, refused_line, refused_risks};

use crate::judging::lacking_items;
use mst_forest::Settled;
use mst_net::Network;
use mst_policy::PolicyLine;
use mst_rows::Rows;
use mst_sweeping::{Plan, sweep_risks};
use mst_telling::{Hazards, put_lacking_line, put_unread};
use std::alloc::{AllocError, Global};

/// What is counted of the risks of a policy.
#[derive(Clone, Copy, Debug, PartialEq, Eq)]
pub struct RiskCounts {
    /// How many lines can't be read, or are of risks and refused.
    pub refused: u64,
    /// How many risks cut some VID.
    pub cuts: u64,
}

/// Puts that a line can't be read, or that it is of a risk and refused in a network, and answers whether it does.
fn put_refused_line<R: Rows>(
    plan: &Settled,
    line: &PolicyLine,
    out: &mut R,
) -> Result<bool, AllocError>
    ensures is { IfOk result (λ is_any. is_any ≡ has_any (refused_line plan.now.net line.now)) }
    ensures put { (first : R) (rows : List Row) → R.grew first out.old rows → OnOk result (R.grew first out.new (rows ++ refused_line plan.now.net line.now)) }
{
    match line.risk() {
        None => put_unread(None, line, out),
        Some(risk) => put_lacking_line(line, lacking_items(plan, risk), out),
    }
}

/// Puts this of each of these lines, and answers how many of them can't be read or are refused.
fn put_refused_risks<R: Rows>(
    plan: &Settled,
    lines: &[PolicyLine],
    out: &mut R,
) -> Result<u64, AllocError>
    ensures count { IfOk result (λ count. count ≡ length (refused_risks plan.now.net lines.now)) }
    ensures few { IfOk result (λ count. count ≤ length lines.now) }
    ensures put { (first : R) (rows : List Row) → R.grew first out.old rows → OnOk result (R.grew first out.new (rows ++ refused_risks plan.now.net lines.now)) }
{
    let mut count = 0;
    for line in lines {
        if put_refused_line(plan, line, out)? {
            count += 1;
        }
    }
    Ok(count)
}

/// Puts what each risk of a policy does to a network, by its plan: first which lines can't be read, or are of risks and refused, then for each risk what all its failures do at once,
/// as soon as it is known, and a last row that counts them. Promises are passed over. `AllocError`: memory was wanted
/// and refused; some of the rows may have been put.
pub fn sweep_policy<R: Rows>(
    alloc: Global,
    network: &Network,
    plan: &Plan,
    lines: &[PolicyLine],
    out: &mut R,
) -> Result<RiskCounts, AllocError>
    requires { IsPlan network.now.net network.now.numbers plan.now }
    ensures told { IfOk result (λ counts. (rows : List Row) × TellsRisks network.now.net lines.now counts rows × Puts R.grew out.old out.new rows) }
    ensures few { IfOk result (λ counts. counts.refused ≤ length lines.now) }
{
    let settled = Settled::new(network, &plan.view, &plan.forest);
    let refused = put_refused_risks(&settled, lines, out)?;
    let hazards = Hazards::new(alloc, &plan.view, lines)?;
    let risks = hazards.risks(alloc)?;
    let cuts = sweep_risks(alloc, network, plan, risks.as_slice(), out)?;
    Ok(RiskCounts { refused, cuts })
}
