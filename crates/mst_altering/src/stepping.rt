ghost use Rattle.std.specs.Prelude.{◌≡◌, ◌≤◌, ◌<◌, ◌^◌, ◌+◌, ◌++◌, length, true, List, IfOk, OnOk};
ghost use Rattle.std.specs.Option.{option_map};
ghost use Rattle.mst_change.specs.Steps.{all_lines};
ghost use Rattle.mst_verdict.specs.Setting.{after_steps};
ghost use Rattle.mst_verdict.specs.Stepping.{IsFew, Steps, lines_of as policy_lines};
ghost use Rattle.mst_rows.specs.Rows.{Row};

use mst_change::Change;
use mst_policy::Policy;
use mst_rows::Rows;
use mst_tool::Planner;
use mst_verdict::{Course, step_network};
use std::alloc::AllocError;

/// Takes the steps of a change one after another, each settled before the next, and puts what each does: which of its lines are refused,
/// which roots, roles and VIDs it moves, which VIDs it cuts and joins, which ports begin anew, and of a policy what is new: which of its
/// lines aren't kept after it, for a reason that wasn't there before, and which are kept again. In front stands which lines can't be
/// read, and which aren't kept before the first step. A last row counts the steps, and the answer is what is counted. The planner is
/// then that of the network after the last step.
///
/// Three plans stand at a time, the first one among them: a step costs one repair of the trees, and what carries VIDs is looked at once. `AllocError`: memory was
/// wanted and refused; some of the rows may have been put, and the planner is that of a network between, which isn't settled.
pub fn put_steps<R: Rows>(
    planner: &mut Planner,
    change: &Change,
    policy: Option<&Policy>,
    out: &mut R,
) -> Result<Course, AllocError>
    requires settled { planner.old.is_settled ≡ true }
    requires few { length (all_lines change.now.ended) < 2 ^ 64 }
    ensures told { (first : R) (before : List Row) → R.grew first out.old before
        → IfOk result (λ course. (rows : List Row) × Steps planner.old.contents.net change.now.ended (option_map (λ p. p.now) policy.entry) course rows × R.grew first out.new (before ++ rows)) }
    ensures few { IfOk result (λ course. IsFew course change.now.ended) }
    ensures few_policy { IfOk result (λ course. course.unread ≤ length (policy_lines (option_map (λ p. p.now) policy.entry)) + 1) }
    ensures network { OnOk result (planner.new.contents.net ≡ after_steps planner.old.contents.net change.now.ended) }
    ensures settled { OnOk result (planner.new.is_settled ≡ true) }
    ensures mark { planner.new.mark ≡ planner.old.mark }
{
    let (mut network, mut plan) = planner.take();
    let course = step_network(
        planner.alloc(),
        &mut network,
        &mut plan,
        change.steps(),
        policy,
        out,
    )?;
    planner.give(network, plan);
    Ok(course)
}
