//! Laws of the steps of a change. Their functions do nothing: a caller has their clauses.
ghost use Rattle.std.specs.Prelude.{◌≡◌, ◌+◌, ◌++◌, ℕ, Bool, true, List, [], Option};
ghost use Rattle.std.specs.List.{AllByRecursion, Contains, flat_map, sum_by};
ghost use Rattle.mst_change.specs.Reading.{IsInRange, LineRead};
ghost use Rattle.mst_change.specs.Steps.{all_lines, change_of, lines_from};
ghost use Rattle.mst_graph.specs.Lists.{has_any};
ghost use Rattle.mst_lang.specs.declared.line.Version.TheVariants.{V1};
ghost use Rattle.mst_net.specs.tables.Tables.{Net, IsNetwork};
ghost use Rattle.mst_policy.specs.Leaving.{Leaving as LeavingOf};
ghost use Rattle.mst_policy.specs.declared.policy.PolicyLine.{PolicyLine as LineOf};
ghost use Rattle.mst_verdict.specs.Setting.{after_lines, after_steps};
ghost use Rattle.mst_verdict.specs.Stepping.{AreWatched, Steps};
ghost use Rattle.mst_forest.specs.Outcome.{IsOutcome, Outcome};
ghost use Rattle.mst_step_laws.specs.Together.{AreAllVids, as_cut, prior_but, together_all};
ghost use Rattle.mst_verdict.specs.sweep.Cuts.{AreCutsBy};
ghost use Rattle.mst_verdict.specs.sweeping.MovedVids.{ArePartsBut};
ghost use Rattle.mst_verdict.specs.sweep.declared.cuts.CutBy.TheVariants.{Step};
ghost use Rattle.mst_verdict.specs.reasons.Reasons.{AreReasons};
ghost use Rattle.mst_verdict.specs.reasons.declared.reason.Reason.{Reason as ReasonOf};
ghost use Rattle.mst_step_laws.specs.Unkept.{AreNewsNext, broken_by, mended_by, told_unkept};
ghost use Rattle.mst_verdict.specs.telling.Steps.{Change as ChangeOf, unkept_count};
ghost use Rattle.mst_verdict.specs.declared.stepping.Course.{Course as CourseOf};
ghost use Rattle.mst_rows.specs.Rows.{Row};
ghost use Rattle.mst_step_laws.specs.InReach.{IsInDiff, StepAndDiff};

use mst_change::laws::no_line_is_left;
use mst_diff::vlan_laws::islands_of_vid;
use mst_forest::laws::{has_outcome, one_outcome};
use mst_graph::laws::group_lists;
use mst_ids::Vid;
use mst_net::laws::networks;
use mst_verdict::laws::one_judgement;
use mst_verdict::sweeping_laws::one_step;
use mst_verdict::verify_laws::reason_lists;

/// What the steps of a change do in a network: there is one list of rows and one count of them, which the network, the lines of the steps
/// and the policy alone settle.
pub fn one_course()
    ensures { (net : Net) (steps : List (List LineRead)) (policy : Option (List LineOf)) (c d : CourseOf) (rows other : List Row) → IsNetwork net → AllByRecursion IsInRange (all_lines steps)
        → Steps net steps policy c rows → Steps net steps policy d other → (c ≡ d) × (rows ≡ other) }
{
    networks();
    one_outcome();
    one_step();
    one_judgement();
}

/// Each change has rows of what its steps do in a network, with a policy or without one.
pub fn has_course()
    ensures { (net : Net) (all : List (List LineRead)) (policy : Option (List LineOf)) → IsNetwork net → AllByRecursion IsInRange (all_lines all)
        → (c : CourseOf) × (rows : List Row) × Steps net all policy c rows }
{
    networks();
    has_outcome();
    islands_of_vid();
    group_lists::<Vid>();
    one_judgement();
}

/// Of a line of the policy, what is told behind a step and whether it was kept before say whether it is kept behind the step: so who reads all
/// that was told of it up to there knows it.
pub fn told_is_enough()
    ensures { (step : ℕ) (c : ChangeOf) → has_any c.now ≡ told_unkept step c }
{}

/// The lines of a policy that aren't kept at the start, with those that steps break, and without those that steps mend, are those that the last
/// network doesn't keep. Behind two steps, one after another, no row is told of a line twice.
pub fn unkept_to_unkept()
    ensures count { (net : Net) (steps : List (List LineRead)) (lines : List LineOf) (unread : ℕ) (c : CourseOf) (rows : List Row) → IsNetwork net → AllByRecursion IsInRange (all_lines steps)
        → (x : AreWatched net steps lines unread c rows) → unkept_count x.start + sum_by (broken_by lines) x.told ≡ c.unkept + sum_by (mended_by lines) x.told }
    ensures once { (net : Net) (steps : List (List LineRead)) (lines : List LineOf) (unread : ℕ) (c : CourseOf) (rows : List Row) → IsNetwork net → AllByRecursion IsInRange (all_lines steps)
        → (x : AreWatched net steps lines unread c rows) → AreNewsNext lines x.told }
{
    networks();
    one_judgement();
}

/// Behind the first step of a change a promise that all bridges stay together, in all VIDs, is broken for the reasons that the step's `cut`
/// lines tell: for the same VIDs, and the same parts. What is meant to leave is left out of both.
pub fn together_is_uncut()
    ensures { (leaving : LeavingOf) (a b : Net) (o p : Outcome) (step : ℕ) (vids : List Bool) (cut : List ℕ) (rows : List Row) (reasons : List ReasonOf) → IsNetwork b → IsOutcome b p → AreAllVids vids
        → AreCutsBy (ArePartsBut leaving a o b p) (Step step) cut rows → AreReasons b p b [] (prior_but leaving a o) (together_all vids) reasons → flat_map (as_cut step) reasons ≡ rows }
{
    reason_lists();
}

/// Each VID that a step cuts or joins is in a `reach` row of the diff of the networks before it and after it. Where the step cuts the VID, the row
/// has an island before that isn't there afterwards, and where it joins it, one afterwards that wasn't there before.
pub fn cut_in_reach()
    ensures cut { (a b : Net) (t : StepAndDiff a b) (vid : ℕ) → Contains t.step.cut vid → (row : IsInDiff a b t vid) × (has_any row.sides.old ≡ true) }
    ensures joined { (a b : Net) (t : StepAndDiff a b) (vid : ℕ) → Contains t.step.joined vid → (row : IsInDiff a b t vid) × (has_any row.sides.new ≡ true) }
{
    one_outcome();
    islands_of_vid();
}

/// The network after steps is that of their lines one after another, wherever they part: so it is the network of a script with these lines
/// behind its own, and the networks between are those with the lines of the first steps behind. After all steps of a change it is that with
/// all lines of the change behind.
pub fn lines_behind()
    ensures between { (net : Net) (steps others : List (List LineRead)) → after_steps net (steps ++ others) ≡ after_steps (after_steps net steps) others }
    ensures behind { (net : Net) (script : List LineRead) (steps : List (List LineRead)) → after_steps (after_lines net script) steps ≡ after_lines net (script ++ all_lines steps) }
    ensures all { (net : Net) (lines : List (List ℕ)) → after_steps net (change_of lines) ≡ after_lines net (lines_from V1 1 lines) }
{
    no_line_is_left();
}
