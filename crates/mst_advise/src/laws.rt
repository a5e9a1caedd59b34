//! Laws of advice. Their functions do nothing: a caller has their clauses.
ghost use Rattle.std.specs.Prelude.{◌≡◌, List};
ghost use Rattle.mst_net.specs.tables.Tables.{Net, IsNetwork};
ghost use Rattle.mst_roles.specs.forest.Outcome.{Outcome, IsOutcome};
ghost use Rattle.mst_advise.specs.Candidates.{AreCandidates};
ghost use Rattle.mst_advise.specs.declared.goal.Goal.{Goal as GoalOf};
ghost use Rattle.mst_advise.specs.declared.setting.Setting.{Setting as SettingOf};
ghost use Rattle.mst_rows.specs.Rows.{Row};
ghost use Rattle.mst_advise.specs.Advising.{Advises};
ghost use Rattle.mst_advise.specs.declared.advising.Advised.{Advised as AdvisedOf};

use mst_explain::laws::one_explained;
use mst_roles::forest_laws::one_outcome;

/// There is one list of candidates for a goal in a network, whichever settled outcome they are by.
pub fn one_candidates()
    ensures { (net : Net) (o q : Outcome) (goal : GoalOf) (candidates others : List (List SettingOf)) → IsNetwork net → IsOutcome net o → IsOutcome net q
        → AreCandidates net o goal candidates → AreCandidates net q goal others → candidates ≡ others }
{
    one_outcome();
    one_explained();
}

/// A network has one advice for a goal, which the network alone settles.
pub fn one_advice()
    ensures { (net : Net) (goal : GoalOf) (a b : AdvisedOf) (rows other : List Row) → IsNetwork net → Advises net goal a rows → Advises net goal b other → (a ≡ b) × (rows ≡ other) }
{
    one_outcome();
    one_candidates();
    mst_sweeping::laws::one_step();
}
