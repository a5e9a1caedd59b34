//! Laws of verifying. Their functions do nothing: a caller has their clauses.
ghost use Rattle.std.specs.Prelude.{◌≡◌, ◌↔◌, ℕ, List, Ok, Option};
ghost use Rattle.mst_io.specs.declared.outcome.Outcome.{Outcome};
ghost use Rattle.mst_tool.specs.Run.{status_of};
ghost use Rattle.mst_tool.specs.engine.Steps.{left_by};
ghost use Rattle.mst_tool.specs.engine.print.declared.form.Form.{Form};
ghost use Rattle.mst_tool.specs.engine.report.State.{empty_state};
ghost use Rattle.mst_verifying.specs.Verify.{Verifies};
ghost use Rattle.mst_verifying.specs.Well.{IsWell};
ghost use Rattle.mst_verifying.specs.declared.question.PolicyQuestion.TheVariants.{Promises};

use mst_tool::status_laws::statuses;

/// Verifying ends with status 0 exactly when no line of the script or of the policy is refused, for whatever reason, and the network that the
/// script leaves keeps each promise of the policy.
pub fn well_where_kept()
    ensures { (form : Form) (scripts policies : Option (List ℕ)) (text : List ℕ) (outcome : Outcome) → (v : Verifies form Promises scripts policies text outcome)
        → (status_of (Ok outcome) ≡ 0) ↔ IsWell (left_by empty_state v.steps).net v.tells.1.1.outcome v.steps v.lines v.tells.0 }
{
    statuses();
}
