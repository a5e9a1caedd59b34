//! Laws of the steps of a change. Their functions do nothing: a caller has their clauses.
ghost use Rattle.std.specs.Prelude.{◌≡◌, ◌↔◌, ℕ, Bool, List, Ok, Option};
ghost use Rattle.mst_altering.specs.Alter.{Alters};
ghost use Rattle.mst_altering.specs.Well.{IsWell};
ghost use Rattle.mst_io.specs.declared.outcome.Outcome.{Outcome};
ghost use Rattle.mst_tool.specs.Run.{status_of};
ghost use Rattle.mst_tool.specs.engine.print.declared.form.Form.{Form};

use mst_tool::status_laws::statuses;

/// Telling the steps of a change ends with status 0 exactly when no line of the script, of the change or of the policy is refused, for whatever
/// reason, no step cuts a VID or breaks a line of the policy, and the last network keeps each line of it.
pub fn well_where_nothing_breaks()
    ensures { (form : Form) (judged : Bool) (scripts changes policies : Option (List ℕ)) (text : List ℕ) (outcome : Outcome) → (a : Alters form judged scripts changes policies text outcome)
        → (status_of (Ok outcome) ≡ 0) ↔ IsWell a.steps a.course }
{
    statuses();
}
