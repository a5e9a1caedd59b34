//! Laws of the rows of a plan. Their functions do nothing: a caller has their clauses.
ghost use Rattle.std.specs.Prelude.{◌≡◌, List};
ghost use Rattle.mst_tables.specs.Tables.{Net, IsNetwork};
ghost use Rattle.mst_rows.specs.Rows.{Row};
ghost use Rattle.mst_vlan.specs.forest.Outcome.{Outcome};
ghost use Rattle.mst_plan_text.specs.PlanText.{ArePlanRows};

use mst_graph::laws::group_lists;
use mst_text::vlan_laws::islands_of_vid;

/// Each network has rows of its plan.
pub fn has_plan()
    ensures { (net : Net) (o : Outcome) → IsNetwork net → (rows : List Row) × ArePlanRows net o rows }
{
    islands_of_vid();
    group_lists::<mst_ids::Vid>();
}

/// And it has them only.
pub fn one_plan()
    ensures { (net : Net) (o : Outcome) (rows other : List Row) → ArePlanRows net o rows → ArePlanRows net o other → rows ≡ other }
{
    islands_of_vid();
    group_lists::<mst_ids::Vid>();
}
