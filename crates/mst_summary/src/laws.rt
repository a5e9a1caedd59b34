//! Laws of the summary. Their functions do nothing: a caller has their clauses.
ghost use Rattle.std.specs.Prelude.{◌≡◌, ◌==◌, ℕ, true, List, None, Some};
ghost use Rattle.std.specs.List.{Contains};
ghost use Rattle.mst_tables.specs.Tables.{Net, IsNetwork};
ghost use Rattle.mst_vlan.specs.forest.Outcome.{Outcome, IsOutcome};
ghost use Rattle.mst_rows.specs.Rows.{Row};
ghost use Rattle.mst_summary.specs.declared.roots.Follower.{Follower};
ghost use Rattle.mst_summary.specs.Roots.{next_of, IsNext};
ghost use Rattle.mst_summary.specs.SummaryText.{AreSummaryRows};

use mst_graph::laws::group_lists;
use mst_ids::Vid;
use mst_vlan::forest_laws::one_outcome;
use mst_vlan::laws::islands_of_vid;

/// A network has one list of rows as its summary, whichever settled outcomes it is made by, and there is one.
pub fn one_summary()
    ensures one_list { (net : Net) (o q : Outcome) → IsNetwork net → IsOutcome net o → IsOutcome net q
        → (rows other : List Row) → AreSummaryRows net o rows → AreSummaryRows net q other → rows ≡ other }
    ensures some_rows { (net : Net) (o : Outcome) → IsNetwork net → (rows : List Row) × AreSummaryRows net o rows }
{
    one_outcome();
    islands_of_vid();
    group_lists::<Vid>();
}

/// The bridge that is told as next after a root has the least identifier of the others that name this root, and there is
/// none only where no other names it.
pub fn next_is_least()
    ensures next { (id : ℕ) (all : List Follower) (next : Follower) → next_of id all ≡ Some next → IsNext id all next }
    ensures none { (id : ℕ) (all : List Follower) → next_of id all ≡ None → (f : Follower) → Contains all f → (f.id == id) ≡ true }
{}
