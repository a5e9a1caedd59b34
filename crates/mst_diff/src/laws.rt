//! Laws of the rows of what a change does. Their functions do nothing: a caller has their clauses.
ghost use Rattle.std.specs.Prelude.{◌≡◌, ◌↔◌, ◌∷◌, [], ℕ, List};
ghost use Rattle.mst_tables.specs.Tables.{Net, IsNetwork};
ghost use Rattle.mst_vlan.specs.forest.Outcome.{Outcome, IsOutcome};
ghost use Rattle.mst_rows.specs.Rows.{Row};
ghost use Rattle.mst_diff.specs.AlikeNets.{AreAlike};
ghost use Rattle.mst_diff.specs.DiffText.{AreDiffRowsOf, diff_row};
ghost use Rattle.mst_diff.specs.Ports.{port_rows};
ghost use Rattle.mst_diff.specs.Reach.{AreSides, Sides, AreReachRows};
ghost use Rattle.mst_diff.specs.Regions.{region_changes};
ghost use Rattle.mst_diff.specs.Roots.{root_changes};
ghost use Rattle.mst_diff.specs.Turned.{AreTurned, turned_sides};
ghost use Rattle.mst_diff.specs.declared.diff.Differing.{Differing as Counts};

use mst_graph::laws::group_lists;
use mst_ids::Vid;
use mst_vlan::forest_laws::one_outcome;
use mst_vlan::laws::islands_of_vid;

/// Two networks have one list of rows and one count of what differs, whichever settled outcomes they are made by, and there is
/// one.
pub fn one_diff()
    ensures one { (a b : Net) (o p q r : Outcome) → IsNetwork a → IsNetwork b → IsOutcome a o → IsOutcome b p → IsOutcome a q → IsOutcome b r
        → (c d : Counts) (rows other : List Row) → AreDiffRowsOf a o b p c rows → AreDiffRowsOf a q b r d other → (rows ≡ other) × (c ≡ d) }
    ensures some { (a b : Net) (o p : Outcome) → IsNetwork a → IsNetwork b → (c : Counts) × (rows : List Row) × AreDiffRowsOf a o b p c rows }
{
    one_outcome();
    islands_of_vid();
    group_lists::<Vid>();
}

/// A network differs from itself in nothing: the last row stands alone.
pub fn no_difference()
    ensures { (a : Net) (o : Outcome) (c : Counts) (rows : List Row) → AreDiffRowsOf a o a o c rows
        → (rows ≡ diff_row c ∷ []) × (c ≡ record { regions = 0; roots = 0; ports = 0; vlans = 0 }) }
{
    islands_of_vid();
}

/// The change back has the same rows with their sides changed over, in the same order: of regions, of roots and of ports.
/// The sides of each VID are changed over, too. So VIDs that had the same sides have the same sides again, and the rows of
/// VIDs are of the same groups, in the same order, with their sides changed over. So the numbers of what differs are the
/// same.
pub fn turned()
    ensures regions { (a b : Net) → AreTurned (region_changes a b) (region_changes b a) }
    ensures roots { (a b : Net) (o p : Outcome) → AreTurned (root_changes a o b p) (root_changes b p a o) }
    ensures ports { (a b : Net) (o p : Outcome) → AreTurned (port_rows a o b p) (port_rows b p a o) }
    ensures sides { (a b : Net) (o p : Outcome) (vid : ℕ) (sides others : Sides) → AreSides a o b p vid sides → AreSides b p a o vid others → others ≡ turned_sides sides }
    ensures reach { (a b : Net) (o p : Outcome) (rows others : List Row) (v w : ℕ) → AreReachRows a o b p rows v → AreReachRows b p a o others w → AreTurned rows others }
    ensures counts { (a b : Net) (o p : Outcome) (c d : Counts) (rows other : List Row) → AreDiffRowsOf a o b p c rows → AreDiffRowsOf b p a o d other → c ≡ d }
{
    islands_of_vid();
    group_lists::<Vid>();
}

/// The last row stands alone exactly where nothing is counted: no row, and no VID whose islands have other bridges.
/// And that is exactly where the networks are alike: each bridge that both have has the same kind, configuration name
/// and revision and the same first bridge of its region; each bridge that has a root in a tree in both has the same one;
/// each logical port has the same role in each tree, or none in both; and the islands of each VID that have a bridge have
/// the same ones in both.
pub fn last_line()
    ensures counted { (a b : Net) (o p : Outcome) (c : Counts) (rows : List Row) → AreDiffRowsOf a o b p c rows
        → (c ≡ record { regions = 0; roots = 0; ports = 0; vlans = 0 }) ↔ (rows ≡ diff_row c ∷ []) }
    ensures same { (a b : Net) (o p : Outcome) (c : Counts) (rows : List Row) → AreDiffRowsOf a o b p c rows → (rows ≡ diff_row c ∷ []) ↔ AreAlike a o b p }
{
    islands_of_vid();
}
