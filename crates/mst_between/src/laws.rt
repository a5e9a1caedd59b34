ghost use Rattle.std.specs.Prelude.{◌≡◌, ◌↔◌, ◌∷◌, [], List};
ghost use Rattle.mst_tables.specs.Tables.{Net, IsNetwork};
ghost use Rattle.mst_diff.specs.AlikeNets.{AreAlike};
ghost use Rattle.mst_diff.specs.DiffText.{diff_row};
ghost use Rattle.mst_diff.specs.declared.diff.Differing.{Differing as Counts};
ghost use Rattle.mst_rows.specs.Rows.{Row};
ghost use Rattle.mst_between.specs.Differing.{Differs};

use mst_forest::laws::{has_outcome, one_outcome};

/// What the change from one network to another does: there is one list of rows and one count of what differs, which the networks
/// alone settle.
pub fn one_difference()
    ensures one { (a b : Net) (c d : Counts) (rows other : List Row) → IsNetwork a → IsNetwork b → Differs a b c rows → Differs a b d other → (rows ≡ other) × (c ≡ d) }
    ensures some { (a b : Net) → IsNetwork a → IsNetwork b → (c : Counts) × (rows : List Row) × Differs a b c rows }
{
    has_outcome();
    mst_diff::laws::one_diff();
}

/// A network differs from itself in nothing: the last row stands alone.
pub fn no_difference()
    ensures { (a : Net) (c : Counts) (rows : List Row) → IsNetwork a → Differs a a c rows
        → (rows ≡ diff_row c ∷ []) × (c ≡ record { regions = 0; roots = 0; ports = 0; vlans = 0 }) }
{
    one_outcome();
    mst_diff::laws::no_difference();
}

/// The last row stands alone exactly where nothing is counted, and that is exactly where the networks are alike.
pub fn last_line()
    ensures counted { (a b : Net) (c : Counts) (rows : List Row) → Differs a b c rows
        → (c ≡ record { regions = 0; roots = 0; ports = 0; vlans = 0 }) ↔ (rows ≡ diff_row c ∷ []) }
    ensures same { (a b : Net) (c : Counts) (rows : List Row) → (x : Differs a b c rows) → (rows ≡ diff_row c ∷ []) ↔ AreAlike a x.old b x.new }
{
    mst_diff::laws::last_line();
}

/// The change back: as much differs. That the rows are the same with their sides changed over, [`mst_diff::laws::turned`]
/// says of each part.
pub fn turned()
    ensures { (a b : Net) (c d : Counts) (rows other : List Row) → IsNetwork a → IsNetwork b → Differs a b c rows → Differs b a d other → c ≡ d }
{
    one_outcome();
    mst_diff::laws::turned();
}
