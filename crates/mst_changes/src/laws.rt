//! Laws of the rows of changes. Their functions do nothing: a caller has their clauses.
ghost use Rattle.std.specs.Prelude.{◌≡◌, []};
ghost use Rattle.mst_tables.specs.Tables.{Net, IsNetwork};
ghost use Rattle.mst_roles.specs.forest.Outcome.{Outcome, IsOutcome};
ghost use Rattle.mst_changes.specs.ChangesText.{all_changes};
ghost use Rattle.mst_changes.specs.Kept.{entries_of};

use mst_roles::forest_laws::one_outcome;

/// Two networks have one list of rows, whichever settled outcomes they are made by.
pub fn one_list()
    ensures { (a b : Net) (o p q r : Outcome) → IsNetwork a → IsNetwork b → IsOutcome a o → IsOutcome a q → IsOutcome b p → IsOutcome b r
        → all_changes a o b p ≡ all_changes a q b r }
{
    one_outcome();
}

/// What is kept of two networks settles the rows: networks of equal entries have the same ones.
pub fn entries_tell()
    ensures { (a b c d : Net) (o p q r : Outcome) → entries_of a o ≡ entries_of c q → entries_of b p ≡ entries_of d r → all_changes a o b p ≡ all_changes c q d r }
{}

/// A network has none against itself.
pub fn no_change()
    ensures { (a : Net) (o : Outcome) → all_changes a o a o ≡ [] }
{}
