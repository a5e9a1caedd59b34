//! Laws of notes. Their functions do nothing: a caller has their clauses.
ghost use Rattle.std.specs.Prelude.{◌≡◌, List};
ghost use Rattle.mst_tables.specs.Tables.{Net, IsNetwork};
ghost use Rattle.mst_roles.specs.forest.Outcome.{Outcome, IsOutcome};
ghost use Rattle.mst_rows.specs.Rows.{Row};
ghost use Rattle.mst_note_text.specs.NotesText.{AreNoteRows};

use mst_roles::forest_laws::nested;

/// The notes on a settled outcome of a network are one list: there is one, and no other.
pub fn notes()
    ensures some_rows { (net : Net) (o : Outcome) → IsNetwork net → IsOutcome net o → (notes : List Row) × AreNoteRows net o notes }
    ensures one_list { (net : Net) (o : Outcome) (notes other : List Row) → IsNetwork net → IsOutcome net o → AreNoteRows net o notes → AreNoteRows net o other → notes ≡ other }
{
    nested();
}
