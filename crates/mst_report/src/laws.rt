//! Laws of answers. Their functions do nothing: a caller has their clauses.
ghost use Rattle.std.specs.Prelude.{◌≡◌, List, Ok, Result};
ghost use Rattle.std.specs.List.{flat_map};
ghost use Rattle.mst_lang.specs.declared.line.Query.{Query};
ghost use Rattle.mst_lang.specs.declared.line.Query.TheVariants.{Digest, Save};
ghost use Rattle.mst_net.specs.tables.Tables.{Net, IsNetwork};
ghost use Rattle.mst_net.specs.tables.declared.refusal.Refusal.{Refusal};
ghost use Rattle.mst_rows.specs.Lines.{row_line};
ghost use Rattle.mst_rows.specs.Rows.{Row};
ghost use Rattle.mst_report.specs.Answers.{Answers};
ghost use Rattle.mst_report.specs.Digest.{digest_line};
ghost use Rattle.mst_report.specs.State.{State, IsState, IsMark, IsMarkNow};
ghost use Rattle.mst_changes.specs.declared.subject.Entry.{Entry};

use mst_changes::laws::entries_tell;
use mst_note_text::laws::notes;
use mst_plan_text::forest_laws::{has_outcome, one_outcome};
use mst_plan_text::laws::{has_plan, one_plan};
use mst_plan_text::text_laws::{has_rows, one_rows};

/// Each query has an answer in each state, rows or a refusal.
pub fn has_answer()
    ensures { (query : Query) (s : State) → IsState s → (answer : Result (List Row) Refusal) × Answers query s answer }
{
    has_outcome();
    has_plan();
    has_rows();
    notes();
}

/// A query has one answer: it is a function of the state alone, whatever edits made the network and whatever made the
/// marked one.
pub fn one_answer()
    ensures { (query : Query) (s : State) (a b : Result (List Row) Refusal) → IsNetwork s.net → Answers query s a → Answers query s b → a ≡ b }
{
    one_outcome();
    one_plan();
    one_rows();
    notes();
    entries_tell();
}

/// What `digest` tells is the MD5 of the text that `save` tells of the same state, in lower case hexadecimal digits.
pub fn digest_of_saved()
    ensures { (s : State) (saved told : List Row) → Answers Save s (Ok saved) → Answers Digest s (Ok told) → flat_map row_line told ≡ digest_line (flat_map row_line saved) }
{}

/// A network has entries to mark, and one list of them.
pub fn entries_of_network()
    ensures some { (net : Net) → IsNetwork net → (entries : List Entry) × IsMarkNow net entries }
    ensures one { (net : Net) (entries others : List Entry) → IsNetwork net → IsMarkNow net entries → IsMarkNow net others → entries ≡ others }
    ensures mark { (net : Net) (entries : List Entry) → IsNetwork net → IsMarkNow net entries → IsMark entries }
{
    has_outcome();
    one_outcome();
}
