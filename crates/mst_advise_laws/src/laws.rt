//! Laws of advice. Their functions do nothing: a caller has their clauses.
ghost use Rattle.std.specs.Prelude.{ℕ, List};
ghost use Rattle.mst_tables.specs.Tables.{Net, IsNetwork};
ghost use Rattle.mst_lang.specs.Ranges.{InRange};
ghost use Rattle.mst_rows.specs.Lines.{row_line};
ghost use Rattle.mst_rows.specs.Rows.{Row};
ghost use Rattle.mst_forest.specs.Outcome.{Outcome, IsOutcome};
ghost use Rattle.mst_advise.specs.declared.goal.Goal.{Goal as GoalOf};
ghost use Rattle.mst_advise.specs.declared.setting.Setting.{Setting as SettingOf};
ghost use Rattle.mst_advise.specs.Advising.{Advises};
ghost use Rattle.mst_advise.specs.Settings.{edit_of};
ghost use Rattle.mst_advise.specs.Told.{setting_row};
ghost use Rattle.mst_advise.specs.declared.advising.Advised.TheVariants as advised;
ghost use Rattle.mst_advise_laws.specs.Greater.{IsAdvised, NoGreaterSuffices};
ghost use Rattle.mst_advise_laws.specs.Needed.{TellNeeded};
ghost use Rattle.mst_advise_laws.specs.Said.{SaysEdit};

use mst_forest::laws::one_outcome;

/// The priority that is told where a bridge is to be the root of a tree is the greatest: where the one candidate sets the bridge's own priority,
/// the bridge isn't the one root of those in question with any greater one, whichever settled outcome the network has then.
pub fn priority_is_greatest()
    ensures { (net : Net) (o : Outcome) (tree : ℕ) (b : List ℕ) (p : ℕ) → IsNetwork net → IsOutcome net o → IsAdvised net o tree b p → NoGreaterSuffices net tree b p }
{}

/// Of the edits that are advised, all that are counted, none can be left out: without any one of them the others don't bring about what is
/// wanted, whichever settled outcome the network has then.
pub fn none_is_needless()
    ensures { (net : Net) (goal : GoalOf) (count : ℕ) (rows : List Row) → IsNetwork net → Advises net goal (advised.Edits count) rows → TellNeeded goal net count rows }
{
    one_outcome();
}

/// The line of each setting that is advised is `edit` and a line of a script of version 2, which is read as that setting's edit: so what is
/// advised can be put into a script as it is told.
pub fn settings_read()
    ensures { (setting : SettingOf) → InRange (edit_of setting) → SaysEdit (row_line (setting_row setting)) (edit_of setting) }
{}
