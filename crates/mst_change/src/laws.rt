//! Laws of changes. Their functions do nothing: a caller has their clauses.
ghost use Rattle.std.specs.Prelude.{◌≡◌, ℕ, List};
ghost use Rattle.std.specs.List.{AllByRecursion};
ghost use Rattle.mst_lang.specs.declared.line.Version.TheVariants.{V1};
ghost use Rattle.mst_change.specs.Reading.{IsInRange};
ghost use Rattle.mst_change.specs.Steps.{all_lines, change_of, lines_from};

/// The steps of a change have its lines that do something, each once and in their order, wherever blank lines stand between.
pub fn no_line_is_left()
    ensures { (lines : List (List ℕ)) → all_lines (change_of lines) ≡ lines_from V1 1 lines }
{}

/// All that the edits of a change say is in its range.
pub fn edits_in_range()
    ensures { (lines : List (List ℕ)) → AllByRecursion IsInRange (all_lines (change_of lines)) }
{
    mst_lang::laws::edits_in_range();
}
