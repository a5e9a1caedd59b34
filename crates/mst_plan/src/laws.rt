//! Laws of the bound on settlings. Their functions do nothing: a caller has their clauses.
ghost use Rattle.std.specs.Prelude.{ℕ};
ghost use Rattle.mst_lang.specs.declared.line.Edit.{Edit};
ghost use Rattle.mst_net.specs.tables.Tables.{IsNetwork};
ghost use Rattle.mst_net.specs.tables.Contents.{Contents, IsNumbered, Commits};
ghost use Rattle.mst_trees.specs.forest.Forest.{Forest as ForestOf, IsForest};
ghost use Rattle.mst_trees.specs.forest.Outcome.{Outcome, IsOutcome};
ghost use Rattle.mst_plan.specs.ByName.{KeepsBoundByName, KeepBoundsByName, KeepFirstBounds, StandsFor, KeepNumbers};
ghost use Rattle.mst_plan.specs.Standing.{KeepsBounds, nothing, standing_of, settlings_of, msti_settlings};

use mst_trees::laws::one_outcome;

/// The bound on settlings by names of bridges: between the settled outcomes of a network before an edit and after it there
/// are at most twice as many settlings in a tree as bridges whose vector differs, and at least as many as those of them that
/// have one afterwards. What stands before and after are the trees of the plans (`standing_of`), and how
/// often says `settlings_of`.
pub fn bounded_by_name()
    ensures cist { (edit : Edit) (old new : Contents) (f g : ForestOf) → IsNetwork old.net → IsNetwork new.net → IsNumbered old.net old.numbers → IsNumbered new.net new.numbers → Commits edit old new
        → IsForest old.net old.numbers f → IsForest new.net new.numbers g → KeepsBounds (standing_of f) (standing_of g)
        → (o q : Outcome) → IsOutcome old.net o → IsOutcome new.net q → KeepsBoundByName o.cist.vector q.cist.vector (settlings_of (standing_of g) 0) }
    ensures mstis { (edit : Edit) (old new : Contents) (f g : ForestOf) → IsNetwork old.net → IsNetwork new.net → IsNumbered old.net old.numbers → IsNumbered new.net new.numbers → Commits edit old new
        → IsForest old.net old.numbers f → IsForest new.net new.numbers g → KeepsBounds (standing_of f) (standing_of g)
        → (o q : Outcome) → IsOutcome old.net o → IsOutcome new.net q → (tree : ℕ) → KeepsBoundByName (o.msti tree).vector (q.msti tree).vector (msti_settlings (standing_of g) tree) }
{
    one_outcome();
}

/// The same bound over any number of edits: from the network for which the trees were settled last to the one for which they are
/// settled now, where each bridge that is in both has kept its number, as it does unless it was taken away and added again; and
/// of the trees that are settled first, whatever edits were staged before.
pub fn bounded_since()
    ensures since { (old new : Contents) (f g : ForestOf) → StandsFor old f → StandsFor new g → KeepNumbers old.numbers new.numbers → KeepsBounds (standing_of f) (standing_of g)
        → (o q : Outcome) → IsOutcome old.net o → IsOutcome new.net q → KeepBoundsByName o q (standing_of g) }
    ensures first { (new : Contents) (g : ForestOf) → StandsFor new g → KeepsBounds nothing (standing_of g) → (q : Outcome) → IsOutcome new.net q → KeepFirstBounds q (standing_of g) }
    ensures kept { (edit : Edit) (old new : Contents) → IsNumbered old.net old.numbers → IsNumbered new.net new.numbers → Commits edit old new → KeepNumbers old.numbers new.numbers }
{
    one_outcome();
}
