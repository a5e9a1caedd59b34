//! Laws of exit statuses. Their functions do nothing: a caller has their clauses.
ghost use Rattle.std.specs.Prelude.{◌≡◌, ◌↔◌, ◌⊎◌, Result};
ghost use Rattle.mst_io.specs.declared.outcome.Outcome.{Outcome};
ghost use Rattle.mst_io.specs.declared.outcome.RunFault.{RunFault};
ghost use Rattle.mst_tool.specs.Run.{status_of};
ghost use Rattle.mst_tool.specs.Status.{IsGood, IsServed};

/// What ran ends with status 0 exactly when it came to its end, no line was refused, for whatever reason, and nothing differs. It ends with
/// status 3 exactly when a fault stopped it or memory was refused for a line, and else with 1.
pub fn statuses()
    ensures good { (ran : Result Outcome RunFault) → (status_of ran ≡ 0) ↔ IsGood ran }
    ensures unserved { (ran : Result Outcome RunFault) → (status_of ran ≡ 3) ↔ (IsServed ran → ⊥) }
    ensures others { (ran : Result Outcome RunFault) → (status_of ran ≡ 0) ⊎ (status_of ran ≡ 1) ⊎ (status_of ran ≡ 3) }
{}
