//! A law of the hints of policies. Its function does nothing: a caller has its clause.
ghost use Rattle.std.specs.Prelude.{◌≡◌, ℕ, List, is_some};
ghost use Rattle.std.specs.Result.{is_err};
ghost use Rattle.mst_policy.specs.Reading.{reading};
ghost use Rattle.mst_policy_hints.specs.Hints.{hint_of};

/// There is a hint exactly where the line isn't read.
pub fn hinted()
    ensures { (line : List ℕ) → is_some (hint_of line) ≡ is_err (reading line) }
{}
