//! Laws of the rows of a policy. Their functions do nothing: a caller has their clauses.
ghost use Rattle.std.specs.Prelude.{ℕ, List};
ghost use Rattle.mst_policy.specs.declared.expectation.Promise.{Promise};
ghost use Rattle.mst_telling.specs.NoneLost.{TellEach};
ghost use Rattle.mst_telling.specs.Told.{Found};
ghost use Rattle.mst_telling.specs.Verified.{verdict_rows};

/// The rows of a line lose no reason, though what the network itself gives is told once. Each reason after a failure has a row of that failure,
/// or its line of text stands there for the network itself. A failure that the scope names has its own row in any case.
pub fn no_reason_is_lost()
    ensures { (n : ℕ) (promise : Promise) (found : List Found) → TellEach n promise found (verdict_rows n promise found) }
{}
