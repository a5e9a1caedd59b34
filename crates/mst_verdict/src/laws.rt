//! Laws of what is told of a policy. Their functions do nothing: a caller has their clauses.
ghost use Rattle.std.specs.Prelude.{◌≡◌, ◌↔◌, ℕ, List, Bool, None, Some, map};
ghost use Rattle.std.specs.List.{AllByRecursion, Contains};
ghost use Rattle.mst_policy.specs.Lines.{risk_in};
ghost use Rattle.mst_policy.specs.declared.expectation.Expectation.{Expectation as ExpectationOf};
ghost use Rattle.mst_policy.specs.declared.expectation.Promise.{Promise as PromiseOf};
ghost use Rattle.mst_sweeping.specs.sweep.Failures.{single_events};
ghost use Rattle.mst_sweeping.specs.sweep.declared.event.Cause.{Cause as CauseOf};
ghost use Rattle.mst_sweeping.specs.sweep.declared.event.Cause.TheVariants.{One, Risk};
ghost use Rattle.mst_sweeping.specs.sweep.declared.failure.Failure.{Failure as FailureOf};
ghost use Rattle.mst_telling.specs.Told.{reason_rows};
ghost use Rattle.mst_verify.specs.tree_judges.judged.reasons.Placed.{AreReasonsAt};
ghost use Rattle.mst_verify.specs.tree_judges.judged.reasons.Risks.{events, risks};
ghost use Rattle.mst_verify.specs.tree_judges.judged.reasons.declared.reason.Reason.{Reason as ReasonOf};
ghost use Rattle.mst_policy.specs.declared.policy.PolicyLine.{PolicyLine as LineOf};
ghost use Rattle.mst_rows.specs.Rows.{Row};
ghost use Rattle.mst_sweeping.specs.sweep.Failures.{Event as EventOf};
ghost use Rattle.mst_net.specs.tables.Tables.{Net, IsNetwork};
ghost use Rattle.mst_forest.specs.Outcome.{Outcome, IsOutcome};
ghost use Rattle.mst_verify.specs.tree_judges.judged.reasons.Named.{OfNetwork, Prior, Prior as PriorOf};
ghost use Rattle.mst_telling.specs.Lines.{IsLineTold, IsToldWhereUnkept};
ghost use Rattle.mst_telling.specs.Verified.{Counts as PolicyCounts, IsToldWhereBroken, IsVerdict, IsVerified};
ghost use Rattle.mst_verdict.specs.AsFailure.{IsToldAfter, risk_of_one, row_after};
ghost use Rattle.mst_verdict.specs.Risking.{TellsRisks};
ghost use Rattle.mst_verdict.specs.Verifying.{IsPriorNetwork, Judges, Verifies};
ghost use Rattle.mst_verdict.specs.declared.risking.RiskCounts.{RiskCounts as RiskCountsOf};

use mst_forest::laws::{has_outcome, one_outcome};
use mst_sweeping::laws::one_risk_sweep;
use mst_verify::laws::{reason_lists, told_where_broken};

/// A line has one list of rows in a network, by what is before that, whichever settled outcome it is judged by.
pub fn told_lines()
    ensures some { (net : Net) (o : Outcome) (prior : Prior) (events : List EventOf) (line : LineOf) → IsNetwork net → IsOutcome net o → OfNetwork prior → (rows : List Row) × IsLineTold net o prior events line rows }
    ensures one { (net : Net) (o p : Outcome) (prior : Prior) (events : List EventOf) (line : LineOf) (rows other : List Row) → IsNetwork net → IsOutcome net o → IsOutcome net p
        → IsLineTold net o prior events line rows → IsLineTold net p prior events line other → rows ≡ other }
{
    has_outcome();
    one_outcome();
    reason_lists();
}

/// A policy has one list of rows of a network, and one count of its lines, whichever settled outcome it is judged by.
pub fn one_verified()
    ensures some { (net : Net) (o : Outcome) (lines : List LineOf) → IsNetwork net → IsOutcome net o → (counts : PolicyCounts) × (rows : List Row) × IsVerified net o lines counts rows }
    ensures one { (net : Net) (o p : Outcome) (lines : List LineOf) (c d : PolicyCounts) (rows other : List Row) → IsNetwork net → IsOutcome net o → IsOutcome net p
        → IsVerified net o lines c rows → IsVerified net p lines d other → (c ≡ d) × (rows ≡ other) }
{
    has_outcome();
    one_outcome();
    reason_lists();
}

/// A line that is judged has no rows exactly when its promise is kept. One that isn't judged has none.
pub fn told_where_unkept()
    ensures { (net : Net) (o : Outcome) (events : List EventOf) (line : LineOf) (rows : List Row) → IsNetwork net → IsOutcome net o → IsVerdict net o events line rows → IsToldWhereBroken net o events line rows }
{
    one_outcome();
    told_where_broken();
}

/// The same of a line in one of several networks, of which another is before it. A line that is judged there has no rows exactly when its promise is
/// kept. One that isn't has the row that refuses it, if it is refused, and no other.
pub fn line_where_unkept()
    ensures { (net : Net) (o : Outcome) (prior : Prior) (events : List EventOf) (line : LineOf) (rows : List Row) → IsNetwork net → IsOutcome net o → IsLineTold net o prior events line rows → IsToldWhereUnkept net o prior events line rows }
{
    one_outcome();
    told_where_broken();
}

/// What is told of a policy: each network has one list of rows and one count of its lines, which the network and the lines alone settle.
pub fn one_verification()
    ensures some { (net : Net) (lines : List LineOf) → IsNetwork net → (counts : PolicyCounts) × (rows : List Row) × Verifies net lines counts rows }
    ensures one { (net : Net) (lines : List LineOf) (c d : PolicyCounts) (rows other : List Row) → IsNetwork net → Verifies net lines c rows → Verifies net lines d other → (c ≡ d) × (rows ≡ other) }
{
    has_outcome();
    told_where_unkept();
    one_verified();
}

/// What is told of the risks of a policy: each network has one list of rows of them and one count.
pub fn one_of_risks()
    ensures some { (net : Net) (lines : List LineOf) → IsNetwork net → (counts : RiskCountsOf) × (rows : List Row) × TellsRisks net lines counts rows }
    ensures one { (net : Net) (lines : List LineOf) (c d : RiskCountsOf) (rows other : List Row) → IsNetwork net → TellsRisks net lines c rows → TellsRisks net lines d other → (c ≡ d) × (rows ≡ other) }
{
    one_risk_sweep();
}

/// What is told of a policy's lines in one of several networks: by the network, what is before it and whether it is the last, each line has one
/// list of rows.
pub fn one_judgement()
    ensures some { (net : Net) (prior : PriorOf) (is_last : Bool) (lines : List LineOf) → IsNetwork net → IsPriorNetwork prior → (told : List (List Row)) × Judges net prior is_last lines told }
    ensures one { (net : Net) (prior : PriorOf) (is_last : Bool) (lines : List LineOf) (told other : List (List Row)) → IsNetwork net → IsPriorNetwork prior
        → Judges net prior is_last lines told → Judges net prior is_last lines other → told ≡ other }
{
    has_outcome();
    one_outcome();
    line_where_unkept();
    told_lines();
}

/// A risk of one failure tells what that failure tells. What is promised after the risk alone has the rows that it has after the failure alone, with the risk in the
/// failure's place (`told`). After any event the reasons go by what fails, and not by its name (`reasons`). A row has the name as its place, and nowhere else (`rows`).
/// A policy without lines of risks is judged after each failure alone (`without`).
pub fn risks_as_failures()
    ensures told { (net : Net) (o : Outcome) (lines : List LineOf) (name : List ℕ) (failure : FailureOf) (n : ℕ) (words others : List ℕ) (promise : PromiseOf) (rows like : List Row)
        → IsNetwork net → IsOutcome net o → Contains (risks net lines) (risk_of_one name failure)
        → IsToldAfter net o lines n words promise (One failure) rows → IsToldAfter net o lines n others promise (Risk name) like → like ≡ map (row_after (Risk name)) rows }
    ensures reasons { (net : Net) (o : Outcome) (prior : Prior) (event : EventOf) (other : CauseOf) (expectation : ExpectationOf) (reasons : List ReasonOf)
        → AreReasonsAt net o prior (Some event) expectation reasons ↔ AreReasonsAt net o prior (Some (record { cause = other; failures = event.failures })) expectation reasons }
    ensures rows { (n : ℕ) (cause other : CauseOf) (reasons : List ReasonOf) → reason_rows n (Some other) reasons ≡ map (row_after other) (reason_rows n (Some cause) reasons) }
    ensures without { (net : Net) (lines : List LineOf) → AllByRecursion (λ line. risk_in line.read ≡ None) lines → events net lines ≡ single_events net }
{
    one_outcome();
    reason_lists();
    told_where_unkept();
}
