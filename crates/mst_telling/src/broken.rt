ghost use Rattle.std.specs.Prelude.{◌≡◌, ◌&&◌, ◌||◌, not};
ghost use Rattle.std.specs.List.{list_any};
ghost use Rattle.mst_graph.specs.Lists.{has_any};
ghost use Rattle.mst_telling.specs.Judged.{found_at, line_found, line_rows};
ghost use Rattle.mst_telling.specs.Lines.{unkept_by};
ghost use Rattle.mst_telling.specs.Told.{is_now};
ghost use Rattle.mst_telling.specs.Verified.{is_broken_by};

use crate::judgement::{Finding, Judgement};
use crate::once::tells_once;
use mst_policy::{PolicyLine, Scope};
use mst_reasons::has_now;

/// Whether the line at a place of the list isn't kept in a place that counts: in that of a failure, or in the network itself, if this does.
fn is_broken_at(n: usize, finding: &Finding, counts_now: bool) -> bool
    ensures { result ≡ (has_any (found_at n finding.now).reasons && (counts_now || not (is_now finding.now.place))) }
{
    !finding.reasons_of(n).is_empty() && (counts_now || finding.place.is_some())
}

/// Whether a promise isn't kept: it has a reason in some place, and not in the network itself alone, where that is only looked at.
pub(crate) fn is_broken(scope: &Scope, n: usize, found: &[Finding]) -> bool
    ensures { result ≡ list_any (λ f. is_broken_by scope.now (found_at n f)) found.now }
{
    let counts_now = !tells_once(scope) | has_now(scope);
    found
        .iter()
        .any(|finding| is_broken_at(n, finding, counts_now))
}

/// Whether why the line at a place of the list isn't kept is told: whether it promises something, and isn't kept.
fn is_line_broken(line: &PolicyLine, n: usize, found: &[Finding]) -> bool
    ensures { result ≡ has_any (unkept_by line.now.number line.now.read (line_found n found.now)) }
{
    match line.promise() {
        None => false,
        Some(promise) => is_broken(&promise.scope, n, found),
    }
}

/// Whether the line at a place of the list is unkept: it lacks something, or isn't kept.
pub(crate) fn is_unkept(line: &PolicyLine, n: usize, judgement: &Judgement) -> bool
    ensures { result ≡ has_any (line_rows n line.now judgement.now) }
{
    judgement.lacks(n).is_some() | is_line_broken(line, n, judgement.found.as_slice())
}
