ghost use Rattle.std.specs.Prelude.{◌≡◌, ◌+◌, ◌≤◌, ◌++◌, List, true, IfOk, OnOk, count_by, length, map};
ghost use Rattle.mst_reasons.specs.Named.{nothing_before};
ghost use Rattle.mst_rows.specs.Rows.{Row, said};
ghost use Rattle.mst_graph.specs.Lists.{has_any};
ghost use Rattle.mst_tables.specs.Tables.{Net};
ghost use Rattle.mst_roles.specs.forest.Outcome.{Outcome};
ghost use Rattle.mst_reasons.specs.Risks.{events as events_of};
ghost use Rattle.mst_telling.specs.Judged.{AreLinesJudged, Puts, counts_of, line_found, refused_at, refused_by, verdicts_by, tells_some};
ghost use Rattle.mst_telling.specs.Verified.{IsVerified, joined, rows_of_read, verdict_rows, whole_rows};

use crate::broken::is_broken;
use crate::judgement::{Finding, Judgement, one_if, put_found};
use crate::once::{put_once, tells_once};
use crate::promises::{count_judged, networks, promises, put_last};
use crate::reason::At;
use crate::refused::{put_lacking_line, put_missing, put_unread};
use mst_policy::{PolicyLine, Promise};
use mst_reasons::{Event, Missing};
use mst_rows::Rows;
use std::alloc::{AllocError, Global};

/// What is counted of a policy's lines.
#[derive(Clone, Copy, Debug, PartialEq, Eq)]
pub struct Verdict {
    /// How many are refused.
    pub refused: u64,
    /// How many are judged.
    pub judged: u64,
    /// How many of these aren't kept.
    pub failing: u64,
}

impl Verdict {
    /// Whether something is told but the counts: a line is refused, or isn't kept.
    pub fn tells(&self) -> bool
        ensures { result ≡ tells_some (counts_of self.now) }
    {
        self.refused > 0 || self.failing > 0
    }
}

/// Puts that a line is refused, if it is: it can't be read, or lacks something. Answers whether it is.
fn put_refused_line<R: Rows>(
    line: &PolicyLine,
    missing: Option<Missing>,
    out: &mut R,
) -> Result<bool, AllocError>
    ensures is { IfOk result (λ is_refused. is_refused ≡ has_any (refused_at line.now.number line.now.read missing)) }
    ensures put { (first : R) (rows : List Row) → R.grew first out.old rows → OnOk result (R.grew first out.new (rows ++ refused_at line.now.number line.now.read missing)) }
{
    match &line.read {
        Err(_) => put_unread(None, line, out),
        Ok(_) => put_lacking_line(line, missing, out),
    }
}

/// Puts the refused lines, and answers how many there are.
fn put_refused<R: Rows>(
    lines: &[PolicyLine],
    judgement: &Judgement,
    out: &mut R,
) -> Result<u64, AllocError>
    ensures count { IfOk result (λ count. count ≡ length (refused_by lines.now judgement.now)) }
    ensures few { IfOk result (λ count. count ≤ length lines.now) }
    ensures put { (first : R) (rows : List Row) → R.grew first out.old rows → OnOk result (R.grew first out.new (rows ++ refused_by lines.now judgement.now)) }
{
    let mut count = 0;
    for n in 0..lines.len() {
        let missing = judgement.lacks(n);
        let is_refused = put_refused_line(&lines[n], missing, out)?;
        count += one_if(is_refused);
    }
    Ok(count)
}

/// Puts that nothing is judged of a policy, if no line is judged and none is refused. Answers how many rows that is.
fn put_whole<R: Rows>(judged: u64, refused: u64, out: &mut R) -> Result<u64, AllocError>
    ensures count { (those : List Row) → refused ≡ length those → IfOk result (λ count. count ≡ length (whole_rows judged those)) }
    ensures put { (those : List Row) → refused ≡ length those → (first : R) (rows : List Row) → R.grew first out.old rows → OnOk result (R.grew first out.new (rows ++ whole_rows judged those)) }
    ensures few { IfOk result (λ count. count ≤ 1) }
{
    if judged == 0 && refused == 0 {
        put_missing(
            At {
                step: None,
                number: 0,
            },
            Missing::Failure,
            out,
        )?;
        return Ok(1);
    }
    Ok(0)
}

/// Puts why the line at a place of the list isn't kept.
fn put_verdict_of<R: Rows>(
    alloc: Global,
    number: u64,
    promise: &Promise,
    n: usize,
    found: &[Finding],
    out: &mut R,
) -> Result<(), AllocError>
    ensures { (first : R) (rows : List Row) → R.grew first out.old rows → OnOk result (R.grew first out.new (rows ++ verdict_rows number promise.now (line_found n found.now))) }
{
    match tells_once(&promise.scope) {
        true => put_once(alloc, number, &promise.scope, n, found, out),
        false => put_found(alloc, At { step: None, number }, n, found, out),
    }
}

/// Puts why a line isn't kept, if it promises something, and answers whether it isn't.
fn put_line<R: Rows>(
    alloc: Global,
    line: &PolicyLine,
    n: usize,
    found: &[Finding],
    out: &mut R,
) -> Result<bool, AllocError>
    ensures is { IfOk result (λ is_any. is_any ≡ has_any (rows_of_read line.now.number line.now.read (line_found n found.now))) }
    ensures put { (first : R) (rows : List Row) → R.grew first out.old rows → OnOk result (R.grew first out.new (rows ++ rows_of_read line.now.number line.now.read (line_found n found.now))) }
{
    match line.promise() {
        None => Ok(false),
        Some(promise) => {
            put_verdict_of(alloc, line.number, promise, n, found, out)?;
            Ok(is_broken(&promise.scope, n, found))
        }
    }
}

/// Puts why each line isn't kept, and answers which aren't.
fn put_lines<R: Rows>(
    alloc: Global,
    lines: &[PolicyLine],
    judgement: &Judgement,
    out: &mut R,
) -> Result<Vec<bool>, AllocError>
    ensures is { IfOk result (λ flags. flags.items ≡ map has_any (verdicts_by lines.now judgement.now)) }
    ensures put { (first : R) (rows : List Row) → R.grew first out.old rows → OnOk result (R.grew first out.new (rows ++ joined (verdicts_by lines.now judgement.now))) }
{
    let mut flags = Vec::new(alloc);
    let found = judgement.found.as_slice();
    for n in 0..lines.len() {
        flags.push(put_line(alloc, &lines[n], n, found, out)?)?;
    }
    Ok(flags)
}

/// How many flags are set.
fn count_set(flags: &[bool]) -> u64
    ensures { result ≡ count_by (λ flag. flag) flags.now }
{
    flags.iter().filter(|flag| **flag).count() as u64
}

/// Puts the rows of a policy of a network, of which these are the events and this was judged: all refused lines, then why each other one
/// isn't kept, and the last row. `AllocError`: memory was wanted and refused; some of the rows may have been put.
pub fn put_verdict<R: Rows>(
    alloc: Global,
    lines: &[PolicyLine],
    events: &[Event],
    judgement: &Judgement,
    out: &mut R,
) -> Result<Verdict, AllocError>
    ensures told { IfOk result (λ verdict. (net : Net) (o : Outcome) → events.now ≡ events_of net lines.now → AreLinesJudged net o nothing_before true lines.now judgement.now
        → (rows : List Row) × IsVerified net o lines.now (counts_of verdict) rows × Puts R.grew out.old out.new rows) }
    ensures few { IfOk result (λ verdict. verdict.refused ≤ length lines.now + 1) }
{
    let networks = networks(alloc, lines, events, judgement)?;
    let counts = networks.as_slice();
    let judged = count_judged(counts);
    let refused = put_refused(lines, judgement, out)?;
    let whole = put_whole(judged, refused, out)?;
    let unkept = put_lines(alloc, lines, judgement, out)?;
    let flags = unkept.as_slice();
    let promises = promises(alloc, lines, counts, flags)?;
    put_last(judged, promises.as_slice(), out)?;
    Ok(Verdict {
        refused: refused + whole,
        judged,
        failing: count_set(flags),
    })
}
