ghost use Rattle.std.specs.Prelude.{◌≡◌, ◌++◌, ◌∷◌, [], List, IfOk, OnOk, is_some, length, map};
ghost use Rattle.std.specs.List.{flat_map, list_all};
ghost use Rattle.mst_policy.specs.Lines.{risk_in};
ghost use Rattle.mst_rows.specs.Rows.{Row};
ghost use Rattle.mst_telling.specs.Judged.{change_at, each_from, told_in};
ghost use Rattle.mst_telling.specs.Rows.{behind, nothing_row, start_row};
ghost use Rattle.mst_telling.specs.Steps.{breaks as breaks_of, changes, front_rows, is_broken_by_step, is_final as is_final_by, judged_rows, mends, new_fails, new_refused, start_rows, unkept_count as unkept_in};
ghost use Rattle.mst_telling.specs.Told.{unread_rows};

use crate::broken::is_unkept;
use crate::judgement::{Judgement, one_if};
use crate::news::put_missing_unless;
use crate::reason::At;
use crate::refused::{put_missing, put_unread};
use crate::unkept::{put_unkept, texts_of};
use mst_kinds::{Kind, StepLine};
use mst_policy::PolicyLine;
use mst_reasons::Missing;
use mst_rows::{Rows, Value, put};
use std::alloc::{AllocError, Global};

/// Whether each of these lines is of a risk.
fn are_of_risks(lines: &[PolicyLine]) -> bool
    ensures { result ≡ list_all (λ line. is_some (risk_in line.read)) lines.now }
{
    lines.iter().all(|line| line.risk().is_some())
}

/// Puts that a policy has no line but those of risks.
fn put_nothing<R: Rows>(out: &mut R) -> Result<(), AllocError>
    ensures { (first : R) (rows : List Row) → R.grew first out.old rows → OnOk result (R.grew first out.new (rows ++ behind 0 nothing_row ∷ [])) }
{
    let at = At {
        step: Some(0),
        number: 0,
    };
    put_missing(at, Missing::Failure, out)
}

/// Puts the lines that can't be read, and answers how many there are.
fn put_all_unread<R: Rows>(lines: &[PolicyLine], out: &mut R) -> Result<u64, AllocError>
    ensures count { IfOk result (λ count. count ≡ length (flat_map unread_rows lines.now)) }
    ensures put { (first : R) (rows : List Row) → R.grew first out.old rows → OnOk result (R.grew first out.new (rows ++ map (behind 0) (flat_map unread_rows lines.now))) }
{
    let mut count = 0;
    for line in lines {
        let is_unread = put_unread(Some(0), line, out)?;
        count += one_if(is_unread);
    }
    Ok(count)
}

/// Puts what is told of a policy in front of all steps: that it has no line but those of risks, or which of its lines can't be read. Answers how many rows
/// that is. `AllocError`: memory was wanted and refused; some of the rows may have been put.
#[tactic(auto, using(crate::proofs::Front::none_unread))]
pub fn put_front<R: Rows>(lines: &[PolicyLine], out: &mut R) -> Result<u64, AllocError>
    ensures count { IfOk result (λ count. count ≡ length (front_rows lines.now)) }
    ensures put { (first : R) (rows : List Row) → R.grew first out.old rows → OnOk result (R.grew first out.new (rows ++ front_rows lines.now)) }
{
    if are_of_risks(lines) {
        put_nothing(out)?;
        return Ok(1);
    }
    put_all_unread(lines, out)
}

/// Puts that a line is refused behind a step, if it is, and the network before doesn't tell so.
fn put_new_refused<R: Rows>(
    alloc: Global,
    step: u64,
    line: &PolicyLine,
    n: usize,
    before: &Judgement,
    now: &Judgement,
    out: &mut R,
) -> Result<(), AllocError>
    ensures { (first : R) (rows : List Row) → R.grew first out.old rows
        → OnOk result (R.grew first out.new (rows ++ map (behind step) (new_refused (change_at n line.now before.now now.now)))) }
{
    match now.lacks(n) {
        None => Ok(()),
        Some(missing) => {
            let texts = texts_of(alloc, line, n, before)?;
            let at = At {
                step: Some(step),
                number: line.number,
            };
            put_missing_unless(alloc, at, missing, &texts, out)
        }
    }
}

/// Puts why a line isn't kept behind a step, what the network before doesn't tell.
fn put_new_fails<R: Rows>(
    alloc: Global,
    step: u64,
    line: &PolicyLine,
    n: usize,
    before: &Judgement,
    now: &Judgement,
    out: &mut R,
) -> Result<(), AllocError>
    ensures { (first : R) (rows : List Row) → R.grew first out.old rows
        → OnOk result (R.grew first out.new (rows ++ map (behind step) (new_fails (change_at n line.now before.now now.now)))) }
{
    let found = now.found.as_slice();
    let texts = texts_of(alloc, line, n, before)?;
    put_unkept(alloc, Some(step), line, n, found, &texts, out)
}

/// Puts that a line is kept again behind a step, if it is.
fn put_mends<R: Rows>(
    step: u64,
    line: &PolicyLine,
    n: usize,
    before: &Judgement,
    now: &Judgement,
    out: &mut R,
) -> Result<(), AllocError>
    ensures { (first : R) (rows : List Row) → R.grew first out.old rows → OnOk result (R.grew first out.new (rows ++ mends step (change_at n line.now before.now now.now))) }
{
    if !is_unkept(line, n, before) || is_unkept(line, n, now) {
        return Ok(());
    }
    let values = [Value::Number(step), Value::Number(line.number)];
    put::<R>(Kind::Step(StepLine::Mends), &values, out)
}

/// Puts which lines are refused behind a step, what the network before doesn't tell.
fn put_all_refused<R: Rows>(
    alloc: Global,
    step: u64,
    lines: &[PolicyLine],
    before: &Judgement,
    now: &Judgement,
    out: &mut R,
) -> Result<(), AllocError>
    ensures { (first : R) (rows : List Row) → R.grew first out.old rows
        → OnOk result (R.grew first out.new (rows ++ map (behind step) (flat_map new_refused (each_from (λ n line. change_at n line before.now now.now) 0 lines.now)))) }
{
    for n in 0..lines.len() {
        put_new_refused(alloc, step, &lines[n], n, before, now, out)?;
    }
    Ok(())
}

/// Puts why lines aren't kept behind a step, what the network before doesn't tell.
fn put_all_fails<R: Rows>(
    alloc: Global,
    step: u64,
    lines: &[PolicyLine],
    before: &Judgement,
    now: &Judgement,
    out: &mut R,
) -> Result<(), AllocError>
    ensures { (first : R) (rows : List Row) → R.grew first out.old rows
        → OnOk result (R.grew first out.new (rows ++ map (behind step) (flat_map new_fails (each_from (λ n line. change_at n line before.now now.now) 0 lines.now)))) }
{
    for n in 0..lines.len() {
        put_new_fails(alloc, step, &lines[n], n, before, now, out)?;
    }
    Ok(())
}

/// Puts which lines are kept again behind a step.
fn put_all_mends<R: Rows>(
    step: u64,
    lines: &[PolicyLine],
    before: &Judgement,
    now: &Judgement,
    out: &mut R,
) -> Result<(), AllocError>
    ensures { (first : R) (rows : List Row) → R.grew first out.old rows
        → OnOk result (R.grew first out.new (rows ++ flat_map (mends step) (each_from (λ n line. change_at n line before.now now.now) 0 lines.now))) }
{
    for n in 0..lines.len() {
        put_mends(step, &lines[n], n, before, now, out)?;
    }
    Ok(())
}

/// Puts what is new behind a step of the lines of a policy, by what was judged in the network before it and in this one: those that are
/// refused, why others aren't kept, and those that are kept again. `AllocError`: memory was wanted and refused; some of the rows may have
/// been put.
pub fn put_judged<R: Rows>(
    alloc: Global,
    step: u64,
    lines: &[PolicyLine],
    before: &Judgement,
    now: &Judgement,
    out: &mut R,
) -> Result<(), AllocError>
    ensures { (first : R) (rows : List Row) → R.grew first out.old rows
        → OnOk result (R.grew first out.new (rows ++ judged_rows step (changes lines.now (told_in lines.now before.now) (told_in lines.now now.now)))) }
{
    put_all_refused(alloc, step, lines, before, now, out)?;
    put_all_fails(alloc, step, lines, before, now, out)?;
    put_all_mends(step, lines, before, now, out)
}

/// Whether a line is a promise of the end alone.
fn is_final(line: &PolicyLine) -> bool
    ensures { result ≡ is_final_by line.now.read }
{
    match line.promise() {
        None => false,
        Some(promise) => promise.is_final,
    }
}

/// Whether a step breaks the line at a place of the list: it is unkept now, wasn't so before, and is no promise of the end alone.
fn is_newly_broken(line: &PolicyLine, n: usize, before: &Judgement, now: &Judgement) -> bool
    ensures { result ≡ is_broken_by_step (change_at n line.now before.now now.now) }
{
    !is_final(line) & (!is_unkept(line, n, before) & is_unkept(line, n, now))
}

/// Whether some line of a policy is unkept now that wasn't so before. Promises of the end alone aren't counted: of them nobody knows which
/// step broke them.
pub fn breaks(lines: &[PolicyLine], before: &Judgement, now: &Judgement) -> bool
    ensures { result ≡ breaks_of (changes lines.now (told_in lines.now before.now) (told_in lines.now now.now)) }
{
    let mut is_any = false;
    for n in 0..lines.len() {
        is_any |= is_newly_broken(&lines[n], n, before, now);
    }
    is_any
}

/// How many lines of a policy are unkept.
pub fn unkept_count(lines: &[PolicyLine], judgement: &Judgement) -> u64
    ensures { result ≡ unkept_in (told_in lines.now judgement.now) }
{
    let mut count = 0;
    for n in 0..lines.len() {
        let is_any = is_unkept(&lines[n], n, judgement);
        count += one_if(is_any);
    }
    count
}

/// Puts how many lines are unkept in front of the first step, and why, if there are some, and answers how many. `AllocError`: memory was
/// wanted and refused; some of the rows may have been put.
pub fn put_start<R: Rows>(
    alloc: Global,
    lines: &[PolicyLine],
    now: &Judgement,
    out: &mut R,
) -> Result<u64, AllocError>
    ensures count { IfOk result (λ count. count ≡ unkept_in (told_in lines.now now.now)) }
    ensures put { (first : R) (rows : List Row) → R.grew first out.old rows → OnOk result (R.grew first out.new (rows ++ start_rows lines.now (told_in lines.now now.now))) }
{
    let count = unkept_count(lines, now);
    if count > 0 {
        put_start_row(count, out)?;
        let none = Judgement::none(alloc);
        put_judged(alloc, 0, lines, &none, now, out)?;
    }
    Ok(count)
}

/// Puts how many lines are unkept.
fn put_start_row<R: Rows>(count: u64, out: &mut R) -> Result<(), AllocError>
    ensures { (first : R) (rows : List Row) → R.grew first out.old rows → OnOk result (R.grew first out.new (rows ++ start_row count ∷ [])) }
{
    let values = [Value::Number(0), Value::Number(count)];
    put::<R>(Kind::Step(StepLine::Start), &values, out)
}
