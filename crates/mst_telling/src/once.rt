ghost use Rattle.std.specs.Prelude.{◌≡◌, ◌+◌, ◌++◌, ◌∷◌, [], List, None, IfOk, OnOk, count_by, filter, if◌then◌else◌, map, not};
ghost use Rattle.std.specs.List.{flat_map, list_any};
ghost use Rattle.mst_rows.specs.Rows.{Row};
ghost use Rattle.mst_graph.specs.Lists.{has_any};
ghost use Rattle.mst_reasons.specs.Judged.{asks_at};
ghost use Rattle.mst_telling.specs.Judged.{AreTexts, FoldsBy, IsFoldingOf, found_at};
ghost use Rattle.mst_telling.specs.Once.{folded_rows, is_left_out as is_left, kept_rows, left_out, names_it as scope_names, now_at, once_rows, others, rows_now, same_rows, told_now};
ghost use Rattle.mst_telling.specs.Rows.{reason_row, row_at};
ghost use Rattle.mst_telling.specs.Texts.{is_told, news};
ghost use Rattle.mst_telling.specs.Told.{is_open as item_is_open, looks_at, reason_rows, tells_once as scope_tells_once};

use crate::judgement::{Finding, one_if};
use crate::kept::KeptReason;
use crate::news::{put_if_new, put_unless};
use crate::reason::{At, reason_text};
use crate::texts::Texts;
use mst_kinds::{Kind, VerifyLine};
use mst_policy::{NameItem, NameList, Promise, Scope};
use mst_reasons::{Cause, Event, asks, asks_now, has_now};
use mst_rows::{Rows, Value, put};
use std::alloc::{AllocError, Global};

/// What a line is told once by: where its rows stand, its scope, the lines of text of what the network itself gives, and those that aren't
/// put again.
#[derive(Drop)]
pub(crate) struct Folding<'a> {
    step: Option<u64>,
    number: u64,
    scope: &'a Scope,
    nows: Texts,
    told: &'a Texts,
}

/// Whether an item has a `*`.
fn is_open(item: &NameItem) -> bool
    ensures { result ≡ item_is_open item.now }
{
    match item {
        NameItem::Is(_) => false,
        NameItem::Begins(_) => true,
        NameItem::Any => true,
    }
}

/// Whether some item of a list has one.
fn has_open(names: &NameList) -> bool
    ensures { result ≡ list_any item_is_open names.now }
{
    names.as_slice().iter().any(|item| is_open(item))
}

/// Whether what the network itself gives isn't told again of failures.
pub(crate) fn tells_once(scope: &Scope) -> bool
    ensures { result ≡ scope_tells_once scope.now }
{
    match scope {
        Scope::Now => false,
        Scope::AfterLan(names) => has_open(names),
        Scope::AfterBridge(names) => has_open(names),
        Scope::AfterRisk(names) => has_open(names),
        Scope::Always => true,
    }
}

/// Whether a place is looked at for a promise: it is judged there, or what the network itself gives is told once, and that is the place.
pub fn is_looked_at(has_prior: bool, promise: &Promise, place: &Option<Event>) -> bool
    ensures { result ≡ looks_at has_prior promise.now place.now }
{
    (tells_once(&promise.scope) && place.is_none()) || is_asked(has_prior, promise, place)
}

/// Whether a promise is judged in a place.
pub fn is_asked(has_prior: bool, promise: &Promise, place: &Option<Event>) -> bool
    ensures { result ≡ asks_at has_prior promise.now place.now }
{
    match place {
        None => asks_now(has_prior, promise),
        Some(event) => asks(promise, event),
    }
}

/// Whether a scope has the very name of what failed.
fn names_it(scope: &Scope, cause: &Cause) -> bool
    ensures { result ≡ scope_names scope.now cause.now }
{
    match scope {
        Scope::Now => false,
        Scope::AfterLan(names) => names.lists(cause.name()),
        Scope::AfterBridge(names) => names.lists(cause.name()),
        Scope::AfterRisk(names) => names.lists(cause.name()),
        Scope::Always => false,
    }
}

/// Adds the lines of text of reasons in a place to these.
fn add_reasons(
    alloc: Global,
    number: u64,
    place: &Option<Cause>,
    reasons: &[KeptReason],
    texts: &mut Texts,
) -> Result<(), AllocError>
    ensures { (rows : List Row) → AreTexts rows texts.old → OnOk result (AreTexts (rows ++ reason_rows number place.now reasons.now) texts.new) }
{
    for reason in reasons {
        texts.add(reason_text(alloc, number, place, reason)?)?;
    }
    Ok(())
}

/// Adds the lines of text of what the network itself gives to these, if the place is that.
fn add_now(
    alloc: Global,
    number: u64,
    n: usize,
    finding: &Finding,
    texts: &mut Texts,
) -> Result<(), AllocError>
    ensures { (rows : List Row) → AreTexts rows texts.old → OnOk result (AreTexts (rows ++ now_at number (found_at n finding.now)) texts.new) }
{
    if finding.place.is_some() {
        return Ok(());
    }
    add_reasons(alloc, number, &None, finding.reasons_of(n), texts)
}

/// The lines of text of what the network itself gives.
fn texts_now(alloc: Global, number: u64, n: usize, found: &[Finding]) -> Result<Texts, AllocError>
    ensures { IfOk result (AreTexts (rows_now number (map (found_at n) found.now))) }
{
    let mut texts = Texts::new(alloc);
    for finding in found {
        add_now(alloc, number, n, finding, &mut texts)?;
    }
    Ok(texts)
}

impl<'a> Folding<'a> {
    /// Of the line at a place of the list, by what was found.
    fn new(
        alloc: Global,
        at: At,
        scope: &'a Scope,
        n: usize,
        found: &[Finding],
        told: &'a Texts,
    ) -> Result<Folding<'a>, AllocError>
        ensures { IfOk result (λ folding. IsFoldingOf at scope.now (map (found_at n) found.now) told.now folding) }
    {
        Ok(Folding {
            step: at.step,
            number: at.number,
            scope,
            nows: texts_now(alloc, at.number, n, found)?,
            told,
        })
    }

    /// Where its rows stand.
    fn at(&self) -> At
        ensures { result ≡ record { step = self.now.step; number = self.now.number } }
    {
        At {
            step: self.step,
            number: self.number,
        }
    }
}

/// Whether a reason in a place is left out.
fn is_left_out(
    alloc: Global,
    folding: &Folding,
    place: &Option<Cause>,
    reason: &KeptReason,
) -> Result<bool, AllocError>
    ensures { (nows : List Row) → FoldsBy nows folding.now → IfOk result (λ is. is ≡ is_left folding.now.number folding.now.scope.now nows place.now reason.now) }
{
    match place {
        None => Ok(false),
        Some(cause) => {
            if names_it(folding.scope, cause) {
                return Ok(false);
            }
            let text = reason_text(alloc, folding.number, &None, reason)?;
            Ok(folding.nows.has(text.as_slice()))
        }
    }
}

/// Adds the line of text of a reason in a place to these, if it is left out, with `now` in the place of what failed. Answers whether it is.
fn add_if_left(
    alloc: Global,
    folding: &Folding,
    place: &Option<Cause>,
    reason: &KeptReason,
    texts: &mut Texts,
) -> Result<bool, AllocError>
    ensures is { (nows : List Row) → FoldsBy nows folding.now → IfOk result (λ is. is ≡ is_left folding.now.number folding.now.scope.now nows place.now reason.now) }
    ensures added { (rows : List Row) → AreTexts rows texts.old
        → IfOk result (λ is. AreTexts (rows ++ (if is then reason_row folding.now.number None reason.now ∷ [] else [])) texts.new) }
{
    if !is_left_out(alloc, folding, place, reason)? {
        return Ok(false);
    }
    texts.add(reason_text(alloc, folding.number, &None, reason)?)?;
    Ok(true)
}

/// Adds those of the reasons in a place that are left out to these, and answers whether there are some.
fn add_left(
    alloc: Global,
    folding: &Folding,
    n: usize,
    finding: &Finding,
    texts: &mut Texts,
) -> Result<bool, AllocError>
    ensures is { (nows : List Row) → FoldsBy nows folding.now → IfOk result (λ is_any. is_any ≡ has_any (left_out folding.now.number folding.now.scope.now nows (found_at n finding.now))) }
    ensures added { (nows rows : List Row) → FoldsBy nows folding.now → AreTexts rows texts.old
        → OnOk result (AreTexts (rows ++ left_out folding.now.number folding.now.scope.now nows (found_at n finding.now)) texts.new) }
{
    let mut is_any = false;
    let reasons = finding.reasons_of(n);
    for reason in reasons {
        let is_left = add_if_left(alloc, folding, &finding.place, reason, texts)?;
        is_any |= is_left;
    }
    Ok(is_any)
}

/// Adds those of all places, and answers in how many there are some.
fn add_all_left(
    alloc: Global,
    folding: &Folding,
    n: usize,
    found: &[Finding],
    texts: &mut Texts,
) -> Result<u64, AllocError>
    ensures count { (nows : List Row) → FoldsBy nows folding.now
        → IfOk result (λ count. count ≡ count_by (λ f. has_any (left_out folding.now.number folding.now.scope.now nows f)) (map (found_at n) found.now)) }
    ensures added { (nows rows : List Row) → FoldsBy nows folding.now → AreTexts rows texts.old
        → OnOk result (AreTexts (rows ++ flat_map (left_out folding.now.number folding.now.scope.now nows) (map (found_at n) found.now)) texts.new) }
{
    let mut count = 0;
    for finding in found {
        let has_left = add_left(alloc, folding, n, finding, texts)?;
        count += one_if(has_left);
    }
    Ok(count)
}

/// Puts those of these reasons in the network itself whose line of text is among the one, and isn't among the others.
fn put_told<R: Rows>(
    alloc: Global,
    at: At,
    reasons: &[KeptReason],
    left: &Texts,
    told: &Texts,
    out: &mut R,
) -> Result<(), AllocError>
    ensures { (those before : List Row) → AreTexts those left.now → AreTexts before told.now → (first : R) (rows : List Row) → R.grew first out.old rows
        → OnOk result (R.grew first out.new (rows ++ map (row_at at.step) (news before (filter (is_told those) (reason_rows at.number None reasons.now))))) }
{
    for reason in reasons {
        let text = reason_text(alloc, at.number, &None, reason)?;
        let is_left = left.has(text.as_slice());
        put_if_new(alloc, is_left, at, &None, reason, told, out)?;
    }
    Ok(())
}

/// Puts those of these reasons in the network itself that are told: all, where the scope has that, and else what some failure has left out.
fn put_told_now<R: Rows>(
    alloc: Global,
    folding: &Folding,
    reasons: &[KeptReason],
    left: &Texts,
    out: &mut R,
) -> Result<(), AllocError>
    ensures { (those before : List Row) → AreTexts those left.now → AreTexts before folding.now.told.now → (first : R) (rows : List Row) → R.grew first out.old rows
        → OnOk result (R.grew first out.new (rows ++ map (row_at folding.now.step) (news before (told_now folding.now.scope.now (reason_rows folding.now.number None reasons.now) those)))) }
{
    let at = folding.at();
    match has_now(folding.scope) {
        true => put_unless(alloc, at, &None, reasons, folding.told, out),
        false => put_told(alloc, at, reasons, left, folding.told, out),
    }
}

/// Puts what the network itself gives, if the place is that.
fn put_now_at<R: Rows>(
    alloc: Global,
    folding: &Folding,
    n: usize,
    finding: &Finding,
    left: &Texts,
    out: &mut R,
) -> Result<(), AllocError>
    ensures { (those before : List Row) → AreTexts those left.now → AreTexts before folding.now.told.now → (first : R) (rows : List Row) → R.grew first out.old rows
        → OnOk result (R.grew first out.new (rows ++ map (row_at folding.now.step) (news before (told_now folding.now.scope.now (now_at folding.now.number (found_at n finding.now)) those)))) }
{
    match &finding.place {
        Some(_) => Ok(()),
        None => put_told_now(alloc, folding, finding.reasons_of(n), left, out),
    }
}

/// Puts that of all places.
fn put_now<R: Rows>(
    alloc: Global,
    folding: &Folding,
    n: usize,
    found: &[Finding],
    left: &Texts,
    out: &mut R,
) -> Result<(), AllocError>
    ensures { (those before : List Row) → AreTexts those left.now → AreTexts before folding.now.told.now → (first : R) (rows : List Row) → R.grew first out.old rows
        → OnOk result (R.grew first out.new (rows ++ map (row_at folding.now.step) (news before (told_now folding.now.scope.now (rows_now folding.now.number (map (found_at n) found.now)) those)))) }
{
    for finding in found {
        put_now_at(alloc, folding, n, finding, left, out)?;
    }
    Ok(())
}

/// Puts after how many failures something was left out, where it was after some.
fn put_same<R: Rows>(number: u64, count: u64, out: &mut R) -> Result<(), AllocError>
    ensures { (first : R) (rows : List Row) → R.grew first out.old rows → OnOk result (R.grew first out.new (rows ++ same_rows number count)) }
{
    if count == 0 {
        return Ok(());
    }
    let values = [Value::Number(number), Value::Number(count)];
    put::<R>(Kind::Verify(VerifyLine::Same), &values, out)
}

/// Puts those reasons in a place that aren't left out.
fn put_kept<R: Rows>(
    alloc: Global,
    folding: &Folding,
    place: &Option<Cause>,
    reasons: &[KeptReason],
    out: &mut R,
) -> Result<(), AllocError>
    ensures { (nows before : List Row) → FoldsBy nows folding.now → AreTexts before folding.now.told.now → (first : R) (rows : List Row) → R.grew first out.old rows
        → OnOk result (R.grew first out.new (rows ++ map (row_at folding.now.step) (news before (kept_rows folding.now.number folding.now.scope.now nows place.now reasons.now)))) }
{
    let at = folding.at();
    for reason in reasons {
        let is_left = is_left_out(alloc, folding, place, reason)?;
        put_if_new(alloc, !is_left, at, place, reason, folding.told, out)?;
    }
    Ok(())
}

/// The same of a failure, and nothing of the network itself.
fn put_others<R: Rows>(
    alloc: Global,
    folding: &Folding,
    n: usize,
    finding: &Finding,
    out: &mut R,
) -> Result<(), AllocError>
    ensures { (nows before : List Row) → FoldsBy nows folding.now → AreTexts before folding.now.told.now → (first : R) (rows : List Row) → R.grew first out.old rows
        → OnOk result (R.grew first out.new (rows ++ map (row_at folding.now.step) (news before (others folding.now.number folding.now.scope.now nows (found_at n finding.now))))) }
{
    match &finding.place {
        None => Ok(()),
        Some(_) => put_kept(alloc, folding, &finding.place, finding.reasons_of(n), out),
    }
}

/// Puts those of all failures.
fn put_all_others<R: Rows>(
    alloc: Global,
    folding: &Folding,
    n: usize,
    found: &[Finding],
    out: &mut R,
) -> Result<(), AllocError>
    ensures { (nows before : List Row) → FoldsBy nows folding.now → AreTexts before folding.now.told.now → (first : R) (rows : List Row) → R.grew first out.old rows
        → OnOk result (R.grew first out.new (rows ++ map (row_at folding.now.step) (news before (flat_map (others folding.now.number folding.now.scope.now nows) (map (found_at n) found.now))))) }
{
    for finding in found {
        put_others(alloc, folding, n, finding, out)?;
    }
    Ok(())
}

/// Puts why the line at a place of the list isn't kept, what is told once in front, and after how many failures something was left out.
pub(crate) fn put_once<R: Rows>(
    alloc: Global,
    number: u64,
    scope: &Scope,
    n: usize,
    found: &[Finding],
    out: &mut R,
) -> Result<(), AllocError>
    ensures { (first : R) (rows : List Row) → R.grew first out.old rows
        → OnOk result (R.grew first out.new (rows ++ once_rows number scope.now (rows_now number (map (found_at n) found.now)) (map (found_at n) found.now))) }
{
    let told = Texts::new(alloc);
    let at = At { step: None, number };
    let folding = Folding::new(alloc, at, scope, n, found, &told)?;
    let mut left = Texts::new(alloc);
    let count = add_all_left(alloc, &folding, n, found, &mut left)?;
    put_now(alloc, &folding, n, found, &left, out)?;
    put_same(number, count, out)?;
    put_all_others(alloc, &folding, n, found, out)
}

/// Puts the same in one of several networks, but not after how many failures something was left out, and nothing whose line of text is among
/// these.
pub(crate) fn put_folded<R: Rows>(
    alloc: Global,
    at: At,
    scope: &Scope,
    n: usize,
    found: &[Finding],
    told: &Texts,
    out: &mut R,
) -> Result<(), AllocError>
    ensures { (before : List Row) → AreTexts before told.now → (first : R) (rows : List Row) → R.grew first out.old rows
        → OnOk result (R.grew first out.new (rows ++ map (row_at at.step) (news before (folded_rows at.number scope.now (rows_now at.number (map (found_at n) found.now)) (map (found_at n) found.now))))) }
{
    let folding = Folding::new(alloc, at, scope, n, found, told)?;
    let mut left = Texts::new(alloc);
    add_all_left(alloc, &folding, n, found, &mut left)?;
    put_now(alloc, &folding, n, found, &left, out)?;
    put_all_others(alloc, &folding, n, found, out)
}
